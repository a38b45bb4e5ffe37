//! What holds of kept numbers over any list of events, and of given frames as lists of bytes. Each
//! law is the contract of a call that does nothing.

ghost use Rattle.seq_rewriter.specs.Laws.{OpeningKeepsFirst, OpeningKeepsOthers, ThinningKeepsCurrent, RaisesAck};

/// The kept number of a client is the first of its openings since it last was none's, and a
/// thinning keeps exactly those of current openings.
pub fn keeps_the_first_number()
    ensures first { OpeningKeepsFirst }
    ensures others { OpeningKeepsOthers }
    ensures current { ThinningKeepsCurrent }
{}

/// A raised frame is bytes as the frame was, of the same length, and still parses, with all but its
/// acknowledgement unchanged.
pub fn raises_the_acknowledgement()
    ensures { RaisesAck }
{}
