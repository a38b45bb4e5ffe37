//! What holds of a tracker over all its calls. The functions do nothing: their contracts are what
//! is proved.

ghost use Rattle.tcp_track.specs.Laws.{KeepsLines, KeepsOrder, AnswersRightly, HasCurrentOpening, SymbolsStand, AckedWasSent, ResetsStand, RefusalsStand};

/// Each tuple's line is that of all segments sent, without the trimmed symbols.
pub fn keeps_lines()
    ensures { KeepsLines }
{}

/// The entries stand in the order of first opening or refusal.
pub fn keeps_order()
    ensures { KeepsOrder }
{}

/// A frame that counts is answered as all that was sent before says.
pub fn answers_rightly()
    ensures { AnswersRightly }
{}

/// The opening of a line is the current one in what was sent, and each of its symbols, its
/// acknowledgement, its reset and its refusal stand there.
pub fn lines_stand()
    ensures opening { HasCurrentOpening }
    ensures symbols { SymbolsStand }
    ensures acked { AckedWasSent }
    ensures reset { ResetsStand }
    ensures refused { RefusalsStand }
{}
