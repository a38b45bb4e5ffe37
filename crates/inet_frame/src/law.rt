//! What holds of frames as lists of bytes, for callers that reason about a frame which no call has
//! in hand. Each law is the contract of a call that does nothing.

ghost use Rattle.inet_frame.specs.Laws.{FieldsFit, LengthFits, ReplyIsNoTcp};

/// The fields of a frame of bytes that is a TCP segment are in their ranges, and its length is.
pub fn fields_fit()
    ensures fields { FieldsFit }
    ensures len { LengthFits }
{}

/// What `arp_reply` gives is no TCP segment, and so it doesn't count.
pub fn reply_is_no_tcp()
    ensures { ReplyIsNoTcp }
{}
