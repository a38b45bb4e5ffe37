//! What holds of frames that are built or edited, as lists of bytes, for callers that reason about
//! a frame which no call has in hand. Each law is the contract of a call that does nothing.

ghost use Rattle.inet_build.specs.Laws.{ReadsBack, IsOneSegment, BuildsBytes, CleansBytes, ShiftsBytes, CleansOptions, ShiftsAck, RepliesBytes};

/// A segment that is built is bytes, is read back, and is built in no other way.
///
/// This is how a statement on a pair of machines gets from frames to the bytes of a connection: it
/// names, for each released frame, the `Segment` and the payload that the frame is `segment_bytes`
/// of. As building is one-to-one, these are the frame's own, so "the frame carries this byte at
/// this offset" is said of the payload, and no frame of the model has to be taken apart again.
/// That the payload is bytes is part of `IsBuildable`, which `segment` ensures of all that it
/// builds.
pub fn segments_read_back()
    ensures reads { ReadsBack }
    ensures once { IsOneSegment }
    ensures bytes { BuildsBytes }
{}

/// An edited frame is bytes as the frame was, of the same length, and it still parses, with all
/// that the edit does not name unchanged. The reply to an ARP request is bytes too.
pub fn edits_keep_the_rest()
    ensures clean { CleansOptions }
    ensures clean_bytes { CleansBytes }
    ensures shift { ShiftsAck }
    ensures shift_bytes { ShiftsBytes }
    ensures reply_bytes { RepliesBytes }
{}
