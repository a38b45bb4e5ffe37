//! What a frame was to a tracker.

use crate::offsets::Offset;
use crate::openings::Opening;
use inet_frame::Tuple;

/// What a frame was.
#[derive(Clone, Copy, PartialEq, Eq, Debug)]
pub enum What {
    /// A frame that doesn't count; or one without an opening of its tuple that opens and refuses
    /// nothing.
    Ignored,
    /// A new opening of the tuple.
    Opened(Opening),
    /// A new opening of a client that had one since the last commit, or at it.
    Restarted(Opening),
    /// A segment of the current opening: the offset of the first symbol that it carries, and the
    /// offset after its last, whether the line took them or not. Both are 0 where it carries none.
    Symbols { from: Offset, to: Offset },
    /// A reset of the current opening.
    Reset,
    /// A refusal of this client's number.
    Refused(u32),
}

/// What a frame was, and on which tuple: all 0 where the frame doesn't count.
#[derive(Clone, Copy, PartialEq, Eq, Debug)]
pub struct Took {
    pub tuple: Tuple,
    pub what: What,
}
