//! The turns of a single run.

use tcp_track::Opening;

/// The client frame that a turn takes.
#[derive(Clone, Copy, Debug, PartialEq, Eq)]
pub enum TurnFrame {
    /// None.
    Absent,
    /// The frame of this index, for which no opening was seen.
    Plain { index: u64 },
    /// The frame of this index, and the opening that its sender had seen; `own` is the number that
    /// the client was given.
    Seen { index: u64, opening: Opening },
}

/// A turn of one machine.
#[derive(Clone, Copy, Debug, PartialEq, Eq)]
pub struct Turn {
    /// By how many microseconds the clock goes on before the turn.
    pub d: u32,
    /// The frame taken.
    pub frame: TurnFrame,
    /// The most block requests that are served, at most 256.
    pub b: u32,
    /// The steps of the turn, at most 100,000.
    pub n: u32,
}
