//! The lines of a schedule.

/// One event of a pair, as a schedule asks for it.
#[derive(Clone, Copy, Debug, PartialEq, Eq)]
pub enum Line {
    /// `P d i b n`: a turn of the primary.
    Primary {
        /// By how many microseconds the clock goes on before the turn.
        d: u32,
        /// Whether the turn takes the oldest waiting frame.
        i: bool,
        /// The most block requests that are served, at most 256.
        b: u32,
        /// The steps of the turn, at most 100,000.
        n: u32,
    },
    /// `S d i b n`: a turn of the secondary.
    Secondary {
        /// By how many microseconds the clock goes on before the turn.
        d: u32,
        /// Whether the turn takes the oldest waiting frame.
        i: bool,
        /// The most block requests that are served, at most 256.
        b: u32,
        /// The steps of the turn, at most 100,000.
        n: u32,
    },
    /// `c`: the client's next frame comes.
    Client,
    /// `>`: the oldest message to the secondary is delivered.
    ToSecondary,
    /// `<`: the oldest message to the primary is delivered.
    ToPrimary,
    /// `x p`: the primary stops.
    StopPrimary,
    /// `x s`: the secondary stops.
    StopSecondary,
    /// `r`: the stop is reported to the survivor.
    Report,
    /// `k`: a checkpoint is asked for.
    Ask,
}
