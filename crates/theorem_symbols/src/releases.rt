//! What is released stands, at once and from then on.

ghost use Rattle.theorem_symbols.specs.Releases.{EachReleaseStands, EachSurvivorStands, PrimaryStands, StandsWithoutStop};

/// From each start, on every schedule with at most one stop: each symbol, reset, refusal and
/// acknowledgement that an event releases stands in what the releasing node had sent at its end, at
/// its offset from the number of the SYN last released on the tuple, in an opening of the client of
/// the node's current opening.
pub fn each_release_stands()
    ensures { EachReleaseStands }
{}

/// So what a survivor releases, at the report of the primary's stop and later, stands in its own
/// run.
#[tactic(auto, using(crate::proofs::ReleasedLogs::survivor_stands))]
pub fn survivor_stands()
    ensures { EachSurvivorStands }
{}

/// Until a survivor releases, all that was released stands in what the primary sent.
#[tactic(auto, using(crate::proofs::ReleasedLogs::primary_stands))]
pub fn primary_stands()
    ensures { PrimaryStands }
{}

/// Of each log without a stop of the primary, all that was released stands in the run that the log
/// names, and each acknowledgement is at most one that the run sent: two parts of the theorem.
#[tactic(auto, using(crate::proofs::ReleasedLogs::stands_without_stop))]
pub fn stands_without_stop()
    ensures { StandsWithoutStop }
{}
