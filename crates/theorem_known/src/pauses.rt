//! The sentence on the pause.

ghost use Rattle.theorem_known.specs.Pauses.{PausesOfEachLog};

/// On every schedule with at most one stop: while a checkpoint is under way each event releases
/// replies alone, but the one that hears the acknowledgement, and the report.
#[tactic(auto, using(crate::proofs::PauseLemmas::pauses_hold))]
pub fn pauses_of_each_log()
    ensures { PausesOfEachLog }
{}
