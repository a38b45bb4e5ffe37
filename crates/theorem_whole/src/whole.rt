//! The whole theorem.

ghost use Rattle.pair_theorem.specs.Theorem.{HoldsOfEachLog};

/// From each start, for every schedule: the log is determined, each guest made the turns that the
/// log says, and the secondary's guest is in the state of its own run, which it was told in
/// messages. For every schedule with at most one stop the log names one run, in all nine parts.
#[tactic(auto, using(crate::proofs::WholeLemmas::theorem_holds))]
pub fn the_theorem_holds()
    ensures { HoldsOfEachLog }
{}
