//! What the releasing node keeps of each connection beside its line.

ghost use Rattle.theorem_stands.specs.Numbered.{NumbersOfEachLog};

/// From each start, on every schedule with at most one stop, of every connection of the releasing
/// node: what the client acknowledged was released, and what was released is in the line; the
/// current opening has a kept number; and where symbols were released the SYN last shown is the
/// current opening's, with the kept number.
#[tactic(auto, using(crate::proofs::NumberedEvents::numbers_of_each_log))]
pub fn numbers_of_each_log()
    ensures { NumbersOfEachLog }
{}
