//! The numbers that both nodes keep.

ghost use Rattle.theorem_splices.specs.Numbers.{NumbersAgree};

/// Until a report: the numbers that the secondary keeps, with those on their way to it, are each
/// for a client without another. While no checkpoint is awaited they are the primary's, whether or
/// not it knows that the secondary has them; while an End is on its way, those of the current
/// openings at the capture are the captured ones; from the commit to its acknowledgement all are.
#[tactic(auto, using(crate::proofs::NumberLemmas::numbers_agree))]
pub fn numbers_agree()
    ensures { NumbersAgree }
{}
