//! What holds of a kept checkpoint over any messages, as the contract of a call that does nothing.

ghost use Rattle.kept_checkpoint.specs.Spelled.{LoadsWhatIsSpelled};

/// What is kept apart and then loaded is what the messages spell one by one over the guest's state.
#[tactic(auto, using(crate::proofs::SpelledLemmas::loads_spelled))]
pub fn loads_what_is_spelled()
    ensures { LoadsWhatIsSpelled }
{}
