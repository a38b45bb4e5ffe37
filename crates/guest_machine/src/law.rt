//! What holds of turns. The laws are the contract of a call that does nothing.

ghost use Rattle.guest_machine.specs.Laws.{MachinesSendFrames, StepsAreTurns, StepsSplit};

/// A turn of many steps is a turn of some of them and then one of the others alone, in which the
/// clock stands and nothing is received or served. So it is a turn for each of its steps.
#[tactic(auto, using(crate::proofs::LawLemmas::steps_split, crate::proofs::LawLemmas::steps_are_turns_lem))]
pub fn steps_are_turns()
    ensures split { StepsSplit }
    ensures single { StepsAreTurns }
{}

/// Each frame that a machine sends in a turn has 14 to 1,514 bytes.
pub fn frames_are_sent()
    ensures { MachinesSendFrames }
{}
