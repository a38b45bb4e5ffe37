//! Bytes stay bytes, sizes stay sizes, and what is sent is bytes. Each law is the contract of a
//! call that does nothing.

ghost use Rattle.machine_laws.specs.Laws.{BootsAreBytes, MachinesAreRegular, MachinesFit, MachinesKeepBytes, SizesStay, StatesAreOfTheirKind, StepsKeepBytes, TurnsKeepBytes};

/// Steps from memory of bytes lead to memory of bytes, and send bytes.
pub fn steps_keep_bytes()
    ensures { StepsKeepBytes }
{}

/// So does a turn, over a disk of bytes, where the frame that it receives is bytes.
pub fn turns_keep_bytes()
    ensures { TurnsKeepBytes }
{}

/// The same of a machine as a guest: its state's bytes, pages and sectors, and what it sends.
#[tactic(auto, using(crate::proofs::TurnLemmas::machines_keep))]
pub fn machines_keep_bytes()
    ensures { MachinesKeepBytes }
{}

/// Memory keeps its size over steps.
#[tactic(auto, using(crate::proofs::SizeLemmas::steps_stay))]
pub fn sizes_stay()
    ensures { SizesStay }
{}

/// A turn keeps how many pages and sectors there are, and their sizes.
pub fn machines_fit()
    ensures { MachinesFit }
{}

/// A machine is a guest of a regular kind.
#[tactic(auto, using(crate::proofs::RegularLemmas::machines_are_regular))]
pub fn machines_are_regular()
    ensures { MachinesAreRegular }
{}

/// The state of a machine of bytes, over sectors of 512 bytes, is one of its kind.
pub fn states_are_of_their_kind()
    ensures { StatesAreOfTheirKind }
{}

/// A machine that boots from an image of bytes over a disk of bytes is of bytes.
pub fn boots_are_bytes()
    ensures { BootsAreBytes }
{}
