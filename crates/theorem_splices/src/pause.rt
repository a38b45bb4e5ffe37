//! Nothing of the guests goes out while a checkpoint is awaited.

ghost use Rattle.theorem_splices.specs.Pause.{PauseIsSilent};

/// In an event that begins while a checkpoint is awaited, and neither delivers its acknowledgement
/// nor reports a stop, no frame of a guest is released: at most an ARP reply.
#[tactic(auto, using(crate::proofs::PauseLemmas::pause_holds))]
pub fn pause_is_silent()
    ensures { PauseIsSilent }
{}
