//! A law of memory at boot, as the contract of a function that does nothing.

ghost use Rattle.elf_load.specs.LastSegment.{LastSegmentWins};

/// Where segments lie over one another, each byte of memory at boot is that of the last one in the
/// order of the table.
#[tactic(auto, using(crate::proofs::LastSegmentLemmas::last_segment_wins_lem))]
pub fn last_segment_wins()
    ensures { LastSegmentWins }
{}
