//! Laws of guests, as the contracts of functions that do nothing.

ghost use Rattle.state_wire.specs.Load.{LoadsWhole};
ghost use Rattle.state_wire.specs.Script.{ScriptsAreRegular};

/// Loading the state's bytes, every page and every sector of another guest gives its state, where
/// the two have as many pages and sectors.
#[tactic(auto, using(crate::proofs::LoadLemmas::loads_whole_lem))]
pub fn loads_whole()
    ensures { LoadsWhole }
{}

/// A turn of a test guest leads from a state of bytes to a state of bytes of the same sizes, and it
/// sends bytes, where each frame of its table is bytes.
#[tactic(auto, using(crate::proofs::RegularLemmas::scripts_are_regular_lem))]
pub fn scripts_are_regular()
    ensures { ScriptsAreRegular }
{}
