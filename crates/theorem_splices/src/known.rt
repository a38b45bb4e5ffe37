//! What the primary knows of what the secondary sent.

ghost use Rattle.theorem_splices.specs.Known.{SecondaryIsKnown};

/// Until a report: while no acknowledgement is on its way, what is known of the secondary is a
/// front of what it sent; while no checkpoint is awaited, all of it with what is on its way to the
/// primary. From a commit to its acknowledgement, what the secondary sent is what the primary had
/// sent at the capture, with what is on its way behind the acknowledgement.
#[tactic(auto, using(crate::proofs::KnownLemmas::known_holds))]
pub fn secondary_is_known()
    ensures { SecondaryIsKnown }
{}
