//! The sentence on what is known of the secondary.

ghost use Rattle.theorem_known.specs.Splices.{KnownSplicesEachLog};

/// From each start, on every schedule with at most one stop, after each front of its log, until a
/// report: while no commit is unheard of, the secondary is known to have sent what it has up to its
/// last commit, and then as many of its own frames as were heard; while one is, what the copy had
/// sent is what the secondary has up to that commit.
#[tactic(auto, using(crate::proofs::HeardLemmas::known_splices_hold))]
pub fn known_splices_each_log()
    ensures { KnownSplicesEachLog }
{}
