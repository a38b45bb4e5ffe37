//! The sentences on each front of a log.

ghost use Rattle.theorem_known.specs.Fronts.{FrontsOfEachLog};

/// From each start, on every schedule with at most one stop, after each front of its log, until a
/// report: what is known of the secondary is what it had sent at its last commit and its own
/// frames that were heard; and all that the primary released stands in what is known, symbol by
/// symbol and acknowledgement by acknowledgement, and while a checkpoint is awaited in what the
/// copy had sent.
#[tactic(auto, using(crate::proofs::StandsLogs::fronts_hold))]
pub fn fronts_of_each_log()
    ensures { FrontsOfEachLog }
{}
