//! What holds of a secondary over all lists of calls, before the report of the primary's stop and
//! after it. Each law is the contract of a call that does nothing.

ghost use Rattle.secondary_laws.specs.Calls.{CountsAllTurns, GoInOrder, ReleasesNothingBeforeTheReport};
ghost use Rattle.secondary_laws.specs.Since.{StandsSinceTheLastEnd};

/// The guest counts all its turns, whatever is heard between them, and alone as before.
#[tactic(auto, using(crate::proofs::RunLemmas::counts_all))]
pub fn counts_all_turns()
    ensures { CountsAllTurns }
{}

/// Guest, lines, numbers and inbox are what the messages of the last checkpoint spelled, and what
/// came since its end: the state is the run of the guest's turns, the lines are those of what it
/// sent and clients trimmed, the numbers are those heard and its own where none was, and frames are
/// taken in the order in which they came.
pub fn stands_since_the_last_end()
    ensures { StandsSinceTheLastEnd }
{}

/// Messages go in the order in which they were put, and those that didn't go wait. At the report
/// all go, and none is put from then on.
pub fn go_in_order()
    ensures { GoInOrder }
{}

/// Nothing is released before the report.
pub fn releases_nothing_before_the_report()
    ensures { ReleasesNothingBeforeTheReport }
{}
