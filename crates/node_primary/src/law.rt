//! What holds of a primary over all lists of calls. Each law is the contract of a call that does
//! nothing.

ghost use Rattle.node_primary.specs.Calls.{GoInOrder, RunsAllTurns, WaitInOrder};

/// The guest's state is the run of its turns, and all of them are counted; none is made while an
/// acknowledgement is awaited.
pub fn runs_all_turns()
    ensures { RunsAllTurns }
{}

/// Client frames are taken in the order in which they came, and those that weren't taken wait.
pub fn wait_in_order()
    ensures { WaitInOrder }
{}

/// Messages go in the order in which they were put, and those that didn't go wait.
pub fn go_in_order()
    ensures { GoInOrder }
{}
