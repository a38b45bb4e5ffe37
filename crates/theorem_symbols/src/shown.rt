//! The numbers of the SYNs that were released.

ghost use Rattle.theorem_symbols.specs.Shown.{ShownOfEachLog};

/// From each start, on every schedule with at most one stop: where a connection's progress shows a
/// SYN it is the last that was released on the tuple; and where symbols of a current opening of the
/// releasing node were released, that SYN has the number that is kept for the opening's client.
#[tactic(auto, using(crate::proofs::ReleasedLogs::shown_holds))]
pub fn syns_of_each_log()
    ensures { ShownOfEachLog }
{}
