//! Why only what an event touched is to be settled. The functions do nothing: their contracts are
//! what is proved.

ghost use Rattle.settle_touched.specs.Laws.{QuietSettlesToNothing, TimedGrowsOlder, SettlingMakesQuiet, TurnMakesTimed, SettlesWhatIsStored, StoresSince, SettlesTouchedAlone, SettledPlacesRest, OtherPlacesStay, StoresOn, NeedsFirstPlaces};

/// A connection that is quiet, and of which the event has no segment, settles to nothing, and in a
/// turn grows older where it waits; settling makes every connection so.
#[tactic(auto, using(crate::proofs::QuietLemmas::quiet_settles_to_nothing, crate::proofs::QuietLemmas::timed_grows_older, crate::proofs::QuietLemmas::turn_makes_timed))]
pub fn rests_where_quiet()
    ensures nothing { QuietSettlesToNothing }
    ensures older { TimedGrowsOlder }
    ensures quiet { SettlingMakesQuiet }
    ensures timed { TurnMakesTimed }
{}

/// The turn since which a connection waits stands for its age: a connection is settled from what is
/// stored as from its progress.
pub fn stores_since_when()
    ensures settles { SettlesWhatIsStored }
    ensures since { StoresSince }
{}

/// Settling some places of the table is settling all of it, where the others are untouched.
pub fn settles_touched_alone()
    ensures { SettlesTouchedAlone }
{}

/// A connection that was settled rests then, and what is stored of the others stays.
pub fn rests_then()
    ensures settled { SettledPlacesRest }
    ensures others { OtherPlacesStay }
    ensures stored { StoresOn }
{}

/// The first of the places that have a cause names it.
pub fn needs_first_places()
    ensures { NeedsFirstPlaces }
{}
