//! What stands in what was sent goes on to stand, whatever is sent later.

ghost use Rattle.theorem_frames.specs.Standing.{PlacesGoOn, WhatStandsGoesOn};

/// A symbol, a reset and a refusal that stand go on to do so when more is sent; the greatest
/// acknowledgement never falls; the clients opened so far are a front of those opened then.
pub fn what_stands_goes_on()
    ensures { WhatStandsGoesOn }
{}

/// So it is with all that a released segment shows.
#[tactic(auto, using(crate::proofs::GrowthLemmas::places_go_on))]
pub fn places_go_on()
    ensures { PlacesGoOn }
{}
