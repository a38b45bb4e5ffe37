//! All that a log of the pair's definitions releases stands in the run that it names, across a stop
//! of the primary too. A crate of laws: its functions do nothing.
#![tactic(auto)]

mod joins;

pub use joins::released_stands;
