//! The theorem of the pair, put together from its parts. A crate of laws: its functions do nothing.
#![tactic(auto)]

mod whole;

pub use whole::the_theorem_holds;
