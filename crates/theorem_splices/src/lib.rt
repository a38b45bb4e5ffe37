//! What is known of the secondary, and what goes out, across a stop: what the definitions alone say
//! of every log.
//!
//! A crate of laws: its functions do nothing, and their contracts hold of every start and every
//! schedule with at most one stop. Each invariant is a relation of its own, which every event
//! keeps.
#![tactic(auto)]

mod known;
mod numbers;
mod pause;

pub use known::secondary_is_known;
pub use numbers::numbers_agree;
pub use pause::pause_is_silent;
