//! The comparer of a pair: what both guests sent, what of it goes out to the clients, and when a
//! checkpoint starts.
#![tactic(auto)]

mod compare;
mod noting;
mod surviving;
mod tables;

pub use compare::Compare;
pub use settle_table::Need;
