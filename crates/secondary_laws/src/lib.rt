//! What holds of a secondary over all lists of its calls.
#![tactic(auto)]

pub mod law;
