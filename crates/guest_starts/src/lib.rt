//! The guests that are built are starts of the theorem of the pair: a machine that boots, and the
//! test guest. Each law is the contract of a call that does nothing.
#![tactic(auto)]

mod laws;

pub use laws::{machines_start, scripts_start};
