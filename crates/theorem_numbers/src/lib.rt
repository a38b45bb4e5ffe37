//! Which numbers are shown to clients, in every log of the pair's definitions. A crate of laws: its
//! functions do nothing.
#![tactic(auto)]

mod kept;

pub use kept::{numbers_with_primary, numbers_without_stop};
