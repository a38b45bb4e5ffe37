//! What holds of every machine, whatever its state. Each law is the contract of a call that does
//! nothing, above the machine, so that a change of a law proves no code of the machine again.
#![tactic(auto)]

mod laws;

pub use laws::{
    boots_are_bytes, machines_are_regular, machines_fit, machines_keep_bytes, sizes_stay,
    states_are_of_their_kind, steps_keep_bytes, turns_keep_bytes,
};
