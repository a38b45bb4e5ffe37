//! Each event of every log of the pair's definitions releases what it is to release. A crate of
//! laws: its functions do nothing.
#![tactic(auto)]

mod prompt;

pub use prompt::{acks_of_each_log, prompt_of_each_log};
