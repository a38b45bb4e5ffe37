//! The pair that runs is the theorem's: a pair over guests of any type, step by step.
//!
//! `start` gives a pair of two guests in one state, `step` and `run` the events of a schedule. What
//! they answer, release and deliver is the log of the theorem.
#![tactic(auto)]

mod running;

pub use running::{offer, run, start, step};
