//! `serve`: the rounds of a pair on a live link, and what they leave.
#![tactic(auto)]

mod hearing;
mod lines;
mod rounds;
mod server;
mod turns;

pub use rounds::run_rounds;
