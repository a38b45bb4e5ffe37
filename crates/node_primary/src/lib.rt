//! The primary of a pair: a guest that runs on client frames, compares what it sends with what the
//! secondary's guest sent, releases what both agree on, and captures checkpoints.
#![tactic(auto)]

mod client;
mod due;
mod hearing;
pub mod law;
mod node;
mod parts;
mod turning;

pub use node::Primary;
