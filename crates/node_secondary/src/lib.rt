//! The secondary of a pair: a guest that runs on client frames of its own and tells the primary
//! what it sends. After the primary's stop it is alone, and releases what its guest sends.
#![tactic(auto)]

mod due;
mod hearing;
mod node;
mod parts;
mod surviving;
mod telling;
mod under_way;

pub use node::Secondary;
