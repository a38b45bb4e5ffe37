//! A pair: both nodes, the two links between them, the client's frames, and the events that a
//! schedule makes of them.
#![tactic(auto)]

mod client;
mod ending;
mod event;
mod hearing;
mod links;
mod node;
mod pair;
mod parts;
mod turning;

pub use node::Node;
pub use pair::{Pair, Step, StepFault};
