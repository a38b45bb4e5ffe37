//! What goes out of one connection: agreed symbols cut into segments, and segments without symbols.
#![tactic(auto)]

mod both;
mod parts;
mod segments;

pub use both::Both;
pub use parts::has_syn_between;
