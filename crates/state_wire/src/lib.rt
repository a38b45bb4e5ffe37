//! What a node needs of the machine that it runs: the trait [`Guest`] with its law, and a guest for
//! tests that is driven by a table.
//!
//! A guest means a kind, a state and a count of turns. Guests of one kind have one successor
//! function, and accept each other's states. A state is some bytes, pages of memory and sectors of
//! a disk. Loading all three of another guest of the kind gives that guest's state, so a checkpoint
//! can carry them one by one.
#![tactic(auto)]

mod guest;
mod laws;
mod script;

pub use guest::Guest;
pub use laws::{loads_whole, scripts_are_regular};
pub use script::ScriptGuest;
