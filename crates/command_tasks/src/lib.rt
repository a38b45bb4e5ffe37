//! The commands: the words that spell each, the task that they name, and the task carried out.
#![tactic(auto)]

mod tasks;
mod words;

pub use tasks::carry_out;
pub use words::{Command, Run, Splice, WriteImage, read_words};
