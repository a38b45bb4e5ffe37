//! The top call: from the words of a command line to its status.
#![tactic(auto)]

mod top;

pub use file_steps::Fault;
pub use top::colo;
