//! The words of a command line: names, numbers, an address, and options. No call takes memory.
#![tactic(auto)]

mod address;
mod numbers;
mod options;

pub use address::is_address;
pub use numbers::{is_name, read_number};
pub use options::{Opt, Options, read_options};
