//! What every log of the pair's definitions releases stands in the run that it names, connection by
//! connection. A crate of laws: its functions do nothing.
#![tactic(auto)]

mod numbered;

pub use numbered::numbers_of_each_log;
