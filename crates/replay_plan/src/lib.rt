//! `replay` by the theorem of the pair: what is written is the log that the definitions determine
//! for the start that the image boots, and for the lines of the schedule.
#![tactic(auto)]

mod log;
mod plan;

pub use log::run_log;
pub use plan::run_replay;
