//! Every log of a pair names one run: what the definitions alone say of log, links and runs.
//!
//! A crate of laws: its functions do nothing, and their contracts hold of every start and every
//! schedule. Each invariant is a relation of its own (`Links`, `Runs`), which every event keeps.
//! `Laws` has the statements.
#![tactic(auto)]

mod law;

pub use law::{
    each_log_names_one_run, files_are_of_one_run, frames_wait_rightly, items_are_sent,
    log_cuts_turns, one_checkpoint_at_a_time, runs_are_the_logs, secondary_is_in_its_run,
    the_secondary_was_told_its_state,
};
