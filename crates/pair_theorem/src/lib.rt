//! The theorem of the pair, stated whole: what a log of two lock-step guests names, and what was
//! released to the client.
//!
//! A crate of definitions: its functions are laws, and do nothing. A client stream, a kind of guest
//! and a start determine what each line of a schedule makes (`Events`), and so the whole log
//! (`History`). The parts of the theorem speak of any list of steps (`FrameParts`, `LogParts`,
//! `Theorem`); the worked examples, and for each part a log that breaks it and no other part, stand
//! in `proofs/`.
#![tactic(auto)]

mod law;

pub use law::{
    boot_runs_the_single_run, frames_and_messages_are_due, fronts_are_logs, parts_hold_of_each_log,
    unfinished_checkpoints_change_nothing,
};
