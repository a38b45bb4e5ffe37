//! The texts that commands read, each as a function of its bytes: the value, or the refusal.
#![tactic(auto)]

mod client;
mod law;
mod lines;
mod machine;
mod refusals;
mod schedule;
mod start;

pub use client::read_client;
pub use law::{
    reads_clients, reads_logs, reads_machines, reads_schedules, reads_single_runs, reads_turns,
};
pub use lines::{read_log, read_schedule, read_single};
pub use machine::read_machine;
pub use refusals::{client_refusal, line_refusal};
pub use schedule::{PrimaryTurn, read_turns};
pub use start::{Started, read_start};
