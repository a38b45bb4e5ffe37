//! The work of a command as steps on the outside: what each step is, what is said of a call that
//! carries a task's steps out, and the statuses and lines that all commands have in common.
#![tactic(auto)]

mod ending;
mod event;
mod fault;
mod files;
mod input;
mod link;

pub use ending::end_call;
pub use event::write_event;
pub use fault::{Fault, Refusal};
pub use files::{append, create, create_all};
pub use input::read_all;
pub use link::{connect, hear, read_clock, send};
