//! The bytes of a machine's state: the values of the hart, the CSRs, the timer and both devices as
//! 359 bytes, and back. Memory and the disk aren't part of them.
//!
//! What is written is read again, and what is accepted is written again as the same bytes. Neither
//! takes memory.
#![tactic(auto)]

mod fields;
mod law;
mod reading;
mod writing;

pub use fields::{STATE_LEN, StateFields};
pub use law::states_read_back;
pub use reading::{accepts, fields_in};
