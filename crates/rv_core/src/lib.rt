//! One hart of RV32IMA: its registers, the bus that it loads from and stores to, and what each
//! instruction does to them and to the CSRs.
#![tactic(auto)]

mod access;
mod arithmetic;
mod buses;
mod control;
mod execution;
mod registers;

pub use buses::Bus;
pub use registers::{Hart, HartFields, Outcome};
