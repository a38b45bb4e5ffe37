//! The machine-level control and status registers of one RV32 hart, its timer and its interrupts:
//! what each CSR reads and keeps, which interrupt is due, the entry of a trap and the return from
//! it.
#![tactic(auto)]

pub mod cause;
mod csrs;
mod fields;
mod numbers;
mod words;

pub use csrs::Csrs;
pub use fields::CsrFields;
