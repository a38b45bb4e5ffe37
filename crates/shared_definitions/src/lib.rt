//! Definitions that several crates cite: the first of a list of tests, lists of bytes, bytes with a
//! part written over them, the addresses of memory, halves of a number, and bytes of text by name.
//!
//! Each word stands in a file of `specs/`, with lemmas on it in `proofs/`. The halves of a number are
//! the only code.
#![tactic(auto)]

mod halves;

pub use halves::{high_half, low_half, with_high_half, with_low_half};
