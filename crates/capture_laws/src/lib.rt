//! What a capture sends is kept as it was captured: the captured state, inbox, lines and numbers,
//! from messages of which each is due when it comes.
//!
//! A crate of laws: its functions do nothing, and their contracts hold of every capture. `Captures`
//! has what a capture is and what is kept of its messages, `Laws` the statements.
#![tactic(auto)]

pub mod law;
