//! The messages of a checkpoint, from plain data: a guest's state, an inbox and the lines.
//!
//! A crate of definitions, without code. `State` has the messages of memory and disk, `Inbox` those
//! of the frames that wait, `Rows` those of a line, whole or as a tracker keeps it, and `Captured`
//! a whole checkpoint of what a node holds. What the messages mean to the node that hears them is
//! said where they are kept.
#![tactic(auto)]
