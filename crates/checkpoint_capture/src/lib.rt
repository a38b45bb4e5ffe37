//! What a node captures: the messages of a checkpoint, in order, put where messages wait to go out.
#![tactic(auto)]

mod capture;
mod guest_parts;
mod held;
mod line_parts;
mod messages;

pub use capture::put_capture;
