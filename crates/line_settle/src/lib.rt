//! What one event releases of each connection, and the progress of the connection then.
#![tactic(auto)]

mod due;
mod parts;
mod progress;
mod settling;

pub use progress::{AgeBasis, LastAck, Progress};
pub use settling::settle_or_rest;
