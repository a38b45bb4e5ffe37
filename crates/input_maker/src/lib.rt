//! A large valid input from a number: a schedule, and the frames of a client that opens one
//! connection after another.
#![tactic(auto)]

mod client;
mod law;
mod making;

pub use client::client_frame;
pub use law::{frames_are_accepted, inputs_read_back};
pub use making::{Made, make_input, schedule_text};
