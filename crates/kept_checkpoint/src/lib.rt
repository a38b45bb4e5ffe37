//! A checkpoint that a secondary hears message by message and keeps apart until it is whole: a
//! guest's state in parts, the frames that wait for it, the lines of its connections, and the
//! numbers under which clients know these.
//!
//! Of each page, each sector and the line of each connection the last that was heard is kept, so
//! one that is sent again takes no more memory.
#![tactic(auto)]

mod kept;
pub mod law;
mod lines;
mod loading;
mod slots;

pub use kept::{KeptCheckpoint, Tables};
pub use lines::LastLine;
pub use slots::Slots;
