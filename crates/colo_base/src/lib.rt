//! What every crate of the pair shares: the plain errors, bytes as a value, a list of frames, a
//! cursor over bytes, and the outside.
#![tactic(auto)]

mod contents;
mod cursor;
mod failure_plan;
mod fault;
mod frame_list;
mod incoming;
mod memory_link;
mod memory_shelf;
mod memory_sink;
mod script_clock;
mod system;
mod traits;

pub use contents::Contents;
pub use cursor::Fields;
pub use fault::{Cause, Failed, NoMemory, Short};
pub use frame_list::Frames;
pub use memory_link::MemoryLink;
pub use memory_shelf::MemoryShelf;
pub use memory_sink::MemorySink;
pub use script_clock::ScriptClock;
pub use system::{FileShelf, OutSink};
pub use traits::{Clock, Heard, Link, Shelf, ShelfFault, Sink};
