//! Frames of a byte stream, as QEMU's stream sockets carry them: four bytes of length, big-endian,
//! before each frame.
#![tactic(auto)]

mod backlog;
mod fault;
mod frame;
mod law;
mod records;
mod unframer;

pub use fault::LinkFault;
pub use frame::frame_into;
pub use law::{keeps_the_stream, reads_back, reads_one_way, stays_stuck, tells_the_rest};
pub use unframer::Unframer;
