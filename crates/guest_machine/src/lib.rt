//! The machine as a guest: an RV32IMA platform with a network card and a block device, over any
//! disk. It starts from an ELF image, goes on turn by turn, and its state can be read and loaded in
//! parts: 359 bytes, pages of memory and sectors of the disk.
#![tactic(auto)]

mod fault;
mod law;
mod machine;

pub use fault::BootFault;
pub use law::{frames_are_sent, steps_are_turns};
pub use machine::Machine;
