//! Loads an ELF32 executable for RISC-V into memory that begins at 0x80000000.
#![tactic(auto)]

mod boot;
mod fault;
mod file;
mod header;
mod laws;
mod placing;
mod segments;

pub use boot::{check, load};
pub use fault::ElfFault;
pub use laws::last_segment_wins;
