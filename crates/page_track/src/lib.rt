//! The memory of a machine as a list of bytes from 0x80000000 on: loads and stores of little-endian
//! numbers, parts of it as slices, and its pages of 4,096 bytes.
//!
//! The crate is used alone wherever a program needs guest memory. `Ram::new` takes the memory, and
//! no later call takes any or fails but by an address outside it:
//!
//! ```text
//! let mut ram = Ram::new(alloc, 1)?;                      // 1 MiB of zeros
//! let taken = ram.store(0x8000_0000, 4, 0x1234_5678);     // true
//! let half = ram.load(0x8000_0002, 2);                    // Some(0x1234)
//! if ram.holds(0x8000_1000, 16) {
//!     ram.lent(0x8000_1000, 16).fill(0xFF);               // a part of it, to be written
//! }
//! ```
//!
//! Contracts see a `Ram` as the record `Memory`, whose `bytes` are the list of its bytes.
#![tactic(auto)]

mod ram;

pub use ram::Ram;
