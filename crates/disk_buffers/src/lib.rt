//! Disks in memory.
//!
//! [`WholeDisk`] keeps every sector in one list. It is made of a disk's bytes, and takes memory
//! then alone.
#![tactic(auto)]

mod whole;

pub use whole::{DiskFault, WholeDisk};
