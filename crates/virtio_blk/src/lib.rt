//! The block device (VIRTIO 1.1, 5.2) and the disk under it.
//!
//! [`Disk`] is what the device needs of a disk: sectors of 512 bytes that are read and written one
//! at a time. [`Blk`] serves one request of its queue at a call:
//!
//! ```text
//! let mut blk = Blk::new(disk.sectors());
//! blk.regs_mut().write(offset, value);                    // the driver's stores
//! while blk.serve(&mut ram, &mut disk) == Served::Done {} // every request that waits
//! ```
#![tactic(auto)]

mod blk;
mod disk;
mod request;

pub use blk::Blk;
pub use disk::Disk;
