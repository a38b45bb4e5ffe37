//! The registers of a virtio device over MMIO (VIRTIO 1.1, 4.2.2), for a network device with two
//! queues and a block device with one: what a driver reads and writes, and the two bits by which a
//! device asks for an interrupt.
//!
//! The crate is used alone by any device model. The bus hands it aligned accesses of 4 bytes, and
//! the device does what the event of a write says:
//!
//! ```text let mut regs = Regs::new(Kind::Block { sectors: 8 }); regs.write(0x030, 0);
//!          // QueueSel regs.write(0x038, 4);                       // QueueNum match
//! regs.write(0x050, 0) {                // QueueNotify
//!     Event::Notify(queue) => { /* the device serves the queue */ }
//!     _ => {}
//! } ```
#![tactic(auto)]

mod fields;
mod kind;
mod regs;

pub use fields::DeviceFields;
pub use kind::{Event, Kind, Served};
pub use regs::Regs;
