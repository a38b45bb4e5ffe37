//! A network card over MMIO (VIRTIO 1.1, 4.2 and 5.1): its queue 0 receives frames, its queue 1
//! sends them.
//!
//! What it promises a driver: each chain that it takes is returned, in order, with the number of
//! bytes that were written into it. It writes nothing but the writable parts of those chains and
//! the used rings. A ring that breaks the rules makes it ask for a reset; until then it does
//! nothing, and afterwards it works again.
//!
//! The port that the card stands in keeps ARP (RFC 826) to itself: it answers each request of the
//! driver with the MAC address of the neighbour, which is where the last received frame came from.
#![tactic(auto)]

mod net;
mod receiving;
mod sending;

pub use net::{Net, Received};
pub use sending::sends_chains_in_order;
