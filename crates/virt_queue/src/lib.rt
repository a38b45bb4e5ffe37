//! Split virtqueues (VIRTIO 1.1, 2.6) in a machine's memory: the next descriptor chain of the
//! available ring, the parts of memory that it names, and the used ring.
//!
//! The crate is used alone by any device over a [`page_track::Ram`]. A `Queue` holds what the
//! driver set and the device's two positions. It is asked for a chain, which is worked on and then
//! returned:
//!
//! ```text
//! let mut chain = Chain::new();
//! while queue.next_chain(&ram, &mut chain)? {
//!     let request = chain.readable_len();
//!     chain.write(&mut ram, 0, &answer);                  // over its writable parts, joined
//!     let interrupt = queue.push_used(&mut ram, chain.head(), answer.len() as u32)?;
//! }
//! ```
//!
//! Nothing is asked of memory or of the fields but that a ready queue has a size: rings may lie
//! outside memory or over one another, chains may loop, and each such case has its fault. No call
//! takes memory.
#![tactic(auto)]

mod chain;
mod fields;
mod joined;
mod queue;
mod ring;
mod walk;

pub use chain::Chain;
pub use fields::{Part, QueueFields, RingFault, is_queue_size};
pub use queue::{Queue, chain_is_the_rings};
