//! Client frames at the edge of a pair: which are accepted, answered or dropped, and the inbox in
//! which accepted frames wait for a guest.
//!
//! ```
//! use frame_mirror::{Entry, accept};
//! use std::alloc::Global;
//!
//! fn is_accepted(alloc: Global, frame: &[u8]) -> bool {
//!     matches!(accept(alloc, frame), Ok(Entry::Frame(_)))
//! }
//! ```
#![tactic(auto)]

mod ingress;
mod law;
mod ring;

pub use ingress::{Entry, OTHER_DESTINATION, UDP_FRAME, accept, is_accepted};
pub use law::accepted_frames_are_clean;
pub use ring::{INBOX_ROOM, Inbox, Waiting, has_room, hold};
