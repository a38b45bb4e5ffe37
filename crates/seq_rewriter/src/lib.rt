//! Sequence numbers of a pair of guests: the numbers under which clients know their connections,
//! and client segments with their acknowledgement raised for a guest whose number is another.
//!
//! ```
//! use inet_frame::is_tcp;
//! use seq_rewriter::inward;
//! use tcp_track::Opening;
//!
//! fn give(frame: &mut [u8], seen: Opening, current: Opening) {
//!     if is_tcp(frame) {
//!         inward(frame, Some(seen), Some(current));
//!     }
//! }
//! ```
#![tactic(auto)]

mod given;
mod kept;
mod law;

pub use given::inward;
pub use kept::Numbers;
pub use law::{keeps_the_first_number, raises_the_acknowledgement};
