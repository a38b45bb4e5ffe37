//! Builds and edits frames: `segment` puts a TCP segment of the guest together, and `clean_syn` and
//! `shift_ack` change a client's segment in place.
//!
//! ```
//! use inet_build::{Segment, segment};
//! use inet_frame::{Tuple, flag};
//! use std::alloc::{AllocError, Global};
//!
//! fn reset(alloc: Global, mac: [u8; 6], tuple: Tuple, seq: u32) -> Result<Vec<u8>, AllocError> {
//!     let fields =
//!         Segment { dst_mac: mac, tuple, seq, ack: 0, flags: flag::RST, window: 0, mss: None };
//!     segment(alloc, &fields, &[])
//! }
//! ```
#![tactic(auto)]

mod build;
mod edit;
mod fields;
mod law;
mod options;

pub use build::segment;
pub use edit::{clean_syn, shift_ack};
pub use fields::Segment;
pub use law::{edits_keep_the_rest, segments_read_back};
