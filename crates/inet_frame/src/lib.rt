//! Reads Ethernet frames without copying: `parse` says which TCP segment, UDP datagram or ARP
//! request a frame holds, or why it is dropped, and its views hand out slices of the frame.
//!
//! ```
//! use inet_frame::{Seen, parse};
//!
//! fn payload_len(frame: &[u8]) -> usize {
//!     match parse(frame) {
//!         Seen::Tcp(segment) => segment.payload().len(),
//!         Seen::Udp(datagram) => datagram.payload().len(),
//!         Seen::Arp(_) | Seen::Other(_) => 0,
//!     }
//! }
//! ```
#![tactic(auto)]

mod arp;
pub mod flag;
mod ipv4;
mod law;
mod options;
mod parser;
pub mod place;
pub mod protocol;
mod sum;
mod tcp;
mod tuple;
mod udp;
mod why;

pub use arp::{ArpView, arp_reply};
pub use law::{fields_fit, reply_is_no_tcp};
pub use options::{NO_OPERATION, mss, option_len};
pub use parser::{Seen, counted, is_arp, is_tcp, parse};
pub use sum::{ones_sum, pseudo_sum};
pub use tcp::TcpView;
pub use tuple::{GUEST_ADDRESS, GUEST_MAC, Tuple, guest_is_known};
pub use udp::UdpView;
pub use why::Why;
