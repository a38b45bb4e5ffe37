//! The messages between the two nodes of a pair: fourteen kinds, read exactly and written in their
//! one spelling, and what a node answers to its calls.
//!
//! A message is its kind in one byte, the length of its body in four, and the body; numbers are
//! big-endian. What stands in the body of each kind is a row of a table.
#![tactic(auto)]

mod answers;
mod borrowed;
mod faults;
mod forms;
mod kinds;
pub mod law;
mod lengths;
mod making;
mod messages;
mod places;
mod reading;
mod writing;

pub use answers::{Gate, HearFault, Told, Turned};
pub use borrowed::{
    encode_bytes, encode_disk, encode_frame, encode_held, encode_page, encode_sent, encode_state,
};
pub use faults::WireFault;
pub use forms::{FIN, OPENED, REFUSED, RESET};
pub use messages::{Message, kind_number};
pub use reading::decode;
pub use writing::encode;
