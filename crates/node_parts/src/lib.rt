//! What both nodes of a pair need: messages that wait, bytes read as one message, and a turn of the
//! guest with the oldest frame that waits.
#![tactic(auto)]

mod counts;
mod giving;
mod outbox;
mod putting;
mod ranges;
mod reading;
mod turning;

pub use counts::count_parts;
pub use outbox::Outbox;
pub use putting::put_message;
pub use ranges::{is_in_range, is_message};
pub use reading::read;
pub use turning::{Made, make_turn};
