//! Settling of the connections that an event touched: the others need none.
#![tactic(auto)]

mod keeping;
pub mod law;
mod lines;
mod settling;
mod stored;
mod touched;

pub use keeping::{Keeping, settle_touched};
pub use settling::Settling;
pub use stored::Stored;
pub use touched::{Stale, Touched};
