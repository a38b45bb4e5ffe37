//! What a guest has sent on each connection: the line of its symbols, and what stands beside it,
//! from all TCP segments that it sent.
#![tactic(auto)]

mod answers;
mod keeping;
pub mod law;
mod lines;
mod offsets;
mod openings;
mod steps;
mod table;

pub use answers::{Took, What};
pub use keeping::KeptBytes;
pub use lines::{Line, may_open, opening_in};
pub use offsets::{OFFSET_BOUND, Offset};
pub use openings::{Incarnation, Opening};
pub use table::{Entry, Tracker};
