//! What a node that releases does, over the comparer: it lets a client's frame in, and follows what
//! its own guest sends.
#![tactic(auto)]

mod causes;
mod following;
mod gate;

pub use causes::cause_of;
pub use following::{follow, follow_telling};
pub use gate::let_in;
