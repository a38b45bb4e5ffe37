//! The real link and the real clock. What is here is trusted to do what the system calls say: its
//! failures are shown by counts alone, and neither bytes nor numbers can be observed.
#![tactic(auto)]

mod clock;
mod link;

pub use clock::SystemClock;
pub use link::SocketLink;
