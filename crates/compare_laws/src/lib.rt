//! What holds of a comparer over any list of its calls: both guests' lines, the kept numbers, edges
//! and ages are those of all that was sent, heard and answered.
#![tactic(auto)]

pub mod law;
