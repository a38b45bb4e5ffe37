//! The single run that a log names, and the machine that makes it again.
#![tactic(auto)]

mod law;
mod openings;
mod parts;
mod seen;
mod solo_run;
mod splicing;

pub use law::{single_run_is_in_limits, single_run_is_spelled, splices_by_marks};
pub use solo_run::{SoloFault, solo};
pub use splicing::splice;
