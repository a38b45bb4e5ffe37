//! What every log of the pair's definitions releases stands in the run of the node that releases
//! it, and until a survivor releases in the primary's. A crate of laws: its functions do nothing.
#![tactic(auto)]

mod releases;
mod shown;

pub use releases::{each_release_stands, primary_stands, stands_without_stop, survivor_stands};
pub use shown::syns_of_each_log;
