//! `serve` as a plan: two machines from an image's boot state on, run as a pair on a live link.
#![tactic(auto)]

mod serve;

pub use serve::run_serve;
