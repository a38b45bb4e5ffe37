//! How far both known lines of one connection agree, and whether they differ there.
#![tactic(auto)]

mod agreeing;
mod matching;
mod symbols;

pub use matching::{differs_at, is_unmatched, matched_end};
