//! A releasing node's comparer through each event of the theorem: what it releases and asks for is
//! what the history of the pair says.
#![tactic(auto)]

pub mod law;
