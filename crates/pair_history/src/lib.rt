//! The pair as plain data goes through the events of the theorem: each line of a schedule answers,
//! releases and delivers what the definitions say of the whole history.
//!
//! A crate of laws: its functions do nothing, and their contracts hold of every start and every
//! schedule. `Standing` has the relation between a pair and a past, `Laws` the statements.
#![tactic(auto)]

pub mod law;
