//! The rules of settling: what a pair of nodes releases at the end of an event, and when a
//! checkpoint starts.
//!
//! A crate of definitions, without code. `Numbers` has the kept numbers, `Progress` what was
//! released of a connection and what is due, `Pieces` and `Release` how agreed symbols become
//! segments, `Matching` both known lines of a connection and how far they agree, `OwnFrames` what
//! the frames of an event are, `Settle` the four rules, `Causes` when a checkpoint starts, and
//! `Survive` what goes out at the report of the primary's stop.
#![tactic(auto)]
