//! What a comparer releases, and when it asks for a checkpoint, is what the rules of settling say
//! of the whole history that it stands for.
#![tactic(auto)]

pub mod law;
