//! What was heard of a checkpoint that isn't whole yet.

use kept_checkpoint::KeptCheckpoint;

/// What was heard of a checkpoint that isn't whole yet.
#[derive(Drop)]
pub enum UnderWay {
    /// Nothing: none has begun.
    Nothing,
    /// That it begins.
    Begun,
    /// Its state, and what followed it so far.
    Heard(KeptCheckpoint),
}
