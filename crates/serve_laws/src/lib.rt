//! Laws of a run on a live link: what it sends, and that it is a replay. Each is the contract of a
//! function that does nothing.
#![tactic(auto)]

ghost use Rattle.serve_laws.specs.Replaying.{ServeIsReplay};
ghost use Rattle.serve_laws.specs.Sending.{SentIsInFile, ServeSendsReleased};

/// A law: the bytes sent are those that are appended to `OUT.released`, each after it is there.
pub fn serve_sends_released()
    ensures { ServeSendsReleased }
{}

/// A law: wherever a run ends, the bytes that it sent are a front of what `OUT.released` holds.
pub fn sent_is_in_file()
    ensures { SentIsInFile }
{}

/// A law: the files of a run are those of a replay of the lines of its log, over the frames of all
/// bytes that came.
pub fn serve_is_replay()
    ensures { ServeIsReplay }
{}
