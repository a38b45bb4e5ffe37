//! What holds of every log. Each law is the contract of a call that does nothing.

ghost use Rattle.theorem_runs.specs.Laws.{FilesOfEachLog, FramesWaitRightly, ItemsAreSent, LogCutsTurns, NamesOfEachLog, OneCheckpointAtATime, RunsAreTheLogs, SecondaryOfEachLog, ToldOfEachLog};

/// At most one checkpoint is on its way. Its messages come in their order, with nothing between
/// them; before them may stand frames and numbers, behind its End frames alone; and its
/// acknowledgement is awaited.
#[tactic(auto, using(crate::proofs::EachLaw::one_checkpoint_holds))]
pub fn one_checkpoint_at_a_time()
    ensures { OneCheckpointAtATime }
{}

/// The turns of both nodes are those that the marks of the log cut, and so are those of the
/// capture that is under way.
#[tactic(auto, using(crate::proofs::EachLaw::cut_holds))]
pub fn log_cuts_turns()
    ensures { LogCutsTurns }
{}

/// What a node keeps of its guest's segments is what the guest sent, with trims and commits
/// between.
#[tactic(auto, using(crate::proofs::EachLaw::items_hold))]
pub fn items_are_sent()
    ensures { ItemsAreSent }
{}

/// A frame that waits, in an inbox, in the captured one or on the link, is the accepted frame of
/// its index, and what its client had seen is what the log says.
#[tactic(auto, using(crate::proofs::EachLaw::frames_hold))]
pub fn frames_wait_rightly()
    ensures { FramesWaitRightly }
{}

/// Each node's run, and the captured one, is the run of its turns, each given the frame that the
/// log says.
#[tactic(auto, using(crate::proofs::EachLaw::runs_hold))]
pub fn runs_are_the_logs()
    ensures { RunsAreTheLogs }
{}

/// The secondary's guest is in the state of its own run: the primary's turns before the last
/// committed capture, and then its own.
#[tactic(auto, using(crate::proofs::Parts::secondary_holds))]
pub fn secondary_is_in_its_run()
    ensures { SecondaryOfEachLog }
{}

/// The survivor is in the last state of the run that the log names; memory, disk, the log, the
/// released frames and the delivered messages are written as they are, event by event.
#[tactic(auto, using(crate::proofs::Parts::files_hold))]
pub fn files_are_of_one_run()
    ensures { FilesOfEachLog }
{}

/// Where at most one node stops, the client frames that the run takes rise and are accepted frames
/// of the stream; and of those that the pair accepted none is missing but by a full inbox, the
/// report of the primary's stop, or because it still waits.
#[tactic(auto, using(crate::proofs::Names::names_hold))]
pub fn each_log_names_one_run()
    ensures { NamesOfEachLog }
{}

/// Right after an End is delivered the secondary's guest is in the state that all it was told
/// spells over the start's.
#[tactic(auto, using(crate::proofs::Telling::told_holds))]
pub fn the_secondary_was_told_its_state()
    ensures { ToldOfEachLog }
{}
