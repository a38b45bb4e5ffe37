//! Laws of `replay`: what its steps leave in files, and that these are those of one pair, of which
//! the theorem holds. Each is the contract of a function that does nothing.
#![tactic(auto)]

ghost use Rattle.replay_laws.specs.Events.{EventsAreWhole};
ghost use Rattle.replay_laws.specs.Files.{LogLeaves};
ghost use Rattle.replay_laws.specs.Headline.{EachReplayIsOnePair};

use guest_starts::machines_start;

/// A law: after all steps of a log the five files hold its text, what it released and delivered,
/// and memory and disk of the guest that survives.
pub fn log_leaves()
    ensures { LogLeaves }
{}

/// A law: where a replay is cut off, what a step of the log leaves was written before anything of
/// the next.
pub fn events_are_whole()
    ensures { EventsAreWhole }
{}

/// A law: of each call whose words spell `replay` the files are those of one pair, of which the
/// theorem holds.
pub fn each_replay_is_one_pair()
    ensures { EachReplayIsOnePair }
{
    machines_start();
}
