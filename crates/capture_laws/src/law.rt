//! What one node captures is what the other keeps. The functions do nothing: their contracts are
//! what is proved.

ghost use Rattle.capture_laws.specs.Laws.{BeginsCapturable, CapturedIsDue, CommitsCapturably, GoesItsWay, HearsAWhole, IsTheTheorems, KeepsCapturably, KeepsTheInbox, KeepsTheLines, KeepsTheNumbers, SpellsAWhole, TakesCapturably, TrimsCapturably};

/// From a secondary with nothing under way each message of a capture is due when it comes, whatever
/// turns lie between, and before the End all of it was heard.
pub fn captured_is_due()
    ensures way { GoesItsWay }
    ensures due { CapturedIsDue }
    ensures whole { HearsAWhole }
{}

/// Loaded into a guest with as many pages and sectors, what is kept is the captured state.
#[tactic(auto, using(crate::proofs::PartLemmas::spells_a_whole))]
pub fn spells_a_whole()
    ensures { SpellsAWhole }
{}

/// The frames that wait are the captured ones, in their order.
#[tactic(auto, using(crate::proofs::PartLemmas::keeps_the_inbox))]
pub fn keeps_the_inbox()
    ensures { KeepsTheInbox }
{}

/// The lines are the captured ones with the commit in them, entry for entry in table order.
#[tactic(auto, using(crate::proofs::TrackerLemmas::keeps_the_lines))]
pub fn keeps_the_lines()
    ensures { KeepsTheLines }
{}

/// For each client of each tuple the number is the captured one.
#[tactic(auto, using(crate::proofs::NumberLemmas::keeps_the_numbers))]
pub fn keeps_the_numbers()
    ensures { KeepsTheNumbers }
{}

/// What these laws ask of lines holds of an empty tracker, and goes on with each frame, trim and
/// commit, and with a checkpoint that is put back.
pub fn lines_go_on()
    ensures begins { BeginsCapturable }
    ensures takes { TakesCapturably }
    ensures trims { TrimsCapturably }
    ensures commits { CommitsCapturably }
    ensures keeps { KeepsCapturably }
{}

/// The messages of a capture that stands for a past of the pair are the theorem's own list.
#[tactic(auto, using(crate::proofs::TheoremLemmas::is_the_theorems))]
pub fn is_the_theorems()
    ensures { IsTheTheorems }
{}
