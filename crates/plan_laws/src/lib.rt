//! Laws of plans: what a front of a task's steps is, and what steps leave. Each is the contract of
//! a function that does nothing.
#![tactic(auto)]

ghost use Rattle.plan_laws.specs.Files.{OneFileLeaves, SoloLeaves};
ghost use Rattle.plan_laws.specs.Fronts.{FrontsOfTwo, LaterFilesStay};
ghost use Rattle.plan_laws.specs.Statuses.{RefusalsAreFirst};

/// A law: where a file can't be created, the files that are created after it are as they were.
pub fn later_files_stay()
    ensures { LaterFilesStay }
{}

/// A law: steps are made in their order.
pub fn fronts_of_two()
    ensures { FrontsOfTwo }
{}

/// A law: what the three files hold after a single run.
pub fn solo_leaves()
    ensures { SoloLeaves }
{}

/// A law: what the file of a command that writes one holds.
pub fn one_file_leaves()
    ensures { OneFileLeaves }
{}

/// A law: where what is read is refused before any file is created, its own status comes, unless a
/// file can't be read or memory is refused.
pub fn refusals_are_first()
    ensures { RefusalsAreFirst }
{}
