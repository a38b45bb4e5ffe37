//! Laws of the functions that read: each is the contract of a function that does nothing.

ghost use Rattle.command_inputs.specs.Laws.{ReadsClients, ReadsLogs, ReadsMachines, ReadsSchedules, ReadsSingleRuns, ReadsTurns};

/// A law: a schedule is read exactly as the lines that it spells.
pub fn reads_schedules()
    ensures { ReadsSchedules }
{}

/// A law: a single run is read exactly as the turns that it spells.
pub fn reads_single_runs()
    ensures { ReadsSingleRuns }
{}

/// A law: a log is read exactly as the events that it spells.
pub fn reads_logs()
    ensures { ReadsLogs }
{}

/// A law: a schedule of turns of the primary is read exactly as the turns that it spells.
pub fn reads_turns()
    ensures { ReadsTurns }
{}

/// A law: a client stream is read exactly as the frames that it is whole records of.
pub fn reads_clients()
    ensures { ReadsClients }
{}

/// A law: an image and a disk are read exactly as the machine that they boot.
pub fn reads_machines()
    ensures { ReadsMachines }
{}
