//! What is proved of the log of every start and every schedule. Each law is the contract of a call
//! that does nothing.

ghost use Rattle.std.specs.Prelude.{◌≡◌, ℕ, [], All, List};
ghost use Rattle.replay_log.specs.declared.lines.Line.{Line};
ghost use Rattle.replay_log.specs.declared.records.Record.{Record};
ghost use Rattle.splice_run.specs.Runs.{run_turns};
ghost use Rattle.splice_run.specs.Single.{single_run};
ghost use Rattle.state_wire.specs.Guest.{GuestState, Kind};
ghost use Rattle.pair_theorem.specs.History.{pair_log};
ghost use Rattle.pair_theorem.specs.LogParts.{GuestsPart, LogPart, MarksPart, nodes_at};
ghost use Rattle.pair_theorem.specs.Past.{Start, boot};
ghost use Rattle.pair_theorem.specs.Places.{delivered_due, delivered_in, events, released_due, released_in};
ghost use Rattle.pair_theorem.specs.Splicing.{ChangesNothing};
ghost use Rattle.pair_theorem.specs.Theorem.{FrontsAreLogs};
ghost use Rattle.pair_theorem.specs.TheRun.{the_run};

/// Three parts of the theorem hold of every log: it goes through the schedule and states how many
/// frames each event released; a mark stands exactly where a checkpoint is captured, committed or
/// acknowledged; each made turn is one of its own node's guest.
pub fn parts_hold_of_each_log()
    ensures log { (a : Start) (lines : List Line) → LogPart lines (pair_log a lines) }
    ensures marks { (a : Start) (lines : List Line) → MarksPart a (pair_log a lines) }
    ensures guests { (a : Start) (lines : List Line) →
        GuestsPart a (pair_log a lines) (nodes_at a (pair_log a lines)) }
{}

/// From a boot the run that a log names is the run of its single run, on every log.
pub fn boot_runs_the_single_run()
    ensures { (kind : Kind) (stream : List (List ℕ)) (state : GuestState) (m n : ℕ)
        (log : List Record) → the_run (boot kind stream state m n) log
        ≡ run_turns kind stream (record { state = state; sent = [] }) (single_run log) }
{}

/// Event by event the released frames and the delivered message are those that the definitions make
/// of the line.
pub fn frames_and_messages_are_due()
    ensures frames { (a : Start) (lines : List Line) →
        released_in (pair_log a lines) ≡ released_due (events a (pair_log a lines)) }
    ensures messages { (a : Start) (lines : List Line) →
        delivered_in (pair_log a lines) ≡ delivered_due (events a (pair_log a lines)) }
{}

/// The log of a front of a schedule is the front of its log.
#[tactic(auto, using(crate::proofs::EachLog::fronts_are))]
pub fn fronts_are_logs()
    ensures { FrontsAreLogs }
{}

/// A checkpoint of which the End was not heard changes neither the secondary's guest, lines, inbox
/// nor numbers: no message of it does, and the report that drops it does not.
#[tactic(auto, using(crate::proofs::Unfinished::unfinished_changes_nothing))]
pub fn unfinished_checkpoints_change_nothing()
    ensures { (a : Start) (lines : List Line) → All ChangesNothing (events a (pair_log a lines)) }
{}
