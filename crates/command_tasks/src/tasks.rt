//! The tasks of the commands, carried out on files.

ghost use Rattle.std.specs.Prelude.{◌≡◌, IfErr, IfOk, OnOk, length, string_bytes};
ghost use Rattle.command_tasks.specs.Held.{HasRam, IsWell, command_of, run_of};
ghost use Rattle.command_tasks.specs.Tasks.{replay_task, run_reads, solo_task, task_of};
ghost use Rattle.file_steps.specs.Ending.{Completes, TaskFails};
ghost use Rattle.file_steps.specs.ReadBytes.{texts_of};
ghost use Rattle.file_steps.specs.Reading.{AreRead, IsUntouched, ReadFails};

use crate::words::{Command, Run};
use colo_base::Shelf;
use command_plans::{run_solo, write_image, write_splice};
use file_steps::{Fault, read_all};
use replay_plan::run_replay;
use std::alloc::Global;

/// The bytes of the four files that a run reads.
fn read_run<S: Shelf>(alloc: Global, shelf: &mut S, words: &Run<'_>) -> Result<Vec<Vec<u8>>, Fault>
    ensures read { IfOk result (λ files. AreRead (S.state shelf.old) (run_reads (run_of words.now))
        (texts_of files.items)) }
    ensures all { IfOk result (λ files. length files.items ≡ 4) }
    ensures untouched { OnOk result (IsUntouched (S.state shelf.old) (S.state shelf.new)) }
    ensures fails { IfErr result (ReadFails (run_reads (run_of words.now)) (S.state shelf.old)
        (S.state shelf.new)) }
{
    let names = [words.image, words.disk, words.client, words.lines];
    let files = read_all(alloc, shelf, &names)?;
    Ok(files)
}

/// Carries `replay` out: reads its files, runs a pair of machines by the schedule, and writes the
/// files of the run. Gives the line to print.
fn replay<S: Shelf>(alloc: Global, shelf: &mut S, words: &Run<'_>) -> Result<String, Fault>
    requires { HasRam words.now }
    ensures done { IfOk result (λ line. Completes (replay_task (run_of words.now))
        (S.state shelf.old) (S.state shelf.new) (string_bytes line)) }
    ensures fails { IfErr result (TaskFails (replay_task (run_of words.now))
        (S.state shelf.old) (S.state shelf.new)) }
{
    let files = read_run(alloc, shelf, words)?;
    run_replay(alloc, shelf, words.out, words.mib, &files)
}

/// Carries `solo` out: reads its files, makes the turns of the single run, and writes what they
/// leave. Gives the line to print.
fn solo<S: Shelf>(alloc: Global, shelf: &mut S, words: &Run<'_>) -> Result<String, Fault>
    requires { HasRam words.now }
    ensures done { IfOk result (λ line. Completes (solo_task (run_of words.now))
        (S.state shelf.old) (S.state shelf.new) (string_bytes line)) }
    ensures fails { IfErr result (TaskFails (solo_task (run_of words.now))
        (S.state shelf.old) (S.state shelf.new)) }
{
    let files = read_run(alloc, shelf, words)?;
    run_solo(alloc, shelf, words.out, words.mib, &files)
}

/// Carries the task of a command out: reads its files, and makes the steps of its plan. Gives the
/// line to print.
pub fn carry_out<S: Shelf>(
    alloc: Global,
    shelf: &mut S,
    command: &Command<'_>,
) -> Result<String, Fault>
    requires { IsWell command.now }
    ensures done { IfOk result (λ line. Completes (task_of (command_of command.now))
        (S.state shelf.old) (S.state shelf.new) (string_bytes line)) }
    ensures fails { IfErr result (TaskFails (task_of (command_of command.now))
        (S.state shelf.old) (S.state shelf.new)) }
{
    match command {
        Command::Replay(words) => replay(alloc, shelf, words),
        Command::Solo(words) => solo(alloc, shelf, words),
        Command::Splice(words) => write_splice(alloc, shelf, words.log, words.out),
        Command::WriteImage(words) => write_image(alloc, shelf, words.name, words.out),
    }
}
