//! `splice`: writes the single run that a log names.

ghost use Rattle.std.specs.Prelude.{◌≡◌, [], ◌∷◌, IfOk, IfErr, OnOk, string_bytes};
ghost use Rattle.file_steps.specs.Ending.{Completes, TaskFails};
ghost use Rattle.file_steps.specs.Plans.{done};
ghost use Rattle.file_steps.specs.Reading.{AreRead, IsUntouched, ReadFails};
ghost use Rattle.command_plans.specs.OneFile.{one_file};
ghost use Rattle.command_plans.specs.Planning.{IsRefusal};
ghost use Rattle.command_plans.specs.Splice.{single_text, splice_plan, splice_task, turns_line};

use crate::one_file::write_file;
use colo_base::{NoMemory, Shelf};
use command_inputs::read_log;
use file_steps::{Fault, read_all};
use replay_log::{Turn, write_turn};
use splice_run::splice;
use std::alloc::{AllocError, Global};

/// A plan that writes one file, and its line.
#[derive(Drop)]
pub struct FilePlan {
    /// The bytes of the file.
    pub bytes: Vec<u8>,
    /// The line to print.
    pub line: String,
}

/// The line of so many turns.
fn turns_line(alloc: Global, turns: &[Turn]) -> Result<String, AllocError>
    ensures { IfOk result (λ text. string_bytes text ≡ turns_line turns.now) }
{
    let count = turns.len();
    format!(in alloc; "turns {count}\n")
}

/// The text of a single run.
fn text_of(alloc: Global, turns: &[Turn]) -> Result<Vec<u8>, NoMemory>
    ensures { IfOk result (λ text. text.items ≡ single_text turns.now) }
{
    let mut text = Vec::new(alloc);
    for turn in turns {
        write_turn(turn, &mut text)?;
    }
    Ok(text)
}

/// The plan of `splice`, of the bytes of a log: its single run is written. It is refused by the
/// log's first bad line, before any file is created.
pub fn plan_splice(alloc: Global, text: &[u8]) -> Result<FilePlan, Fault>
    ensures plan { IfOk result (λ plan. splice_plan text.now
        ≡ record { steps = one_file plan.bytes.items; end = done (string_bytes plan.line) }) }
    ensures refused { IfErr result (IsRefusal (splice_plan text.now)) }
{
    let log = read_log(alloc, text)?;
    let turns = splice(alloc, &log)?;
    let bytes = text_of(alloc, &turns)?;
    let line = turns_line(alloc, &turns)?;
    Ok(FilePlan { bytes, line })
}

/// The bytes of one file.
fn read_text<S: Shelf>(alloc: Global, shelf: &mut S, name: &str) -> Result<Vec<u8>, Fault>
    ensures read { IfOk result (λ text. AreRead (S.state shelf.old) (name.now ∷ [])
        (text.items ∷ [])) }
    ensures untouched { OnOk result (IsUntouched (S.state shelf.old) (S.state shelf.new)) }
    ensures fails { IfErr result (ReadFails (name.now ∷ []) (S.state shelf.old)
        (S.state shelf.new)) }
{
    let names = [name];
    let mut files = read_all(alloc, shelf, &names)?;
    match files.pop() {
        Some(text) => Ok(text),
        None => unreachable!(),
    }
}

/// Carries `splice` out: reads the file `log`, and writes the single run that it names to the file
/// `out`. Gives the line to print.
pub fn write_splice<S: Shelf>(
    alloc: Global,
    shelf: &mut S,
    log: &str,
    out: &str,
) -> Result<String, Fault>
    ensures done { IfOk result (λ line. Completes (splice_task log.now out.now)
        (S.state shelf.old) (S.state shelf.new) (string_bytes line)) }
    ensures fails { IfErr result (TaskFails (splice_task log.now out.now)
        (S.state shelf.old) (S.state shelf.new)) }
{
    let text = read_text(alloc, shelf, log)?;
    let plan = plan_splice(alloc, &text)?;
    let FilePlan { bytes, line } = plan;
    write_file(alloc, shelf, out, &bytes)?;
    Ok(line)
}
