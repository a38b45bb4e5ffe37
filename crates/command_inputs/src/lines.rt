//! The three texts of lines.

ghost use Rattle.std.specs.Prelude.{◌≡◌, All, IfOk, IfErr, Ok};
ghost use Rattle.replay_log.specs.Texts.{IsSingle};
ghost use Rattle.splice_run.specs.Solo.{IsInLimits};
ghost use Rattle.command_inputs.specs.Reading.{IsRefused};
ghost use Rattle.command_inputs.specs.Texts.{read_log, read_schedule, read_single};

use crate::refusals::line_refusal;
use file_steps::Fault;
use replay_log::{Line, LineFault, Record, Turn, parse_log, parse_schedule, parse_single};
use std::alloc::Global;

/// The lines of a schedule. It is refused by its first bad line.
pub fn read_schedule(alloc: Global, text: &[u8]) -> Result<Vec<Line>, Fault>
    ensures read { IfOk result (λ lines. read_schedule text.now ≡ Ok lines.items) }
    ensures refused { IfErr result (IsRefused (read_schedule text.now)) }
{
    match parse_schedule(alloc, text) {
        Ok(lines) => Ok(lines),
        Err(LineFault::NoMemory) => Err(Fault::NoMemory),
        Err(LineFault::Bad { line, .. }) => Err(Fault::Refused(line_refusal(line))),
    }
}

/// The events of a log. It is refused by its first bad line.
pub fn read_log(alloc: Global, text: &[u8]) -> Result<Vec<Record>, Fault>
    ensures read { IfOk result (λ log. read_log text.now ≡ Ok log.items) }
    ensures refused { IfErr result (IsRefused (read_log text.now)) }
{
    match parse_log(alloc, text) {
        Ok(log) => Ok(log),
        Err(LineFault::NoMemory) => Err(Fault::NoMemory),
        Err(LineFault::Bad { line, .. }) => Err(Fault::Refused(line_refusal(line))),
    }
}

/// The turns of a single run, whose numbers are such as a guest takes. It is refused by its first
/// bad line.
pub fn read_single(alloc: Global, text: &[u8]) -> Result<Vec<Turn>, Fault>
    ensures read { IfOk result (λ turns. read_single text.now ≡ Ok turns.items) }
    ensures limits { IfOk result (λ turns. All IsInLimits turns.items) }
    ensures refused { IfErr result (IsRefused (read_single text.now)) }
{
    match parse_single(alloc, text) {
        Ok(turns) => Ok(turns),
        Err(LineFault::NoMemory) => Err(Fault::NoMemory),
        Err(LineFault::Bad { line, .. }) => Err(Fault::Refused(line_refusal(line))),
    }
}
