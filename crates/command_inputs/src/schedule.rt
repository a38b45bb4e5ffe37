//! The schedules that are run: those whose lines are all turns of the primary.

ghost use Rattle.std.specs.Prelude.{◌≡◌, All, IfOk, IfErr, Ok};
ghost use Rattle.std.specs.List.{filter_map, list_all};
ghost use Rattle.command_inputs.specs.Reading.{IsRefused};
ghost use Rattle.command_inputs.specs.Turns.{IsInLimits, is_turn, read_turns, turn_of_line, turns_of};

use crate::lines::read_schedule;
use crate::refusals::not_built;
use file_steps::Fault;
use replay_log::Line;
use std::alloc::{AllocError, Global};

/// One turn of the primary, as a line `P d i b n` of a schedule gives it.
#[derive(Clone, Copy)]
pub struct PrimaryTurn {
    /// By how many microseconds the clock goes on before the turn.
    pub ticks: u32,
    /// Whether the turn takes the oldest waiting frame.
    pub receives: bool,
    /// The most block requests that are served, at most 256.
    pub requests: u32,
    /// The steps of the turn, at most 100,000.
    pub steps: u32,
}

/// Whether a line is a turn of the primary.
fn is_turn(line: Line) -> bool
    ensures { result ≡ is_turn line }
{
    matches!(line, Line::Primary { .. })
}

/// Whether all lines are turns of the primary.
fn are_turns(lines: &[Line]) -> bool
    ensures { result ≡ list_all is_turn lines.now }
{
    lines.iter().all(|line| is_turn(*line))
}

/// The turns among these lines.
fn turns_in(alloc: Global, lines: &[Line]) -> Result<Vec<PrimaryTurn>, AllocError>
    ensures { IfOk result (λ turns. turns.items ≡ filter_map turn_of_line lines.now) }
{
    lines
        .iter()
        .filter_map(|line| match *line {
            Line::Primary { d, i, b, n } => Some(PrimaryTurn {
                ticks: d,
                receives: i,
                requests: b,
                steps: n,
            }),
            _ => None,
        })
        .collect(alloc)
}

/// The turns of lines that are all turns of the primary.
fn turns_of(alloc: Global, lines: &[Line]) -> Result<Vec<PrimaryTurn>, Fault>
    ensures read { IfOk result (λ turns. turns_of lines.now ≡ Ok turns.items) }
    ensures refused { IfErr result (IsRefused (turns_of lines.now)) }
{
    if !are_turns(lines) {
        return Err(Fault::Refused(not_built()));
    }
    Ok(turns_in(alloc, lines)?)
}

/// The turns whose schedule the text is, with numbers such as a guest takes. It is refused by its
/// first bad line, and else where a line isn't a turn of the primary.
pub fn read_turns(alloc: Global, text: &[u8]) -> Result<Vec<PrimaryTurn>, Fault>
    ensures read { IfOk result (λ turns. read_turns text.now ≡ Ok turns.items) }
    ensures limits { IfOk result (λ turns. All IsInLimits turns.items) }
    ensures refused { IfErr result (IsRefused (read_turns text.now)) }
{
    let lines = read_schedule(alloc, text)?;
    let turns = turns_of(alloc, &lines)?;
    Ok(turns)
}
