//! The log of a pair as files: event by event, and then memory and disk of the survivor.

ghost use Rattle.std.specs.Prelude.{◌≡◌, ◌+◌, ◌<◌, ◌^◌, None, All, IfErr, IfOk, OnOk, flat_map, string_bytes};
ghost use Rattle.command_plans.specs.Replay.{AreEvents, after_lines};
ghost use Rattle.command_plans.specs.Steps.{writes_by};
ghost use Rattle.file_steps.specs.Steps.{FailsToWrite, Writes};
ghost use Rattle.pair_core.specs.Events.{event_of};
ghost use Rattle.pair_core.specs.Pair.{pair_of};
ghost use Rattle.pair_core.specs.Steps.{HasLimits, refusal};
ghost use Rattle.pair_theorem.specs.History.{pair_log};
ghost use Rattle.pair_world.specs.Running.{GoesOnBy};
ghost use Rattle.replay_plan.specs.LogPlan.{log_line, log_steps, writes_of};
ghost use Rattle.replay_plan.specs.Running.{HasRun, OfItsStart, OfItsStep};

use colo_base::Shelf;
use command_plans::{Counts, REPLAY_FILES, count_step, summary, write_state, write_step};
use file_steps::{Fault, create_all};
use pair_core::{Pair, Step, StepFault};
use pair_world::step;
use replay_log::Line;
use state_wire::Guest;
use std::alloc::Global;

/// Makes the event of a line, and writes what it leaves: the theorem's step, whatever happened
/// before.
fn run_line<S: Shelf, G: Guest + Drop>(
    alloc: Global,
    shelf: &mut S,
    out: &str,
    pair: &mut Pair<G>,
    line: &Line,
) -> Result<Step, Fault>
    requires limits { HasLimits line.now }
    requires counted { pair.old.steps < 2 ^ 63 }
    requires good { refusal (pair_of G.meaning pair.old) line.now ≡ None }
    ensures after { OnOk result (pair_of G.meaning pair.new
        ≡ (event_of (pair_of G.meaning pair.old) line.now).after) }
    ensures steps { OnOk result (pair.new.steps ≡ pair.old.steps + 1) }
    ensures goes_on { IfOk result (GoesOnBy (pair_of G.meaning pair.old)
        (pair_of G.meaning pair.new) line.now) }
    ensures done { IfOk result (λ made. Writes out.now (writes_by made) (S.state shelf.old)
        (S.state shelf.new)) }
    ensures fails { IfErr result (λ fault. OfItsStep (pair_of G.meaning pair.old) line.now
        (λ step. FailsToWrite out.now (writes_of step) (S.state shelf.old) (S.state shelf.new)
        fault)) }
{
    let made = match step(pair, line) {
        Ok(made) => made,
        Err(StepFault::NoMemory) => return Err(Fault::NoMemory),
        Err(StepFault::SecondStop | StepFault::FalseReport) => unreachable!(),
    };
    write_step(alloc, shelf, out, &made)?;
    Ok(made)
}

/// Makes the events of the lines, and writes what they leave, event by event.
fn run_lines<S: Shelf, G: Guest + Drop>(
    alloc: Global,
    shelf: &mut S,
    out: &str,
    pair: &mut Pair<G>,
    lines: &[Line],
) -> Result<Counts, Fault>
    requires limits { All HasLimits lines.now }
    requires fresh { pair.old.steps ≡ 0 }
    requires good { AreEvents (pair_of G.meaning pair.old) lines.now }
    ensures run { IfOk result (λ counts. OfItsStart (pair_of G.meaning pair.old)
        (λ a. HasRun a lines.now counts (pair_of G.meaning pair.new))) }
    ensures done { OnOk result (OfItsStart (pair_of G.meaning pair.old)
        (λ a. Writes out.now (flat_map writes_of (pair_log a lines.now)) (S.state shelf.old)
        (S.state shelf.new))) }
    ensures fails { IfErr result (λ fault. OfItsStart (pair_of G.meaning pair.old)
        (λ a. FailsToWrite out.now (flat_map writes_of (pair_log a lines.now))
        (S.state shelf.old) (S.state shelf.new) fault)) }
{
    let mut counts = Counts {
        lines: 0,
        released: 0,
        captured: 0,
    };
    for line in lines {
        let made = run_line(alloc, shelf, out, pair, line)?;
        counts = count_step(counts, &made);
    }
    Ok(counts)
}

/// Runs a pair of which no event has happened by the lines of a schedule, none of which is refused,
/// and writes the files of the run: those of the log of its start. Gives the line to print.
pub fn run_log<S: Shelf, G: Guest + Drop>(
    alloc: Global,
    shelf: &mut S,
    out: &str,
    pair: &mut Pair<G>,
    lines: &[Line],
) -> Result<String, Fault>
    requires limits { All HasLimits lines.now }
    requires fresh { pair.old.steps ≡ 0 }
    requires good { AreEvents (pair_of G.meaning pair.old) lines.now }
    ensures line { IfOk result (λ line. OfItsStart (pair_of G.meaning pair.old)
        (λ a. string_bytes line ≡ log_line (pair_log a lines.now))) }
    ensures done { OnOk result (OfItsStart (pair_of G.meaning pair.old)
        (λ a. Writes out.now (log_steps a (pair_log a lines.now)) (S.state shelf.old)
        (S.state shelf.new))) }
    ensures fails { IfErr result (λ fault. OfItsStart (pair_of G.meaning pair.old)
        (λ a. FailsToWrite out.now (log_steps a (pair_log a lines.now)) (S.state shelf.old)
        (S.state shelf.new) fault)) }
{
    create_all(alloc, shelf, out, &REPLAY_FILES)?;
    let counts = run_lines(alloc, shelf, out, pair, lines)?;
    let line = summary(alloc, counts)?;
    write_state(alloc, shelf, out, pair.survivor())?;
    Ok(line)
}
