//! A pair that runs.

ghost use Rattle.std.specs.Prelude.{◌≡◌, ◌≢◌, ◌+◌, ◌<◌, ◌^◌, All, IfErr, IfOk, OnOk, Some};
ghost use Rattle.pair_core.specs.Events.{event_of};
ghost use Rattle.pair_core.specs.Pair.{new_pair, pair_of};
ghost use Rattle.pair_core.specs.Steps.{HasLimits, refusal};
ghost use Rattle.pair_core.specs.declared.pair.StepFault.TheVariants as step_fault;
ghost use Rattle.pair_history.specs.Laws.{RestsCaptured};
ghost use Rattle.pair_world.specs.Running.{AreAlike, GoesOnBy, RunsBy, StandsForStart, TakesFrame, start_of};

use colo_base::{Frames, NoMemory};
use pair_core::{Pair, Step, StepFault};
use replay_log::Line;
use state_wire::Guest;
use std::alloc::Global;

/// A pair over two guests of one kind in one state, to which clients send these frames: a start of
/// the theorem.
pub fn start<G: Guest + Drop>(
    alloc: Global,
    first: G,
    second: G,
    frames: Frames,
) -> Result<Pair<G>, NoMemory>
    requires { AreAlike (G.meaning first) (G.meaning second) }
    ensures stands { IfOk result (λ pair. StandsForStart
        (start_of (G.meaning first) (G.meaning second) frames) (pair_of G.meaning pair)) }
    ensures pair { IfOk result (λ pair. pair_of G.meaning pair
        ≡ record (new_pair (G.meaning first) (G.meaning second)) { frames = frames }) }
    ensures steps { IfOk result (λ pair. pair.steps ≡ 0) }
{
    Pair::with_frames(alloc, first, second, frames)
}

/// One frame more that a client sends, before the first event.
pub fn offer<G: Guest + Drop>(pair: &mut Pair<G>, frame: &[u8]) -> Result<(), NoMemory>
    ensures takes { OnOk result (TakesFrame (pair_of G.meaning pair.old)
        (pair_of G.meaning pair.new) frame.now) }
    ensures steps { pair.new.steps ≡ pair.old.steps }
{
    pair.offer(frame)
}

/// A guest that rests until a checkpoint is acknowledged was captured.
fn rests<G: Guest + Drop>(pair: &Pair<G>) -> bool
    ensures { RestsCaptured (pair_of G.meaning pair.now) }
{
    pair.awaits()
}

/// The event of a line: it is the theorem's, whatever happened before. Where memory doesn't run
/// out it is refused exactly as the pair refuses it.
pub fn step<G: Guest + Drop>(pair: &mut Pair<G>, line: &Line) -> Result<Step, StepFault>
    requires limits { HasLimits line.now }
    requires counted { pair.old.steps < 2 ^ 63 }
    ensures goes_on { IfOk result (GoesOnBy (pair_of G.meaning pair.old)
        (pair_of G.meaning pair.new) line.now) }
    ensures after { OnOk result (pair_of G.meaning pair.new
        ≡ (event_of (pair_of G.meaning pair.old) line.now).after) }
    ensures steps { OnOk result (pair.new.steps ≡ pair.old.steps + 1) }
    ensures cause { IfErr result (λ fault. fault ≢ step_fault.NoMemory
        → refusal (pair_of G.meaning pair.old) line.now ≡ Some fault) }
{
    let step = match pair.step(line) {
        Ok(step) => step,
        Err(fault) => return Err(fault),
    };
    rests(pair);
    Ok(step)
}

/// The events of a schedule: they are the log of the theorem.
pub fn run<G: Guest + Drop>(
    alloc: Global,
    pair: &mut Pair<G>,
    lines: &[Line],
) -> Result<Vec<Step>, StepFault>
    requires limits { All HasLimits lines.now }
    requires fresh { pair.old.steps ≡ 0 }
    ensures runs { IfOk result (λ made. RunsBy (pair_of G.meaning pair.old) lines.now
        (pair_of G.meaning pair.new) made.items) }
{
    let mut made = Vec::new(alloc);
    for line in lines {
        let next = step(pair, line)?;
        if made.push(next).is_err() {
            return Err(StepFault::NoMemory);
        }
    }
    Ok(made)
}
