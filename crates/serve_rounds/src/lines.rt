//! The events of lines: what they leave is written, and what they release is sent.

ghost use Rattle.std.specs.Prelude.{◌≡◌, ℕ, ◌+◌, ◌<◌, ◌^◌, List, [], None, IsTrue, IfOk, IfErr, OnOk, replicate};
ghost use Rattle.colo_base.specs.Clock.{ClockState};
ghost use Rattle.colo_base.specs.Shelf.{ShelfState};
ghost use Rattle.file_steps.specs.Steps.{Done, Fails, nothing, outside};
ghost use Rattle.pair_core.specs.Events.{event_of};
ghost use Rattle.pair_core.specs.Pair.{pair_of};
ghost use Rattle.pair_core.specs.Steps.{HasLimits, IsStep, refusal};
ghost use Rattle.command_plans.specs.Replay.{AreEvents, event_at};
ghost use Rattle.serve_rounds.specs.Rounds.{send_step, serves_of};
ghost use Rattle.serve_rounds.specs.Serving.{CannotServe, IsServed, ends};

use crate::server::Output;
use colo_base::{Link, Shelf};
use command_plans::{Counts, count_step, run_line, stream};
use file_steps::{Fault, send};
use pair_core::{Pair, Step};
use replay_log::Line;
use state_wire::Guest;

/// Sends bytes. Where there is none, nothing is done.
fn send_some<L: Link>(link: &mut L, bytes: &[u8]) -> Result<(), Fault>
    requires { IsTrue (L.state link.old).opened }
    ensures done { (out : List ℕ) (s : ShelfState) (k : ClockState) → OnOk result (Done out
        (send_step bytes.now) nothing (outside s (L.state link.old) k)
        (outside s (L.state link.new) k)) }
    ensures fails { (out : List ℕ) (s : ShelfState) (k : ClockState) → IfErr result (Fails out
        (send_step bytes.now) nothing (outside s (L.state link.old) k)
        (outside s (L.state link.new) k)) }
{
    if bytes.is_empty() {
        return Ok(());
    }
    send(link, bytes)
}

/// Makes the event of a line, writes what it leaves, and then sends what it released.
fn serve_line<S: Shelf, L: Link, G: Guest + Drop>(
    output: Output,
    shelf: &mut S,
    link: &mut L,
    pair: &mut Pair<G>,
    line: &Line,
) -> Result<Step, Fault>
    requires opened { IsTrue (L.state link.old).opened }
    requires limits { HasLimits line.now }
    requires counted { pair.old.steps < 2 ^ 63 }
    requires good { refusal (pair_of G.meaning pair.old) line.now ≡ None }
    ensures after { OnOk result (pair_of G.meaning pair.new
        ≡ (event_of (pair_of G.meaning pair.old) line.now).after) }
    ensures step { IfOk result (IsStep (pair_of G.meaning pair.old) line.now) }
    ensures steps { OnOk result (pair.new.steps ≡ pair.old.steps + 1) }
    ensures done { (k : ClockState) → OnOk result (Done output.entry.out.now
        (serves_of (event_at (pair_of G.meaning pair.old) line.now)) nothing
        (outside (S.state shelf.old) (L.state link.old) k)
        (outside (S.state shelf.new) (L.state link.new) k)) }
    ensures fails { (k : ClockState) → IfErr result (Fails output.entry.out.now
        (serves_of (event_at (pair_of G.meaning pair.old) line.now)) nothing
        (outside (S.state shelf.old) (L.state link.old) k)
        (outside (S.state shelf.new) (L.state link.new) k)) }
{
    let step = run_line(output.alloc, shelf, output.out, pair, line)?;
    let released = stream(output.alloc, &step.released)?;
    send_some(link, &released)?;
    Ok(step)
}

/// Makes the events of the same line so many times.
pub(crate) fn serve_times<S: Shelf, L: Link, G: Guest + Drop>(
    output: Output,
    shelf: &mut S,
    link: &mut L,
    pair: &mut Pair<G>,
    counts: Counts,
    line: &Line,
    times: usize,
) -> Result<Counts, Fault>
    requires opened { IsTrue (L.state link.old).opened }
    requires limits { HasLimits line.now }
    requires counted { pair.old.steps + times < 2 ^ 63 }
    requires lines { counts.lines ≡ pair.old.steps }
    requires good { AreEvents (pair_of G.meaning pair.old) (replicate times line.now) }
    ensures served { IfOk result (λ now. IsServed G.meaning output.entry.out.now
        (replicate times line.now) pair.old pair.new counts now
        (ends (S.state shelf.old) (S.state shelf.new) (L.state link.old) (L.state link.new))) }
    ensures lines { IfOk result (λ now. now.lines ≡ pair.new.steps) }
    ensures fails { IfErr result (CannotServe G.meaning output.entry.out.now
        (replicate times line.now) pair.old
        (ends (S.state shelf.old) (S.state shelf.new) (L.state link.old) (L.state link.new))) }
{
    let mut counts = counts;
    for _ in 0..times {
        let step = serve_line(output, shelf, link, pair, line)?;
        counts = count_step(counts, &step);
    }
    Ok(counts)
}
