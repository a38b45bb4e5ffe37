//! The parts of a round: a stop, a checkpoint, both turns, and the deliveries.

ghost use Rattle.std.specs.Prelude.{◌≡◌, ◌≢◌, ◌+◌, ◌<◌, ◌≤◌, ◌^◌, ◌==◌, min, not, IsTrue, IfErr, OnOk};
ghost use Rattle.colo_base.specs.Clock.{ClockState};
ghost use Rattle.file_steps.specs.Steps.{outside};
ghost use Rattle.serve_rounds.specs.Rounds.{asks, deliveries, elapsed, first_turn, is_due, most_delivered, second_turn, stops, turns};
ghost use Rattle.serve_rounds.specs.Serving.{CanStop, Halts, Went, moment};

use crate::lines::serve_times;
use crate::server::{Output, Server};
use colo_base::{Clock, Link, Shelf};
use colo_words::Options;
use file_steps::{Fault, read_clock};
use pair_core::Pair;
use replay_log::Line;
use state_wire::Guest;

/// How many messages of a link are delivered in a round at most.
const MOST_DELIVERED: usize = 1_000_000;

/// The clock since a node's line before.
fn elapsed(before: u64, now: u64) -> u32
    ensures { result ≡ elapsed before now }
{
    now.saturating_sub(before).min(u64::from(u32::MAX)) as u32
}

/// Whether another round than this one is that of the stop.
fn is_other(round: u64, stop: u32) -> bool
    ensures { result ≡ not (round == stop) }
{
    round != u64::from(stop)
}

/// Whether no checkpoint is due in a round.
fn is_not_due(every: u32, round: u64) -> bool
    ensures { result ≡ not (is_due every round) }
{
    every == 0 || round % u64::from(every) != 0
}

/// Stops the primary and reports it, where that is due.
pub(crate) fn stop<S: Shelf, L: Link, G: Guest + Drop>(
    output: Output,
    shelf: &mut S,
    link: &mut L,
    pair: &mut Pair<G>,
    server: &mut Server,
    options: &Options,
) -> Result<(), Fault>
    requires opened { IsTrue (L.state link.old).opened }
    requires counted { pair.old.steps + 2 < 2 ^ 63 }
    requires can_stop { server.old.round ≡ options.now.stop → CanStop pair.old }
    requires lines { server.old.counts.lines ≡ pair.old.steps }
    ensures goes { (k : ClockState) → OnOk result (Went G.meaning output.entry.out.now
        (stops options.now)
        (moment server.old pair.old (outside (S.state shelf.old) (L.state link.old) k))
        (moment server.new pair.new (outside (S.state shelf.new) (L.state link.new) k))) }
    ensures halts { (k : ClockState) → IfErr result (Halts G.meaning output.entry.out.now
        (stops options.now)
        (moment server.old pair.old (outside (S.state shelf.old) (L.state link.old) k))
        (outside (S.state shelf.new) (L.state link.new) k)) }
    ensures opened { OnOk result (IsTrue (L.state link.new).opened) }
    ensures can_stop { OnOk result (server.old.round ≢ options.now.stop → CanStop pair.old
        → CanStop pair.new) }
    ensures few { OnOk result (pair.new.steps ≤ pair.old.steps + 2) }
    ensures round { server.new.round ≡ server.old.round }
    ensures unframer { server.new.unframer ≡ server.old.unframer }
    ensures lines { OnOk result (server.new.counts.lines ≡ pair.new.steps) }
{
    if is_other(server.round, options.stop) {
        return Ok(());
    }
    let counts = server.counts;
    let counts = serve_times(output, shelf, link, pair, counts, &Line::StopPrimary, 1)?;
    let counts = serve_times(output, shelf, link, pair, counts, &Line::Report, 1)?;
    server.counts = counts;
    Ok(())
}

/// Asks for a checkpoint, where one is due.
fn ask<S: Shelf, L: Link, G: Guest + Drop>(
    output: Output,
    shelf: &mut S,
    link: &mut L,
    pair: &mut Pair<G>,
    server: &mut Server,
    options: &Options,
) -> Result<(), Fault>
    requires opened { IsTrue (L.state link.old).opened }
    requires counted { pair.old.steps + 1 < 2 ^ 63 }
    requires lines { server.old.counts.lines ≡ pair.old.steps }
    ensures goes { (k : ClockState) → OnOk result (Went G.meaning output.entry.out.now
        (asks options.now)
        (moment server.old pair.old (outside (S.state shelf.old) (L.state link.old) k))
        (moment server.new pair.new (outside (S.state shelf.new) (L.state link.new) k))) }
    ensures halts { (k : ClockState) → IfErr result (Halts G.meaning output.entry.out.now
        (asks options.now)
        (moment server.old pair.old (outside (S.state shelf.old) (L.state link.old) k))
        (outside (S.state shelf.new) (L.state link.new) k)) }
    ensures opened { OnOk result (IsTrue (L.state link.new).opened) }
    ensures can_stop { OnOk result (CanStop pair.old → CanStop pair.new) }
    ensures few { OnOk result (pair.new.steps ≤ pair.old.steps + 1) }
    ensures round { server.new.round ≡ server.old.round }
    ensures unframer { server.new.unframer ≡ server.old.unframer }
    ensures lines { OnOk result (server.new.counts.lines ≡ pair.new.steps) }
{
    if is_not_due(options.every, server.round) {
        return Ok(());
    }
    let counts = serve_times(output, shelf, link, pair, server.counts, &Line::Ask, 1)?;
    server.counts = counts;
    Ok(())
}

/// A turn of the primary, after a reading of the clock.
fn first_turn<S: Shelf, L: Link, K: Clock, G: Guest + Drop>(
    output: Output,
    shelf: &mut S,
    link: &mut L,
    clock: &mut K,
    pair: &mut Pair<G>,
    server: &mut Server,
    options: &Options,
) -> Result<(), Fault>
    requires opened { IsTrue (L.state link.old).opened }
    requires limits { options.now.steps ≤ 100000 }
    requires counted { pair.old.steps + 1 < 2 ^ 63 }
    requires lines { server.old.counts.lines ≡ pair.old.steps }
    ensures goes { OnOk result (Went G.meaning output.entry.out.now
        (first_turn options.now)
        (moment server.old pair.old (outside (S.state shelf.old) (L.state link.old)
        (K.state clock.old)))
        (moment server.new pair.new (outside (S.state shelf.new) (L.state link.new)
        (K.state clock.new)))) }
    ensures halts { IfErr result (Halts G.meaning output.entry.out.now
        (first_turn options.now)
        (moment server.old pair.old (outside (S.state shelf.old) (L.state link.old)
        (K.state clock.old)))
        (outside (S.state shelf.new) (L.state link.new)
        (K.state clock.new))) }
    ensures opened { OnOk result (IsTrue (L.state link.new).opened) }
    ensures can_stop { OnOk result (CanStop pair.old → CanStop pair.new) }
    ensures few { OnOk result (pair.new.steps ≤ pair.old.steps + 1) }
    ensures round { server.new.round ≡ server.old.round }
    ensures unframer { server.new.unframer ≡ server.old.unframer }
    ensures lines { OnOk result (server.new.counts.lines ≡ pair.new.steps) }
{
    let tick = read_clock(clock);
    let line = Line::Primary {
        d: elapsed(server.first_tick, tick),
        i: true,
        b: 8,
        n: options.steps,
    };
    server.first_tick = tick;
    let counts = serve_times(output, shelf, link, pair, server.counts, &line, 1)?;
    server.counts = counts;
    Ok(())
}

/// A turn of the secondary, after a reading of the clock.
fn second_turn<S: Shelf, L: Link, K: Clock, G: Guest + Drop>(
    output: Output,
    shelf: &mut S,
    link: &mut L,
    clock: &mut K,
    pair: &mut Pair<G>,
    server: &mut Server,
    options: &Options,
) -> Result<(), Fault>
    requires opened { IsTrue (L.state link.old).opened }
    requires limits { options.now.steps ≤ 100000 }
    requires counted { pair.old.steps + 1 < 2 ^ 63 }
    requires lines { server.old.counts.lines ≡ pair.old.steps }
    ensures goes { OnOk result (Went G.meaning output.entry.out.now
        (second_turn options.now)
        (moment server.old pair.old (outside (S.state shelf.old) (L.state link.old)
        (K.state clock.old)))
        (moment server.new pair.new (outside (S.state shelf.new) (L.state link.new)
        (K.state clock.new)))) }
    ensures halts { IfErr result (Halts G.meaning output.entry.out.now
        (second_turn options.now)
        (moment server.old pair.old (outside (S.state shelf.old) (L.state link.old)
        (K.state clock.old)))
        (outside (S.state shelf.new) (L.state link.new)
        (K.state clock.new))) }
    ensures opened { OnOk result (IsTrue (L.state link.new).opened) }
    ensures can_stop { OnOk result (CanStop pair.old → CanStop pair.new) }
    ensures few { OnOk result (pair.new.steps ≤ pair.old.steps + 1) }
    ensures round { server.new.round ≡ server.old.round }
    ensures unframer { server.new.unframer ≡ server.old.unframer }
    ensures lines { OnOk result (server.new.counts.lines ≡ pair.new.steps) }
{
    let tick = read_clock(clock);
    let line = Line::Secondary {
        d: elapsed(server.second_tick, tick),
        i: true,
        b: 8,
        n: options.steps,
    };
    server.second_tick = tick;
    let counts = serve_times(output, shelf, link, pair, server.counts, &line, 1)?;
    server.counts = counts;
    Ok(())
}

/// So many messages, or as many as are delivered at most.
fn at_most(waiting: usize) -> usize
    ensures value { result ≡ min waiting most_delivered }
    ensures bound { result ≤ 1000000 }
{
    waiting.min(MOST_DELIVERED)
}

/// Delivers the messages that wait on both links at this moment.
fn deliver<S: Shelf, L: Link, G: Guest + Drop>(
    output: Output,
    shelf: &mut S,
    link: &mut L,
    pair: &mut Pair<G>,
    server: &mut Server,
) -> Result<(), Fault>
    requires opened { IsTrue (L.state link.old).opened }
    requires counted { pair.old.steps + 2000000 < 2 ^ 63 }
    requires lines { server.old.counts.lines ≡ pair.old.steps }
    ensures goes { (k : ClockState) → OnOk result (Went G.meaning output.entry.out.now
        deliveries
        (moment server.old pair.old (outside (S.state shelf.old) (L.state link.old) k))
        (moment server.new pair.new (outside (S.state shelf.new) (L.state link.new) k))) }
    ensures halts { (k : ClockState) → IfErr result (Halts G.meaning output.entry.out.now
        deliveries
        (moment server.old pair.old (outside (S.state shelf.old) (L.state link.old) k))
        (outside (S.state shelf.new) (L.state link.new) k)) }
    ensures opened { OnOk result (IsTrue (L.state link.new).opened) }
    ensures can_stop { OnOk result (CanStop pair.old → CanStop pair.new) }
    ensures few { OnOk result (pair.new.steps ≤ pair.old.steps + 2000000) }
    ensures round { server.new.round ≡ server.old.round }
    ensures unframer { server.new.unframer ≡ server.old.unframer }
    ensures lines { OnOk result (server.new.counts.lines ≡ pair.new.steps) }
{
    let (down, up) = pair.waiting();
    let down = at_most(down);
    let up = at_most(up);
    let counts = server.counts;
    let counts = serve_times(output, shelf, link, pair, counts, &Line::ToSecondary, down)?;
    let counts = serve_times(output, shelf, link, pair, counts, &Line::ToPrimary, up)?;
    server.counts = counts;
    Ok(())
}

/// What follows the receive of a round.
pub(crate) fn turns<S: Shelf, L: Link, K: Clock, G: Guest + Drop>(
    output: Output,
    shelf: &mut S,
    link: &mut L,
    clock: &mut K,
    pair: &mut Pair<G>,
    server: &mut Server,
    options: &Options,
) -> Result<(), Fault>
    requires opened { IsTrue (L.state link.old).opened }
    requires limits { options.now.steps ≤ 100000 }
    requires counted { pair.old.steps + 2000003 < 2 ^ 63 }
    requires lines { server.old.counts.lines ≡ pair.old.steps }
    requires round { server.old.round < 2 ^ 63 }
    ensures goes { OnOk result (Went G.meaning output.entry.out.now
        (turns options.now)
        (moment server.old pair.old (outside (S.state shelf.old) (L.state link.old)
        (K.state clock.old)))
        (moment server.new pair.new (outside (S.state shelf.new) (L.state link.new)
        (K.state clock.new)))) }
    ensures halts { IfErr result (Halts G.meaning output.entry.out.now
        (turns options.now)
        (moment server.old pair.old (outside (S.state shelf.old) (L.state link.old)
        (K.state clock.old)))
        (outside (S.state shelf.new) (L.state link.new)
        (K.state clock.new))) }
    ensures opened { OnOk result (IsTrue (L.state link.new).opened) }
    ensures can_stop { OnOk result (CanStop pair.old → CanStop pair.new) }
    ensures few { OnOk result (pair.new.steps ≤ pair.old.steps + 2000003) }
    ensures lines { OnOk result (server.new.counts.lines ≡ pair.new.steps) }
    ensures round { OnOk result (server.new.round ≡ server.old.round + 1) }
    ensures unframer { OnOk result (server.new.unframer ≡ server.old.unframer) }
{
    ask(output, shelf, link, pair, server, options)?;
    first_turn(output, shelf, link, clock, pair, server, options)?;
    second_turn(output, shelf, link, clock, pair, server, options)?;
    deliver(output, shelf, link, pair, server)?;
    server.round += 1;
    Ok(())
}
