//! The rounds of a run on a live link.

ghost use Rattle.std.specs.Prelude.{◌≡◌, ◌+◌, ◌<◌, ◌≤◌, ◌^◌, false, IsTrue, IfOk, IfErr, OnOk, length, string_bytes, take};
ghost use Rattle.colo_base.specs.Clock.{ClockState};
ghost use Rattle.colo_base.specs.Link.{LinkState};
ghost use Rattle.file_steps.specs.Steps.{outside};
ghost use Rattle.file_steps.specs.Plans.{done};
ghost use Rattle.pair_core.specs.Pair.{pair_of};
ghost use Rattle.command_plans.specs.Steps.{IsCounted};
ghost use Rattle.serve_rounds.specs.Rounds.{Serving, finishes, round, rounds, serve, start};
ghost use Rattle.serve_rounds.specs.Serving.{CanStop, Halts, Holds, IsDone, IsHeld, WentOrClosed, moment};
ghost use Rattle.serve_rounds.specs.Work.{EndsWith, IsStopped};

use crate::hearing::{judge_end, tell};
use crate::server::{Output, ROOM, Server};
use crate::turns::{stop, turns};
use colo_base::{Clock, Heard, Link, Shelf};
use colo_words::Options;
use command_plans::{Counts, REPLAY_FILES, summary, write_state};
use file_steps::{Fault, connect, create_all, hear, read_clock};
use pair_core::Pair;
use state_wire::Guest;
use std::alloc::Global;

/// The first bytes of a room, or all where there are fewer.
#[tactic(auto, using(std::proofs::lemmas::List::take_all))]
fn front(room: &[u8], taken: usize) -> &[u8]
    ensures bytes { result.now ≡ take taken room.now }
    ensures small { length result.now ≤ length room.now }
{
    if taken < room.len() {
        &room[..taken]
    } else {
        room
    }
}

/// Makes one round. Gives whether the run is over.
fn make_round<S: Shelf, L: Link, K: Clock, G: Guest + Drop>(
    output: Output,
    shelf: &mut S,
    link: &mut L,
    clock: &mut K,
    pair: &mut Pair<G>,
    server: &mut Server,
    options: &Options,
) -> Result<bool, Fault>
    requires opened { IsTrue (L.state link.old).opened }
    requires limits { options.now.steps ≤ 100000 }
    requires counted { pair.old.steps + 2100000 < 2 ^ 63 }
    requires fed { server.old.unframer.fed + 65536 < 2 ^ 63 }
    requires round { server.old.round < 2 ^ 63 }
    requires lines { server.old.counts.lines ≡ pair.old.steps }
    requires held { IsHeld G.meaning server.old pair.old }
    requires can_stop { server.old.round ≤ options.now.stop → CanStop pair.old }
    ensures goes { IfOk result (WentOrClosed G.meaning output.entry.out.now (round options.now)
        (moment server.old pair.old (outside (S.state shelf.old) (L.state link.old)
        (K.state clock.old)))
        (moment server.new pair.new (outside (S.state shelf.new) (L.state link.new)
        (K.state clock.new)))) }
    ensures halts { IfErr result (Halts G.meaning output.entry.out.now (round options.now)
        (moment server.old pair.old (outside (S.state shelf.old) (L.state link.old)
        (K.state clock.old)))
        (outside (S.state shelf.new) (L.state link.new)
        (K.state clock.new))) }
    ensures opened { IfOk result (λ over. over ≡ false → IsTrue (L.state link.new).opened) }
    ensures few { IfOk result (λ over. over ≡ false → pair.new.steps ≤ pair.old.steps + 2100000) }
    ensures fed { IfOk result (λ over. over ≡ false
        → server.new.unframer.fed ≤ server.old.unframer.fed + 65536) }
    ensures round { IfOk result (λ over. over ≡ false → server.new.round ≡ server.old.round + 1) }
    ensures lines { IfOk result (λ over. over ≡ false → server.new.counts.lines ≡ pair.new.steps) }
    ensures can_stop { IfOk result (λ over. over ≡ false
        → server.new.round ≤ options.now.stop → CanStop pair.new) }
{
    stop(output, shelf, link, pair, server, options)?;
    let mut room = [0; ROOM];
    let heard = hear(link, &mut room)?;
    match heard {
        Heard::Took(taken) => {
            tell(output, shelf, link, pair, server, front(&room, taken))?;
            turns(output, shelf, link, clock, pair, server, options)?;
            Ok(false)
        }
        Heard::Quiet => {
            turns(output, shelf, link, clock, pair, server, options)?;
            Ok(false)
        }
        Heard::Ended => {
            judge_end(&server.unframer)?;
            Ok(true)
        }
    }
}

/// Makes the rounds, up to the last or to the end of the stream.
fn make_rounds<S: Shelf, L: Link, K: Clock, G: Guest + Drop>(
    output: Output,
    shelf: &mut S,
    link: &mut L,
    clock: &mut K,
    pair: &mut Pair<G>,
    server: &mut Server,
    options: &Options,
) -> Result<(), Fault>
    requires opened { IsTrue (L.state link.old).opened }
    requires limits { options.now.steps ≤ 100000 }
    requires fresh { pair.old.steps ≡ 0 }
    requires going { CanStop pair.old }
    requires holds { Holds G.meaning server.old pair.old
        (start options.now (pair_of G.meaning pair.old) server.old.first_tick) }
    ensures over { OnOk result (IsDone G.meaning output.entry.out.now
        (rounds options.now options.now.rounds
        (start options.now (pair_of G.meaning pair.old) server.old.first_tick))
        (outside (S.state shelf.old) (L.state link.old)
        (K.state clock.old))
        (moment server.new pair.new (outside (S.state shelf.new) (L.state link.new)
        (K.state clock.new)))) }
    ensures halts { IfErr result (IsStopped output.entry.out.now
        (rounds options.now options.now.rounds
        (start options.now (pair_of G.meaning pair.old) server.old.first_tick))
        (outside (S.state shelf.old) (L.state link.old)
        (K.state clock.old))
        (outside (S.state shelf.new) (L.state link.new)
        (K.state clock.new))) }
{
    for _ in 0..options.rounds {
        let over = make_round(output, shelf, link, clock, pair, server, options)?;
        if over {
            return Ok(());
        }
    }
    Ok(())
}

/// Writes memory and disk of the survivor, and gives the line to print.
fn finish<S: Shelf, G: Guest + Drop>(
    output: Output,
    shelf: &mut S,
    pair: &Pair<G>,
    counts: Counts,
) -> Result<String, Fault>
    ensures line { (s : Serving) (l : LinkState) (k : ClockState)
        → pair_of G.meaning pair.now ≡ s.pair → IsCounted s.made counts
        → IfOk result (λ line. EndsWith output.entry.out.now (finishes s) (done (string_bytes line))
        (outside (S.state shelf.old) l k) (outside (S.state shelf.new) l k)) }
    ensures stops { (s : Serving) (l : LinkState) (k : ClockState)
        → pair_of G.meaning pair.now ≡ s.pair → IfErr result (IsStopped output.entry.out.now
        (finishes s) (outside (S.state shelf.old) l k) (outside (S.state shelf.new) l k)) }
{
    let line = summary(output.alloc, counts)?;
    write_state(output.alloc, shelf, output.out, pair.survivor())?;
    Ok(line)
}

/// Runs a pair on a live link, and writes the files of the run. Gives the line to print.
pub fn run_rounds<S: Shelf, L: Link, K: Clock, G: Guest + Drop>(
    alloc: Global,
    shelf: &mut S,
    link: &mut L,
    clock: &mut K,
    out: &str,
    address: &str,
    pair: &mut Pair<G>,
    options: &Options,
) -> Result<String, Fault>
    requires fresh { pair.old.steps ≡ 0 }
    requires going { CanStop pair.old }
    requires limits { options.now.steps ≤ 100000 }
    ensures line { IfOk result (λ line. EndsWith out.now
        (serve options.now (pair_of G.meaning pair.old) address.now) (done (string_bytes line))
        (outside (S.state shelf.old) (L.state link.old) (K.state clock.old))
        (outside (S.state shelf.new) (L.state link.new) (K.state clock.new))) }
    ensures stops { IfErr result (IsStopped out.now
        (serve options.now (pair_of G.meaning pair.old) address.now)
        (outside (S.state shelf.old) (L.state link.old) (K.state clock.old))
        (outside (S.state shelf.new) (L.state link.new) (K.state clock.new))) }
{
    create_all(alloc, shelf, out, &REPLAY_FILES)?;
    connect(link, address)?;
    let tick = read_clock(clock);
    let mut server = Server::new(alloc, tick);
    let output = Output { alloc, out };
    make_rounds(output, shelf, link, clock, pair, &mut server, options)?;
    finish(output, shelf, pair, server.counts)
}
