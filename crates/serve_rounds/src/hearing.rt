//! The bytes that come over the link, and a line `c` for each frame that they complete.

ghost use Rattle.std.specs.Prelude.{◌≡◌, ◌≢◌, ◌+◌, ◌<◌, ◌≤◌, ◌^◌, ◌++◌, [], false, true, None, IsTrue, IfOk, IfErr, IfSome, OnOk, OnErr, length};
ghost use Rattle.colo_base.specs.Clock.{ClockState};
ghost use Rattle.file_steps.specs.Steps.{outside};
ghost use Rattle.sock_link.specs.Stream.{is_too_long};
ghost use Rattle.sock_link.specs.Unframed.{Feeds};
ghost use Rattle.pair_core.specs.Pair.{pair_of};
ghost use Rattle.serve_rounds.specs.Rounds.{tells};
ghost use Rattle.serve_rounds.specs.Serving.{CanStop, Halts, IsHeld, IsRefusedAt, Went, moment};

use crate::lines::serve_times;
use crate::server::{Output, Server};
use colo_base::{Link, NoMemory, Shelf};
use command_inputs::client_refusal;
use file_steps::Fault;
use pair_core::Pair;
use replay_log::Line;
use sock_link::{LinkFault, Unframer};
use state_wire::Guest;

/// Takes bytes in. Where a length above the limit has come, the place of its record is given.
fn feed(unframer: &mut Unframer, piece: &[u8]) -> Result<Option<u64>, NoMemory>
    requires { unframer.old.fed + length piece.now < 2 ^ 63 }
    ensures feeds { OnOk result (Feeds unframer.old unframer.new piece.now) }
    ensures short { IfOk result (λ place. place ≡ None → is_too_long unframer.new.part ≡ false) }
    ensures long { IfOk result (λ place. IfSome place (λ at.
        (is_too_long unframer.new.part ≡ true) × (at ≡ unframer.new.place))) }
{
    match unframer.feed(piece) {
        Ok(()) => Ok(None),
        Err(LinkFault::TooLong { at }) => Ok(Some(at)),
        Err(LinkFault::NoMemory) => Err(NoMemory),
    }
}

/// Gives the pair the frames that wait, and says how many.
fn offer_all<G: Guest + Drop>(
    pair: &mut Pair<G>,
    unframer: &mut Unframer,
) -> Result<usize, NoMemory>
    requires { length unframer.old.frames < 2 ^ 63 }
    ensures count { IfOk result (λ count. count ≡ length unframer.old.frames) }
    ensures pair { OnOk result (pair_of G.meaning pair.new
        ≡ record (pair_of G.meaning pair.old) {
          frames = pair.old.frames ++ unframer.old.frames;
        }) }
    ensures steps { OnOk result (pair.new.steps ≡ pair.old.steps) }
    ensures taken { OnOk result (unframer.new ≡ record unframer.old { frames = [] }) }
{
    let mut count = 0;
    while let Some(frame) = unframer.next_frame()? {
        pair.offer(&frame)?;
        count += 1;
    }
    Ok(count)
}

/// Takes bytes in, and makes a line `c` for each frame that they complete.
/// A length above the limit refuses the run after that.
pub(crate) fn tell<S: Shelf, L: Link, G: Guest + Drop>(
    output: Output,
    shelf: &mut S,
    link: &mut L,
    pair: &mut Pair<G>,
    server: &mut Server,
    piece: &[u8],
) -> Result<(), Fault>
    requires opened { IsTrue (L.state link.old).opened }
    requires room { length piece.now ≤ 65536 }
    requires counted { pair.old.steps + 65536 < 2 ^ 63 }
    requires fed { server.old.unframer.fed + 65536 < 2 ^ 63 }
    requires lines { server.old.counts.lines ≡ pair.old.steps }
    requires held { IsHeld G.meaning server.old pair.old }
    ensures goes { (k : ClockState) → OnOk result (Went G.meaning output.entry.out.now
        (tells piece.now)
        (moment server.old pair.old (outside (S.state shelf.old) (L.state link.old) k))
        (moment server.new pair.new (outside (S.state shelf.new) (L.state link.new) k))) }
    ensures halts { (k : ClockState) → IfErr result (Halts G.meaning output.entry.out.now
        (tells piece.now)
        (moment server.old pair.old (outside (S.state shelf.old) (L.state link.old) k))
        (outside (S.state shelf.new) (L.state link.new) k)) }
    ensures opened { OnOk result (IsTrue (L.state link.new).opened) }
    ensures can_stop { OnOk result (CanStop pair.old → CanStop pair.new) }
    ensures few { OnOk result (pair.new.steps ≤ pair.old.steps + 65536) }
    ensures lines { OnOk result (server.new.counts.lines ≡ pair.new.steps) }
    ensures round { OnOk result (server.new.round ≡ server.old.round) }
    ensures fed { OnOk result (server.new.unframer.fed ≤ server.old.unframer.fed + 65536) }
{
    let long = feed(&mut server.unframer, piece)?;
    let frames = offer_all(pair, &mut server.unframer)?;
    let counts = serve_times(
        output,
        shelf,
        link,
        pair,
        server.counts,
        &Line::Client,
        frames,
    )?;
    server.counts = counts;
    match long {
        None => Ok(()),
        Some(place) => Err(Fault::Refused(client_refusal(place))),
    }
}

/// Judges the end of the stream: a record of which not all bytes came refuses the run.
pub(crate) fn judge_end(unframer: &Unframer) -> Result<(), Fault>
    ensures whole { OnOk result (unframer.now.part ≡ []) }
    ensures broken { OnErr result (unframer.now.part ≢ []) }
    ensures place { IfErr result (IsRefusedAt unframer.now.place) }
{
    if unframer.at_boundary() {
        Ok(())
    } else {
        Err(Fault::Refused(client_refusal(unframer.place())))
    }
}
