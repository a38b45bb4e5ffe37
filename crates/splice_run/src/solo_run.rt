//! The single run, made again by one machine.

ghost use Rattle.std.specs.Prelude.{◌≡◌, length, if◌then◌else◌, All, IfErr, IfOk, IfSome, IsSome, OnOk};
ghost use Rattle.frame_mirror.specs.Accepted.{entry_of};
ghost use Rattle.frame_mirror.specs.Laws.{IsKept};
ghost use Rattle.indexmap.specs.IndexMap.{get};
ghost use Rattle.inet_frame.specs.Counted.{tcp_in};
ghost use Rattle.seq_rewriter.specs.Given.{raise_frame};
ghost use Rattle.state_wire.specs.Guest.{BeginsWith};
ghost use Rattle.tcp_track.specs.Segments.{same_tuple};
ghost use Rattle.splice_run.specs.Openings.{KnowsOpenings, opening_at};
ghost use Rattle.splice_run.specs.Runs.{accepted_frame, frame_index, frame_seen, kept_of, stream_frame};
ghost use Rattle.splice_run.specs.Solo.{HasMade, IsInLimits, Stops, can_make, run_of, sender, sender_after};

use crate::openings::{Openings, note_frames, opening_at};
use colo_base::{Contents, Frames, NoMemory};
use frame_mirror::{Entry, accept};
use indexmap::IndexMap;
use replay_log::{Turn, TurnFrame};
use seq_rewriter::inward;
use state_wire::Guest;
use std::alloc::Global;
use tcp_track::Opening;

/// Why a machine stops before the end of a single run.
#[derive(Clone, Copy, Debug, PartialEq, Eq)]
pub enum SoloFault {
    /// The turn with this number, counted from 1, names a frame that the client stream doesn't
    /// have, that isn't accepted, or that the guest can't receive.
    NoFrame { turn: u64 },
    /// An allocation was refused.
    NoMemory,
}

impl From<NoMemory> for SoloFault {
    ghost use Rattle.splice_run.specs.declared.solo_run.SoloFault.TheVariants as variant;

    ghost from_gives = { λ _ fault. fault ≡ variant.NoMemory };

    fn from(_: NoMemory) -> SoloFault {
        SoloFault::NoMemory
    }
}

/// The index of the frame that a turn names.
fn frame_index(frame: TurnFrame) -> Option<u64>
    ensures { result ≡ frame_index frame }
{
    match frame {
        TurnFrame::Absent => None,
        TurnFrame::Plain { index } | TurnFrame::Seen { index, .. } => Some(index),
    }
}

/// The opening that the frame's client had seen.
fn frame_seen(frame: TurnFrame) -> Option<Opening>
    ensures { result ≡ frame_seen frame }
{
    match frame {
        TurnFrame::Absent | TurnFrame::Plain { .. } => None,
        TurnFrame::Seen { opening, .. } => Some(opening),
    }
}

/// What is kept of a frame. None where it isn't accepted.
fn keep(alloc: Global, frame: &[u8]) -> Result<Option<Contents>, NoMemory>
    ensures value { IfOk result (λ kept. kept ≡ kept_of (entry_of frame.now)) }
    ensures clean { IfOk result (λ kept. IfSome kept (IsKept frame.now)) }
{
    match accept(alloc, frame)? {
        Entry::Frame(kept) => Ok(Some(kept)),
        Entry::Answer(_) | Entry::Drop(_) => Ok(None),
    }
}

/// What is kept of a frame of the stream. None where it isn't there, or isn't accepted.
#[tactic(auto, unfolding(crate::specs::Runs::accepted_frame))]
fn accepted_frame(alloc: Global, client: &Frames, index: u64) -> Result<Option<Contents>, NoMemory>
    ensures value { IfOk result (λ kept. kept ≡ accepted_frame client.now index) }
    ensures clean { IfOk result (λ kept. IfSome kept (IsKept (stream_frame client.now index))) }
{
    let Some(frame) = client.get(index as usize) else {
        return Ok(None);
    };
    keep(alloc, frame)
}

/// An accepted frame as it is given to a guest with these openings.
fn raise(kept: Contents, openings: &Openings, seen: Option<Opening>) -> Vec<u8>
    requires { IsSome (tcp_in kept) }
    ensures value { result.items
        ≡ raise_frame kept seen (opening_at (get same_tuple openings.now) (tcp_in kept)) }
    ensures size { length result.items ≡ length kept }
{
    let mut frame = kept.into_vec();
    let current = opening_at(openings, frame.as_slice());
    inward(frame.as_mut_slice(), seen, current);
    frame
}

/// Makes a turn. `false` where it can't be made; then nothing changes.
fn make_turn<G: Guest>(
    alloc: Global,
    machine: &mut G,
    client: &Frames,
    openings: &Openings,
    turn: &Turn,
    out: &mut Frames,
) -> Result<bool, NoMemory>
    requires limits { IsInLimits turn.now }
    requires known { KnowsOpenings (get same_tuple openings.now) out.old }
    ensures can { IfOk result (λ made. made
        ≡ can_make (G.meaning machine.old).kind client.now
        (run_of (sender (G.meaning machine.old) out.old)) turn.now) }
    ensures after { IfOk result (λ made. sender (G.meaning machine.new) out.new
        ≡ (if made then sender_after client.now (sender (G.meaning machine.old) out.old) turn.now
        else sender (G.meaning machine.old) out.old)) }
    ensures kind { (G.meaning machine.new).kind ≡ (G.meaning machine.old).kind }
    ensures front { BeginsWith out.new out.old }
{
    let Some(index) = frame_index(turn.frame) else {
        machine.turn(turn.d as u64, None, turn.b, turn.n, out)?;
        return Ok(true);
    };
    let Some(kept) = accepted_frame(alloc, client, index)? else {
        return Ok(false);
    };
    if !machine.can_receive() {
        return Ok(false);
    }
    let frame = raise(kept, openings, frame_seen(turn.frame));
    machine.turn(turn.d as u64, Some(frame.as_slice()), turn.b, turn.n, out)?;
    Ok(true)
}

/// Makes the turns of a single run, one after the other, on one machine: what they send is added to
/// `out`, which holds what the machine sent before. A turn that names a frame is given that frame
/// of the client stream, clean, and with its acknowledgement raised where an opening seen is named.
///
/// `NoFrame` comes exactly where a turn names a frame that the stream doesn't have, that isn't
/// accepted, or that the guest can't receive; the first turn has number 1. Then the turns before it
/// are made, and no more. After `NoMemory` `out` begins with what it held, and nothing is said of
/// the machine's state. There are at most 256 requests and 100,000 steps in each turn.
pub fn solo<G: Guest>(
    alloc: Global,
    machine: &mut G,
    client: &Frames,
    turns: &[Turn],
    out: &mut Frames,
) -> Result<(), SoloFault>
    requires { All IsInLimits turns.now }
    ensures made { OnOk result (HasMade client.now (sender (G.meaning machine.old) out.old)
        (sender (G.meaning machine.new) out.new) turns.now) }
    ensures stops { IfErr result (λ fault. Stops client.now
        (sender (G.meaning machine.old) out.old) (sender (G.meaning machine.new) out.new)
        turns.now fault) }
    ensures front { BeginsWith out.new out.old }
{
    let mut openings = IndexMap::new(alloc);
    note_frames(&mut openings, out, 0)?;
    for (k, turn) in turns.iter().enumerate() {
        let before = out.len();
        if !make_turn(alloc, machine, client, &openings, turn, out)? {
            return Err(SoloFault::NoFrame { turn: k as u64 + 1 });
        }
        note_frames(&mut openings, out, before)?;
    }
    Ok(())
}
