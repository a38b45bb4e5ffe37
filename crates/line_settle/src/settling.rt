//! The four rules of settling one connection.

ghost use Rattle.std.specs.Prelude.{◌≡◌, ◌≤◌, ◌<◌, ◌++◌, ◌&&◌, ◌||◌, not, is_some, true, map, OnOk, OnErr};
ghost use Rattle.line_release.specs.Both.{both_of};
ghost use Rattle.shared_definitions.specs.Begins.{Begins};
ghost use Rattle.line_match.specs.Untrimmed.{IsUntrimmed};
ghost use Rattle.settle_rules.specs.Matching.{client_or_zero, matched_end};
ghost use Rattle.settle_rules.specs.Release.{released_frame, release_bare};
ghost use Rattle.settle_rules.specs.Settle.{settle_one, settle_or_rest, new_edge, shown_after, grow_older};
ghost use Rattle.line_settle.specs.Parts.{plain_out, settled_progress, grow_if_turn, symbols_out, bare_goes, reset_goes, refusal_goes, last_after, all_out};
ghost use Rattle.line_settle.specs.ProgressFields.{ack_window_of};

use crate::due::{client_or_zero, new_edge, refusal_goes, reset_goes, wants_bare};
use crate::parts::{release_agreed, release_refusal};
use crate::progress::{AgeBasis, LastAck, Progress, age_after};
use colo_base::{Frames, NoMemory};
use line_match::{is_unmatched, matched_end};
use line_release::Both;
use std::alloc::Global;
use tcp_track::{Offset, Opening, Took};

/// Releases symbols, and where there are none a segment without symbols if that is wanted.
#[tactic(auto, unfolding(crate::specs::Parts::symbols_out, crate::specs::Parts::bare_goes))]
fn release_bytes(
    alloc: Global,
    both: &Both,
    progress: &Progress,
    edge: Offset,
    tooks: &[Took],
    shown: &mut Option<Opening>,
    out: &mut Frames,
) -> Result<(), NoMemory>
    requires untrimmed { IsUntrimmed both.now.mine.now progress.now.edge }
    requires edge { edge ≡ new_edge (both_of both.now) progress.now.edge }
    requires after { progress.now.edge ≤ edge }
    requires opened { progress.now.edge < edge → is_some both.now.mine.now.opening ≡ true }
    ensures ok { OnOk result (out.new ≡ out.old
        ++ map released_frame (symbols_out (both_of both.now) progress.now tooks.now
        ++ release_bare (both_of both.now) edge
        (bare_goes (both_of both.now) progress.now tooks.now))) }
    ensures shown { OnOk result (shown.new
        ≡ shown_after (client_or_zero (both_of both.now).mine.opening) shown.old
        (symbols_out (both_of both.now) progress.now tooks.now)) }
    ensures err { OnErr result (Begins out.old out.new) }
{
    let start = out.len();
    release_agreed(alloc, both, progress.edge, edge, tooks, shown, out)?;
    let nothing = out.len() == start;
    let bare = nothing && (edge > 0 && wants_bare(both, progress.edge, progress.last, tooks));
    both.release_bare(alloc, edge, bare, out)
}

/// Releases all but a refusal.
#[tactic(auto, unfolding(crate::specs::Parts::plain_out))]
fn release_plain(
    alloc: Global,
    both: &Both,
    progress: &Progress,
    edge: Offset,
    tooks: &[Took],
    shown: &mut Option<Opening>,
    out: &mut Frames,
) -> Result<(), NoMemory>
    requires untrimmed { IsUntrimmed both.now.mine.now progress.now.edge }
    requires edge { edge ≡ new_edge (both_of both.now) progress.now.edge }
    requires after { progress.now.edge ≤ edge }
    requires opened { progress.now.edge < edge → is_some both.now.mine.now.opening ≡ true }
    ensures ok { OnOk result (out.new ≡ out.old
        ++ map released_frame (plain_out (both_of both.now) progress.now tooks.now)) }
    ensures shown { OnOk result (shown.new
        ≡ shown_after (client_or_zero (both_of both.now).mine.opening) shown.old
        (plain_out (both_of both.now) progress.now tooks.now)) }
    ensures err { OnErr result (Begins out.old out.new) }
{
    let resets = reset_goes(both, progress.reset_due, edge);
    release_bytes(alloc, both, progress, edge, tooks, shown, out)?;
    both.release_reset(alloc, edge, resets, out)?;
    Ok(())
}

/// What was last released, where anything but a refusal was, or as it was.
fn last_after(both: &Both, last: Option<LastAck>, nothing: bool) -> Option<LastAck>
    ensures { ack_window_of result ≡ last_after (both_of both.now) (ack_window_of last) nothing }
{
    if nothing {
        return last;
    }
    Some(LastAck {
        ack: both.agreed_ack(),
        window: both.agreed_window(),
    })
}

/// Notes what was released: up to where, what was said with it, and what is no longer due.
fn note_release(
    progress: &mut Progress,
    edge: Offset,
    last: Option<LastAck>,
    shown: Option<Opening>,
    resets: bool,
    refuses: bool,
)
    ensures { progress.new ≡ record progress.old {
      edge = edge;
      last = ack_window_of last;
      reset_due = progress.old.reset_due && not resets;
      refusal_due = progress.old.refusal_due && not refuses;
      shown = shown;
    } }
{
    progress.edge = edge;
    progress.last = last;
    progress.shown = shown;
    progress.reset_due = progress.reset_due && !resets;
    progress.refusal_due = progress.refusal_due && !refuses;
}

/// Counts one turn more of a connection that stayed unmatched.
fn grow_older(both: &Both, progress: &mut Progress)
    requires { IsUntrimmed both.now.mine.now progress.old.edge }
    ensures { progress.new ≡ grow_older (both_of both.now)
        (matched_end (both_of both.now) progress.old.edge) progress.old }
{
    let matched = matched_end(both, progress.edge);
    let is_due = progress.reset_due || progress.refusal_due;
    let unmatched = is_unmatched(both, matched, is_due);
    let basis = AgeBasis {
        client: client_or_zero(both),
        matched,
        acked: both.smaller_acked(),
    };
    progress.age = age_after(progress.age, progress.basis, basis, unmatched);
    progress.basis = basis;
}

/// Releases by the four rules, and notes it.
fn release_by_rules(
    alloc: Global,
    both: &Both,
    progress: &mut Progress,
    tooks: &[Took],
    out: &mut Frames,
) -> Result<(), NoMemory>
    requires { IsUntrimmed both.now.mine.now progress.old.edge }
    ensures progress { OnOk result (progress.new ≡ settled_progress (both_of both.now) progress.old
        (plain_out (both_of both.now) progress.old tooks.now)) }
    ensures out { OnOk result (out.new ≡ out.old
        ++ map released_frame (all_out (both_of both.now) progress.old tooks.now)) }
    ensures err { OnErr result (Begins out.old out.new) }
    ensures same { OnErr result (progress.new ≡ progress.old) }
    ensures after { progress.old.edge ≤ progress.new.edge }
{
    let edge = new_edge(both, progress.edge);
    let mut shown = progress.shown;
    let start = out.len();
    release_plain(alloc, both, progress, edge, tooks, &mut shown, out)?;
    let nothing = out.len() == start;
    let resets = reset_goes(both, progress.reset_due, edge);
    let refuses = refusal_goes(both, progress.refusal_due);
    release_refusal(alloc, both, refuses, out)?;
    let last = last_after(both, progress.last, nothing);
    note_release(progress, edge, last, shown, resets, refuses);
    Ok(())
}

/// Settles one connection: releases what is to go out of it by the four rules, given its progress
/// with the event's own segments in it, what these were, and whether the event is a turn. The
/// node's own line isn't trimmed past the edge. After `NoMemory` the list begins with what it held,
/// and the progress is as it was.
#[tactic(auto, unfolding(settle_rules::specs::Settle::settle_one))]
fn settle_one(
    alloc: Global,
    both: &Both,
    progress: &mut Progress,
    is_turn: bool,
    tooks: &[Took],
    out: &mut Frames,
) -> Result<(), NoMemory>
    requires { IsUntrimmed both.now.mine.now progress.old.edge }
    ensures progress { OnOk result (progress.new
        ≡ (settle_one (both_of both.now) progress.old is_turn tooks.now).progress) }
    ensures out { OnOk result (out.new ≡ out.old ++ map released_frame
        (settle_one (both_of both.now) progress.old is_turn tooks.now).out) }
    ensures err { OnErr result (Begins out.old out.new) }
    ensures same { OnErr result (progress.new ≡ progress.old) }
    ensures after { progress.old.edge ≤ progress.new.edge }
{
    release_by_rules(alloc, both, progress, tooks, out)?;
    if is_turn {
        grow_older(both, progress);
    }
    Ok(())
}

/// Settles one connection, unless it was restarted in the event: then nothing of it goes out, and
/// its age alone is counted. The node's own line isn't trimmed past the edge. After `NoMemory` the
/// list begins with what it held, and the progress is as it was.
pub fn settle_or_rest(
    alloc: Global,
    both: &Both,
    progress: &mut Progress,
    is_restarted: bool,
    is_turn: bool,
    tooks: &[Took],
    out: &mut Frames,
) -> Result<(), NoMemory>
    requires { IsUntrimmed both.now.mine.now progress.old.edge }
    ensures progress { OnOk result (progress.new ≡ (settle_or_rest is_restarted (both_of both.now)
        progress.old is_turn tooks.now).progress) }
    ensures out { OnOk result (out.new ≡ out.old ++ map released_frame (settle_or_rest is_restarted
        (both_of both.now) progress.old is_turn tooks.now).out) }
    ensures err { OnErr result (Begins out.old out.new) }
    ensures same { OnErr result (progress.new ≡ progress.old) }
    ensures after { progress.old.edge ≤ progress.new.edge }
{
    if !is_restarted {
        return settle_one(alloc, both, progress, is_turn, tooks, out);
    }
    if is_turn {
        grow_older(both, progress);
    }
    Ok(())
}
