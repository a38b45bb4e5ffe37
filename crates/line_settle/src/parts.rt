//! The symbols of one connection that one event releases.

ghost use Rattle.std.specs.Prelude.{◌≡◌, ◌≤◌, ◌<◌, ◌++◌, map, is_some, true, if◌then◌else◌, OnOk, OnErr};
ghost use Rattle.std.specs.List.{flat_map};
ghost use Rattle.line_release.specs.Both.{both_of};
ghost use Rattle.shared_definitions.specs.Begins.{Begins};
ghost use Rattle.line_match.specs.Untrimmed.{IsUntrimmed};
ghost use Rattle.settle_rules.specs.Matching.{client_or_zero};
ghost use Rattle.settle_rules.specs.Release.{released_frame, release_symbols, release_refusal};
ghost use Rattle.settle_rules.specs.Settle.{release_again, new_edge, shown_after};

use crate::due::client_or_zero;
use colo_base::{Frames, NoMemory};
use line_release::{Both, has_syn_between};
use std::alloc::Global;
use tcp_track::{Offset, Opening, Took, What};

/// Releases the symbols of the node's own line from one offset up to another, and notes the SYN
/// where it is among them.
fn release_shown(
    alloc: Global,
    both: &Both,
    from: Offset,
    to: Offset,
    shown: &mut Option<Opening>,
    out: &mut Frames,
) -> Result<(), NoMemory>
    requires { both.now.mine.now.base ≤ from }
    ensures ok { OnOk result (out.new ≡ out.old
        ++ map released_frame (release_symbols (both_of both.now) from to)) }
    ensures shown { OnOk result (shown.new
        ≡ shown_after (client_or_zero (both_of both.now).mine.opening) shown.old
        (release_symbols (both_of both.now) from to)) }
    ensures err { OnErr result (Begins out.old out.new) }
{
    both.release_symbols(alloc, from, to, out)?;
    let has_syn = has_syn_between(both.mine, from, to);
    *shown = shown_with(*shown, has_syn, client_or_zero(both), number_of(both));
    Ok(())
}

fn number_of(both: &Both) -> u32
    ensures { result ≡ both.now.number }
{
    both.number
}

/// The SYN last released, where `has_syn` says that one was released just now.
fn shown_with(shown: Option<Opening>, has_syn: bool, client: u32, own: u32) -> Option<Opening>
    ensures { result ≡ (if has_syn then Some (record { client = client; own = own }) else shown) }
{
    if has_syn {
        Some(Opening { client, own })
    } else {
        shown
    }
}

/// Releases the symbols below the edge that a segment of the event carries again.
#[tactic(auto, unfolding(settle_rules::specs::Settle::release_again))]
fn release_again(
    alloc: Global,
    both: &Both,
    edge: Offset,
    took: &Took,
    shown: &mut Option<Opening>,
    out: &mut Frames,
) -> Result<(), NoMemory>
    ensures ok { OnOk result (out.new ≡ out.old
        ++ map released_frame (release_again (both_of both.now) edge took.now)) }
    ensures shown { OnOk result (shown.new
        ≡ shown_after (client_or_zero (both_of both.now).mine.opening) shown.old
        (release_again (both_of both.now) edge took.now)) }
    ensures err { OnErr result (Begins out.old out.new) }
{
    let took = *took;
    if took.tuple != both.tuple {
        return Ok(());
    }
    match took.what {
        What::Symbols { from, to } => {
            let mine = both.mine;
            let first = from.max(mine.base);
            release_shown(alloc, both, first, to.min(edge), shown, out)
        }
        What::Ignored => Ok(()),
        What::Opened(_) => Ok(()),
        What::Restarted(_) => Ok(()),
        What::Reset => Ok(()),
        What::Refused(_) => Ok(()),
    }
}

/// Releases what all segments of the event carry again.
fn release_all_again(
    alloc: Global,
    both: &Both,
    edge: Offset,
    tooks: &[Took],
    shown: &mut Option<Opening>,
    out: &mut Frames,
) -> Result<(), NoMemory>
    ensures ok { OnOk result (out.new ≡ out.old
        ++ map released_frame (flat_map (release_again (both_of both.now) edge) tooks.now)) }
    ensures shown { OnOk result (shown.new
        ≡ shown_after (client_or_zero (both_of both.now).mine.opening) shown.old
        (flat_map (release_again (both_of both.now) edge) tooks.now)) }
    ensures err { OnErr result (Begins out.old out.new) }
{
    for took in tooks {
        release_again(alloc, both, edge, took, shown, out)?;
    }
    Ok(())
}

/// Releases the symbols from the edge up to another offset, where that is above it.
fn release_new(
    alloc: Global,
    both: &Both,
    edge: Offset,
    to: Offset,
    shown: &mut Option<Opening>,
    out: &mut Frames,
) -> Result<(), NoMemory>
    requires untrimmed { IsUntrimmed both.now.mine.now edge }
    requires opened { edge < to → is_some both.now.mine.now.opening ≡ true }
    requires after { edge ≤ to }
    ensures ok { OnOk result (out.new ≡ out.old
        ++ map released_frame (release_symbols (both_of both.now) edge to)) }
    ensures shown { OnOk result (shown.new
        ≡ shown_after (client_or_zero (both_of both.now).mine.opening) shown.old
        (release_symbols (both_of both.now) edge to)) }
    ensures err { OnErr result (Begins out.old out.new) }
{
    if edge < to {
        release_shown(alloc, both, edge, to, shown, out)
    } else {
        Ok(())
    }
}

/// Releases a connection's symbols: again those below the edge that the event's segments carry,
/// then those up to the new edge.
pub(crate) fn release_agreed(
    alloc: Global,
    both: &Both,
    edge: Offset,
    to: Offset,
    tooks: &[Took],
    shown: &mut Option<Opening>,
    out: &mut Frames,
) -> Result<(), NoMemory>
    requires untrimmed { IsUntrimmed both.now.mine.now edge }
    requires opened { edge < to → is_some both.now.mine.now.opening ≡ true }
    requires after { edge ≤ to }
    ensures ok { OnOk result (out.new ≡ out.old
        ++ map released_frame (flat_map (release_again (both_of both.now) edge) tooks.now
        ++ release_symbols (both_of both.now) edge to)) }
    ensures shown { OnOk result (shown.new
        ≡ shown_after (client_or_zero (both_of both.now).mine.opening) shown.old
        (flat_map (release_again (both_of both.now) edge) tooks.now
        ++ release_symbols (both_of both.now) edge to)) }
    ensures err { OnErr result (Begins out.old out.new) }
{
    release_all_again(alloc, both, edge, tooks, shown, out)?;
    release_new(alloc, both, edge, to, shown, out)?;
    Ok(())
}

/// Releases the refusal that the node's own line holds, where it is to go.
pub(crate) fn release_refusal(
    alloc: Global,
    both: &Both,
    goes: bool,
    out: &mut Frames,
) -> Result<(), NoMemory>
    ensures ok { OnOk result (out.new ≡ out.old
        ++ map released_frame (release_refusal (both_of both.now) both.now.mine.now.refused goes)) }
    ensures err { OnErr result (out.new ≡ out.old) }
{
    let mine = both.mine;
    match mine.refused {
        None => Ok(()),
        Some(client) => {
            if goes {
                both.release_refusal(alloc, client, out)
            } else {
                Ok(())
            }
        }
    }
}
