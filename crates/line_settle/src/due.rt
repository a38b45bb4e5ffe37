//! What of a connection goes out in one event.

ghost use Rattle.std.specs.Prelude.{◌≡◌, ◌≤◌, ◌<◌, ◌&&◌, ◌||◌, ◌==◌, not, nat_lt, nat_le, is_some, true, None};
ghost use Rattle.std.specs.List.{list_any};
ghost use Rattle.line_release.specs.Both.{both_of, line_or_none};
ghost use Rattle.line_match.specs.Untrimmed.{IsUntrimmed};
ghost use Rattle.settle_rules.specs.Matching.{client_or_zero};
ghost use Rattle.settle_rules.specs.Settle.{goes_out, new_edge, is_below, is_bare, wants_bare, agrees_on_reset, same_number};
ghost use Rattle.line_settle.specs.ProgressFields.{ack_window_of};

use crate::progress::{LastAck, same_ack_window};
use line_match::matched_end;
use line_release::Both;
use tcp_track::{Line, Offset, Took, What};

/// Says whether symbols go out: the connection's SYN did, or the other node knows its number.
fn goes_out(both: &Both, edge: Offset) -> bool
    ensures { result ≡ goes_out (both_of both.now) edge }
{
    let mine = both.mine;
    mine.opening.is_some() && (edge > 0 || both.number_known)
}

/// Up to here the connection is released.
pub(crate) fn new_edge(both: &Both, edge: Offset) -> Offset
    requires { IsUntrimmed both.now.mine.now edge }
    ensures value { result ≡ new_edge (both_of both.now) edge }
    ensures after { edge ≤ result }
    ensures opened { edge < result → is_some both.now.mine.now.opening ≡ true }
{
    if goes_out(both, edge) {
        matched_end(both, edge)
    } else {
        edge
    }
}

/// Says whether a segment carries no symbol at the edge or above it.
fn is_below(edge: Offset, what: What) -> bool
    ensures { result ≡ is_below edge what }
{
    match what {
        What::Ignored => false,
        What::Opened(_) => false,
        What::Restarted(_) => false,
        What::Symbols { from: _, to } => to <= edge,
        What::Reset => true,
        What::Refused(_) => true,
    }
}

fn is_bare(both: &Both, edge: Offset, took: &Took) -> bool
    ensures { result ≡ is_bare (both_of both.now) edge took.now }
{
    let took = *took;
    took.tuple == both.tuple && is_below(edge, took.what)
}

/// Says whether a segment of the event on this connection carries no symbol at the edge or above.
fn has_bare(both: &Both, edge: Offset, tooks: &[Took]) -> bool
    ensures { result ≡ list_any (is_bare (both_of both.now) edge) tooks.now }
{
    for took in tooks {
        if is_bare(both, edge, took) {
            return true;
        }
    }
    false
}

/// Says whether the acknowledgement or the window is to be said anew.
pub(crate) fn wants_bare(both: &Both, edge: Offset, last: Option<LastAck>, tooks: &[Took]) -> bool
    ensures { result ≡ wants_bare (both_of both.now) edge (ack_window_of last) tooks.now }
{
    if has_bare(both, edge, tooks) {
        return true;
    }
    let now = LastAck {
        ack: both.agreed_ack(),
        window: both.agreed_window(),
    };
    !same_ack_window(last, now)
}

fn is_reset(line: Option<&Line>) -> bool
    ensures { result ≡ (line_or_none line.entry).reset }
{
    match line {
        None => false,
        Some(line) => line.reset,
    }
}

fn refused_by(line: Option<&Line>) -> Option<u32>
    ensures { result ≡ (line_or_none line.entry).refused }
{
    match line {
        None => None,
        Some(line) => line.refused,
    }
}

/// Says whether both lines have a reset of one client, and their SYN was released.
fn agrees_on_reset(both: &Both, edge: Offset) -> bool
    ensures { result ≡ agrees_on_reset (both_of both.now) edge }
{
    let mine = both.mine;
    mine.reset && (is_reset(both.theirs) && (both.has_one_client() && edge > 0))
}

fn same_number(mine: Option<u32>, theirs: Option<u32>) -> bool
    ensures { result ≡ same_number mine theirs }
{
    match mine {
        None => false,
        Some(mine) => match theirs {
            None => false,
            Some(theirs) => mine == theirs,
        },
    }
}

fn agrees_on_refusal(both: &Both) -> bool
    ensures { let lines = both_of both.now in
        result ≡ same_number lines.mine.refused lines.theirs.refused }
{
    let mine = both.mine;
    same_number(mine.refused, refused_by(both.theirs))
}

/// Says whether a reset goes out: one is due, and both lines have one of one client.
pub(crate) fn reset_goes(both: &Both, is_due: bool, edge: Offset) -> bool
    ensures { result ≡ (is_due && agrees_on_reset (both_of both.now) edge) }
{
    is_due && agrees_on_reset(both, edge)
}

/// Says whether a refusal goes out: one is due, and both nodes refused one client.
pub(crate) fn refusal_goes(both: &Both, is_due: bool) -> bool
    ensures { result ≡ (is_due && same_number (both_of both.now).mine.refused
        (both_of both.now).theirs.refused) }
{
    is_due && agrees_on_refusal(both)
}

pub(crate) fn client_or_zero(both: &Both) -> u32
    ensures { result ≡ client_or_zero (both_of both.now).mine.opening }
{
    let mine = both.mine;
    match mine.opening {
        None => 0,
        Some(opening) => opening.client,
    }
}
