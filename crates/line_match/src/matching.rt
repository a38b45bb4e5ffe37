//! The matched end of a connection's lines, and what stands there.

ghost use Rattle.std.specs.Prelude.{◌≡◌, ◌≤◌, ◌||◌, ◌&&◌, not, is_some, nat_lt};
ghost use Rattle.line_release.specs.Both.{both_of};
ghost use Rattle.settle_rules.specs.Matching.{matched_end, differs_at, lacks_at, their_acked};
ghost use Rattle.line_match.specs.Untrimmed.{IsUntrimmed};

use crate::agreeing::agreed_from;
use crate::symbols::{are_different, known_symbol, symbol_at};
use line_release::Both;
use tcp_track::Offset;

/// The matched end: the least offset from the edge on at which one line has no symbol or the two
/// differ. Where the lines have no one client it is the edge. The node's own line isn't trimmed
/// past the edge.
pub fn matched_end(both: &Both, edge: Offset) -> Offset
    requires { IsUntrimmed both.now.mine.now edge }
    ensures value { result ≡ matched_end (both_of both.now) edge }
    ensures after { edge ≤ result }
{
    if !both.has_one_client() {
        return edge;
    }
    let Some(theirs) = both.theirs else {
        return edge;
    };
    if theirs.base > edge {
        return edge;
    }
    edge + agreed_from(both.mine, theirs, edge)
}

/// Says whether the lines have one client and two different symbols at an offset, up to which the
/// node's own line may be trimmed.
pub fn differs_at(both: &Both, offset: Offset) -> bool
    requires { IsUntrimmed both.now.mine.now offset }
    ensures { result ≡ differs_at (both_of both.now) offset }
{
    if !both.has_one_client() {
        return false;
    }
    are_different(
        symbol_at(both.mine, offset),
        known_symbol(both.theirs, offset),
    )
}

/// Says whether the node's own line has a symbol at an offset that the other one lacks.
fn lacks_at(both: &Both, offset: Offset) -> bool
    requires { IsUntrimmed both.now.mine.now offset }
    ensures { result ≡ lacks_at (both_of both.now) offset }
{
    if symbol_at(both.mine, offset).is_none() {
        return false;
    }
    !(both.has_one_client() && known_symbol(both.theirs, offset).is_some())
}

/// Says whether the other line's acknowledgement is behind.
fn is_behind(both: &Both) -> bool
    ensures { result ≡ nat_lt (their_acked (both_of both.now)) (both_of both.now).mine.acked }
{
    let mine = both.mine;
    both.smaller_acked() < mine.acked
}

/// Says whether a connection is unmatched at an offset: a symbol is missing there, an
/// acknowledgement is behind, or something is due.
pub fn is_unmatched(both: &Both, offset: Offset, is_due: bool) -> bool
    requires { IsUntrimmed both.now.mine.now offset }
    ensures { result ≡ (lacks_at (both_of both.now) offset
        || (nat_lt (their_acked (both_of both.now)) (both_of both.now).mine.acked || is_due)) }
{
    lacks_at(both, offset) || (is_behind(both) || is_due)
}
