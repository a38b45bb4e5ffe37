//! Parts of a line, from one offset up to another.

ghost use Rattle.std.specs.Prelude.{◌≡◌, ◌≤◌, ◌<◌, ◌+◌, ◌^◌, ◌==◌, ◌&&◌, max, length, not, nat_le, nat_lt};
ghost use Rattle.tcp_track.specs.Segments.{syn, fin};
ghost use Rattle.settle_rules.specs.Release.{bytes_in, has_symbol};
ghost use Rattle.line_release.specs.Whole.{symbols_between};

use tcp_track::{Line, Offset};

/// The bytes of a line from one offset up to another.
pub(crate) fn bytes_between<'a>(line: &'a Line, from: Offset, to: Offset) -> &'a [u8]
    requires { line.now.base ≤ from }
    ensures value { result.now ≡ bytes_in (symbols_between line.now from to) }
    ensures fits { max from 1 + length result.now < 2 ^ 32 }
{
    let first = line.base.max(1);
    let bytes = line.bytes.as_slice();
    let end = (to.saturating_sub(first) as usize).min(bytes.len());
    let start = (from.saturating_sub(first) as usize).min(end);
    &bytes[start..end]
}

/// Says whether SYN is among the symbols of a line from one offset up to another.
pub fn has_syn_between(line: &Line, from: Offset, to: Offset) -> bool
    requires { line.now.base ≤ from }
    ensures { result ≡ has_symbol syn (symbols_between line.now from to) }
{
    is_syn_between(line.opening.is_some(), from, to)
}

fn is_syn_between(is_open: bool, from: Offset, to: Offset) -> bool
    ensures { result ≡ (is_open && (from == 0 && not (to == 0))) }
{
    is_open && (from == 0 && to != 0)
}

/// Says whether FIN is among the symbols of a line from one offset up to another.
pub(crate) fn has_fin_between(line: &Line, from: Offset, to: Offset) -> bool
    requires { line.now.base ≤ from }
    ensures { result ≡ has_symbol fin (symbols_between line.now from to) }
{
    let end = line.bytes_end();
    is_fin_between(line.fin, from, end, to)
}

fn is_fin_between(fin: bool, from: Offset, end: Offset, to: Offset) -> bool
    ensures { result ≡ (fin && (nat_le from end && nat_lt end to)) }
{
    fin && (from <= end && end < to)
}
