//! How many symbols of two lines agree from an offset on.

ghost use Rattle.std.specs.Prelude.{◌≡◌, ◌≤◌, ◌<◌, ◌+◌, ◌^◌, ◌&&◌, ◌==◌, nat_eq, nat_le, max, length, is_some, true};
ghost use Rattle.std.specs.List.{common_prefix_len};
ghost use Rattle.tcp_track.specs.LineFields.{end_of};
ghost use Rattle.line_match.specs.Rest.{bytes_from, ends_from, one_if, agreed_bytes, agreed_from};

use tcp_track::{Line, Offset};

/// How many symbols of two lines agree from an offset on, from which nothing of them is forgotten.
pub(crate) fn agreed_from(mine: &Line, theirs: &Line, offset: Offset) -> Offset
    ensures value { result ≡ agreed_from mine.now theirs.now offset }
    ensures fits { offset + result < 2 ^ 32 }
{
    let syn = one_if(offset == 0);
    let ends = ends_from(mine, offset);
    let others_end = ends_from(theirs, offset);
    syn + agreed_bytes(
        bytes_from(mine, offset),
        ends,
        bytes_from(theirs, offset),
        others_end,
    )
}

/// The bytes of a line from an offset on.
fn bytes_from<'a>(line: &'a Line, offset: Offset) -> &'a [u8]
    ensures value { result.now ≡ bytes_from line.now offset }
    ensures short { length result.now < 2 ^ 31 }
    ensures within { offset + length result.now ≤ max offset (2 ^ 31) }
{
    let bytes = line.bytes.as_slice();
    let start = offset.saturating_sub(line.base.max(1)) as usize;
    &bytes[start.min(bytes.len())..]
}

/// Says whether a line has FIN at an offset or after it.
fn ends_from(line: &Line, offset: Offset) -> bool
    ensures value { result ≡ ends_from line.now offset }
    ensures within { result ≡ true → offset ≤ 2 ^ 31 }
{
    let place = offset.saturating_sub(line.base.max(1)) as usize;
    line.fin && place <= line.bytes.len()
}

fn one_if(holds: bool) -> Offset
    ensures { result ≡ one_if holds }
{
    if holds { 1 } else { 0 }
}

/// How many bytes agree from the front on, and one more for FIN after them.
fn agreed_bytes(xs: &[u8], ends: bool, ys: &[u8], others_end: bool) -> Offset
    requires { length xs.now < 2 ^ 31 }
    ensures value { result ≡ agreed_bytes xs.now ends ys.now others_end }
    ensures within { result ≤ length xs.now + one_if ends }
{
    let count = common_prefix_len(xs, ys);
    let both = both_end(ends, others_end, count == xs.len(), count == ys.len());
    count as Offset + one_if(both)
}

fn both_end(ends: bool, others_end: bool, all: bool, all_others: bool) -> bool
    ensures { result ≡ (ends && (others_end && (all && all_others))) }
{
    ends && (others_end && (all && all_others))
}

/// How many bytes of two lists agree from the front on.
fn common_prefix_len(xs: &[u8], ys: &[u8]) -> usize
    ensures value { result ≡ common_prefix_len nat_eq xs.now ys.now }
    ensures within { result ≤ length xs.now }
{
    let count = xs.len().min(ys.len());
    for k in 0..count {
        if xs[k] != ys[k] {
            return k;
        }
    }
    count
}
