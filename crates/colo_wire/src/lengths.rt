//! Which lengths a body may have.

ghost use Rattle.std.specs.Prelude.{◌≡◌, ◌<◌, ◌≤◌, ◌^◌, length};
ghost use Rattle.colo_wire.specs.Lengths.{high_of, low_of, may_begin_length, next_length};
ghost use Rattle.colo_wire.specs.Forms.{lengths_of};

use crate::forms::{Lengths, lengths_of};
use crate::kinds::Kind;

/// The smallest length from `low` on that the steps reach.
fn next_length(lengths: Lengths, low: u32) -> usize
    requires step { 0 < lengths.step }
    requires small_step { lengths.step ≤ 512 }
    requires shortest { lengths.shortest ≤ 8192 }
    ensures { result ≡ next_length lengths low }
{
    let over = (low as usize).saturating_sub(lengths.shortest) + (lengths.step - 1);
    lengths.shortest + over / lengths.step * lengths.step
}

/// The smallest number of four bytes that begins with these.
fn low_of(part: &[u8]) -> u32
    requires { length part.now ≤ 4 }
    ensures { result ≡ low_of part.now }
{
    let mut bytes = [0; 4];
    bytes[..part.len()].copy_from_slice(part);
    u32::from_be_bytes(bytes)
}

/// The greatest number of four bytes that begins with these.
fn high_of(part: &[u8]) -> u32
    requires { length part.now ≤ 4 }
    ensures { result ≡ high_of part.now }
{
    let mut bytes = [255; 4];
    bytes[..part.len()].copy_from_slice(part);
    u32::from_be_bytes(bytes)
}

/// Whether a length that the kind allows begins with these bytes.
#[tactic(auto, unfolding(crate::specs::Lengths::may_begin_length))]
pub fn may_begin_length(kind: Kind, part: &[u8]) -> bool
    requires { length part.now ≤ 4 }
    ensures { result ≡ may_begin_length (lengths_of kind) part.now }
{
    let lengths = lengths_of(kind);
    let next = next_length(lengths, low_of(part));
    next <= high_of(part) as usize && next <= lengths.longest
}
