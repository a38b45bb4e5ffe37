//! Which bytes may stand at the places of a body.

ghost use Rattle.std.specs.Prelude.{◌≡◌, ◌==◌, drop, slice_index, take};
ghost use Rattle.std.specs.List.{list_all};
ghost use Rattle.colo_wire.specs.Places.{are_line_flags, flags_after, follows, has_flag, may_stand, width};

use crate::forms::{FIN, OPENED, Place, RESET};

/// The first `n` bytes, or all where there are fewer, and the bytes after them.
pub fn cut(bytes: &[u8], n: usize) -> (&[u8], &[u8])
    ensures front { result.0.now ≡ take n bytes.now }
    ensures rest { result.1.now ≡ drop n bytes.now }
{
    if n < bytes.len() {
        bytes.split_at(n)
    } else {
        (bytes, &[])
    }
}

/// The first byte, or 0 where there is none.
fn first_of(part: &[u8]) -> u8
    ensures { result ≡ slice_index part.now 0 }
{
    part.first().copied().unwrap_or(0)
}

/// Whether each byte is 0.
fn is_zero(part: &[u8]) -> bool
    ensures { result ≡ list_all (λ byte. byte == 0) part.now }
{
    part.iter().all(|byte| *byte == 0)
}

/// Whether one of the flags is set.
fn has_flag(flag: u8, flags: u8) -> bool
    ensures { result ≡ has_flag flag flags }
{
    flags & flag != 0
}

/// Whether a line may have these flags: a reset and a FIN come only where it is opened.
fn are_line_flags(flags: u8) -> bool
    ensures { result ≡ are_line_flags flags }
{
    flags < 16 && (has_flag(OPENED, flags) || !has_flag(RESET | FIN, flags))
}

/// How many bytes a place has.
fn width(place: Place) -> usize
    ensures { result ≡ width place }
{
    match place {
        Place::Any(width) | Place::Marked { width, .. } => width,
        Place::Seen | Place::Flags => 1,
        Place::Offset { .. } => 4,
    }
}

/// Whether these bytes, all of the place's or its first ones, may stand there after a byte of
/// flags.
fn may_stand(place: Place, flags: u8, part: &[u8]) -> bool
    ensures { result ≡ may_stand place flags part.now }
{
    match place {
        Place::Any(_) => true,
        Place::Seen => first_of(part) < 2,
        Place::Flags => are_line_flags(first_of(part)),
        Place::Marked { flag, .. } => has_flag(flag, flags) || is_zero(part),
        Place::Offset { flag } => {
            if has_flag(flag, flags) {
                first_of(part) < 128
            } else {
                is_zero(part)
            }
        }
    }
}

/// The byte of flags that holds after a place with these bytes.
fn flags_after(place: Place, flags: u8, part: &[u8]) -> u8
    ensures { result ≡ flags_after place flags part.now }
{
    match place {
        Place::Seen | Place::Flags => first_of(part),
        Place::Any(_) | Place::Marked { .. } | Place::Offset { .. } => flags,
    }
}

/// Whether the bytes, all of a body's or its first ones, may stand at the places.
pub fn follows(places: &[Place], flags: u8, body: &[u8]) -> bool
    ensures { result ≡ follows places.now flags body.now }
{
    let [place, places @ ..] = places else {
        return true;
    };
    let (part, body) = cut(body, width(*place));
    may_stand(*place, flags, part) && follows(places, flags_after(*place, flags, part), body)
}
