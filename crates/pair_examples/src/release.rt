//! What goes out between two offsets, of a guest that sent ten digits and FIN.

ghost use Rattle.std.specs.Prelude.{◌≡◌};

use colo_base::{Frames, NoMemory};
use inet_frame::Tuple;
use line_release::Both;
use std::alloc::Global;
use std::process::Abort;
use tcp_track::{Line, Offset, Tracker};
use worked_frames::{DIGITS, END, OTHER_SYN, SYN};

/// `345` at 5004.
const THREE: &[u8] = &[
    0x52, 0x54, 0x00, 0xAA, 0x00, 0x01, 0x52, 0x54, 0x00, 0x12, 0x34, 0x56, 0x08, 0x00, 0x45, 0x00,
    0x00, 0x2B, 0x00, 0x00, 0x40, 0x00, 0x40, 0x06, 0x22, 0xBD, 0x0A, 0x00, 0x02, 0x0F, 0x0A, 0x00,
    0x02, 0x02, 0x00, 0x07, 0x9C, 0x40, 0x00, 0x00, 0x13, 0x8C, 0x00, 0x00, 0x03, 0xE9, 0x50, 0x18,
    0x10, 0x00, 0x6B, 0xC8, 0x00, 0x00, 0x33, 0x34, 0x35,
];

/// `89` at 5009, with FIN.
const LAST: &[u8] = &[
    0x52, 0x54, 0x00, 0xAA, 0x00, 0x01, 0x52, 0x54, 0x00, 0x12, 0x34, 0x56, 0x08, 0x00, 0x45, 0x00,
    0x00, 0x2A, 0x00, 0x00, 0x40, 0x00, 0x40, 0x06, 0x22, 0xBE, 0x0A, 0x00, 0x02, 0x0F, 0x0A, 0x00,
    0x02, 0x02, 0x00, 0x07, 0x9C, 0x40, 0x00, 0x00, 0x13, 0x91, 0x00, 0x00, 0x03, 0xE9, 0x50, 0x19,
    0x10, 0x00, 0x9B, 0xBE, 0x00, 0x00, 0x38, 0x39,
];

const TUPLE: Tuple = Tuple {
    addr: 0x0A00_0202,
    port: 40000,
    guest: 7,
};

fn take(tracker: &mut Tracker, frame: &[u8]) -> bool {
    tracker.take(frame).is_ok()
}

/// What a guest sent; `None` where memory ran out.
fn taken(alloc: Global, syn: &[u8]) -> Option<Tracker> {
    let mut tracker = Tracker::new(alloc);
    if take(&mut tracker, syn) && take(&mut tracker, &DIGITS) && take(&mut tracker, &END) {
        Some(tracker)
    } else {
        None
    }
}

/// The two nodes' lines, under the number 5000.
fn both_of<'a>(mine: &'a Line, theirs: &'a Line) -> Both<'a>
    ensures { result.mine.now ≡ mine.now }
{
    Both {
        tuple: TUPLE,
        mine,
        theirs: Some(theirs),
        number: 5000,
        number_known: true,
    }
}

/// What goes out of a line that isn't trimmed so far.
fn released_of(
    alloc: Global,
    mine: &Line,
    theirs: &Line,
    from: Offset,
    to: Offset,
) -> Option<Frames> {
    if mine.base > from {
        return None;
    }
    let mut out = Frames::new(alloc);
    match both_of(mine, theirs).release_symbols(alloc, from, to, &mut out) {
        Ok(()) => Some(out),
        Err(NoMemory) => None,
    }
}

/// What a test asks for. The call has no clause, so that what the contracts say stands in no goal
/// of a test.
trait Release {
    /// What goes out between two offsets; `None` where memory ran out.
    fn released(alloc: Global, from: Offset, to: Offset) -> Option<Frames>;
}

/// The guests with the numbers 5000 and 9000.
struct Digits;

/// What goes out of the connection's lines between two offsets.
fn released_by(
    alloc: Global,
    mine: &Tracker,
    theirs: &Tracker,
    from: Offset,
    to: Offset,
) -> Option<Frames> {
    match (mine.line(&TUPLE), theirs.line(&TUPLE)) {
        (Some(mine), Some(theirs)) => released_of(alloc, mine, theirs, from, to),
        _ => None,
    }
}

impl Release for Digits {
    fn released(alloc: Global, from: Offset, to: Offset) -> Option<Frames> {
        let mine = taken(alloc, &SYN)?;
        let theirs = taken(alloc, &OTHER_SYN)?;
        released_by(alloc, &mine, &theirs, from, to)
    }
}

fn is_alone(out: Option<Frames>, frame: &[u8]) -> bool {
    match out {
        Some(out) => out.len() == 1 && out.get(0) == Some(frame),
        None => false,
    }
}

/// Asserts that one frame goes out between two offsets.
fn goes_out<R: Abort + AllocGlobal, D: Release>(rt: &R, from: Offset, to: Offset, frame: &[u8]) {
    assert!(rt; is_alone(D::released(rt.alloc(), from, to), frame));
}

#[test]
fn a_syn_goes_out_under_the_kept_number(rt: HostRuntime) {
    goes_out::<_, Digits>(&rt, 0, 1, &SYN);
}

#[test]
fn bytes_go_out_from_an_offset_on(rt: HostRuntime) {
    goes_out::<_, Digits>(&rt, 4, 7, THREE);
    goes_out::<_, Digits>(&rt, 9, 12, LAST);
    goes_out::<_, Digits>(&rt, 11, 12, &END);
}
