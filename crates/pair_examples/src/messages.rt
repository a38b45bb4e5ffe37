//! Worked examples: each kind once, both ways, and bytes that are no message.

use colo_wire::{Message, WireFault, decode, encode};
use inet_frame::Tuple;
use std::alloc::Global;
use std::process::Abort;

/// The acknowledgement of checkpoint 1, and after it the primary's number 5000 for the connection
/// of 10.0.2.2, port 40000, to port 7 that its client opened with 1000.
const SPELLINGS: [u8; 30] = [
    0x0E, 0, 0, 0, 4, 0, 0, 0, 1, 0x02, 0, 0, 0, 0x10, 0x0A, 0, 2, 2, 0x9C, 0x40, 0, 7, 0, 0, 3,
    0xE8, 0, 0, 0x13, 0x88,
];

/// What stands before a waiting frame: index 5, an opening of client 1000 under 5000, trim 4.
const SEEN: &[u8] = &[
    0, 0, 0, 0, 0, 0, 0, 5, 1, 0, 0, 3, 0xE8, 0, 0, 0x13, 0x88, 0, 0, 0, 4,
];

/// The same where no opening was seen.
const UNSEEN: &[u8] = &[
    0, 0, 0, 0, 0, 0, 0, 5, 0, 0, 0, 0, 0, 0, 0, 0, 0, 0, 0, 0, 0,
];

/// A tuple and two numbers.
const NUMBERS: &[u8] = &[
    0x0A, 0, 2, 2, 0x9C, 0x40, 0, 7, 0, 0, 3, 0xE8, 0, 0, 0x13, 0x88,
];

/// A line with every field.
const LINE: &[u8] = &[
    0x0A, 0, 2, 2, 0x9C, 0x40, 0, 7, 0x52, 0x54, 0, 0xAA, 0, 1, 15, 0, 0, 3, 0xE8, 0, 0, 0x13,
    0x88, 0, 0, 0x13, 0x89, 0, 0, 7, 0xD0, 0x7F, 0xFF, 0xFF, 0xFF, 0x10, 0, 2, 0x18, 0, 0, 0, 3,
];

/// A line that isn't opened and has no refusal: all but its tuple and MAC is 0.
const CLOSED: &[u8] = &[
    0x0A, 0, 2, 2, 0x9C, 0x40, 0, 7, 0x52, 0x54, 0, 0xAA, 0, 1, 0, 0, 0, 0, 0, 0, 0, 0, 0, 0, 0, 0,
    0, 0, 0, 0, 0, 0, 0, 0, 0, 0, 0, 0, 0, 0, 0, 0, 0,
];

/// Each kind, and those of which something may be left out a second time: the kind, the front of
/// the body, and how many bytes follow.
const MESSAGES: [(u8, &[u8], usize); 16] = [
    (1, SEEN, 14),
    (2, NUMBERS, 0),
    (3, &[0, 0, 0, 1], 0),
    (4, &[], 11),
    (4, &[], 0),
    (5, &[0, 0, 0, 9], 4096),
    (6, &[0, 0, 0, 0x80], 1024),
    (7, &[0xFF, 0xFF, 0xFF, 0xFF], 512),
    (8, UNSEEN, 1514),
    (9, LINE, 0),
    (9, CLOSED, 0),
    (10, &[], 1),
    (11, &[0, 0, 0, 1], 0),
    (12, NUMBERS, 0),
    (13, &[], 14),
    (14, &[0, 0, 0, 1], 0),
];

/// The first bytes of what is no message, and why: a kind; a length that the kind doesn't allow,
/// each one off or in between; has-seen, a field that must be 0, and the flags of a line.
const OTHERS: [(&[u8], WireFault); 36] = [
    (&[0], WireFault::Kind),
    (&[15], WireFault::Kind),
    (&[255], WireFault::Kind),
    (&[2, 1], WireFault::Length),
    (&[1, 0, 0, 0, 34], WireFault::Length),
    (&[1, 0, 0, 6, 0], WireFault::Length),
    (&[2, 0, 0, 0, 15], WireFault::Length),
    (&[2, 0, 0, 0, 17], WireFault::Length),
    (&[3, 0, 0, 0, 3], WireFault::Length),
    (&[3, 0, 0, 0, 5], WireFault::Length),
    (&[4, 1, 0, 0, 1], WireFault::Length),
    (&[4, 0xFF, 0xFF, 0xFF, 0xFF], WireFault::Length),
    (&[5, 0, 0, 0x10, 3], WireFault::Length),
    (&[5, 0, 0, 0x10, 5], WireFault::Length),
    (&[6, 0, 0, 0, 4], WireFault::Length),
    (&[6, 0, 0, 2, 3], WireFault::Length),
    (&[6, 0, 0, 2, 5], WireFault::Length),
    (&[6, 0, 1, 2, 4], WireFault::Length),
    (&[7, 0, 0, 2, 3], WireFault::Length),
    (&[7, 0, 0, 2, 5], WireFault::Length),
    (&[8, 0, 0, 0, 34], WireFault::Length),
    (&[8, 0, 0, 6, 0], WireFault::Length),
    (&[9, 0, 0, 0, 42], WireFault::Length),
    (&[9, 0, 0, 0, 44], WireFault::Length),
    (&[10, 0, 0, 0, 0], WireFault::Length),
    (&[10, 0, 1, 0, 1], WireFault::Length),
    (&[11, 0, 0, 0, 5], WireFault::Length),
    (&[12, 0, 0, 0, 17], WireFault::Length),
    (&[13, 0, 0, 0, 13], WireFault::Length),
    (&[13, 0, 0, 5, 0xEB], WireFault::Length),
    (&[14, 0, 0, 0, 3], WireFault::Length),
    (
        &[1, 0, 0, 0, 35, 0, 0, 0, 0, 0, 0, 0, 5, 2],
        WireFault::Field,
    ),
    (
        &[1, 0, 0, 0, 35, 0, 0, 0, 0, 0, 0, 0, 5, 0, 1],
        WireFault::Field,
    ),
    (
        &[
            9, 0, 0, 0, 43, 10, 0, 2, 2, 0x9C, 0x40, 0, 7, 0x52, 0x54, 0, 0xAA, 0, 1, 16,
        ],
        WireFault::Field,
    ),
    (
        &[
            9, 0, 0, 0, 43, 10, 0, 2, 2, 0x9C, 0x40, 0, 7, 0x52, 0x54, 0, 0xAA, 0, 1, 8,
        ],
        WireFault::Field,
    ),
    (
        &[
            9, 0, 0, 0, 43, 10, 0, 2, 2, 0x9C, 0x40, 0, 7, 0x52, 0x54, 0, 0xAA, 0, 1, 2,
        ],
        WireFault::Field,
    ),
];

/// Appends so many bytes `a`; `false` where memory ran out.
fn put_fill(fill: usize, out: &mut Vec<u8>) -> bool {
    for _ in 0..fill {
        if out.push(b'a').is_err() {
            return false;
        }
    }
    true
}

/// Appends a message: its kind, the length of its body, the body's front, and bytes `a`.
fn put_spelled(kind: u8, front: &[u8], fill: usize, out: &mut Vec<u8>) -> bool {
    let len = (front.len() as u64).saturating_add(fill as u64);
    let [_, _, _, _, a, b, c, d] = len.to_be_bytes();
    out.push(kind).is_ok()
        && out.extend_from_slice(&[a, b, c, d]).is_ok()
        && out.extend_from_slice(front).is_ok()
        && put_fill(fill, out)
}

/// What reads and writes messages. No call has a clause, so that what the contracts say stands in
/// no goal of a test.
trait Codes {
    /// Why bytes don't begin with a message.
    fn fault(&self, bytes: &[u8]) -> Option<WireFault>;
    /// Appends the message with which bytes begin, as it is written again, and gives its size.
    fn again(&self, bytes: &[u8], out: &mut Vec<u8>) -> Option<usize>;
}

/// The messages of the pair.
#[derive(Clone, Copy)]
struct Coded(Global);

impl Codes for Coded {
    fn fault(&self, bytes: &[u8]) -> Option<WireFault> {
        decode(self.0, bytes).err()
    }

    fn again(&self, bytes: &[u8], out: &mut Vec<u8>) -> Option<usize> {
        let (message, size) = decode(self.0, bytes).ok()?;
        match encode(&message, out) {
            Ok(()) => Some(size),
            Err(_) => None,
        }
    }
}

/// Whether a message, with `more` the same and a byte after it, is read and written again.
fn is_again<C: Codes>(alloc: Global, coded: &C, bytes: &[u8], more: &[u8]) -> bool {
    let mut out = Vec::new(alloc);
    coded.again(more, &mut out) == Some(bytes.len()) && out.as_slice() == bytes
}

/// Reads a message with a byte after it, and writes it again.
fn is_read_and_written<C: Codes>(alloc: Global, coded: &C, bytes: &[u8]) -> bool {
    let mut more = Vec::new(alloc);
    more.extend_from_slice(bytes).is_ok()
        && more.push(9).is_ok()
        && is_again(alloc, coded, bytes, &more)
}

/// Whether each shorter front of a message is its beginning.
fn are_begun<C: Codes>(coded: &C, bytes: &[u8]) -> bool {
    for n in 0..bytes.len() {
        if coded.fault(&bytes[..n]) != Some(WireFault::More) {
            return false;
        }
    }
    true
}

/// Whether a message of a kind is read and written, and each shorter front of it is its beginning.
fn is_whole<C: Codes>(alloc: Global, coded: &C, kind: u8, front: &[u8], fill: usize) -> bool {
    let mut bytes = Vec::new(alloc);
    put_spelled(kind, front, fill, &mut bytes)
        && are_begun(coded, &bytes)
        && is_read_and_written(alloc, coded, &bytes)
}

/// Asserts that each kind is read and written.
fn are_read_and_written<R: Abort + AllocGlobal, C: Codes>(rt: &R, coded: &C) {
    for (kind, front, fill) in MESSAGES {
        assert!(rt;
            is_whole(rt.alloc(), coded, kind, front, fill),
            "kind {kind}"
        );
    }
}

fn is_refused<C: Codes>(coded: &C, bytes: &[u8], fault: WireFault) -> bool {
    coded.fault(bytes) == Some(fault)
}

/// Asserts why each of the others is refused.
fn are_refused<R: Abort, C: Codes>(rt: &R, coded: &C) {
    for (bytes, fault) in OTHERS {
        assert!(rt; is_refused(coded, bytes, fault), "{bytes:?}");
    }
}

#[test]
fn each_kind_is_read_and_written(rt: HostRuntime) {
    are_read_and_written(&rt, &Coded(rt.alloc()));
}

fn put_ack(out: &mut Vec<u8>) -> bool {
    encode(&Message::Ack { e: 1 }, out).is_ok()
}

fn put_number(out: &mut Vec<u8>) -> bool {
    let tuple = Tuple {
        addr: 0x0A00_0202,
        port: 40000,
        guest: 7,
    };
    let number = Message::Number {
        tuple,
        client: 1000,
        number: 5000,
    };
    encode(&number, out).is_ok()
}

#[test]
fn spellings(rt: HostRuntime) {
    let mut out = Vec::new(rt.alloc());
    assert!(rt; put_ack(&mut out) && put_number(&mut out));
    assert!(rt; out.as_slice() == SPELLINGS.as_slice());
}

#[test]
fn others_are_refused(rt: HostRuntime) {
    are_refused(&rt, &Coded(rt.alloc()));
}
