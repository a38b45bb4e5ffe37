//! A client's acknowledgements for a guest with another number, and the numbers that are kept. The
//! frames were put together by an independent script.

use inet_frame::{Tuple, is_tcp};
use seq_rewriter::{Numbers, inward};
use std::alloc::Global;
use std::process::Abort;
use tcp_track::{Opening, Tracker};
use worked_frames::{ACK_5004, ACK_5012, ACK_9004, SYN};

/// The same segment with acknowledgement 9012.
const ACK_9012: [u8; 54] = [
    0x52, 0x54, 0x00, 0x12, 0x34, 0x56, 0x52, 0x54, 0x00, 0xAA, 0x00, 0x01, 0x08, 0x00, 0x45, 0x00,
    0x00, 0x28, 0x00, 0x00, 0x40, 0x00, 0x40, 0x06, 0x22, 0xC0, 0x0A, 0x00, 0x02, 0x02, 0x0A, 0x00,
    0x02, 0x0F, 0x9C, 0x40, 0x00, 0x07, 0x00, 0x00, 0x03, 0xE9, 0x00, 0x00, 0x23, 0x34, 0x50, 0x10,
    0x10, 0x00, 0xC4, 0x5F, 0x00, 0x00,
];

const TUPLE: Tuple = Tuple {
    addr: 0x0A00_0202,
    port: 40000,
    guest: 7,
};

/// What is given to a guest with the number 9000, and the numbers that are kept. No call has a
/// clause, so that what the contracts say stands in no goal of a test.
trait Keeps {
    /// No number is kept.
    fn start(alloc: Global) -> Self
    where
        Self: Sized;
    /// A frame as it is given, where its client saw the number 5000, or no opening; `None` where it
    /// is no segment.
    fn given(&self, frame: [u8; 54], is_seen: bool) -> Option<[u8; 54]>;
    /// The number that is kept after a client's opening.
    fn open(&mut self, client: u32, number: u32) -> Option<u32>;
    /// Keeps the numbers of a guest alone that has sent this frame.
    fn thin(&mut self, frame: &[u8]) -> bool;
    /// The number that is kept of a client.
    fn number(&self, client: u32) -> Option<u32>;
}

/// The numbers of the pair.
#[derive(Drop)]
struct Kept {
    alloc: Global,
    numbers: Numbers,
}

fn opening(own: u32) -> Option<Opening> {
    Some(Opening { client: 1000, own })
}

impl Keeps for Kept {
    fn start(alloc: Global) -> Kept {
        Kept {
            alloc,
            numbers: Numbers::new(alloc),
        }
    }

    fn given(&self, frame: [u8; 54], is_seen: bool) -> Option<[u8; 54]> {
        let mut frame = frame;
        if !is_tcp(&frame) {
            return None;
        }
        let seen = if is_seen { opening(5000) } else { None };
        inward(&mut frame, seen, opening(9000));
        Some(frame)
    }

    fn open(&mut self, client: u32, number: u32) -> Option<u32> {
        self.numbers.opened(&TUPLE, client, number).ok()
    }

    fn thin(&mut self, frame: &[u8]) -> bool {
        let mut tracker = Tracker::new(self.alloc);
        let is_taken = tracker.take(frame).is_ok();
        self.numbers.thin(&tracker);
        is_taken
    }

    fn number(&self, client: u32) -> Option<u32> {
        self.numbers.number(&TUPLE, client)
    }
}

/// Asserts what frames become.
fn are_raised<R: Abort + AllocGlobal, K: Keeps + Drop>(rt: &R) {
    let kept = K::start(rt.alloc());
    assert_eq!(rt; kept.given(ACK_5004, true), Some(ACK_9004));
    assert_eq!(rt; kept.given(ACK_5012, true), Some(ACK_9012));
    assert_eq!(rt; kept.given(ACK_5004, false), Some(ACK_5004));
}

/// Asserts which numbers are kept.
fn are_kept<R: Abort + AllocGlobal, K: Keeps + Drop>(rt: &R) {
    let mut kept = K::start(rt.alloc());
    assert_eq!(rt; kept.open(1000, 5000), Some(5000));
    assert_eq!(rt; kept.open(1000, 6000), Some(5000));
    assert_eq!(rt; kept.open(900, 700), Some(700));
    assert!(rt; kept.thin(&SYN));
    assert_eq!(rt; kept.number(1000), Some(5000));
    assert_eq!(rt; kept.number(900), None);
}

#[test]
fn an_acknowledgement_is_raised_to_the_guests_own_number(rt: HostRuntime) {
    are_raised::<_, Kept>(&rt);
}

#[test]
fn the_first_number_of_a_client_is_kept(rt: HostRuntime) {
    are_kept::<_, Kept>(&rt);
}
