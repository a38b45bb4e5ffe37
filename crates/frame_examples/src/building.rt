//! A released SYN, segments of the shortest and longest payloads, and a client's SYN edited.

use inet_build::{Segment, clean_syn, segment, shift_ack};
use inet_frame::{Tuple, is_tcp, ones_sum, pseudo_sum};
use std::alloc::Global;
use std::process::Abort;
use std::test::Fail;
use worked_frames::{CLEAN_SYN, OPTIONS_SYN, SYN};

/// What builds and edits segments. No call has a clause, so that what the contracts say stands in
/// no goal of a test.
trait Builds {
    /// A segment of the guest to the client's port 40000; `None` where memory ran out or the bytes
    /// are too many.
    fn build(&self, seq: u32, flags: u8, mss: Option<u16>, bytes: &[u8]) -> Option<Vec<u8>>;
    /// Cleans a client's SYN, where the frame is a segment.
    fn clean(&self, frame: &mut [u8]) -> bool;
    /// Shifts the acknowledgement of a frame, where it is a segment.
    fn shift(&self, frame: &mut [u8], by: u32) -> bool;
    /// The complement of the sum of a segment after its pseudo header.
    fn sum(&self, addresses: &[u8], segment: &[u8]) -> Option<u16>;
}

/// The builder of the pair.
#[derive(Clone, Copy)]
struct Builder(Global);

impl Builds for Builder {
    fn build(&self, seq: u32, flags: u8, mss: Option<u16>, bytes: &[u8]) -> Option<Vec<u8>> {
        if bytes.len() <= 536 {
            segment(self.0, &fields(seq, flags, mss), bytes).ok()
        } else {
            None
        }
    }

    fn clean(&self, frame: &mut [u8]) -> bool {
        let is_segment = is_tcp(frame);
        if is_segment {
            clean_syn(frame);
        }
        is_segment
    }

    fn shift(&self, frame: &mut [u8], by: u32) -> bool {
        let is_segment = is_tcp(frame);
        if is_segment {
            shift_ack(frame, by);
        }
        is_segment
    }

    fn sum(&self, addresses: &[u8], segment: &[u8]) -> Option<u16> {
        if addresses.len() == 8 && segment.len() == 40 {
            Some(!ones_sum(pseudo_sum(addresses, 6, 40), segment))
        } else {
            None
        }
    }
}

fn fields(seq: u32, flags: u8, mss: Option<u16>) -> Segment {
    Segment {
        dst_mac: [0x52, 0x54, 0x00, 0xAA, 0x00, 0x01],
        tuple: Tuple {
            addr: 0x0A00_0202,
            port: 40000,
            guest: 7,
        },
        seq,
        ack: 1001,
        flags,
        window: 4096,
        mss,
    }
}

fn word_at(frame: &[u8], at: usize) -> Option<u16> {
    match frame.get(at..)? {
        [high, low, ..] => Some(u16::from_be_bytes([*high, *low])),
        _ => None,
    }
}

/// Asserts the length of a segment with this payload and its two checksums.
fn has_sums<R: Abort, B: Builds>(
    rt: &R,
    builder: &B,
    payload: &[u8],
    sums: (u16, u16),
) -> Result<(), Fail> {
    let frame = builder.build(5001, 0x19, None, payload).ok_or("no frame")?;
    assert_eq!(rt; frame.len(), 54 + payload.len().min(536));
    assert_eq!(rt; word_at(&frame, 24), Some(sums.0));
    assert_eq!(rt; word_at(&frame, 50), Some(sums.1));
    Ok(())
}

/// Asserts that a frame is the client's SYN but for the bytes at these places.
fn differs_at<R: Abort>(rt: &R, frame: &[u8], changes: &[(usize, u8)]) {
    assert_eq!(rt; frame.len(), OPTIONS_SYN.len());
    for ((at, byte), old) in frame.iter().enumerate().zip(&OPTIONS_SYN) {
        let mut wanted = *old;
        for (place, value) in changes {
            if *place == at {
                wanted = *value;
            }
        }
        assert_eq!(rt; *byte, wanted, "at {at}");
    }
}

#[test]
fn a_released_syn_is_built(rt: HostRuntime) -> Result<(), Fail> {
    let builder = Builder(rt.alloc());
    let frame = builder
        .build(5000, 0x12, Some(1460), &[])
        .ok_or("no frame")?;
    assert_eq!(rt; frame.as_slice(), SYN.as_slice());
    Ok(())
}

#[test]
fn segments_of_any_length_are_built(rt: HostRuntime) -> Result<(), Fail> {
    let bytes = [b'a'; 536];
    let builder = Builder(rt.alloc());
    has_sums(&rt, &builder, &bytes[..0], (0x22C0, 0xD401))?;
    has_sums(&rt, &builder, &bytes[..1], (0x22BF, 0x7300))?;
    has_sums(&rt, &builder, &bytes[..535], (0x20A9, 0xE059))?;
    has_sums(&rt, &builder, &bytes[..], (0x20A8, 0xDFF7))
}

#[test]
fn a_client_syn_is_cleaned(rt: HostRuntime) {
    let mut frame = OPTIONS_SYN;
    assert!(rt; Builder(rt.alloc()).clean(&mut frame));
    differs_at(&rt, &frame, &CLEANED);
}

/// The checksum, and the options from 58 on.
const CLEANED: [(usize, u8); 18] = [
    (50, 0xA6),
    (51, 0x41),
    (58, 1),
    (59, 1),
    (60, 1),
    (61, 1),
    (62, 1),
    (63, 1),
    (64, 1),
    (65, 1),
    (66, 1),
    (67, 1),
    (68, 1),
    (69, 1),
    (70, 1),
    (71, 1),
    (72, 1),
    (73, 1),
];

#[test]
fn an_acknowledgement_is_shifted(rt: HostRuntime) {
    let mut frame = OPTIONS_SYN;
    assert!(rt; Builder(rt.alloc()).shift(&mut frame, 0x3000_0000));
    differs_at(&rt, &frame, &[(42, 0x0E), (50, 0x6E), (51, 0x33)]);
}

/// The client's SYN, the last of whose clean options are these, with its checksum.
fn syn_with<B: Builds>(builder: &B, options: &[u8; 4]) -> [u8; 74] {
    let mut frame = CLEAN_SYN;
    frame[70..].copy_from_slice(options);
    frame[50..52].copy_from_slice(&[0, 0]);
    let sum = builder.sum(&frame[26..34], &frame[34..]).unwrap_or(0);
    frame[50..52].copy_from_slice(&sum.to_be_bytes());
    frame
}

/// Asserts what the last options of a SYN become.
fn options_become<R: Abort, B: Builds>(rt: &R, builder: &B, before: &[u8; 4], after: &[u8; 4]) {
    let mut frame = syn_with(builder, before);
    assert!(rt; builder.clean(&mut frame));
    let wanted = syn_with(builder, after);
    assert_eq!(rt; frame.as_slice(), wanted.as_slice());
}

#[test]
fn hostile_options_end_the_walk(rt: HostRuntime) {
    for (before, after) in [
        ([4, 2, 1, 1], [1, 1, 1, 1]),
        ([1, 3, 3, 7], [1, 1, 1, 1]),
        ([5, 2, 4, 2], [5, 2, 1, 1]),
        ([0, 3, 3, 7], [0, 3, 3, 7]),
        ([1, 1, 1, 3], [1, 1, 1, 3]),
        ([3, 0, 4, 2], [3, 0, 4, 2]),
        ([3, 1, 4, 2], [3, 1, 4, 2]),
        ([3, 5, 4, 2], [3, 5, 4, 2]),
    ] {
        options_become(&rt, &Builder(rt.alloc()), &before, &after);
    }
}
