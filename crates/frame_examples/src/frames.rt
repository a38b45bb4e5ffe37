//! The frame that a text speaks of. It is taken by its name, perhaps with up to two bytes changed,
//! and changed on.

use std::alloc::Global;
use worked_frames::{ARP, ARP_REPLY, CLIENT_SYN, OPTIONS_SYN, SUMMED_UDP};

/// From port 68 to port 67: `abc` after an IPv4 header with four bytes of options, no checksum,
/// and padding.
const UDP: [u8; 60] = [
    0x52, 0x54, 0x00, 0x12, 0x34, 0x56, 0x52, 0x54, 0x00, 0xAA, 0x00, 0x01, 0x08, 0x00, 0x46, 0x00,
    0x00, 0x23, 0x00, 0x00, 0x40, 0x00, 0x40, 0x11, 0x1F, 0xB9, 0x0A, 0x00, 0x02, 0x02, 0x0A, 0x00,
    0x02, 0x0F, 0x01, 0x01, 0x01, 0x00, 0x00, 0x44, 0x00, 0x43, 0x00, 0x0B, 0x00, 0x00, 0x61, 0x62,
    0x63, 0xEE, 0xEE, 0xEE, 0xEE, 0xEE, 0xEE, 0xEE, 0xEE, 0xEE, 0xEE, 0xEE,
];

/// A SYN to 10.0.2.16 with the guest's MAC address.
const ELSEWHERE: [u8; 54] = [
    0x52, 0x54, 0x00, 0x12, 0x34, 0x56, 0x52, 0x54, 0x00, 0xAA, 0x00, 0x01, 0x08, 0x00, 0x45, 0x00,
    0x00, 0x28, 0x00, 0x00, 0x40, 0x00, 0x40, 0x06, 0x22, 0xBF, 0x0A, 0x00, 0x02, 0x02, 0x0A, 0x00,
    0x02, 0x10, 0x9C, 0x40, 0x00, 0x07, 0x00, 0x00, 0x03, 0xE8, 0x00, 0x00, 0x00, 0x00, 0x50, 0x02,
    0x10, 0x00, 0xE7, 0xA1, 0x00, 0x00,
];

/// The example of RFC 1071, 3, which is no frame.
const EXAMPLE: [u8; 8] = [0x00, 0x01, 0xF2, 0x03, 0xF4, 0xF5, 0xF6, 0xF7];

/// The frame of a name.
fn named(name: &str) -> Option<&'static [u8]> {
    Some(match name {
        "segment" => &OPTIONS_SYN,
        "syn" => &CLIENT_SYN,
        "elsewhere" => &ELSEWHERE,
        "datagram" => &UDP,
        "summed" => &SUMMED_UDP,
        "request" => &ARP,
        "reply" => &ARP_REPLY,
        "example" => &EXAMPLE,
        _ => return None,
    })
}

/// The last byte of a number.
pub fn low_byte(value: u32) -> u8 {
    let [_, _, _, low] = value.to_be_bytes();
    low
}

/// Changes a byte of a frame, but the first one.
fn change(frame: &mut [u8], place: u32, value: u32) {
    if place > 0 {
        if let Some(byte) = frame.get_mut(place as usize) {
            *byte = low_byte(value);
        }
    }
}

/// Writes a word of four bytes, the most significant one first.
fn put_word(frame: &mut [u8], place: u32, word: u32) {
    let [a, b, c, d] = word.to_be_bytes();
    for (offset, byte) in [(0, a), (1, b), (2, c), (3, d)] {
        change(frame, place.saturating_add(offset), u32::from(byte));
    }
}

/// So many zeros.
fn zeros(alloc: Global, count: u32) -> Option<Vec<u8>> {
    let mut bytes = Vec::new(alloc);
    for _ in 0..count {
        bytes.push(0).ok()?;
    }
    Some(bytes)
}

/// The frame that a call makes: that of a name with the values of two places, each but 0, `zeros`,
/// or what a `cut` or a `put` makes of the one before. `None` where it makes none.
pub fn made(alloc: Global, before: &[u8], name: &str, n: &[u32; 6]) -> Option<Vec<u8>> {
    match name {
        "zeros" => zeros(alloc, n[0]),
        "cut" => before.get(..n[0] as usize)?.to_vec(alloc).ok(),
        "put" => {
            let mut frame = before.to_vec(alloc).ok()?;
            put_word(&mut frame, n[0], n[1]);
            Some(frame)
        }
        _ => {
            let mut frame = named(name)?.to_vec(alloc).ok()?;
            change(&mut frame, n[0], n[1]);
            change(&mut frame, n[2], n[3]);
            Some(frame)
        }
    }
}
