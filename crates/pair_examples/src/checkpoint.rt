//! What fits, and what the whole gives, of a checkpoint for a guest with two pages and three
//! sectors. A line of a script is a message and, after a colon, whether it fits.
//!
//! `page` has its number, `disk` the first sector and how many bytes come, `line` flags, the
//! connection's number and base, and `bytes` how many there are.

use crate::apart::{Apart, Kept, Whole};
use crate::words::{cut, number};
use colo_base::Contents;
use colo_wire::Message;
use inet_frame::Tuple;
use std::alloc::Global;
use std::process::Abort;
use worked_frames::ACK_5004;

/// The connection of 10.0.2.2, port 40000, to port 7.
pub const TUPLE: Tuple = Tuple {
    addr: 0x0A00_0202,
    port: 40000,
    guest: 7,
};

/// So many zeros; `None` where memory ran out.
fn zeros(alloc: Global, count: u32) -> Option<Contents> {
    let mut bytes = Vec::new(alloc);
    for _ in 0..count {
        if bytes.push(0).is_err() {
            return None;
        }
    }
    Some(Contents::from_vec(bytes))
}

fn page(alloc: Global, k: u32) -> Option<Message> {
    let bytes = zeros(alloc, 4096)?;
    Some(Message::Page { k, bytes })
}

fn sectors(alloc: Global, first: u32, count: u32) -> Option<Message> {
    let bytes = zeros(alloc, count)?;
    Some(Message::Disk { first, bytes })
}

fn bytes(alloc: Global, count: u32) -> Option<Message> {
    let bytes = zeros(alloc, count)?;
    Some(Message::Bytes { bytes })
}

/// A line that its client opened with 1000.
fn line(flags: u8, own: u32, base: u32) -> Message {
    Message::Line {
        tuple: TUPLE,
        mac: [0x52, 0x54, 0, 0xAA, 0, 1],
        flags,
        client: 1000,
        own: 9000,
        number: own,
        refused: 0,
        acked: 1,
        window: 4096,
        mss: 1460,
        base,
    }
}

/// A waiting frame.
fn held(alloc: Global) -> Option<Message> {
    let frame = ACK_5004.to_vec(alloc).ok()?;
    Some(Message::Held {
        index: 5,
        seen: None,
        trim: 0,
        frame: Contents::from_vec(frame),
    })
}

/// The message that a word and up to three numbers name.
fn message(alloc: Global, text: &str) -> Option<Message> {
    let (word, rest) = cut(text);
    let (first, rest) = cut(rest);
    let (second, third) = cut(rest);
    match word {
        "page" => page(alloc, number(first)),
        "disk" => sectors(alloc, number(first), number(second)),
        "held" => held(alloc),
        "line" => Some(line(first.parse().unwrap_or(0), number(second), number(third))),
        "bytes" => bytes(alloc, number(first)),
        "end" => Some(Message::End { e: 1 }),
        _ => None,
    }
}

/// Hears the message that words name.
fn hear<K: Kept>(alloc: Global, kept: &mut K, text: &str) -> Option<bool> {
    let message = message(alloc, text)?;
    kept.hear(&message)
}

/// Whether a message is answered so.
fn is_answered<K: Kept>(alloc: Global, kept: &mut K, line: &str) -> bool {
    let (text, answer) = line.split_once(" : ").unwrap_or((line, ""));
    match hear(alloc, kept, text) {
        Some(fits) => answer == if fits { "yes" } else { "no" },
        None => false,
    }
}

/// Hears the messages of a script, and asserts of each whether it fits.
fn play<R: Abort + AllocGlobal, K: Kept>(rt: &R, kept: &mut K, script: &str) {
    for line in script.lines() {
        assert!(rt; is_answered(rt.alloc(), kept, line), "{line}");
    }
}

/// What the whole gives of the messages of a script.
fn whole<R: Abort + AllocGlobal, K: Kept + Drop>(rt: &R, script: &str) -> Option<Whole> {
    let state = zeros(rt.alloc(), 8)?;
    let mut kept = K::start(rt.alloc(), state)?;
    play(rt, &mut kept, script);
    kept.close()
}

/// The flag 1 is of a line that is opened, and 8 of one that ends; 2147483647 is 2^31 - 1. Bytes
/// follow their line.
const FITS: &str = "\
page 0 : yes
page 1 : yes
page 2 : no
page 4294967295 : no
disk 0 512 : yes
disk 0 1536 : yes
disk 1 1024 : yes
disk 2 512 : yes
disk 2 1024 : no
disk 3 512 : no
disk 4294967295 512 : no
bytes 1 : no
end : no
line 9 5000 2147483647 : no
line 9 5000 2147483646 : yes
line 1 5000 2147483647 : yes
bytes 1 : no
line 0 0 0 : yes
bytes 1 : no
line 1 5000 0 : yes
held : yes
bytes 1 : no
";

/// The last line has its SYN and the two bytes of the last message.
const LINES: &str = "\
line 1 5000 0 : yes
bytes 2 : yes
bytes 2 : yes
held : yes
line 1 6000 0 : yes
bytes 2 : yes
";

fn has_one_frame(whole: Option<Whole>) -> bool {
    match whole {
        Some(whole) => whole.frames == 1,
        None => false,
    }
}

fn has_last_line(whole: Option<Whole>) -> bool {
    match whole {
        Some(whole) => whole.lines == 1 && whole.end == Some(3),
        None => false,
    }
}

fn has_first_number(whole: Option<Whole>) -> bool {
    match whole {
        Some(whole) => whole.number == Some(5000),
        None => false,
    }
}

#[test]
fn what_has_a_place_fits(rt: HostRuntime) {
    let whole = whole::<_, Apart>(&rt, FITS);
    assert!(rt; has_one_frame(whole));
}

#[test]
fn the_last_line_and_the_first_number_are_kept(rt: HostRuntime) {
    let whole = whole::<_, Apart>(&rt, LINES);
    assert!(rt; has_last_line(whole));
    assert!(rt; has_first_number(whole));
    assert!(rt; has_one_frame(whole));
}
