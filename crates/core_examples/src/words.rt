//! The words of a text: lines of a schedule, frames, and tables of frames.

use colo_base::{Frames, NoMemory};
use inet_build::{Segment, segment};
use inet_frame::Tuple;
use replay_log::Line;
use std::alloc::Global;
use worked_frames::{
    ACK_5004, ACK_5012, ACK_9004, ARP, ARP_REPLY, CLEAN_SYN, CLIENT_SYN, SUMMED_UDP,
};

/// The first word of a text, and the rest.
pub fn cut(text: &str) -> (&str, &str) {
    text.split_once(' ').unwrap_or((text, ""))
}

/// The number that a word spells, 0 where it is left out.
pub fn number(word: &str) -> u32 {
    word.parse().unwrap_or(0)
}

/// A line `P` or `S` with its four numbers.
fn turn(is_primary: bool, words: &str) -> Line {
    let (d, words) = cut(words);
    let (i, words) = cut(words);
    let (b, n) = cut(words);
    let (d, i, b, n) = (number(d), i == "1", number(b), number(n));
    if is_primary {
        Line::Primary { d, i, b, n }
    } else {
        Line::Secondary { d, i, b, n }
    }
}

/// The line of a schedule that words spell.
pub fn line(text: &str) -> Option<Line> {
    let (verb, words) = cut(text);
    match verb {
        "P" => Some(turn(true, words)),
        "S" => Some(turn(false, words)),
        "c" => Some(Line::Client),
        ">" => Some(Line::ToSecondary),
        "<" => Some(Line::ToPrimary),
        "r" => Some(Line::Report),
        "k" => Some(Line::Ask),
        "x" => Some(if words == "p" {
            Line::StopPrimary
        } else {
            Line::StopSecondary
        }),
        _ => None,
    }
}

/// The fields of a segment of the guest to the client at port 40000, whose number is 1000.
fn fields(kind: &str, seq: u32) -> Segment {
    Segment {
        dst_mac: [0x52, 0x54, 0x00, 0xAA, 0x00, 0x01],
        tuple: Tuple {
            addr: 0x0A00_0202,
            port: 40000,
            guest: 7,
        },
        seq,
        ack: 1001,
        flags: match kind {
            "syn" => 0x12,
            "data" => 0x18,
            "ack" => 0x10,
            _ => 0x14,
        },
        window: if kind == "refusal" { 0 } else { 4096 },
        mss: if kind == "syn" { Some(1460) } else { None },
    }
}

/// The frame that words spell: a kind, a sequence number and bytes; or `arp`, the reply.
pub fn frame(alloc: Global, words: &str) -> Result<Vec<u8>, NoMemory> {
    if words == "arp" {
        return Ok(ARP_REPLY.to_vec(alloc)?);
    }
    let (kind, words) = cut(words);
    let (seq, word) = cut(words);
    let bytes = word.as_bytes();
    let short = &bytes[..bytes.len().min(536)];
    Ok(segment(alloc, &fields(kind, number(seq)), short)?)
}

/// A table with a place for each line of a text: the frame of its words, or `none`.
pub fn table(alloc: Global, text: &str) -> Result<Vec<Frames>, NoMemory> {
    let mut table = Vec::new(alloc);
    for words in text.lines() {
        let mut sent = Frames::new(alloc);
        if words != "none" {
            sent.push(&frame(alloc, words)?)?;
        }
        table.push(sent)?;
    }
    Ok(table)
}

/// A worked frame between the client and the guest by its name.
pub fn worked(name: &str) -> &'static [u8] {
    match name {
        "syn" => &CLIENT_SYN,
        "clean-syn" => &CLEAN_SYN,
        "ack-5004" => &ACK_5004,
        "ack-5012" => &ACK_5012,
        "ack-9004" => &ACK_9004,
        "arp" => &ARP,
        _ => &SUMMED_UDP,
    }
}
