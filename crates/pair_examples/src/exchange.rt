//! The comparer as an exchange drives it, with what went out at the last end of an event.

use colo_base::{Frames, NoMemory};
use inet_build::{Segment, segment};
use inet_frame::{Seen, Tuple, parse};
use out_compare::{Compare, Need};
use seq_rewriter::Numbers;
use std::alloc::Global;
use tcp_track::Opening;

/// A segment between the client at 10.0.2.2 and the guest's port 7, as a line has it. The word is
/// its bytes; `long` means 536 of them.
#[derive(Clone, Copy)]
pub struct Sent<'a> {
    pub port: u16,
    pub flags: u8,
    pub seq: u32,
    pub ack: u32,
    pub window: u16,
    pub word: &'a str,
}

/// Why a checkpoint starts: a word, the client's port and an offset.
#[derive(Clone, Copy)]
pub struct Why {
    pub word: &'static str,
    pub port: u16,
    pub offset: u32,
}

/// What an exchange drives. No call has a clause, so that what the contracts say stands in no goal
/// of a test. A call that is not answered for want of a condition or of memory answers `false` or
/// `None`.
pub trait Pair {
    /// Nothing was sent yet.
    fn start(alloc: Global) -> Self
    where
        Self: Sized;
    /// The node's own guest sends.
    fn own(&mut self, sent: &Sent) -> bool;
    /// The other node's guest sends.
    fn other(&mut self, sent: &Sent) -> bool;
    /// The other node has this number of a client.
    fn know(&mut self, port: u16, client: u32, number: u32) -> bool;
    /// The end of an event, which may be a turn.
    fn end(&mut self, turn: bool) -> Option<Why>;
    /// How many frames went out at the last end.
    fn released(&self) -> usize;
    /// Whether this frame is the one of its place that went out at the last end.
    fn is_released(&self, k: usize, sent: &Sent) -> bool;
    /// The bytes of a frame that went out at the last end.
    fn frame(&self, k: usize) -> Option<&[u8]>;
    /// How far a client's frame trims, which has seen 1000 under 5000.
    fn trim(&mut self, frame: &[u8]) -> Option<u32>;
    /// A checkpoint was captured.
    fn capture(&mut self) -> bool;
    /// A checkpoint was acknowledged.
    fn acknowledge(&mut self) -> bool;
    /// The other node stopped.
    fn leave_alone(&mut self) -> bool;
    /// The survivor that has the node's own lines and the number of the first client's port; `None`
    /// where memory ran out.
    fn survivor(&self) -> Option<Self>
    where
        Self: Sized;
    /// Where an own line begins and ends.
    fn line(&self, port: u16) -> Option<(u32, u32)>;
    /// The kept number of a client.
    fn number(&self, port: u16, client: u32) -> Option<u32>;
}

/// A comparer, and what went out at the last end of an event.
#[derive(Drop)]
pub struct Exchange {
    alloc: Global,
    compare: Compare,
    out: Frames,
}

fn tuple_of(port: u16) -> Tuple {
    Tuple {
        addr: 0x0A00_0202,
        port,
        guest: 7,
    }
}

fn fields_of(sent: &Sent) -> Segment {
    Segment {
        dst_mac: [0x52, 0x54, 0x00, 0xAA, 0x00, 0x01],
        tuple: tuple_of(sent.port),
        seq: sent.seq,
        ack: sent.ack,
        flags: sent.flags,
        window: sent.window,
        mss: if sent.flags == 0x12 { Some(1460) } else { None },
    }
}

/// The bytes of a word.
fn payload(alloc: Global, word: &str) -> Result<Vec<u8>, NoMemory> {
    if word == "long" {
        return Ok(vec![in alloc; b'a'; 536]?);
    }
    let mut bytes = Vec::new(alloc);
    bytes.extend_from_slice(word.as_bytes())?;
    Ok(bytes)
}

/// The frame of a segment.
fn frame(alloc: Global, sent: &Sent) -> Result<Vec<u8>, NoMemory> {
    let bytes = payload(alloc, sent.word)?;
    let short = &bytes[..bytes.len().min(536)];
    Ok(segment(alloc, &fields_of(sent), short)?)
}

fn why_of(need: Need) -> Why {
    let (word, port, offset) = match need {
        Need::Nothing => ("", 0, 0),
        Need::Differ { tuple, offset } => ("differ", tuple.port, offset),
        Need::Restart { tuple } => ("restart", tuple.port, 0),
        Need::Wait { tuple } => ("wait", tuple.port, 0),
    };
    Why { word, port, offset }
}

/// The number of the client 1000 at port 40000, where it is kept.
fn first_number(alloc: Global, compare: &Compare) -> Result<Numbers, NoMemory> {
    let mut numbers = Numbers::new(alloc);
    if let Some(number) = compare.numbers().number(&tuple_of(40000), 1000) {
        let _ = numbers.opened(&tuple_of(40000), 1000, number)?;
    }
    Ok(numbers)
}

/// The survivor that has a comparer's own lines.
fn survivor(alloc: Global, compare: &Compare, out: &mut Frames) -> Result<Compare, NoMemory> {
    let lines = compare.lines().copy()?;
    let numbers = first_number(alloc, compare)?;
    Compare::survive(alloc, lines, numbers, out)
}

impl Pair for Exchange {
    fn start(alloc: Global) -> Exchange {
        Exchange {
            alloc,
            compare: Compare::new(alloc),
            out: Frames::new(alloc),
        }
    }

    fn own(&mut self, sent: &Sent) -> bool {
        match frame(self.alloc, sent) {
            Ok(frame) => self.compare.primary(&frame).is_ok(),
            Err(NoMemory) => false,
        }
    }

    fn other(&mut self, sent: &Sent) -> bool {
        match frame(self.alloc, sent) {
            Ok(frame) => self.compare.secondary(&frame).is_ok(),
            Err(NoMemory) => false,
        }
    }

    fn know(&mut self, port: u16, client: u32, number: u32) -> bool {
        self.compare.known(&tuple_of(port), client, number);
        true
    }

    fn end(&mut self, turn: bool) -> Option<Why> {
        self.out = Frames::new(self.alloc);
        match self.compare.settle(turn, &mut self.out) {
            Ok(need) => Some(why_of(need)),
            Err(NoMemory) => None,
        }
    }

    fn released(&self) -> usize {
        self.out.len()
    }

    fn is_released(&self, k: usize, sent: &Sent) -> bool {
        match frame(self.alloc, sent) {
            Ok(frame) => self.out.get(k) == Some(frame.as_slice()),
            Err(NoMemory) => false,
        }
    }

    fn frame(&self, k: usize) -> Option<&[u8]> {
        self.out.get(k)
    }

    fn trim(&mut self, frame: &[u8]) -> Option<u32> {
        let Seen::Tcp(view) = parse(frame) else {
            return None;
        };
        let (seen, trim) = self.compare.client(&view);
        let opening = Opening {
            client: 1000,
            own: 5000,
        };
        if seen == Some(opening) {
            Some(trim)
        } else {
            None
        }
    }

    fn capture(&mut self) -> bool {
        self.compare.captured();
        true
    }

    fn acknowledge(&mut self) -> bool {
        self.compare.acknowledged().is_ok()
    }

    fn leave_alone(&mut self) -> bool {
        self.compare.alone();
        true
    }

    fn survivor(&self) -> Option<Exchange> {
        let mut out = Frames::new(self.alloc);
        let compare = survivor(self.alloc, &self.compare, &mut out).ok()?;
        Some(Exchange {
            alloc: self.alloc,
            compare,
            out,
        })
    }

    fn line(&self, port: u16) -> Option<(u32, u32)> {
        let line = self.compare.lines().line(&tuple_of(port))?;
        Some((line.base, line.end()))
    }

    fn number(&self, port: u16, client: u32) -> Option<u32> {
        self.compare.numbers().number(&tuple_of(port), client)
    }
}
