//! The messages.

ghost use Rattle.std.specs.Prelude.{◌≡◌};
ghost use Rattle.colo_wire.specs.Kinds.{number_of_kind};
ghost use Rattle.colo_wire.specs.Spelling.{kind_of};

use crate::kinds::{Kind, number_of_kind};
use colo_base::Contents;
use inet_frame::Tuple;
use tcp_track::{Offset, Opening};

/// A message between the nodes of a pair.
#[derive(Debug, Drop)]
pub enum Message {
    /// To the secondary: a client frame that the primary accepted.
    Frame {
        index: u64,
        seen: Option<Opening>,
        trim: Offset,
        frame: Contents,
    },
    /// To the secondary: the primary's number for an incarnation.
    Number {
        tuple: Tuple,
        client: u32,
        number: u32,
    },
    /// To the secondary: checkpoint `e` begins.
    Begin {
        e: u32,
    },
    /// To the secondary: the bytes of the guest's state.
    State {
        bytes: Contents,
    },
    /// To the secondary: page `k` of the guest's memory.
    Page {
        k: u32,
        bytes: Contents,
    },
    /// To the secondary: sectors of the guest's disk, from `first` on.
    Disk {
        first: u32,
        bytes: Contents,
    },
    /// To the secondary: sector `k`, which the primary's guest wrote.
    Write {
        k: u32,
        bytes: Contents,
    },
    /// To the secondary: a client frame that waits in the primary's inbox.
    Held {
        index: u64,
        seen: Option<Opening>,
        trim: Offset,
        frame: Contents,
    },
    /// To the secondary: a line, without its bytes. What doesn't apply is 0.
    Line {
        tuple: Tuple,
        mac: [u8; 6],
        flags: u8,
        client: u32,
        own: u32,
        number: u32,
        refused: u32,
        acked: Offset,
        window: u16,
        mss: u16,
        base: Offset,
    },
    /// To the secondary: more bytes of the last line.
    Bytes {
        bytes: Contents,
    },
    /// To the secondary: checkpoint `e` is whole.
    End {
        e: u32,
    },
    /// To the primary: the number that the secondary keeps for an incarnation.
    Known {
        tuple: Tuple,
        client: u32,
        number: u32,
    },
    /// To the primary: a frame that the secondary's guest sent.
    Sent {
        frame: Contents,
    },
    /// To the primary: checkpoint `e` is loaded.
    Ack {
        e: u32,
    },
}

/// The kind of a message.
pub fn kind_of(message: &Message) -> Kind
    ensures { result ≡ kind_of message.now }
{
    match message {
        Message::Frame { .. } => Kind::Frame,
        Message::Number { .. } => Kind::Number,
        Message::Begin { .. } => Kind::Begin,
        Message::State { .. } => Kind::State,
        Message::Page { .. } => Kind::Page,
        Message::Disk { .. } => Kind::Disk,
        Message::Write { .. } => Kind::Write,
        Message::Held { .. } => Kind::Held,
        Message::Line { .. } => Kind::Line,
        Message::Bytes { .. } => Kind::Bytes,
        Message::End { .. } => Kind::End,
        Message::Known { .. } => Kind::Known,
        Message::Sent { .. } => Kind::Sent,
        Message::Ack { .. } => Kind::Ack,
    }
}

/// The number of a message's kind, from 1 to 14.
pub fn kind_number(message: &Message) -> u8
    ensures { result ≡ number_of_kind (kind_of message.now) }
{
    number_of_kind(kind_of(message))
}
