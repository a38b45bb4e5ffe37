//! What a node answers to its calls.

use crate::faults::WireFault;
use colo_base::Cause;
use inet_frame::Why;
use tcp_track::{Offset, Opening};

/// What became of a client frame.
#[derive(Clone, Copy, Debug, PartialEq, Eq)]
pub enum Gate {
    /// It waits in the inbox, with the opening that its client has seen and its trim.
    Taken { seen: Option<Opening>, trim: Offset },
    /// It is an ARP request for the guest, and was answered.
    Answered,
    /// It was dropped, with the first reason.
    Dropped(Why),
    /// The inbox had no room.
    Full,
}

/// What became of a turn.
#[derive(Clone, Copy, Debug, PartialEq, Eq)]
pub enum Turned {
    /// None was made: the node awaits an acknowledgement.
    Paused,
    /// It was made, with the client frame of this index.
    Made(Option<u64>),
}

/// Why a node didn't take a message.
#[derive(Clone, Copy, Debug, PartialEq, Eq)]
pub enum HearFault {
    /// The bytes aren't one whole message.
    NoMessage(WireFault),
    /// A message of this kind isn't due.
    NotDue(u8),
    /// Memory ran out.
    NoMemory,
}

/// What a message did.
#[derive(Clone, Copy, Debug, PartialEq, Eq)]
pub struct Told {
    /// The number of its kind.
    pub kind: u8,
    /// Whether the inbox had no room for the frame.
    pub full: bool,
    /// The checkpoint that was loaded.
    pub commit: Option<u32>,
    /// The checkpoint that was acknowledged.
    pub ack: Option<u32>,
    /// The checkpoint that started, and why.
    pub capture: Option<(u32, Cause)>,
}
