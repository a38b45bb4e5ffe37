//! The records of a log: for each event its line, its answer and its marks.

ghost use Rattle.std.specs.Prelude.{◌≡◌, ◌∷◌, ◌++◌, [], OnOk, OnErr};

use crate::lines::Line;
use colo_base::{Cause, NoMemory};
use std::alloc::Global;
use std::marker::Model;
use tcp_track::{Offset, Opening};

/// What an event did.
#[derive(Clone, Copy, Debug, PartialEq, Eq)]
pub enum Answer {
    /// `-` alone: the line did nothing.
    Nothing,
    /// Of a turn: the index of the client frame taken, and how many frames were released.
    Made {
        frame: Option<u64>,
        released: u64,
    },
    /// Of `c`, a frame that was accepted: its index, the opening seen and the trim, and how many
    /// frames were released.
    Accepted {
        index: u64,
        seen: Option<Opening>,
        trim: Offset,
        released: u64,
    },
    /// Of `c`, an ARP request that was answered.
    Arp {
        index: u64,
    },
    /// Of `c`, a frame that was dropped: the number of the reason, from 1 to 14.
    Dropped {
        index: u64,
        why: u8,
    },
    /// Of `c`, a frame for which the inbox had no room.
    Full {
        index: u64,
    },
    /// Of `c`, a frame that no node was there to take.
    Lost {
        index: u64,
    },
    /// Of `>`: the message's kind, from 1 to 14, and whether it was a frame for which the inbox had
    /// no room.
    Heard {
        kind: u8,
        full: bool,
    },
    /// Of `<`: the message's kind, from 1 to 14, how many `Sent` were heard since the last
    /// acknowledgement, and how many frames were released.
    HeardBack {
        kind: u8,
        sent: u64,
        released: u64,
    },
    /// Of `x` and `k`: `0`.
    Zero,
    /// Of `r`: how many frames were released.
    Reported {
        released: u64,
    },
}

/// What happened to a checkpoint in an event.
#[derive(Clone, Copy, Debug, PartialEq, Eq)]
pub enum Mark {
    /// `! q e why`: checkpoint `e` was captured.
    Captured { e: u32, why: Cause },
    /// `! k e`: it was committed.
    Committed { e: u32 },
    /// `! a e`: it was acknowledged.
    Acknowledged { e: u32 },
}

/// The marks of an event, in order. A contract sees the list.
#[derive(Debug, Drop)]
pub struct Marks {
    marks: Vec<Mark>,
}

impl Model for Marks {
    ghost use Rattle.std.specs.Prelude.{List};
    ghost use Rattle.replay_log.specs.declared.records.Mark.{Mark};

    ghost Value = { List Mark };

    ghost view = { λ m. m.marks.items };
}

impl Marks {
    /// No marks. It takes no memory.
    pub fn new(alloc: Global) -> Marks
        ensures { result ≡ [] }
    {
        Marks {
            marks: Vec::new(alloc),
        }
    }

    /// The marks of a vector. It takes no memory.
    pub fn from_vec(marks: Vec<Mark>) -> Marks
        ensures { result ≡ marks.items }
    {
        Marks { marks }
    }

    /// The marks as a vector. It takes no memory.
    pub fn into_vec(self) -> Vec<Mark>
        ensures { result.items ≡ self }
    {
        self.marks
    }

    /// The marks as a slice.
    pub fn as_slice(&self) -> &[Mark]
        ensures { result.now ≡ self.now }
    {
        self.marks.as_slice()
    }

    /// Adds a mark at the end. After `NoMemory` the marks are as they were.
    pub fn push(&mut self, mark: Mark) -> Result<(), NoMemory>
        ensures ok { OnOk result (self.new ≡ self.old ++ mark ∷ []) }
        ensures err { OnErr result (self.new ≡ self.old) }
    {
        self.marks.push(mark)?;
        Ok(())
    }
}

/// An event of a log.
#[derive(Debug, Drop)]
pub struct Record {
    /// The line of the schedule.
    pub line: Line,
    /// What it did.
    pub answer: Answer,
    /// What happened to checkpoints in it.
    pub marks: Marks,
}
