//! Accepted frames that wait for a guest.

ghost use Rattle.std.specs.Prelude.{◌≡◌, ◌==◌, ◌<◌, ◌≤◌, ◌↔◌, ◌++◌, ◌∷◌, [], true, length, slice_get, IfOk, IfErr, IsOk, OnOk};
ghost use Rattle.std.specs.Option.{option_copied};
ghost use Rattle.frame_mirror.specs.Accepted.{is_accepted};
ghost use Rattle.frame_mirror.specs.Inboxes.{AreAccepted, has_room};

use circular_buffer::HeapCircularBuffer;
use colo_base::{Contents, NoMemory};
use std::alloc::Global;
use std::marker::Model;
use tcp_track::{Offset, Opening};

/// An accepted frame that waits for a guest.
#[derive(Drop)]
pub struct Waiting {
    /// The frame's index in the client stream.
    pub index: u64,
    /// The opening of its connection that the client has seen, by the number under which it knows
    /// it.
    pub seen: Option<Opening>,
    /// The offset below which its acknowledgement trims the connection's line; 0 where it does not.
    pub trim: Offset,
    /// The frame, clean.
    pub frame: Contents,
}

/// How many frames an inbox holds at most.
pub const INBOX_ROOM: usize = 4096;

/// The accepted frames that wait for a guest, the oldest first, at most 4,096. A contract sees them
/// as a list. All memory is taken in `new`.
#[derive(Drop)]
pub struct Inbox {
    frames: HeapCircularBuffer<Waiting>,
}

impl Model for Inbox {
    ghost use Rattle.std.specs.Prelude.{◌≡◌, List};
    ghost use Rattle.frame_mirror.specs.declared.ring.Waiting.{Waiting};

    ghost Value = { List Waiting };

    ghost view = { λ i. i.frames.items };

    ghost invariant = { λ i. i.frames.capacity ≡ 4096 };
}

impl Inbox {
    ghost use Rattle.frame_mirror.specs.Inboxes.{TakesOldest};

    /// An inbox with no frame, and memory for all that it may hold.
    pub fn new(alloc: Global) -> Result<Inbox, NoMemory>
        ensures { IfOk result (λ inbox. inbox ≡ []) }
    {
        let frames = HeapCircularBuffer::with_capacity(alloc, INBOX_ROOM)?;
        Ok(Inbox { frames })
    }

    /// Puts a frame last. It is given back, and the inbox stays as it was, exactly where 4,096 are
    /// held. It takes no memory.
    pub fn put(&mut self, waiting: Waiting) -> Result<(), Waiting>
        ensures room { IsOk result ↔ (length self.old < INBOX_ROOM) }
        ensures ok { OnOk result (self.new ≡ self.old ++ waiting ∷ []) }
        ensures full { IfErr result (λ back. (back ≡ waiting) × (self.new ≡ self.old)) }
    {
        self.frames.try_push_back(waiting)
    }

    /// Takes the oldest frame: `None` exactly where none waits. It takes no memory.
    pub fn take(&mut self) -> Option<Waiting>
        ensures { TakesOldest self.old self.new result }
    {
        self.frames.pop_front()
    }

    /// The frame in place `k`, from the oldest on: `None` exactly where there is none.
    pub fn get(&self, k: usize) -> Option<&Waiting>
        ensures { option_copied result ≡ slice_get self.now k }
    {
        self.frames.get(k)
    }

    /// How many frames wait, at most 4,096.
    pub fn len(&self) -> usize
        ensures len { result ≡ length self.now }
        ensures at_most { result ≤ INBOX_ROOM }
    {
        self.frames.len()
    }

    /// Says whether no frame waits.
    pub fn is_empty(&self) -> bool
        ensures { result ≡ (length self.now == 0) }
    {
        self.frames.is_empty()
    }
}

/// Says whether an inbox has room for one more frame.
pub fn has_room(inbox: &Inbox) -> bool
    ensures value { result ≡ has_room inbox.now }
    ensures room { result ≡ true → length inbox.now < INBOX_ROOM }
{
    inbox.len() < INBOX_ROOM
}

/// Puts an accepted frame last, for which there is room. It takes no memory.
pub fn hold(inbox: &mut Inbox, waiting: Waiting)
    requires room { length inbox.old < INBOX_ROOM }
    requires accepted { is_accepted waiting.frame ≡ true }
    requires all { AreAccepted inbox.old }
    ensures value { inbox.new ≡ inbox.old ++ waiting ∷ [] }
    ensures all { AreAccepted inbox.new }
{
    let put = inbox.put(waiting);
    let _ = put.is_ok();
}
