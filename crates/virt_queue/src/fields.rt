//! What a queue and a chain hold, and why a ring is refused.

ghost use Rattle.std.specs.Prelude.{◌≡◌};
ghost use Rattle.virt_queue.specs.Queue.{is_queue_size};

/// Why a ring or a chain is refused.
#[derive(Clone, Copy, Debug, PartialEq, Eq)]
pub enum RingFault {
    /// A chain has more descriptors than the queue's number.
    Loop,
    /// A byte of the ring's parts or of a chain's part is outside memory.
    Outside,
    /// An index is not below the queue's number, or more entries wait than the queue's number.
    Size,
    /// A descriptor table is indirect, or a readable part comes after a writable one.
    Order,
}

/// A part of memory that a descriptor names: its address, its bytes, and whether the device writes
/// it.
#[derive(Clone, Copy, Debug, PartialEq, Eq)]
pub struct Part {
    pub addr: u64,
    pub len: u32,
    pub writable: bool,
}

/// What a queue holds: its number, whether it is ready, the addresses of its descriptor table,
/// available ring (`driver`) and used ring (`device`), the next position of the available ring and
/// that of the used ring.
#[derive(Clone, Copy, Debug, PartialEq, Eq)]
pub struct QueueFields {
    pub num: u32,
    pub ready: bool,
    pub desc: u64,
    pub driver: u64,
    pub device: u64,
    pub next: u16,
    pub used: u16,
}

/// Whether a queue may have this number: a power of two from 1 to 256 (VIRTIO 1.1, 2.6: a power of
/// two).
pub fn is_queue_size(num: u32) -> bool
    ensures { result ≡ is_queue_size num }
{
    matches!(num, 1 | 2 | 4 | 8 | 16 | 32 | 64 | 128 | 256)
}
