//! What stands in a ring's parts.

ghost use Rattle.std.specs.Prelude.{◌≡◌, ◌+◌, ◌*◌, ◌^◌, ◌<◌, ◌≤◌, ◌++◌, length, IsTrue};
ghost use Rattle.shared_definitions.specs.Memory.{is_inside, little_endian_bytes};
ghost use Rattle.virt_queue.specs.Ring.{number, ring_inside, descriptor_at, has_next, is_writable, is_indirect, waiting, head_of, asks_interrupt, with_used};

use crate::fields::QueueFields;
use page_track::Ram;

/// A descriptor of the table (VIRTIO 1.1, 2.6.5).
#[derive(Clone, Copy)]
pub struct Descriptor {
    pub addr: u64,
    pub len: u32,
    pub flags: u16,
    pub next: u16,
}

impl Descriptor {
    /// Whether another descriptor of the chain follows.
    pub fn has_next(&self) -> bool
        ensures { result ≡ has_next self.now }
    {
        self.flags & 1 != 0
    }

    /// Whether the device may write its bytes.
    pub fn is_writable(&self) -> bool
        ensures { result ≡ is_writable self.now }
    {
        self.flags & 2 != 0
    }

    /// Whether its bytes are a table of descriptors.
    pub fn is_indirect(&self) -> bool
        ensures { result ≡ is_indirect self.now }
    {
        self.flags & 4 != 0
    }
}

fn u16_at(ram: &Ram, addr: u64) -> u16
    requires { IsTrue (is_inside (length ram.now.bytes) addr 2) }
    ensures { result ≡ number ram.now.bytes addr 2 }
{
    match ram.part(addr, 2) {
        Some(bytes) => bytes
            .first_chunk::<2>()
            .map_or(0, |two| u16::from_le_bytes(*two)),
        None => 0,
    }
}

fn u32_at(ram: &Ram, addr: u64) -> u32
    requires { IsTrue (is_inside (length ram.now.bytes) addr 4) }
    ensures { result ≡ number ram.now.bytes addr 4 }
{
    match ram.part(addr, 4) {
        Some(bytes) => bytes
            .first_chunk::<4>()
            .map_or(0, |four| u32::from_le_bytes(*four)),
        None => 0,
    }
}

fn u64_at(ram: &Ram, addr: u64) -> u64
    requires { IsTrue (is_inside (length ram.now.bytes) addr 8) }
    ensures { result ≡ number ram.now.bytes addr 8 }
{
    match ram.part(addr, 8) {
        Some(bytes) => bytes
            .first_chunk::<8>()
            .map_or(0, |eight| u64::from_le_bytes(*eight)),
        None => 0,
    }
}

/// Whether the three parts of a ring are in memory.
pub fn ring_inside(q: &QueueFields, ram: &Ram) -> bool
    ensures value { result ≡ ring_inside (length ram.now.bytes) q.now }
    ensures small { length ram.now.bytes ≤ 2 ^ 26 }
{
    let _size = ram.size();
    let n = u64::from(q.num);
    ram.holds(q.desc, 16 * n) && ram.holds(q.driver, 4 + 2 * n) && ram.holds(q.device, 4 + 8 * n)
}

/// Descriptor `k` of the table.
pub fn descriptor_at(q: &QueueFields, ram: &Ram, k: u32) -> Descriptor
    requires ring { IsTrue (ring_inside (length ram.now.bytes) q.now) }
    requires small { length ram.now.bytes ≤ 2 ^ 26 }
    requires entry { k < q.now.num }
    ensures { result ≡ descriptor_at ram.now.bytes q.now k }
{
    let at = q.desc + 16 * u64::from(k);
    Descriptor {
        addr: u64_at(ram, at),
        len: u32_at(ram, at + 8),
        flags: u16_at(ram, at + 12),
        next: u16_at(ram, at + 14),
    }
}

/// How many entries of the available ring wait.
pub fn waiting(q: &QueueFields, ram: &Ram) -> u16
    requires ring { IsTrue (ring_inside (length ram.now.bytes) q.now) }
    requires small { length ram.now.bytes ≤ 2 ^ 26 }
    ensures { result ≡ waiting ram.now.bytes q.now }
{
    u16_at(ram, q.driver + 2).wrapping_sub(q.next)
}

/// The entry of the available ring at the next position: the index of a chain's head.
pub fn head_of(q: &QueueFields, ram: &Ram) -> u32
    requires ring { IsTrue (ring_inside (length ram.now.bytes) q.now) }
    requires small { length ram.now.bytes ≤ 2 ^ 26 }
    requires some { 0 < q.now.num }
    ensures { result ≡ head_of ram.now.bytes q.now }
{
    let place = u64::from(u32::from(q.next) % q.num);
    u32::from(u16_at(ram, q.driver + 4 + 2 * place))
}

/// Whether the driver asks for interrupts.
pub fn asks_interrupt(q: &QueueFields, ram: &Ram) -> bool
    requires { IsTrue (ring_inside (length ram.now.bytes) q.now) }
    ensures { result ≡ asks_interrupt ram.now.bytes q.now }
{
    u16_at(ram, q.driver) & 1 == 0
}

/// Writes an entry at the used position, and then idx as the position after it.
#[tactic(auto, unfolding(crate::specs::Ring::with_used))]
pub fn write_used(q: &QueueFields, ram: &mut Ram, head: u32, len: u32)
    requires ring { IsTrue (ring_inside (length ram.old.bytes) q.now) }
    requires small { length ram.old.bytes ≤ 2 ^ 26 }
    requires some { 0 < q.now.num }
    ensures after { ram.new ≡ with_used ram.old q.now head len }
    ensures size { length ram.new.bytes ≡ length ram.old.bytes }
{
    let place = u64::from(u32::from(q.used) % q.num);
    ram.write(q.device + 4 + 8 * place, &used_entry(head, len));
    ram.write(q.device + 2, &q.used.wrapping_add(1).to_le_bytes());
}

/// An entry of the used ring.
fn used_entry(head: u32, len: u32) -> [u8; 8]
    ensures { result ≡ little_endian_bytes 4 head ++ little_endian_bytes 4 len }
{
    let [a, b, c, d] = head.to_le_bytes();
    let [e, f, g, h] = len.to_le_bytes();
    [a, b, c, d, e, f, g, h]
}
