//! The memory, call by call.

ghost use Rattle.std.specs.Prelude.{◌≡◌, ◌⊎◌, ◌+◌, ◌-◌, ◌*◌, ◌/◌, ◌%◌, ◌^◌, ◌≤◌, ◌<◌, length, min, IsTrue, IfOk};
ghost use Rattle.std.specs.Option.{option_copied, option_copied_mut};
ghost use Rattle.std.specs.Borrow.{sem};
ghost use Rattle.shared_definitions.specs.Memory.{place_of, is_inside};
ghost use Rattle.page_track.specs.Memory.{part_at, find_part, find_page, number_at, with_number, with_part, zeros, page_size};

use std::alloc::{AllocError, Global};
use std::marker::Model;

/// The address of memory's first byte.
const BASE: u32 = 0x8000_0000;

/// The bytes of a mebibyte.
const MEBIBYTE: usize = 1 << 20;

/// The bytes of a page.
const PAGE: usize = 4096;

/// The memory of a machine, from 0x80000000 on: 1 to 64 MiB.
///
/// Contracts see it as a `Memory`, whose `bytes` are the list of its bytes.
#[derive(Drop)]
pub struct Ram {
    bytes: Vec<u8>,
}

impl Model for Ram {
    ghost use Rattle.std.specs.Prelude.{◌≡◌, ◌≤◌, ◌%◌, ◌^◌, length};
    ghost use Rattle.page_track.specs.Memory.{Memory};

    ghost Value = { Memory };

    ghost view = { λ r. record { bytes = r.bytes.items } };

    ghost invariant = { λ r. (2 ^ 20 ≤ length r.bytes.items) × (length r.bytes.items ≤ 2 ^ 26)
        × (length r.bytes.items % 4096 ≡ 0) };
}

/// The place in memory of a word's address; at least 2^31 where the address comes before memory.
#[inline(always)]
fn place(addr: u32) -> usize
    ensures inside { 2 ^ 31 ≤ addr → result ≡ place_of addr }
    ensures before { addr < 2 ^ 31 → 2 ^ 31 ≤ result }
    ensures small { result < 2 ^ 32 }
{
    addr.wrapping_sub(BASE) as usize
}

impl Ram {
    ghost use Rattle.page_track.specs.Lending.{LendsPart};

    /// `mib` MiB of memory, all zero.
    ///
    /// It asks 1 to 64.
    #[tactic(auto, unfolding(crate::specs::Memory::zeros))]
    pub fn new(alloc: Global, mib: u32) -> Result<Ram, AllocError>
        requires some { 1 ≤ mib }
        requires few { mib ≤ 64 }
        ensures { IfOk result (λ ram. ram.bytes ≡ zeros mib) }
    {
        let bytes = vec![in alloc; 0u8; mib as usize * MEBIBYTE]?;
        Ok(Ram { bytes })
    }

    /// The number of bytes: 1 to 64 MiB, in whole pages.
    #[inline(always)]
    pub fn size(&self) -> u64
        ensures value { result ≡ length self.now.bytes }
        ensures large { 2 ^ 20 ≤ result }
        ensures small { result ≤ 2 ^ 26 }
        ensures whole { result % page_size ≡ 0 }
    {
        self.bytes.len() as u64
    }

    /// The number of pages.
    pub fn pages(&self) -> u32
        ensures { result * page_size ≡ length self.now.bytes }
    {
        (self.bytes.len() / PAGE) as u32
    }

    /// Whether the `len` bytes from an address on are all in memory. An empty part may have any
    /// address.
    pub fn holds(&self, addr: u64, len: u64) -> bool
        ensures { result ≡ is_inside (length self.now.bytes) addr len }
    {
        if len == 0 {
            return true;
        }
        let size = self.bytes.len() as u64;
        match addr.checked_sub(u64::from(BASE)) {
            Some(from) => from <= size && len <= size - from,
            None => false,
        }
    }

    /// The word at an address, where all of it is in memory.
    #[tactic(auto, unfolding(crate::specs::Memory::number_at))]
    #[inline(always)]
    fn word_at(&self, addr: u32) -> Option<u32>
        ensures { result ≡ number_at self.now.bytes addr 4 }
    {
        let k = place(addr);
        let four = self.bytes.get(k..k + 4)?.first_chunk::<4>()?;
        Some(u32::from_le_bytes(*four))
    }

    #[tactic(auto, unfolding(crate::specs::Memory::number_at))]
    #[inline(always)]
    fn half_at(&self, addr: u32) -> Option<u32>
        ensures { result ≡ number_at self.now.bytes addr 2 }
    {
        let k = place(addr);
        let two = self.bytes.get(k..k + 2)?.first_chunk::<2>()?;
        Some(u32::from(u16::from_le_bytes(*two)))
    }

    #[tactic(auto, unfolding(crate::specs::Memory::number_at))]
    #[inline(always)]
    fn byte_at(&self, addr: u32) -> Option<u32>
        ensures { result ≡ number_at self.now.bytes addr 1 }
    {
        let byte = self.bytes.get(place(addr))?;
        Some(u32::from(*byte))
    }

    /// Stores a word, where all of it is in memory.
    #[tactic(auto, unfolding(crate::specs::Memory::with_number, shared_definitions::specs::Overwrite::overwrite))]
    #[inline(always)]
    fn store_word(&mut self, addr: u32, value: u32) -> bool
        ensures taken { result ≡ is_inside (length self.old.bytes) addr 4 }
        ensures after { self.new ≡ with_number self.old addr 4 value }
        ensures size { length self.new.bytes ≡ length self.old.bytes }
    {
        let k = place(addr);
        if k + 4 > self.bytes.len() {
            return false;
        }
        self.bytes[k..k + 4].copy_from_slice(&value.to_le_bytes());
        true
    }

    #[tactic(auto, unfolding(crate::specs::Memory::with_number, shared_definitions::specs::Overwrite::overwrite))]
    #[inline(always)]
    fn store_half(&mut self, addr: u32, value: u32) -> bool
        ensures taken { result ≡ is_inside (length self.old.bytes) addr 2 }
        ensures after { self.new ≡ with_number self.old addr 2 value }
        ensures size { length self.new.bytes ≡ length self.old.bytes }
    {
        let k = place(addr);
        if k + 2 > self.bytes.len() {
            return false;
        }
        let four = value.to_le_bytes();
        self.bytes[k..k + 2].copy_from_slice(&four[..2]);
        true
    }

    #[tactic(auto, unfolding(crate::specs::Memory::with_number, shared_definitions::specs::Overwrite::overwrite))]
    #[inline(always)]
    fn store_byte(&mut self, addr: u32, value: u32) -> bool
        ensures taken { result ≡ is_inside (length self.old.bytes) addr 1 }
        ensures after { self.new ≡ with_number self.old addr 1 value }
        ensures size { length self.new.bytes ≡ length self.old.bytes }
    {
        let k = place(addr);
        if k + 1 > self.bytes.len() {
            return false;
        }
        let four = value.to_le_bytes();
        self.bytes[k..k + 1].copy_from_slice(&four[..1]);
        true
    }

    /// The little-endian number of `width` bytes at an address; `None` exactly where a byte of it
    /// is outside memory.
    ///
    /// It asks a width of 1, 2 or 4.
    #[inline(always)]
    pub fn load(&self, addr: u32, width: u32) -> Option<u32>
        requires { (width ≡ 1) ⊎ ((width ≡ 2) ⊎ (width ≡ 4)) }
        ensures { result ≡ number_at self.now.bytes addr width }
    {
        match width {
            4 => self.word_at(addr),
            2 => self.half_at(addr),
            _ => self.byte_at(addr),
        }
    }

    /// Stores the lowest `width` bytes of a value at an address, little-endian. It answers `false`
    /// exactly where a byte of it is outside memory, and then nothing changes.
    ///
    /// It asks a width of 1, 2 or 4.
    #[inline(always)]
    pub fn store(&mut self, addr: u32, width: u32, value: u32) -> bool
        requires { (width ≡ 1) ⊎ ((width ≡ 2) ⊎ (width ≡ 4)) }
        ensures taken { result ≡ is_inside (length self.old.bytes) addr width }
        ensures after { self.new ≡ with_number self.old addr width value }
        ensures size { length self.new.bytes ≡ length self.old.bytes }
    {
        match width {
            4 => self.store_word(addr, value),
            2 => self.store_half(addr, value),
            _ => self.store_byte(addr, value),
        }
    }

    /// The place of an address in memory, at most memory's size.
    fn place_within(&self, addr: u64) -> usize
        ensures { result ≡ min (place_of addr) (length self.now.bytes) }
    {
        addr.saturating_sub(u64::from(BASE)).min(self.size()) as usize
    }

    /// The `len` bytes from an address on; `None` exactly where one of them is outside memory. An
    /// empty part may have any address.
    pub fn part(&self, addr: u64, len: u64) -> Option<&[u8]>
        ensures { option_copied result ≡ find_part self.now.bytes addr len }
    {
        if !self.holds(addr, len) {
            return None;
        }
        let from = self.place_within(addr);
        Some(&self.bytes[from..from + len as usize])
    }

    /// The `len` bytes from an address on, to be written. A write through them changes no other
    /// byte.
    ///
    /// It asks that all of them are in memory, as `holds` tells. An empty part may have any
    /// address.
    pub fn lent(&mut self, addr: u64, len: u64) -> &mut [u8]
        requires { IsTrue (is_inside (length self.old.bytes) addr len) }
        ensures* writes_back { sem 𝓛 (LendsPart self.entry addr result) }
        ensures part { result.now ≡ part_at self.old.bytes addr len }
        ensures len { length result.now ≡ len }
    {
        let from = self.place_within(addr);
        self.bytes.slice_mut(from..from + len as usize)
    }

    /// Writes bytes over those from an address on, and changes no other byte.
    ///
    /// It asks that all of them are in memory, as `holds` tells. No byte may have any address.
    pub fn write(&mut self, addr: u64, bytes: &[u8])
        requires { IsTrue (is_inside (length self.old.bytes) addr (length bytes.now)) }
        ensures after { self.new ≡ with_part self.old addr bytes.now }
        ensures size { length self.new.bytes ≡ length self.old.bytes }
    {
        self.lent(addr, bytes.len() as u64).copy_from_slice(bytes);
    }

    /// The `len` bytes from an address on, to be written; `None` exactly where one of them is
    /// outside memory. An empty part may have any address.
    ///
    /// No clause says what memory becomes: a contract cannot speak of an optional slice that is
    /// lent. `lent` has that clause.
    pub fn part_mut(&mut self, addr: u64, len: u64) -> Option<&mut [u8]>
        ensures { option_copied_mut result ≡ find_part self.old.bytes addr len }
    {
        if !self.holds(addr, len) {
            return None;
        }
        Some(self.lent(addr, len))
    }

    /// The 4,096 bytes of page `k`; `None` exactly where there is no such page.
    pub fn page(&self, k: u32) -> Option<&[u8]>
        ensures { option_copied result ≡ find_page self.now.bytes k }
    {
        let from = k as usize * PAGE;
        self.bytes.get(from..from + PAGE)
    }
}
