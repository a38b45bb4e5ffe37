//! A descriptor chain that was taken from a ring.

ghost use Rattle.std.specs.Prelude.{◌≡◌, ◌==◌, ◌<◌, ◌≤◌, [], ◌∷◌, ◌++◌, length, slice_get, option_map, Some};
ghost use Rattle.std.specs.Option.{option_copied, option_copied_mut};
ghost use Rattle.virt_queue.specs.Chain.{no_chain};
ghost use Rattle.virt_queue.specs.Parts.{find_chain_part, find_writable};

use crate::fields::Part;
use page_track::Ram;
use std::marker::Model;

/// The most parts that a chain has.
const MOST: usize = 256;

/// A part without a byte.
const NO_PART: Part = Part {
    addr: 0,
    len: 0,
    writable: false,
};

/// A descriptor chain: the index of its first descriptor, and the parts of memory that it names, at
/// most 256.
///
/// Contracts see it as a `DescriptorChain`: its `head`, and the list of its `parts`.
#[derive(Drop)]
pub struct Chain {
    head: u32,
    parts: [Part; 256],
    count: usize,
}

impl Model for Chain {
    ghost use Rattle.std.specs.Prelude.{◌≡◌, ◌≤◌, length, take};
    ghost use Rattle.virt_queue.specs.Parts.{DescriptorChain};

    ghost Value = { DescriptorChain };

    ghost view = { λ c. record { head = c.head; parts = take c.count c.parts } };

    ghost invariant = { λ c. (c.count ≤ 256) × (length c.parts ≡ 256) };
}

impl Chain {
    /// A chain without parts, with room for 256.
    pub fn new() -> Chain
        ensures { result ≡ no_chain }
    {
        Chain {
            head: 0,
            parts: [NO_PART; 256],
            count: 0,
        }
    }

    /// The index of the chain's first descriptor, by which it is returned.
    pub fn head(&self) -> u32
        ensures { result ≡ self.now.head }
    {
        self.head
    }

    /// The number of parts.
    pub fn len(&self) -> usize
        ensures value { result ≡ length self.now.parts }
        ensures most { result ≤ 256 }
    {
        self.count
    }

    /// Whether there is no part.
    pub fn is_empty(&self) -> bool
        ensures { result ≡ (length self.now.parts == 0) }
    {
        self.count == 0
    }

    /// Part `k`. It asks that there is one.
    pub fn at(&self, k: usize) -> Part
        requires { k < length self.now.parts }
        ensures { slice_get self.now.parts k ≡ Some result }
    {
        let parts = &self.parts;
        parts[k]
    }

    /// Whether the device writes part `k`. It asks that there is one.
    pub fn writable(&self, k: usize) -> bool
        requires { k < length self.now.parts }
        ensures { option_map (λ p. p.writable) (slice_get self.now.parts k) ≡ Some result }
    {
        self.at(k).writable
    }

    /// The bytes of part `k`; `None` exactly where there is no such part, or it isn't in this
    /// memory.
    pub fn part<'r>(&self, ram: &'r Ram, k: usize) -> Option<&'r [u8]>
        ensures { option_copied result ≡ find_chain_part ram.now.bytes self.now k }
    {
        if k >= self.len() {
            return None;
        }
        let part = self.at(k);
        ram.part(part.addr, u64::from(part.len))
    }

    /// The `len` bytes of part `k` from its byte `from` on, to be written; `None` exactly where
    /// there is no such part, it isn't in this memory or isn't writable, or `from + len` passes its
    /// end.
    ///
    /// No clause says what memory becomes, as at `Ram::part_mut`: `write` has that clause.
    pub fn part_mut<'r>(
        &self,
        ram: &'r mut Ram,
        k: usize,
        from: u32,
        len: u32,
    ) -> Option<&'r mut [u8]>
        ensures { option_copied_mut result ≡ find_writable ram.old.bytes self.now k from len }
    {
        if k >= self.len() {
            return None;
        }
        let part = self.at(k);
        if !part.writable || u64::from(from) + u64::from(len) > u64::from(part.len) {
            return None;
        }
        if !ram.holds(part.addr, u64::from(part.len)) {
            return None;
        }
        let _size = ram.size();
        ram.part_mut(part.addr + u64::from(from), u64::from(len))
    }

    /// A chain without parts again.
    pub(crate) fn clear(&mut self)
        ensures { self.new ≡ no_chain }
    {
        self.head = 0;
        self.count = 0;
    }

    /// A chain with this head, and no part yet.
    pub(crate) fn begin(&mut self, head: u32)
        ensures head { self.new.head ≡ head }
        ensures parts { self.new.parts ≡ [] }
    {
        self.head = head;
        self.count = 0;
    }

    /// One part more.
    pub(crate) fn push(&mut self, part: Part)
        requires { length self.old.parts < 256 }
        ensures head { self.new.head ≡ self.old.head }
        ensures parts { self.new.parts ≡ self.old.parts ++ part ∷ [] }
    {
        self.parts[self.count] = part;
        self.count += 1;
    }
}
