//! The queue, call by call.

ghost use Rattle.std.specs.Prelude.{◌≡◌, ◌↔◌, ℕ, List, length, IsTrue, if◌then◌else◌, None, Ok, Err, false};
ghost use Rattle.virt_queue.specs.Queue.{is_legal};
ghost use Rattle.virt_queue.specs.Ring.{ring_inside, with_used, asks_interrupt, after_position};
ghost use Rattle.virt_queue.specs.Chain.{next_chain, waits, is_given, chain_of, after_chain, ReadsTheRing};
ghost use Rattle.virt_queue.specs.Parts.{parts_inside};
ghost use Rattle.virt_queue.specs.declared.fields.QueueFields.{QueueFields};

use crate::chain::Chain;
use crate::fields::{QueueFields, RingFault, is_queue_size};
use crate::ring;
use crate::walk::walk;
use page_track::Ram;
use std::marker::Model;

/// A split virtqueue (VIRTIO 1.1, 2.6): what the driver set, and the device's positions in both
/// rings.
///
/// Contracts see it as its `QueueFields`. A ready queue's number is a power of two from 1 to 256.
#[derive(Drop)]
pub struct Queue {
    fields: QueueFields,
}

impl Model for Queue {
    ghost use Rattle.std.specs.Prelude.{IsTrue};
    ghost use Rattle.virt_queue.specs.declared.fields.QueueFields.{QueueFields};
    ghost use Rattle.virt_queue.specs.Queue.{is_legal};

    ghost Value = { QueueFields };

    ghost view = { λ q. q.fields };

    ghost invariant = { λ q. IsTrue (is_legal q.fields) };
}

impl Queue {
    ghost use Rattle.virt_queue.specs.Queue.{no_queue};

    /// A queue that isn't ready, with all fields 0.
    pub fn new() -> Queue
        ensures { result ≡ no_queue }
    {
        Queue {
            fields: QueueFields {
                num: 0,
                ready: false,
                desc: 0,
                driver: 0,
                device: 0,
                next: 0,
                used: 0,
            },
        }
    }

    /// What it holds.
    pub fn fields(&self) -> QueueFields
        ensures value { result ≡ self.now }
        ensures legal { IsTrue (is_legal result) }
    {
        self.fields
    }

    /// It holds these values from now on. It asks, where they are ready, a power of two from 1 to
    /// 256 as `num`.
    pub fn set_fields(&mut self, f: &QueueFields)
        requires { IsTrue (is_legal f.now) }
        ensures { self.new ≡ f.now }
    {
        self.fields = *f;
    }

    /// Whether `next_chain` would give a chain or a fault.
    ///
    /// It asks a ready queue.
    #[tactic(auto, unfolding(crate::specs::Chain::next_chain))]
    pub fn waits(&self, ram: &Ram) -> bool
        requires { IsTrue self.now.ready }
        ensures value { result ≡ waits (next_chain ram.now.bytes self.now) }
        ensures none { (result ≡ false) ↔ (next_chain ram.now.bytes self.now ≡ Ok None) }
    {
        let q = &self.fields;
        !ring::ring_inside(q, ram) || ring::waiting(q, ram) != 0
    }

    /// Takes the next chain of the available ring: `true` where there is one, and then the next
    /// position goes on by 1. `false` comes exactly where none is available. A fault is the first
    /// in this order: `Outside` where a byte of the ring's parts is outside memory, `Size` where
    /// more entries wait than the queue's number, and then those of each descriptor from the head
    /// on. After `false` or a fault the chain has no parts and the queue is as before.
    ///
    /// It asks a ready queue.
    #[tactic(auto, using(crate::proofs::RingLemmas::ready_after), unfolding(crate::specs::Chain::next_chain))]
    pub fn next_chain(&mut self, ram: &Ram, chain: &mut Chain) -> Result<bool, RingFault>
        requires { IsTrue self.old.ready }
        ensures answer { result ≡ is_given (next_chain ram.now.bytes self.old) }
        ensures chain { chain.new ≡ chain_of (next_chain ram.now.bytes self.old) }
        ensures queue { self.new ≡ after_chain self.old (next_chain ram.now.bytes self.old) }
        ensures ready { IsTrue self.new.ready }
        ensures inside { IsTrue (parts_inside (length ram.now.bytes) chain.new.parts) }
    {
        chain.clear();
        let q = self.fields;
        if !ring::ring_inside(&q, ram) {
            return Err(RingFault::Outside);
        }
        let waiting = ring::waiting(&q, ram);
        if u32::from(waiting) > q.num {
            return Err(RingFault::Size);
        }
        if waiting == 0 {
            return Ok(false);
        }
        if let Err(fault) = walk(&q, ram, chain) {
            chain.clear();
            return Err(fault);
        }
        self.fields.next = q.next.wrapping_add(1);
        Ok(true)
    }

    /// Returns a chain by its head: an entry of the used ring with the number of bytes that were
    /// written into it, and then idx as the device's own position plus 1, whatever stood there. It
    /// answers whether the driver asks for an interrupt, as the available ring says after that.
    ///
    /// `Outside` comes exactly where a byte of the ring's parts is outside memory, and then nothing
    /// changes. It asks a ready queue.
    pub fn push_used(&mut self, ram: &mut Ram, head: u32, len: u32) -> Result<bool, RingFault>
        requires { IsTrue self.old.ready }
        ensures answer { result ≡ (if ring_inside (length ram.old.bytes) self.old
            then Ok (asks_interrupt (with_used ram.old self.old head len).bytes self.old)
            else Err RingFault.Outside) }
        ensures memory { ram.new ≡ (if ring_inside (length ram.old.bytes) self.old
            then with_used ram.old self.old head len else ram.old) }
        ensures queue { self.new ≡ (if ring_inside (length ram.old.bytes) self.old
            then record self.old { used = after_position self.old.used } else self.old) }
        ensures ready { IsTrue self.new.ready }
        ensures size { length ram.new.bytes ≡ length ram.old.bytes }
    {
        let q = self.fields;
        if !ring::ring_inside(&q, ram) {
            return Err(RingFault::Outside);
        }
        ring::write_used(&q, ram, head, len);
        self.fields.used = q.used.wrapping_add(1);
        Ok(ring::asks_interrupt(&q, ram))
    }
}

/// What is read of a ring is its chain, from the head to the last descriptor, or its first fault,
/// and each of them is read.
pub fn chain_is_the_rings()
    ensures { (bytes : List ℕ) (q : QueueFields) → ReadsTheRing bytes q }
{}
