//! The walk from a chain's head to its last descriptor.

ghost use Rattle.std.specs.Prelude.{◌≡◌, ◌<◌, ◌≤◌, ◌^◌, length, IsTrue, OnOk, MatchResult, Some, None};
ghost use Rattle.shared_definitions.specs.FirstOf.{first_of};
ghost use Rattle.virt_queue.specs.Queue.{is_queue_size};
ghost use Rattle.virt_queue.specs.Ring.{ring_inside, descriptor_at};
ghost use Rattle.virt_queue.specs.Parts.{parts_inside};
ghost use Rattle.virt_queue.specs.Chain.{tests, part_of, read_chain, IsRead};

use crate::chain::Chain;
use crate::fields::{Part, QueueFields, RingFault};
use crate::ring::{self, Descriptor};
use page_track::Ram;

/// The descriptor at an index, the `k`-th of its chain, where it has no fault; else the first fault
/// of it. `after` is whether the descriptor before it is writable.
fn check(
    q: &QueueFields,
    ram: &Ram,
    k: u32,
    index: u32,
    after: bool,
) -> Result<Descriptor, RingFault>
    requires ring { IsTrue (ring_inside (length ram.now.bytes) q.now) }
    requires small { length ram.now.bytes ≤ 2 ^ 26 }
    ensures place { OnOk result (k < q.now.num) }
    ensures answer { MatchResult result
        (λ d. (first_of (tests ram.now.bytes q.now k index after) ≡ None)
        × (d ≡ descriptor_at ram.now.bytes q.now index))
        (λ fault. first_of (tests ram.now.bytes q.now k index after) ≡ Some fault) }
{
    if index >= q.num {
        return Err(RingFault::Size);
    }
    if k >= q.num {
        return Err(RingFault::Loop);
    }
    let d = ring::descriptor_at(q, ram, index);
    if d.is_indirect() || (after && !d.is_writable()) {
        return Err(RingFault::Order);
    }
    if !ram.holds(d.addr, u64::from(d.len)) {
        return Err(RingFault::Outside);
    }
    Ok(d)
}

/// Reads the chain at the next position into `chain`, which has no part before.
pub fn walk(q: &QueueFields, ram: &Ram, chain: &mut Chain) -> Result<(), RingFault>
    requires ring { IsTrue (ring_inside (length ram.now.bytes) q.now) }
    requires small { length ram.now.bytes ≤ 2 ^ 26 }
    requires size { IsTrue (is_queue_size q.now.num) }
    ensures read { IsRead (read_chain ram.now.bytes q.now) result chain.new }
    ensures inside { OnOk result (IsTrue (parts_inside (length ram.now.bytes) chain.new.parts)) }
{
    let head = ring::head_of(q, ram);
    chain.begin(head);
    let mut index = head;
    let mut after = false;
    for k in 0..q.num + 1 {
        let d = check(q, ram, k, index, after)?;
        chain.push(Part {
            addr: d.addr,
            len: d.len,
            writable: d.is_writable(),
        });
        if !d.has_next() {
            return Ok(());
        }
        index = u32::from(d.next);
        after = d.is_writable();
    }
    Err(RingFault::Loop)
}
