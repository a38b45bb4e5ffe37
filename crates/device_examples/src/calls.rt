//! The calls that several scenes have: those of memory, and those of a device's registers.

use page_track::Ram;
use virt_queue::RingFault;
use virtio_mmio::{Event, Regs, Served};
use worked_steps::{
    Answer, no_such_call, nothing, number, number_or_none, word, word_and_number, yes_or_no,
};

/// Loads and stores of 1, 2 and 4 bytes, by the names of RISC-V's instructions, with the address
/// first; `lm` and `sm` are those of 4 bytes with the most significant one first, as frames have
/// them. `descriptor` puts one at an address: that of its part, its length, its flags and the next
/// one (VIRTIO 1.1, 2.6.5).
pub fn memory(ram: &mut Ram, name: &str, n: &[u32; 6]) -> Answer {
    match name {
        "lb" => number_or_none(ram.load(n[0], 1)),
        "lh" => number_or_none(ram.load(n[0], 2)),
        "lw" => number_or_none(ram.load(n[0], 4)),
        "lm" => number_or_none(ram.load(n[0], 4).map(|word| word.swap_bytes())),
        "sb" => stored(ram.store(n[0], 1, n[1])),
        "sh" => stored(ram.store(n[0], 2, n[1])),
        "sw" => stored(ram.store(n[0], 4, n[1])),
        "sm" => stored(ram.store(n[0], 4, n[1].swap_bytes())),
        "descriptor" => stored(put_descriptor(ram, n)),
        _ => no_such_call(),
    }
}

/// What a store answers.
fn stored(done: bool) -> Answer {
    if done { nothing() } else { word("outside") }
}

/// A descriptor at an address.
fn put_descriptor(ram: &mut Ram, n: &[u32; 6]) -> bool {
    let [at, addr, len, flags, next, _] = *n;
    let mut all = true;
    for (place, word) in [(0, addr), (4, 0), (8, len), (12, flags | next << 16)] {
        all = ram.store(at.wrapping_add(place), 4, word) && all;
    }
    all
}

/// The bytes of a part as one number, the first byte first, of at most eight.
pub fn joined(part: Option<&[u8]>) -> Answer {
    match part {
        Some(part) => number(
            part.iter()
                .take(8)
                .fold(0, |so_far, byte| so_far << 8 | u64::from(*byte)),
        ),
        None => word("none"),
    }
}

/// Writes and reads of registers by their offset (VIRTIO 1.1, 4.2.2), and what the device asks for.
pub fn registers(regs: &mut Regs, name: &str, n: &[u32; 6]) -> Answer {
    match name {
        "write" => event(regs.write(n[0], n[1])),
        "read" => number(u64::from(regs.read(n[0]))),
        "config" => number_or_none(regs.config(n[0], n[1])),
        "interrupt" => number(u64::from(regs.interrupt())),
        "live" => yes_or_no(regs.is_live()),
        _ => no_such_call(),
    }
}

/// What a write asks of the device.
pub fn event(event: Event) -> Answer {
    match event {
        Event::Nothing => nothing(),
        Event::Notify(queue) => word_and_number("notify", u64::from(queue)),
        Event::Reset => word("reset"),
        Event::Ack => word("ack"),
    }
}

/// What a device answers that was asked to serve a queue.
pub fn served(served: Served) -> Answer {
    match served {
        Served::Done => word("done"),
        Served::Idle => word("idle"),
        Served::Broken(fault) => broken(fault),
    }
}

/// The fault of a ring.
pub fn broken(fault: RingFault) -> Answer {
    word(match fault {
        RingFault::Outside => "outside",
        RingFault::Size => "size",
        RingFault::Loop => "loop",
        RingFault::Order => "order",
    })
}
