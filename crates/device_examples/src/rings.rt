//! Worked examples: chains, faults and positions. The bytes of the rings are written out by hand.

use crate::calls::{broken, joined, memory};
use crate::scene::play;
use page_track::Ram;
use std::alloc::{AllocError, Global};
use std::test::Fail;
use virt_queue::{Chain, Queue, QueueFields, RingFault, is_queue_size};
use worked_steps::{Answer, Scene, nothing, number, word, yes_or_no};

/// A queue over a MiB of memory, and the chain that was taken last. Descriptors stand at
/// 0x80000000, the available ring at 0x80004000, and the used ring at 0x80005000.
#[derive(Drop)]
struct Ring {
    ram: Ram,
    queue: Queue,
    chain: Chain,
}

impl Scene for Ring {
    fn call(&mut self, name: &str, n: &[u32; 6]) -> Answer {
        match name {
            "set" => set(&mut self.queue, n[0], n[1]),
            "waits" => waits(&self.queue, &self.ram),
            "next" => next(&mut self.queue, &self.ram, &mut self.chain),
            "push" => push(&mut self.queue, &mut self.ram, n[0], n[1]),
            "position" => number(u64::from(self.queue.fields().next)),
            "used" => number(u64::from(self.queue.fields().used)),
            "line_up" => line_up(&mut self.ram),
            "read" | "count" => read_next(&mut self.queue, &self.ram, name, u64::from(n[0])),
            "write" => write_next(&mut self.queue, &mut self.ram, u64::from(n[0])),
            "fill" => fill(&self.chain, &mut self.ram, n),
            "part" => joined(self.chain.part(&self.ram, n[0] as usize)),
            "addr" | "len" | "writable" => part_of(&self.chain, name, n[0] as usize),
            "head" | "parts" | "empty" | "readable_len" | "writable_len" => {
                about(&self.chain, name)
            }
            _ => memory(&mut self.ram, name, n),
        }
    }
}

impl Ring {
    fn new(alloc: Global) -> Result<Ring, AllocError> {
        Ok(Ring {
            ram: Ram::new(alloc, 1)?,
            queue: Queue::new(),
            chain: Chain::new(),
        })
    }
}

/// Makes the queue ready with a number and at a position of both rings.
fn set(queue: &mut Queue, num: u32, position: u32) -> Answer {
    if !is_queue_size(num) {
        return word("no size");
    }
    let position = (position & 0xFFFF) as u16;
    queue.set_fields(&QueueFields {
        num,
        ready: true,
        desc: 0x8000_0000,
        driver: 0x8000_4000,
        device: 0x8000_5000,
        next: position,
        used: position,
    });
    nothing()
}

/// Whether a chain or a fault waits.
fn waits(queue: &Queue, ram: &Ram) -> Answer {
    if queue.fields().ready {
        yes_or_no(queue.waits(ram))
    } else {
        word("not ready")
    }
}

/// Takes the next chain.
fn next(queue: &mut Queue, ram: &Ram, chain: &mut Chain) -> Answer {
    if queue.fields().ready {
        given(queue.next_chain(ram, chain))
    } else {
        word("not ready")
    }
}

/// Returns a chain by its head.
fn push(queue: &mut Queue, ram: &mut Ram, head: u32, len: u32) -> Answer {
    if queue.fields().ready {
        given(queue.push_used(ram, head, len))
    } else {
        word("not ready")
    }
}

/// What a queue answers.
fn given(answer: Result<bool, RingFault>) -> Answer {
    match answer {
        Ok(answer) => yes_or_no(answer),
        Err(fault) => broken(fault),
    }
}

/// 255 descriptors of one byte each, of which each leads to the next.
fn line_up(ram: &mut Ram) -> Answer {
    let mut at = 0x8000_0000u32;
    for k in 0..255 {
        memory(ram, "descriptor", &[at, 0x8000_6000, 1, 1, k + 1, 0]);
        at = at.wrapping_add(16);
    }
    nothing()
}

/// Takes the next chain, and reads eight bytes of it: `read` answers the bytes, `count` how many
/// there were.
fn read_next(queue: &mut Queue, ram: &Ram, name: &str, from: u64) -> Answer {
    let mut chain = Chain::new();
    if !queue.fields().ready || queue.next_chain(ram, &mut chain) != Ok(true) {
        return word("none");
    }
    let mut into = [0; 8];
    let count = chain.read(ram, from, &mut into);
    if name == "count" {
        number(count as u64)
    } else {
        number(u64::from_be_bytes(into))
    }
}

/// Takes the next chain, and writes 7, 8 and 9 into it.
fn write_next(queue: &mut Queue, ram: &mut Ram, from: u64) -> Answer {
    let mut chain = Chain::new();
    if !queue.fields().ready || queue.next_chain(ram, &mut chain) != Ok(true) {
        return word("none");
    }
    chain.write(ram, from, &[7, 8, 9]);
    nothing()
}

/// Writes 5 over bytes of a part.
fn fill(chain: &Chain, ram: &mut Ram, n: &[u32; 6]) -> Answer {
    match chain.part_mut(ram, n[0] as usize, n[1], n[2]) {
        Some(bytes) => {
            bytes.fill(5);
            nothing()
        }
        None => word("none"),
    }
}

/// The address of a part, its length, and whether the device writes it.
fn part_of(chain: &Chain, name: &str, k: usize) -> Answer {
    if k >= chain.len() {
        return word("none");
    }
    let part = chain.at(k);
    match name {
        "addr" => number(part.addr),
        "len" => number(u64::from(part.len)),
        _ => yes_or_no(chain.writable(k) && part.writable),
    }
}

/// What the chain is as a whole.
fn about(chain: &Chain, name: &str) -> Answer {
    match name {
        "head" => number(u64::from(chain.head())),
        "parts" => number(chain.len() as u64),
        "empty" => yes_or_no(chain.is_empty()),
        "readable_len" => number(chain.readable_len()),
        _ => number(chain.writable_len()),
    }
}

/// A part of 4 bytes to be read and one of 8 to be written.
const TWO_PARTS: &str = "\
descriptor 80000000 80001000 4 1 1
descriptor 80000010 80002000 8 2
sw 80004000 00010000
sh 80004004 0
set 2 0
";

/// The chain is taken, read, written and returned. `read`, `count` and `write` take it again.
const TAKEN: &str = "\
sm 80001000 61626364
empty : yes
waits : yes
next : yes
head : 0
parts : 2
addr 0 : 80001000
len 0 : 4
writable 0 : no
addr 1 : 80002000
len 1 : 8
writable 1 : yes
part 0 : 61626364
readable_len : 4
writable_len : 8
set 2 0
count 1 : 3
set 2 0
read 1 : 6263640000000000
set 2 0
write 6
lw 80002004 : 08070000
lb 80002008 : 0
fill 1 0 2
fill 1 7 2 : none
lw 80002000 : 0505
push 0 8 : yes
lw 80005000 : 00010000
lw 80005008 : 8
waits : no
next : no
used : 1
";

/// A part to be read after one to be written.
const READABLE_AFTER_WRITABLE: &str = "\
descriptor 80000000 80001000 4 3 1
descriptor 80000010 80002000 8 0
next : order
position : 0
";

/// A part that isn't in memory.
const OUTSIDE: &str = "\
descriptor 80000010 90002000 8 2
next : outside
position : 0
";

/// A descriptor that is the next of itself.
const LOOP: &str = "\
descriptor 80000000 80001000 1 1
sw 80004000 00010000
set 8 0
next : loop
empty : yes
";

/// 256 descriptors, of which the last leads nowhere, and then to the first.
const MOST_PARTS: &str = "\
line_up
sw 80004000 00010000
set 100 0
descriptor 80000FF0 80006000 1 0
next : yes
parts : 100
descriptor 80000FF0 80006000 1 1
set 100 0
next : loop
";

/// The position after 65535 is 0, and the place is the position modulo the number. The driver wants
/// no interrupt (VIRTQ_AVAIL_F_NO_INTERRUPT, VIRTIO 1.1, 2.6.7).
const LAST_POSITION: &str = "\
descriptor 80000030 80006000 1 0
sw 80004000 1
sh 8000400A 3
set 4 FFFF
next : yes
head : 3
push 3 0 : no
position : 0
used : 0
lh 80005002 : 0
lw 8000501C : 3
";

#[test]
fn a_chain_of_two_parts_is_taken_read_written_and_returned(rt: HostRuntime) -> Result<(), Fail> {
    play(&rt, &mut Ring::new(rt.alloc())?, &[TWO_PARTS, TAKEN]);
    Ok(())
}

#[test]
fn a_readable_part_after_a_writable_one_and_a_part_outside_are_faults(
    rt: HostRuntime,
) -> Result<(), Fail> {
    let mut ring = Ring::new(rt.alloc())?;
    play(&rt, &mut ring, &[TWO_PARTS, READABLE_AFTER_WRITABLE]);
    play(&rt, &mut ring, &[TWO_PARTS, OUTSIDE]);
    Ok(())
}

#[test]
fn a_descriptor_that_leads_to_itself_is_a_loop(rt: HostRuntime) -> Result<(), Fail> {
    play(&rt, &mut Ring::new(rt.alloc())?, &[LOOP]);
    Ok(())
}

#[test]
fn a_chain_has_at_most_256_parts(rt: HostRuntime) -> Result<(), Fail> {
    play(&rt, &mut Ring::new(rt.alloc())?, &[MOST_PARTS]);
    Ok(())
}

#[test]
fn positions_go_on_from_65535_to_0(rt: HostRuntime) -> Result<(), Fail> {
    play(&rt, &mut Ring::new(rt.alloc())?, &[LAST_POSITION]);
    Ok(())
}
