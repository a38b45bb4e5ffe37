//! A platform that makes steps over its timer and its devices.

use colo_base::{Frames, NoMemory};
use page_track::Ram;
use rv_platform::Platform;
use std::alloc::{AllocError, Global};
use std::process::Abort;
use std::test::Fail;

/// A program that raises its own software interrupt, and writes down what its handler finds.
const SOFTWARE_INTERRUPT: [u32; 32] = [
    0x8000_0437, // lui x8, 0x80000
    0x0404_0493, // addi x9, x8, 64
    0x3054_9073, // csrrw x0, mtvec, x9
    0x0080_0313, // addi x6, x0, 8
    0x3043_2073, // csrrs x0, mie, x6
    0x3003_2073, // csrrs x0, mstatus, x6
    0x0200_02B7, // lui x5, 0x2000
    0x0030_0393, // addi x7, x0, 3
    0x0072_A023, // sw x7, 0(x5)
    0,
    0,
    0,
    0,
    0,
    0,
    0, //
    0x0002_A503, // lw x10, 0(x5)
    0x3420_25F3, // csrrs x11, mcause, x0
    0x3410_2673, // csrrs x12, mepc, x0
    0xB020_26F3, // csrrs x13, minstret, x0
    0x10A4_2023, // sw x10, 256(x8)
    0x10B4_2223, // sw x11, 260(x8)
    0x10C4_2423, // sw x12, 264(x8)
    0x10D4_2623, // sw x13, 268(x8)
    0x1000_12B7, // lui x5, 0x10001
    0x0002_A503, // lw x10, 0(x5)
    0,
    0,
    0,
    0,
    0,
    0,
];

/// The line, the cause, the address after the store, and the 13 steps before.
const FOUND: [u8; 16] = [1, 0, 0, 0, 3, 0, 0, 0x80, 0x24, 0, 0, 0x80, 13, 0, 0, 0];

/// What is tested. No call has a clause, so that what the contracts say stands in no goal of the
/// test.
trait Steps {
    /// Makes steps, and answers how many frames were sent.
    fn run(&mut self, steps: u32) -> Result<usize, NoMemory>;

    /// Whether these bytes stand at an address.
    fn has(&self, addr: u64, bytes: &[u8; 16]) -> bool;

    /// The value of x10.
    fn x10(&self) -> u32;

    /// The steps so far.
    fn count(&self) -> u64;
}

/// A platform, and what it sends.
#[derive(Drop)]
struct Computer {
    platform: Platform,
    out: Frames,
}

impl Computer {
    /// One with a MiB of memory that begins with these words, at the first of them.
    fn new(alloc: Global, words: &[u32; 32]) -> Result<Computer, AllocError> {
        let mut ram = Ram::new(alloc, 1)?;
        let mut address = 0x8000_0000u32;
        for word in words {
            ram.store(address, 4, *word);
            address = address.wrapping_add(4);
        }
        Ok(Computer {
            platform: Platform::new(ram, 0x8000_0000, 1),
            out: Frames::new(alloc),
        })
    }
}

impl Steps for Computer {
    fn run(&mut self, steps: u32) -> Result<usize, NoMemory> {
        self.platform.run(steps, &mut self.out)?;
        Ok(self.out.len())
    }

    fn has(&self, addr: u64, bytes: &[u8; 16]) -> bool {
        match self.platform.ram().part(addr, 16) {
            Some(found) => found == bytes.as_slice(),
            None => false,
        }
    }

    fn x10(&self) -> u32 {
        self.platform.hart().x[9]
    }

    fn count(&self) -> u64 {
        self.platform.csrs().steps
    }
}

fn check_interrupt<R: Abort, S: Steps>(rt: &R, computer: &mut S) -> Result<(), Fail> {
    assert_eq!(rt; computer.run(19)?, 0);
    assert!(rt; computer.has(0x8000_0100, &FOUND));
    // the network card's magic value
    assert_eq!(rt; computer.run(2)?, 0);
    assert_eq!(rt; computer.x10(), 0x7472_6976);
    assert_eq!(rt; computer.count(), 21);
    Ok(())
}

#[test]
fn a_program_raises_its_own_interrupt(rt: HostRuntime) -> Result<(), Fail> {
    check_interrupt(&rt, &mut Computer::new(rt.alloc(), &SOFTWARE_INTERRUPT)?)
}
