//! Requests by hand in a ring at the start of memory, over a disk of one sector.

ghost use Rattle.std.specs.Prelude.{◌∷◌, []};

use crate::calls::{memory, registers, served};
use crate::scene::play;
use page_track::Ram;
use std::alloc::{AllocError, Global};
use std::test::Fail;
use virtio_blk::{Blk, Disk};
use worked_steps::{Answer, Scene, number_or_none};

/// A disk of one sector.
#[derive(Drop)]
struct OneSector {
    bytes: [u8; 512],
}

impl Disk for OneSector {
    ghost state = { λ d. record { mine = d.bytes ∷ [] } };

    fn sectors(&self) -> u32 {
        1
    }

    fn sector(&self, _k: u32) -> &[u8] {
        &self.bytes
    }

    fn read_sector(&self, _k: u32, into: &mut [u8; 512]) {
        *into = self.bytes;
    }

    fn write_sector(&mut self, _k: u32, from: &[u8; 512]) {
        self.bytes = *from;
    }
}

/// A device, a MiB of memory, and a disk full of `A`.
#[derive(Drop)]
struct Requests {
    blk: Blk,
    ram: Ram,
    disk: OneSector,
}

impl Scene for Requests {
    /// `serve` serves a request, and `disk` is the byte of the disk at a place.
    fn call(&mut self, name: &str, n: &[u32; 6]) -> Answer {
        match name {
            "serve" => served(self.blk.serve(&mut self.ram, &mut self.disk)),
            "disk" => byte_of(&self.disk, n[0]),
            "write" | "read" | "interrupt" => registers(self.blk.regs_mut(), name, n),
            _ => memory(&mut self.ram, name, n),
        }
    }
}

/// A byte of the disk.
fn byte_of(disk: &OneSector, place: u32) -> Answer {
    number_or_none(disk.bytes.get(place as usize).map(|byte| u32::from(*byte)))
}

impl Requests {
    fn new(alloc: Global) -> Result<Requests, AllocError> {
        Ok(Requests {
            blk: Blk::new(1),
            ram: Ram::new(alloc, 1)?,
            disk: OneSector { bytes: [0x41; 512] },
        })
    }
}

/// The device's queue of 4 stands at 0x80000000 (descriptors), 0x80000100 (available) and
/// 0x80000200 (used).
const RUNNING: &str = "\
write 070 3
write 024 1
write 020 1
write 070 B
write 038 4
write 080 80000000
write 090 80000100
write 0A0 80000200
write 044 1
write 070 F
";

/// A header of 16 bytes at 0x80001000 and an answer of 513 bytes at 0x80002000, as the first chain.
const READ: &str = "\
descriptor 80000000 80001000 10 1 1
descriptor 80000010 80002000 201 2
sw 80000100 00010000
sw 80000104 0
sw 80001000 0
sw 80001008 0
sw 80002000 55555555
sw 800021FC 55555555
sw 80002200 55555555
";

/// IN of the only sector: the answer is its 512 bytes and then status 0, and its length is 513.
const IN: &str = "\
serve : done
lw 80002000 : 41414141
lw 800021FC : 41414141
lw 80002200 : 55555500
lw 80000200 : 00010000
lw 80000208 : 201
interrupt : 1
serve : idle
";

/// IN past the last sector: status 1, nothing else is written, and the length is 0.
const PAST_THE_DISK: &str = "\
sw 80001008 1
serve : done
lw 80002000 : 55555555
lw 80002200 : 55555501
lw 80000208 : 0
";

/// OUT from a header with 4 bytes after it and a part of 508 bytes; then the same chain as FLUSH,
/// and with a type of no meaning.
const OUT: &str = "\
descriptor 80000000 80001000 14 1 1
descriptor 80000010 80002000 1FC 1 2
descriptor 80000020 80003000 1 2
sw 80000100 00010000
sw 80001000 1
sw 80001010 04030201
sw 80002000 08070605
sw 80003000 55555555
serve : done
disk 0 : 1
disk 1 : 2
disk 2 : 3
disk 3 : 4
disk 4 : 5
disk 5 : 6
disk 6 : 7
disk 7 : 8
disk 8 : 0
lw 80003000 : 55555500
lw 80000208 : 1
sw 80000100 00020000
sw 80001000 4
serve : done
lb 80003000 : 0
sw 80000100 00030000
sw 80001000 8
serve : done
lb 80003000 : 2
";

/// OUT of sector 0 from a part of 512 bytes, of which the first and last words are told; then IN of
/// the same sector into that part, which was overwritten meanwhile: it holds the words again.
const OUT_AND_IN: &str = "\
descriptor 80000010 80002000 200 1 2
descriptor 80000020 80003000 1 2
sw 80001000 1
sw 80002000 04030201
sw 800021FC 08070605
serve : done
";

/// The second request of `OUT_AND_IN`.
const IN_AGAIN: &str = "\
sw 80000100 00020000
serve : done
lw 80002000 : 04030201
lw 80002004 : 0
lw 800021FC : 08070605
lw 80002200 : 55555500
lw 80000208 : 1
lw 80000210 : 201
";

/// The status is written after the data, here over its first byte (VIRTIO 1.1, 5.2.6): it is the
/// last byte of the answer.
const STATUS_OVER_DATA: &str = "\
descriptor 80000010 80002000 200 3 2
descriptor 80000020 80002000 1 2
serve : done
lw 80002000 : 41414100
lw 80000208 : 201
";

/// OUT and IN of 100 bytes, which are no whole sectors: status 1, and nothing moves.
const NO_WHOLE_SECTORS: &str = "\
descriptor 80000010 80002000 64 1 2
descriptor 80000020 80003000 1 2
sw 80001000 1
serve : done
disk 0 : 41
lb 80003000 : 1
sw 80000100 00020000
descriptor 80000010 80002000 65 2
sw 80001000 0
serve : done
lw 80002000 : 55555555
lb 80002064 : 1
lw 80000210 : 0
";

/// A driver with a queue of two at the same places, and requests for sector 0.
const QUEUE_OF_TWO: &str = "\
write 070 3
write 024 1
write 020 1
write 070 B
write 038 2
write 080 80000000
write 090 80000100
write 0A0 80000200
write 044 1
write 070 F
";

/// Two requests fill the ring, and are served both; the driver wants no interrupts
/// (VIRTQ_AVAIL_F_NO_INTERRUPT, VIRTIO 1.1, 2.6.7). One more than the number is a fault.
const FULL: &str = "\
sw 80000100 00020001
serve : done
serve : done
serve : idle
lh 80000202 : 2
interrupt : 0
sh 80000102 5
serve : size
interrupt : 2
read 070 : 4F
";

/// A queue that is ready stays where it is when QueueReady is written 1 again; written 0, it starts
/// again.
const READY_AGAIN: &str = "\
serve : done
write 044 1
serve : idle
write 044 0
serve : idle
write 044 1
serve : done
lh 80000202 : 1
";

/// The available ring lies over the used ring's first entry, which is written before its flags are
/// read (VIRTIO 1.1, 2.6.7 and 2.6.8): the head 1 that is returned is then the flag by which the
/// driver wants no interrupt.
const FLAGS_AFTER_RETURN: &str = "\
descriptor 80000010 80001000 10 1 2
descriptor 80000020 80002000 201 2
sw 80000104 1
write 0A0 800000FC
serve : done
lh 800000FE : 1
lw 80000100 : 1
lw 80000104 : 201
interrupt : 0
";

#[test]
fn sector_read(rt: HostRuntime) -> Result<(), Fail> {
    let mut scene = Requests::new(rt.alloc())?;
    play(&rt, &mut scene, &[RUNNING, "serve : idle", READ, IN]);
    Ok(())
}

#[test]
fn sector_past_the_disk(rt: HostRuntime) -> Result<(), Fail> {
    let mut scene = Requests::new(rt.alloc())?;
    play(&rt, &mut scene, &[RUNNING, READ, PAST_THE_DISK]);
    Ok(())
}

#[test]
fn sector_written_from_two_parts(rt: HostRuntime) -> Result<(), Fail> {
    let mut scene = Requests::new(rt.alloc())?;
    play(&rt, &mut scene, &[RUNNING, OUT]);
    Ok(())
}

#[test]
fn a_read_gets_what_an_earlier_write_wrote(rt: HostRuntime) -> Result<(), Fail> {
    let mut scene = Requests::new(rt.alloc())?;
    play(
        &rt,
        &mut scene,
        &[RUNNING, READ, OUT_AND_IN, READ, IN_AGAIN],
    );
    Ok(())
}

#[test]
fn the_status_comes_last(rt: HostRuntime) -> Result<(), Fail> {
    let mut scene = Requests::new(rt.alloc())?;
    play(&rt, &mut scene, &[RUNNING, READ, STATUS_OVER_DATA]);
    Ok(())
}

#[test]
fn no_whole_sectors_are_no_request(rt: HostRuntime) -> Result<(), Fail> {
    let mut scene = Requests::new(rt.alloc())?;
    play(&rt, &mut scene, &[RUNNING, READ, NO_WHOLE_SECTORS]);
    Ok(())
}

#[test]
fn a_full_ring_of_two_requests(rt: HostRuntime) -> Result<(), Fail> {
    let mut scene = Requests::new(rt.alloc())?;
    play(&rt, &mut scene, &[QUEUE_OF_TWO, READ, FULL]);
    Ok(())
}

#[test]
fn a_queue_that_is_made_ready_again(rt: HostRuntime) -> Result<(), Fail> {
    let mut scene = Requests::new(rt.alloc())?;
    play(&rt, &mut scene, &[RUNNING, READ, READY_AGAIN]);
    Ok(())
}

#[test]
fn flags_are_read_after_the_return(rt: HostRuntime) -> Result<(), Fail> {
    let mut scene = Requests::new(rt.alloc())?;
    play(&rt, &mut scene, &[RUNNING, READ, FLAGS_AFTER_RETURN]);
    Ok(())
}
