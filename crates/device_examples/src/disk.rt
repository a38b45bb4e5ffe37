//! A small disk, read and written.

use crate::calls::joined;
use crate::scene::play;
use disk_buffers::{DiskFault, WholeDisk};
use std::alloc::Global;
use std::test::Fail;
use virtio_blk::Disk;
use worked_steps::{Answer, Scene, no_such_call, nothing, number, word};

/// The disk that is read and written.
#[derive(Drop)]
struct Sectors(WholeDisk);

impl Scene for Sectors {
    /// `sector` is the first two bytes of a sector, and `copy` writes what is read of one over
    /// another.
    fn call(&mut self, name: &str, n: &[u32; 6]) -> Answer {
        match name {
            "sectors" => number(u64::from(self.0.sectors())),
            "sector" => first_of(&self.0, n[0]),
            "copy" => copy(&mut self.0, n[0], n[1]),
            _ => no_such_call(),
        }
    }
}

/// The first two bytes of a sector.
fn first_of(disk: &WholeDisk, k: u32) -> Answer {
    if k < disk.sectors() {
        joined(disk.sector(k).get(..2))
    } else {
        word("none")
    }
}

/// Copies a sector, and answers its first two bytes.
fn copy(disk: &mut WholeDisk, from: u32, to: u32) -> Answer {
    let sectors = disk.sectors();
    if from >= sectors || to >= sectors {
        return word("none");
    }
    let mut sector = [0; 512];
    disk.read_sector(from, &mut sector);
    disk.write_sector(to, &sector);
    joined(sector.get(..2))
}

/// A sector that begins with `B`, after one of `A`.
const CALLS: &str = "\
sectors : 2
copy 1 0 : 4241
sector 0 : 4241
sector 1 : 4241
";

#[test]
fn a_disk_of_two_sectors(rt: HostRuntime) -> Result<(), Fail> {
    let mut bytes = [0x41; 1024];
    bytes[512] = 0x42;
    let disk = WholeDisk::new(rt.alloc(), &bytes).ok().ok_or("no disk")?;
    play(&rt, &mut Sectors(disk), &[CALLS]);
    Ok(())
}

/// Whether these bytes are refused for their length.
fn is_no_disk(alloc: Global, bytes: &[u8]) -> bool {
    matches!(WholeDisk::new(alloc, bytes), Err(DiskFault::Length))
}

#[test]
fn lengths_that_are_no_disk(rt: HostRuntime) {
    assert!(rt; is_no_disk(rt.alloc(), &[0; 513]));
    assert!(rt; is_no_disk(rt.alloc(), &[]));
}
