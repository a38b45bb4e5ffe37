//! A disk as one list of sectors.

ghost use Rattle.std.specs.Prelude.{◌≡◌, ◌*◌, ◌↔◌, IsTrue, IsErrOf, IfOk, length, not};
ghost use Rattle.disk_buffers.specs.Sectors.{AreSectors, is_length};

use std::alloc::{AllocError, AllocFailed, Global};
use std::marker::Model;
use virtio_blk::Disk;

/// Why bytes are no disk.
#[derive(Clone, Copy, Debug, PartialEq, Eq)]
pub enum DiskFault {
    /// The length is 0, no multiple of 512, or above 16,777,216.
    Length,
    /// An allocation was refused.
    NoMemory,
}

impl From<AllocError> for DiskFault {
    ghost use Rattle.std.specs.Prelude.{◌≡◌};
    ghost use Rattle.disk_buffers.specs.declared.whole.DiskFault.TheVariants as variant;

    ghost from_gives = { λ _ fault. fault ≡ variant.NoMemory };

    fn from(_: AllocError) -> DiskFault {
        DiskFault::NoMemory
    }
}

impl<T: Drop> From<AllocFailed<T>> for DiskFault {
    ghost use Rattle.std.specs.Prelude.{◌≡◌};
    ghost use Rattle.disk_buffers.specs.declared.whole.DiskFault.TheVariants as variant;

    ghost from_gives = { λ _ fault. fault ≡ variant.NoMemory };

    fn from(_: AllocFailed<T>) -> DiskFault {
        DiskFault::NoMemory
    }
}

/// A disk whose sectors all lie in memory. Contracts see the list of its sectors.
#[derive(Drop)]
pub struct WholeDisk {
    sectors: Vec<[u8; 512]>,
}

impl Model for WholeDisk {
    ghost use Rattle.std.specs.Prelude.{◌<◌, ◌^◌, length};
    ghost use Rattle.virtio_blk.specs.Disk.{DiskState};

    ghost Value = { DiskState };

    ghost view = { λ d. record { mine = d.sectors.items } };

    ghost invariant = { λ d. length d.sectors.items < 2 ^ 32 };
}

/// Whether a disk may have this length.
fn is_length(bytes: usize) -> bool
    ensures { result ≡ is_length bytes }
{
    bytes > 0 && bytes % 512 == 0 && bytes <= 16_777_216
}

/// The sectors of whole sectors' bytes, in order.
#[tactic(auto, using(crate::proofs::SplitLemmas::split_all))]
fn read_sectors(alloc: Global, bytes: &[u8]) -> Result<Vec<[u8; 512]>, AllocFailed<[u8; 512]>>
    requires { IsTrue (is_length (length bytes.now)) }
    ensures sectors { IfOk result (λ sectors. AreSectors bytes.now sectors.items) }
    ensures count { IfOk result (λ sectors. 512 * length sectors.items ≡ length bytes.now) }
{
    let mut sectors = Vec::new(alloc);
    let mut rest = bytes;
    while let Some((sector, after)) = rest.split_first_chunk::<512>() {
        sectors.push(*sector)?;
        rest = after;
    }
    Ok(sectors)
}

impl WholeDisk {
    /// A disk of these bytes, from sector 0 on. `Length` comes exactly where the length is 0, no
    /// multiple of 512, or above 16,777,216.
    pub fn new(alloc: Global, bytes: &[u8]) -> Result<WholeDisk, DiskFault>
        ensures sectors { IfOk result (λ disk. AreSectors bytes.now disk.mine) }
        ensures length { IsErrOf result DiskFault.Length
            ↔ IsTrue (not (is_length (length bytes.now))) }
    {
        if !is_length(bytes.len()) {
            return Err(DiskFault::Length);
        }
        let sectors = read_sectors(alloc, bytes)?;
        Ok(WholeDisk { sectors })
    }
}

impl Disk for WholeDisk {
    ghost state = { λ d. d };

    fn sectors(&self) -> u32 {
        self.sectors.len() as u32
    }

    fn sector(&self, k: u32) -> &[u8] {
        &self.sectors[k as usize]
    }

    fn read_sector(&self, k: u32, into: &mut [u8; 512]) {
        *into = self.sectors[k as usize];
    }

    fn write_sector(&mut self, k: u32, from: &[u8; 512]) {
        self.sectors[k as usize] = *from;
    }
}
