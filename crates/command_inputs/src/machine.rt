//! The machine of an image and a disk.

ghost use Rattle.std.specs.Prelude.{◌≡◌, ◌≤◌, ℕ, List, None, Ok, IfOk, IfErr, OnOk};
ghost use Rattle.elf_load.specs.Boot.{elf_case};
ghost use Rattle.guest_machine.specs.Boot.{ram_size};
ghost use Rattle.guest_machine.specs.Guest.{machine_meaning};
ghost use Rattle.command_inputs.specs.Machine.{read_disk, read_machine};
ghost use Rattle.command_inputs.specs.Reading.{IsRefused};

use crate::refusals::{disk_refusal, image_refusal};
use disk_buffers::{DiskFault, WholeDisk};
use elf_load::check;
use file_steps::Fault;
use guest_machine::{BootFault, Machine};
use std::alloc::Global;

/// The bytes of a MiB.
const MIB: usize = 1024 * 1024;

/// A disk of these bytes. It is refused by its length.
fn read_disk(alloc: Global, disk: &[u8]) -> Result<WholeDisk, Fault>
    ensures read { IfOk result (λ whole. read_disk disk.now ≡ Ok whole.mine) }
    ensures refused { IfErr result (IsRefused (read_disk disk.now)) }
{
    match WholeDisk::new(alloc, disk) {
        Ok(whole) => Ok(whole),
        Err(DiskFault::Length) => Err(Fault::Refused(disk_refusal(disk.len() as u64))),
        Err(DiskFault::NoMemory) => Err(Fault::NoMemory),
    }
}

/// Tests an image without loading it.
fn test_image(mib: u32, image: &[u8]) -> Result<(), Fault>
    requires { mib ≤ 64 }
    ensures good { OnOk result (elf_case (ram_size mib) image.now ≡ None) }
    ensures refused { IfErr result (λ fault.
        (disk : List ℕ) → IsRefused (read_machine mib image.now disk) fault) }
{
    match check(image, mib as usize * MIB) {
        Ok(_) => Ok(()),
        Err(fault) => Err(Fault::Refused(image_refusal(fault.number as u64))),
    }
}

/// The machine that the image boots with so many MiB of memory, 1 to 64, and a disk of these bytes.
/// It is refused by the image, and else by the disk.
pub fn read_machine(
    alloc: Global,
    mib: u32,
    image: &[u8],
    disk: &[u8],
) -> Result<Machine<WholeDisk>, Fault>
    requires least { 1 ≤ mib }
    requires most { mib ≤ 64 }
    ensures read { IfOk result (λ machine.
        read_machine mib image.now disk.now ≡ Ok (machine_meaning machine)) }
    ensures refused { IfErr result (IsRefused (read_machine mib image.now disk.now)) }
{
    test_image(mib, image)?;
    let whole = read_disk(alloc, disk)?;
    match Machine::boot(alloc, image, whole, mib) {
        Ok(machine) => Ok(machine),
        Err(BootFault::Elf(fault)) => Err(Fault::Refused(image_refusal(fault.number as u64))),
        Err(BootFault::NoMemory) => Err(Fault::NoMemory),
    }
}
