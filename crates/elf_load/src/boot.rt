//! From the bytes of an image to memory at boot.

ghost use Rattle.std.specs.Prelude.{◌≡◌, ◌+◌, ◌*◌, ◌%◌, ◌<◌, ◌≤◌, length, true, false, None, Some, IfOk, IfErr, OnOk, OnErr};
ghost use Rattle.std.specs.List.{list_any};
ghost use Rattle.elf_load.specs.Elf.{HasTable, entry_of, table_place, table_count, segments};
ghost use Rattle.elf_load.specs.Boot.{can_start, elf_case, boot_memory, overruns, lies_outside};

use crate::fault::ElfFault;
use crate::file::{check_file, entry};
use crate::placing::place_segments;
use crate::segments::{check_segments, is_inside};

/// Loads an image into memory, whose first byte has the address 0x80000000, and gives the address
/// of its first instruction.
///
/// All of `memory` is set, whatever stood there: each segment to be loaded at its physical address,
/// in the order of the program header table, and zeros elsewhere. An image is refused where one of
/// twelve cases holds, by the number of the first; the constants of [`ElfFault`] list them. Memory
/// then stays as it was. Sums of addresses and sizes that pass 32 bits don't wrap.
pub fn load(bytes: &[u8], memory: &mut [u8]) -> Result<u32, ElfFault>
    requires { length memory.old ≤ 67108864 }

    ensures no_case { OnOk result (elf_case (length memory.old) bytes.now ≡ None) }
    ensures entry { IfOk result (λ entry. entry ≡ entry_of bytes.now) }
    ensures memory { OnOk result (memory.new ≡ boot_memory (length memory.old) bytes.now) }

    ensures entry_from { IfOk result (λ entry. 0x80000000 ≤ entry) }
    ensures entry_below { IfOk result (λ entry. entry < 0x80000000 + length memory.old) }
    ensures entry_aligned { IfOk result (λ entry. entry % 4 ≡ 0) }

    ensures first_case { IfErr result (λ fault.
        elf_case (length memory.old) bytes.now ≡ Some fault.number) }
    ensures number_from { IfErr result (λ fault. 1 ≤ fault.number) }
    ensures number_to { IfErr result (λ fault. fault.number ≤ 12) }
    ensures unchanged { OnErr result (memory.new ≡ memory.old) }
{
    let entry = check(bytes, memory.len())?;
    memory.fill(0);
    place_segments(bytes, memory);
    Ok(entry)
}

/// Tests an image without loading it: the twelve cases in their order, for memory of this size. It
/// gives the address of the first instruction, and is refused as [`load`] is.
pub fn check(bytes: &[u8], size: usize) -> Result<u32, ElfFault>
    requires { size ≤ 67108864 }

    ensures no_case { OnOk result (elf_case size bytes.now ≡ None) }
    ensures entry { IfOk result (λ entry. entry ≡ entry_of bytes.now) }
    ensures start { IfOk result (λ entry. can_start size entry ≡ true) }
    ensures long { OnOk result (52 ≤ length bytes.now) }
    ensures table { OnOk result (HasTable bytes.now) }
    ensures no_overrun { OnOk result (
        list_any (overruns (length bytes.now)) (segments bytes.now) ≡ false) }
    ensures inside { OnOk result (list_any (lies_outside size) (segments bytes.now) ≡ false) }

    ensures first_case { IfErr result (λ fault. elf_case size bytes.now ≡ Some fault.number) }
    ensures number_from { IfErr result (λ fault. 1 ≤ fault.number) }
    ensures number_to { IfErr result (λ fault. fault.number ≤ 12) }
{
    check_file(bytes)?;
    check_segments(bytes, size)?;
    let entry = entry(bytes);
    if !can_start(entry, size) {
        return Err(ElfFault::ENTRY);
    }
    Ok(entry)
}

/// Whether a program can begin at an address: it is in memory of this size, and a multiple of 4.
fn can_start(address: u32, size: usize) -> bool
    requires { size ≤ 67108864 }
    ensures { result ≡ can_start size address }
{
    is_inside(address, 1, size) && address % 4 == 0
}
