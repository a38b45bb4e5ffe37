//! The segments to be loaded: whether they can be.

ghost use Rattle.std.specs.Prelude.{◌≡◌, ◌+◌, ◌*◌, ◌≤◌, length, Some, false, IfErr, OnOk};
ghost use Rattle.std.specs.List.{list_any, list_all};
ghost use Rattle.elf_load.specs.Elf.{HasTable, table_place, table_count, segments, is_load};
ghost use Rattle.elf_load.specs.Boot.{segment_cases, overruns, lies_outside, is_empty};
ghost use Rattle.shared_definitions.specs.FirstOf.{first_of};
ghost use Rattle.shared_definitions.specs.Memory.{is_inside};

use crate::fault::ElfFault;
use crate::file::{count, header};
use crate::header::ProgramHeader;

/// `PT_LOAD`, the type of a segment to be loaded.
const PT_LOAD: u32 = 1;

/// The address of memory's first byte.
pub(crate) const RAM_BASE: usize = 0x8000_0000;

impl ProgramHeader {
    ghost use Rattle.std.specs.Prelude.{◌≡◌, ◌+◌, ◌≤◌, length, false, slice_range};
    ghost use Rattle.elf_load.specs.Elf.{is_load};
    ghost use Rattle.elf_load.specs.Boot.{overruns, lies_outside, is_empty};
    ghost use Rattle.shared_definitions.specs.Memory.{is_inside};

    /// Whether it is a segment to be loaded.
    pub(crate) fn is_load(&self) -> bool
        ensures { result ≡ is_load self.now }
    {
        self.p_type == PT_LOAD
    }

    /// Whether it has more bytes in the file than in memory, or bytes past the end of a file of
    /// `len` bytes.
    fn overruns(&self, len: usize) -> bool
        ensures { result ≡ overruns len self.now }
    {
        self.p_filesz > self.p_memsz
            || (self.p_filesz > 0 && self.p_offset as usize + self.p_filesz as usize > len)
    }

    /// Whether it has bytes that aren't in memory of this size.
    fn lies_outside(&self, size: usize) -> bool
        requires { size ≤ 67108864 }
        ensures { result ≡ lies_outside size self.now }
    {
        !is_inside(self.p_paddr, self.p_memsz, size)
    }

    /// Its bytes in the file.
    pub(crate) fn content<'a>(&self, bytes: &'a [u8]) -> &'a [u8]
        requires { overruns (length bytes.now) self.now ≡ false }
        ensures bytes { result.now ≡ (let from = self.now.p_offset in
            slice_range bytes.now from (from + self.now.p_filesz)) }
        ensures len { length result.now ≡ self.now.p_filesz }
    {
        if self.p_filesz == 0 {
            return &[];
        }
        let from = self.p_offset as usize;
        &bytes[from..from + self.p_filesz as usize]
    }

    /// Whether it has no byte in memory.
    fn is_empty(&self) -> bool
        ensures { result ≡ is_empty self.now }
    {
        self.p_memsz == 0
    }
}

/// Whether the `n` bytes from an address on are all in memory of this size. Where there are none
/// they are.
pub(crate) fn is_inside(address: u32, n: u32, size: usize) -> bool
    requires { size ≤ 67108864 }
    ensures { result ≡ is_inside size address n }
{
    let start = address as usize;
    n == 0 || (RAM_BASE <= start && start + n as usize <= RAM_BASE + size)
}

/// Tests the segments to be loaded, for memory of this size.
#[tactic(auto, using(crate::proofs::TableLemmas::up_to_all))]
pub(crate) fn check_segments(bytes: &[u8], size: usize) -> Result<(), ElfFault>
    requires small { size ≤ 67108864 }
    requires long { 52 ≤ length bytes.now }
    requires table { HasTable bytes.now }
    ensures err { IfErr result (λ fault.
        first_of (segment_cases size bytes.now) ≡ Some fault.number) }
    ensures no_overrun { OnOk result (
        list_any (overruns (length bytes.now)) (segments bytes.now) ≡ false) }
    ensures inside { OnOk result (list_any (lies_outside size) (segments bytes.now) ≡ false) }
    ensures some { OnOk result (list_all is_empty (segments bytes.now) ≡ false) }
{
    let mut outside = false;
    let mut empty = true;
    for k in 0..count(bytes) {
        let segment = header(bytes, k);
        if segment.is_load() {
            if segment.overruns(bytes.len()) {
                return Err(ElfFault::OVERRUN);
            }
            outside |= segment.lies_outside(size);
            empty &= segment.is_empty();
        }
    }
    if outside {
        return Err(ElfFault::OUTSIDE);
    }
    if empty {
        return Err(ElfFault::EMPTY);
    }
    Ok(())
}
