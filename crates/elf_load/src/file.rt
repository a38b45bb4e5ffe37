//! The file header, and the place of the program header table.

ghost use Rattle.std.specs.Prelude.{◌≡◌, ◌+◌, ◌*◌, ◌≤◌, ◌<◌, length, None, Some, MatchResult, OnOk};
ghost use Rattle.elf_load.specs.Elf.{HasTable, entry_of, table_place, table_count, header_at};
ghost use Rattle.elf_load.specs.Boot.{file_cases};
ghost use Rattle.shared_definitions.specs.FirstOf.{first_of};

use crate::fault::ElfFault;
use crate::header::{ProgramHeader, half, word};

// The places of the file header's fields.
const EI_CLASS: usize = 4;

const EI_DATA: usize = 5;

const E_TYPE: usize = 16;

const E_MACHINE: usize = 18;

const E_ENTRY: usize = 24;

const E_PHOFF: usize = 28;

const E_PHENTSIZE: usize = 42;

const E_PHNUM: usize = 44;

const HEADER_SIZE: usize = 52;

const MAGIC: &[u8; 4] = b"\x7fELF";

const CLASS_32: u8 = 1;

const LITTLE_ENDIAN: u8 = 1;

const EXECUTABLE: u16 = 2;

const RISC_V: u16 = 243;

const ENTRY_SIZE: usize = 32;

/// Tests the file header and the place of the program header table.
pub(crate) fn check_file(bytes: &[u8]) -> Result<(), ElfFault>
    ensures cases { MatchResult result
        (λ _. first_of (file_cases bytes.now) ≡ None)
        (λ fault. first_of (file_cases bytes.now) ≡ Some fault.number) }
    ensures long { OnOk result (52 ≤ length bytes.now) }
    ensures table { OnOk result (HasTable bytes.now) }
{
    if bytes.len() < HEADER_SIZE {
        return Err(ElfFault::SHORT);
    }
    if !bytes.starts_with(MAGIC) {
        return Err(ElfFault::MAGIC);
    }
    if bytes[EI_CLASS] != CLASS_32 {
        return Err(ElfFault::CLASS);
    }
    if bytes[EI_DATA] != LITTLE_ENDIAN {
        return Err(ElfFault::ENCODING);
    }
    if half(bytes, E_TYPE) != EXECUTABLE {
        return Err(ElfFault::KIND);
    }
    if half(bytes, E_MACHINE) != RISC_V {
        return Err(ElfFault::MACHINE);
    }
    if half(bytes, E_PHENTSIZE) as usize != ENTRY_SIZE {
        return Err(ElfFault::ENTRY_SIZE);
    }
    if word(bytes, E_PHOFF) as usize + ENTRY_SIZE * count(bytes) > bytes.len() {
        return Err(ElfFault::TABLE);
    }
    Ok(())
}

/// The address of the program's first instruction.
#[tactic(auto, unfolding(crate::specs::Elf::entry_of))]
pub(crate) fn entry(bytes: &[u8]) -> u32
    requires { 52 ≤ length bytes.now }
    ensures { result ≡ entry_of bytes.now }
{
    word(bytes, E_ENTRY)
}

/// The number of entries of the program header table.
pub(crate) fn count(bytes: &[u8]) -> usize
    requires { 52 ≤ length bytes.now }
    ensures value { result ≡ table_count bytes.now }
    ensures small { result < 65536 }
{
    half(bytes, E_PHNUM) as usize
}

/// Entry `k` of the program header table.
pub(crate) fn header(bytes: &[u8], k: usize) -> ProgramHeader
    requires long { 52 ≤ length bytes.now }
    requires table { HasTable bytes.now }
    requires entry { k < table_count bytes.now }
    ensures { result ≡ header_at bytes.now (table_place bytes.now + 32 * k) }
{
    ProgramHeader::read(bytes, word(bytes, E_PHOFF) as usize + ENTRY_SIZE * k)
}
