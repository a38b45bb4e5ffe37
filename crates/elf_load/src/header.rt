//! The file header and the entries of the program header table.

ghost use Rattle.std.specs.Prelude.{◌≡◌, ◌+◌, ◌≤◌, length};
ghost use Rattle.elf_load.specs.Elf.{half_at, word_at, header_at};

use byteorder::{ByteOrder, LittleEndian};

/// An entry of the program header table.
#[derive(Clone, Copy)]
pub struct ProgramHeader {
    /// `p_type`.
    pub p_type: u32,
    /// `p_offset`: where the segment begins in the file.
    pub p_offset: u32,
    /// `p_paddr`: where it begins in memory.
    pub p_paddr: u32,
    /// `p_filesz`: its bytes in the file.
    pub p_filesz: u32,
    /// `p_memsz`: its bytes in memory.
    pub p_memsz: u32,
}

/// The 2 bytes at a place, little-endian.
#[tactic(auto, unfolding(crate::specs::Elf::half_at))]
pub(crate) fn half(bytes: &[u8], at: usize) -> u16
    requires { at + 2 ≤ length bytes.now }
    ensures { result ≡ half_at bytes.now at }
{
    LittleEndian::read_u16(&bytes[at..])
}

/// The 4 bytes at a place, little-endian.
#[tactic(auto, unfolding(crate::specs::Elf::word_at))]
pub(crate) fn word(bytes: &[u8], at: usize) -> u32
    requires { at + 4 ≤ length bytes.now }
    ensures { result ≡ word_at bytes.now at }
{
    LittleEndian::read_u32(&bytes[at..])
}

impl ProgramHeader {
    ghost use Rattle.elf_load.specs.Elf.{header_at};

    /// The entry at a place.
    #[tactic(auto, unfolding(crate::specs::Elf::header_at))]
    pub(crate) fn read(bytes: &[u8], at: usize) -> ProgramHeader
        requires { at + 32 ≤ length bytes.now }
        ensures { result ≡ header_at bytes.now at }
    {
        ProgramHeader {
            p_type: word(bytes, at),
            p_offset: word(bytes, at + 4),
            p_paddr: word(bytes, at + 12),
            p_filesz: word(bytes, at + 16),
            p_memsz: word(bytes, at + 20),
        }
    }
}
