//! Why an image is refused.

/// The number, from 1 to 12, of the first case that holds of a refused image. Each case has its
/// constant here, in the order in which they are tested.
#[derive(Clone, Copy, Debug, PartialEq, Eq)]
pub struct ElfFault {
    pub number: u8,
}

impl ElfFault {
    /// The file has fewer than the 52 bytes of a file header.
    pub const SHORT: ElfFault = ElfFault { number: 1 };
    /// It doesn't begin with 7F 45 4C 46.
    pub const MAGIC: ElfFault = ElfFault { number: 2 };
    /// `EI_CLASS` isn't 1, 32 bits.
    pub const CLASS: ElfFault = ElfFault { number: 3 };
    /// `EI_DATA` isn't 1, little-endian.
    pub const ENCODING: ElfFault = ElfFault { number: 4 };
    /// `e_type` isn't 2, an executable file.
    pub const KIND: ElfFault = ElfFault { number: 5 };
    /// `e_machine` isn't 243, RISC-V.
    pub const MACHINE: ElfFault = ElfFault { number: 6 };
    /// `e_phentsize` isn't 32.
    pub const ENTRY_SIZE: ElfFault = ElfFault { number: 7 };
    /// The program header table passes the end of the file.
    pub const TABLE: ElfFault = ElfFault { number: 8 };
    /// A segment has more bytes in the file than in memory, or bytes past the end of the file.
    pub const OVERRUN: ElfFault = ElfFault { number: 9 };
    /// A segment has bytes that aren't in memory.
    pub const OUTSIDE: ElfFault = ElfFault { number: 10 };
    /// No segment has bytes in memory.
    pub const EMPTY: ElfFault = ElfFault { number: 11 };
    /// The entry isn't in memory, or is no multiple of 4.
    pub const ENTRY: ElfFault = ElfFault { number: 12 };
}
