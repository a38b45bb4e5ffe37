//! The numbers of the CSRs (RISC-V privileged, 2.2 "CSR Listing"), and what `misa` reads.

/// Machine status.
pub const MSTATUS: u32 = 0x300;

/// The instruction sets that there are.
pub const MISA: u32 = 0x301;

/// Which interrupts are enabled.
pub const MIE: u32 = 0x304;

/// The base of the trap handlers, and whether interrupts are vectored.
pub const MTVEC: u32 = 0x305;

/// A word for the trap handler.
pub const MSCRATCH: u32 = 0x340;

/// The program counter of the instruction that trapped.
pub const MEPC: u32 = 0x341;

/// The cause of the last trap.
pub const MCAUSE: u32 = 0x342;

/// The value of the last trap: a bad address or word.
pub const MTVAL: u32 = 0x343;

/// Which interrupts are pending.
pub const MIP: u32 = 0x344;

/// The low half of the count of cycles.
pub const MCYCLE: u32 = 0xB00;

/// The low half of the count of instructions.
pub const MINSTRET: u32 = 0xB02;

/// The high half of the count of cycles.
pub const MCYCLEH: u32 = 0xB80;

/// The high half of the count of instructions.
pub const MINSTRETH: u32 = 0xB82;

/// The vendor.
pub const MVENDORID: u32 = 0xF11;

/// The architecture.
pub const MARCHID: u32 = 0xF12;

/// The implementation.
pub const MIMPID: u32 = 0xF13;

/// The number of the hart.
pub const MHARTID: u32 = 0xF14;

/// RV32 with A, I and M (3.1.1).
pub const RV32_WITH_A_I_M: u32 = 0x4000_1101;
