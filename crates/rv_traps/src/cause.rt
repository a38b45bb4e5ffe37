//! The causes of traps (RISC-V privileged, 3.1.15 "Machine Cause Register", table of causes).

/// A jump or a taken branch to an address that is no multiple of 4.
pub const INSTRUCTION_ADDRESS_MISALIGNED: u32 = 0;

/// A fetch from an address that holds no instruction.
pub const INSTRUCTION_ACCESS_FAULT: u32 = 1;

/// A word that is no instruction, or an access to a CSR that isn't allowed.
pub const ILLEGAL_INSTRUCTION: u32 = 2;

/// EBREAK.
pub const BREAKPOINT: u32 = 3;

/// A load from an address that is no multiple of its width.
pub const LOAD_ADDRESS_MISALIGNED: u32 = 4;

/// A load that the bus refuses.
pub const LOAD_ACCESS_FAULT: u32 = 5;

/// A store or an atomic operation at an address that is no multiple of its width.
pub const STORE_ADDRESS_MISALIGNED: u32 = 6;

/// A store or an atomic operation that the bus refuses.
pub const STORE_ACCESS_FAULT: u32 = 7;

/// ECALL.
pub const ENVIRONMENT_CALL_FROM_M_MODE: u32 = 11;

/// The software interrupt; its number is its bit in `mie` and `mip` too.
pub const MACHINE_SOFTWARE_INTERRUPT: u32 = 3;

/// The timer interrupt; its number is its bit in `mie` and `mip` too.
pub const MACHINE_TIMER_INTERRUPT: u32 = 7;

/// The external interrupt; its number is its bit in `mie` and `mip` too.
pub const MACHINE_EXTERNAL_INTERRUPT: u32 = 11;

/// Bit 31 of `mcause`, which is 1 for an interrupt.
pub const INTERRUPT_BIT: u32 = 0x8000_0000;
