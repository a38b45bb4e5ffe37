//! The formats of instruction words: a function for each, which puts the fields beside what a row
//! fixes (RISC-V unprivileged, RV32I, 2.2 and 2.3).

ghost use Rattle.std.specs.Prelude.{◌≡◌, ℕ, ◌+◌, ◌-◌, ◌%◌, ◌^◌, ◌<◌, ◌≤◌};
ghost use Rattle.rv_isa.specs.Ranges.{IsRegister, IsSigned, IsOffset};
ghost use Rattle.rv_isa.specs.Words.{u_type_word, j_type_word, i_type_word, b_type_word, s_type_word, r_type_word, fence_word, csr_word, amo_word, lr_word, unsigned};

/// LUI and AUIPC: `imm` is the upper 20 bits.
pub fn u_type(value: u32, rd: u8, imm: u32) -> u32
    requires fixed { value ≤ 0x7F }
    requires rd { IsRegister rd }
    requires imm { imm < 2 ^ 20 }
    ensures { result ≡ u_type_word value rd imm }
{
    value + (u32::from(rd) << 7) + (imm << 12)
}

/// JAL.
pub fn j_type(value: u32, rd: u8, imm: i32) -> u32
    requires fixed { value ≤ 0x7F }
    requires rd { IsRegister rd }
    requires imm { IsOffset 21 imm }
    ensures { result ≡ j_type_word value rd imm }
{
    let number = imm.cast_unsigned() & 0x1F_FFFF;
    let high = (number >> 20 << 31) + ((number >> 1 & 1023) << 21);
    let low = ((number >> 11 & 1) << 20) + ((number >> 12 & 255) << 12);
    value + (u32::from(rd) << 7) + high + low
}

/// JALR, the loads and arithmetic with an immediate.
pub fn i_type(value: u32, rd: u8, rs1: u8, imm: i32) -> u32
    requires fixed { value ≤ 0x707F }
    requires rd { IsRegister rd }
    requires rs1 { IsRegister rs1 }
    requires imm { IsSigned 12 imm }
    ensures { result ≡ i_type_word value rd rs1 imm }
{
    let number = imm.cast_unsigned() & 0xFFF;
    value + (u32::from(rd) << 7) + (u32::from(rs1) << 15) + (number << 20)
}

/// The branches.
pub fn b_type(value: u32, rs1: u8, rs2: u8, imm: i32) -> u32
    requires fixed { value ≤ 0x707F }
    requires rs1 { IsRegister rs1 }
    requires rs2 { IsRegister rs2 }
    requires imm { IsOffset 13 imm }
    ensures { result ≡ b_type_word value rs1 rs2 imm }
{
    let number = imm.cast_unsigned() & 0x1FFF;
    let high = (number >> 12 << 31) + ((number >> 5 & 63) << 25);
    let low = ((number >> 1 & 15) << 8) + ((number >> 11 & 1) << 7);
    value + (u32::from(rs1) << 15) + (u32::from(rs2) << 20) + high + low
}

/// The stores.
pub fn s_type(value: u32, rs1: u8, rs2: u8, imm: i32) -> u32
    requires fixed { value ≤ 0x707F }
    requires rs1 { IsRegister rs1 }
    requires rs2 { IsRegister rs2 }
    requires imm { IsSigned 12 imm }
    ensures { result ≡ s_type_word value rs1 rs2 imm }
{
    let number = imm.cast_unsigned() & 0xFFF;
    let places = (number >> 5 << 25) + ((number & 31) << 7);
    value + (u32::from(rs1) << 15) + (u32::from(rs2) << 20) + places
}

/// Arithmetic of registers, and the shifts by a number, which stands in the place of rs2.
pub fn r_type(value: u32, rd: u8, rs1: u8, rs2: u8) -> u32
    requires fixed { value ≤ 0xFE00_707F }
    requires rd { IsRegister rd }
    requires rs1 { IsRegister rs1 }
    requires rs2 { IsRegister rs2 }
    ensures { result ≡ r_type_word value rd rs1 rs2 }
{
    value + (u32::from(rd) << 7) + (u32::from(rs1) << 15) + (u32::from(rs2) << 20)
}

/// FENCE and FENCE.I: `rest` is bits 31 to 15 above bits 11 to 7.
pub fn fence_type(value: u32, rest: u32) -> u32
    requires fixed { value ≤ 0x707F }
    requires rest { rest < 2 ^ 22 }
    ensures { result ≡ fence_word value rest }
{
    value + (rest >> 5 << 15) + ((rest & 31) << 7)
}

/// The CSR instructions; a number as operand stands in the place of rs1.
pub fn csr_type(value: u32, rd: u8, rs1: u8, csr: u32) -> u32
    requires fixed { value ≤ 0x707F }
    requires rd { IsRegister rd }
    requires rs1 { IsRegister rs1 }
    requires csr { csr < 2 ^ 12 }
    ensures { result ≡ csr_word value rd rs1 csr }
{
    value + (u32::from(rd) << 7) + (u32::from(rs1) << 15) + (csr << 20)
}

/// SC and the atomic memory operations.
pub fn amo_type(value: u32, rd: u8, rs1: u8, rs2: u8, aq: bool, rl: bool) -> u32
    requires fixed { value ≤ 0xF800_707F }
    requires rd { IsRegister rd }
    requires rs1 { IsRegister rs1 }
    requires rs2 { IsRegister rs2 }
    ensures { result ≡ amo_word value rd rs1 rs2 aq rl }
{
    let ordering = (u32::from(aq) << 26) + (u32::from(rl) << 25);
    value + (u32::from(rd) << 7) + (u32::from(rs1) << 15) + (u32::from(rs2) << 20) + ordering
}

/// LR.
pub fn lr_type(value: u32, rd: u8, rs1: u8, aq: bool, rl: bool) -> u32
    requires fixed { value ≤ 0xF9F0_707F }
    requires rd { IsRegister rd }
    requires rs1 { IsRegister rs1 }
    ensures { result ≡ lr_word value rd rs1 aq rl }
{
    let ordering = (u32::from(aq) << 26) + (u32::from(rl) << 25);
    value + (u32::from(rd) << 7) + (u32::from(rs1) << 15) + ordering
}
