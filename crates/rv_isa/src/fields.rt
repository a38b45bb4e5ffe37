//! The fields of an instruction word (RISC-V unprivileged, RV32I, 2.2 and 2.3).

ghost use Rattle.std.specs.Prelude.{◌≡◌};
ghost use Rattle.rv_isa.specs.Fields.{rd, rs1, rs2, imm_i, imm_s, imm_b, imm_u, imm_j, csr, aq, rl, rest};

/// The destination register: bits 11 to 7.
#[inline(always)]
pub fn rd_of(word: u32) -> u8
    ensures { result ≡ rd word }
{
    (word >> 7 & 31) as u8
}

/// The first source register: bits 19 to 15.
#[inline(always)]
pub fn rs1_of(word: u32) -> u8
    ensures { result ≡ rs1 word }
{
    (word >> 15 & 31) as u8
}

/// The second source register, and how far a shift goes: bits 24 to 20.
#[inline(always)]
pub fn rs2_of(word: u32) -> u8
    ensures { result ≡ rs2 word }
{
    (word >> 20 & 31) as u8
}

/// The number of a CSR: bits 31 to 20.
#[inline(always)]
pub fn csr_of(word: u32) -> u32
    ensures { result ≡ csr word }
{
    word >> 20
}

/// Acquire: bit 26.
#[inline(always)]
pub fn aq_of(word: u32) -> bool
    ensures { result ≡ aq word }
{
    word >> 26 & 1 == 1
}

/// Release: bit 25.
#[inline(always)]
pub fn rl_of(word: u32) -> bool
    ensures { result ≡ rl word }
{
    word >> 25 & 1 == 1
}

/// All of a fence but its opcode and funct3: bits 31 to 15 above bits 11 to 7.
#[inline(always)]
pub fn rest_of(word: u32) -> u32
    ensures { result ≡ rest word }
{
    (word >> 15 << 5) + (word >> 7 & 31)
}

/// The I-immediate.
#[inline(always)]
pub fn imm_i(word: u32) -> i32
    ensures { result ≡ imm_i word }
{
    word.cast_signed() >> 20
}

/// The S-immediate.
#[inline(always)]
pub fn imm_s(word: u32) -> i32
    ensures { result ≡ imm_s word }
{
    let number = ((word >> 25 << 5) + (word >> 7 & 31)) as i32;
    if number < 2048 { number } else { number - 4096 }
}

/// The B-immediate.
#[inline(always)]
pub fn imm_b(word: u32) -> i32
    ensures { result ≡ imm_b word }
{
    let high = (word >> 31 << 12) + ((word >> 7 & 1) << 11);
    let number = (high + ((word >> 25 & 63) << 5) + ((word >> 8 & 15) << 1)) as i32;
    if number < 4096 { number } else { number - 8192 }
}

/// The upper 20 bits of the U-immediate.
#[inline(always)]
pub fn imm_u(word: u32) -> u32
    ensures { result ≡ imm_u word }
{
    word >> 12
}

/// The J-immediate.
#[inline(always)]
pub fn imm_j(word: u32) -> i32
    ensures { result ≡ imm_j word }
{
    let high = (word >> 31 << 20) + ((word >> 12 & 255) << 12);
    let number = (high + ((word >> 20 & 1) << 11) + ((word >> 21 & 1023) << 1)) as i32;
    if number < 0x10_0000 {
        number
    } else {
        number - 0x20_0000
    }
}
