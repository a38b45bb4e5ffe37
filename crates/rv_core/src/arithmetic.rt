//! Arithmetic of words of 32 bits, as RV32I, RV32M and RV32A have it.

ghost use Rattle.std.specs.Prelude.{◌≡◌, ◌*ℤ◌};
ghost use Rattle.std.specs.Int.{int_shr};
ghost use Rattle.rv_core.specs.Arithmetic.{word_of, sign_extended, zero_extended, slt, sltu, sll, srl, sra, mulh, mulhsu, mulhu, div, divu, rem, remu, min, max, minu, maxu};
ghost use Rattle.rv_core.specs.Choices.{apply, holds};

/// An operation on two words. `Second` gives the second.
#[derive(Clone, Copy)]
pub(crate) enum AluOp {
    Add,
    Sub,
    Slt,
    Sltu,
    Sll,
    Srl,
    Sra,
    And,
    Or,
    Xor,
    Mul,
    Mulh,
    Mulhsu,
    Mulhu,
    Div,
    Divu,
    Rem,
    Remu,
    Swap,
    Min,
    Max,
    Minu,
    Maxu,
}

impl AluOp {
    #[inline(always)]
    pub(crate) fn apply(self, a: u32, b: u32) -> u32
        ensures { result ≡ apply self a b }
    {
        match self {
            AluOp::Add => a.wrapping_add(b),
            AluOp::Sub => a.wrapping_sub(b),
            AluOp::Slt => slt(a, b),
            AluOp::Sltu => sltu(a, b),
            AluOp::Sll => sll(a, b),
            AluOp::Srl => srl(a, b),
            AluOp::Sra => sra(a, b),
            AluOp::And => a & b,
            AluOp::Or => a | b,
            AluOp::Xor => a ^ b,
            AluOp::Mul => a.wrapping_mul(b),
            AluOp::Mulh => mulh(a, b),
            AluOp::Mulhsu => mulhsu(a, b),
            AluOp::Mulhu => mulhu(a, b),
            AluOp::Div => div(a, b),
            AluOp::Divu => divu(a, b),
            AluOp::Rem => rem(a, b),
            AluOp::Remu => remu(a, b),
            AluOp::Swap => b,
            AluOp::Min => min(a, b),
            AluOp::Max => max(a, b),
            AluOp::Minu => minu(a, b),
            AluOp::Maxu => maxu(a, b),
        }
    }
}

/// A comparison of two words.
#[derive(Clone, Copy)]
pub(crate) enum Comparison {
    Eq,
    Ne,
    Lt,
    Ge,
    Ltu,
    Geu,
}

impl Comparison {
    #[inline(always)]
    pub(crate) fn holds(self, a: u32, b: u32) -> bool
        ensures { result ≡ holds self a b }
    {
        match self {
            Comparison::Eq => a == b,
            Comparison::Ne => a != b,
            Comparison::Lt => a.cast_signed() < b.cast_signed(),
            Comparison::Ge => a.cast_signed() >= b.cast_signed(),
            Comparison::Ltu => a < b,
            Comparison::Geu => a >= b,
        }
    }
}

/// The lowest byte, with copies of its sign bit above.
#[inline(always)]
pub(crate) fn extend_byte(a: u32) -> u32
    ensures { result ≡ sign_extended 8 a }
{
    let low = a & 0xFF;
    if low < 0x80 { low } else { low + 0xFFFF_FF00 }
}

/// The lowest two bytes, with copies of their sign bit above.
#[inline(always)]
pub(crate) fn extend_half(a: u32) -> u32
    ensures { result ≡ sign_extended 16 a }
{
    let low = a & 0xFFFF;
    if low < 0x8000 { low } else { low + 0xFFFF_0000 }
}

/// The lowest byte.
#[inline(always)]
pub(crate) fn low_byte(a: u32) -> u32
    ensures { result ≡ zero_extended 8 a }
{
    a & 0xFF
}

/// The lowest two bytes.
#[inline(always)]
pub(crate) fn low_half(a: u32) -> u32
    ensures { result ≡ zero_extended 16 a }
{
    a & 0xFFFF
}

#[inline(always)]
fn slt(a: u32, b: u32) -> u32
    ensures { result ≡ slt a b }
{
    if a.cast_signed() < b.cast_signed() {
        1
    } else {
        0
    }
}

#[inline(always)]
fn sltu(a: u32, b: u32) -> u32
    ensures { result ≡ sltu a b }
{
    if a < b { 1 } else { 0 }
}

#[inline(always)]
fn sll(a: u32, b: u32) -> u32
    ensures { result ≡ sll a b }
{
    a.wrapping_shl(b)
}

#[inline(always)]
fn srl(a: u32, b: u32) -> u32
    ensures { result ≡ srl a b }
{
    a.wrapping_shr(b)
}

#[inline(always)]
fn sra(a: u32, b: u32) -> u32
    ensures { result ≡ sra a b }
{
    a.cast_signed().wrapping_shr(b).cast_unsigned()
}

#[inline(always)]
fn mulh(a: u32, b: u32) -> u32
    ensures { result ≡ mulh a b }
{
    high_half(product(a.cast_signed(), b.cast_signed()))
}

#[inline(always)]
fn mulhsu(a: u32, b: u32) -> u32
    ensures { result ≡ mulhsu a b }
{
    high_half(i64::from(a.cast_signed()) * i64::from(b))
}

/// The whole product.
#[inline(always)]
fn product(a: i32, b: i32) -> i64
    ensures { result ≡ a *ℤ b }
{
    i64::from(a) * i64::from(b)
}

/// The upper half of a product.
#[inline(always)]
fn high_half(product: i64) -> u32
    ensures { result ≡ word_of (int_shr product 32) }
{
    ((product >> 32) as i32).cast_unsigned()
}

#[inline(always)]
fn mulhu(a: u32, b: u32) -> u32
    ensures { result ≡ mulhu a b }
{
    (u64::from(a) * u64::from(b) >> 32) as u32
}

#[inline(always)]
fn div(a: u32, b: u32) -> u32
    ensures { result ≡ div a b }
{
    if b == 0 {
        u32::MAX
    } else {
        a.cast_signed()
            .wrapping_div(b.cast_signed())
            .cast_unsigned()
    }
}

#[inline(always)]
fn divu(a: u32, b: u32) -> u32
    ensures { result ≡ divu a b }
{
    if b == 0 { u32::MAX } else { a / b }
}

#[inline(always)]
fn rem(a: u32, b: u32) -> u32
    ensures { result ≡ rem a b }
{
    if b == 0 {
        a
    } else {
        a.cast_signed()
            .wrapping_rem(b.cast_signed())
            .cast_unsigned()
    }
}

#[inline(always)]
fn remu(a: u32, b: u32) -> u32
    ensures { result ≡ remu a b }
{
    if b == 0 { a } else { a % b }
}

#[inline(always)]
fn min(a: u32, b: u32) -> u32
    ensures { result ≡ min a b }
{
    if b.cast_signed() < a.cast_signed() {
        b
    } else {
        a
    }
}

#[inline(always)]
fn max(a: u32, b: u32) -> u32
    ensures { result ≡ max a b }
{
    if a.cast_signed() < b.cast_signed() {
        b
    } else {
        a
    }
}

#[inline(always)]
fn minu(a: u32, b: u32) -> u32
    ensures { result ≡ minu a b }
{
    if b < a { b } else { a }
}

#[inline(always)]
fn maxu(a: u32, b: u32) -> u32
    ensures { result ≡ maxu a b }
{
    if a < b { b } else { a }
}
