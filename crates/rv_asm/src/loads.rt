//! The two words that load a number: LUI and ADDI.

ghost use Rattle.std.specs.Prelude.{◌≡◌, ◌<◌, ◌∷◌, []};
ghost use Rattle.rv_isa.specs.declared.instr.Instr.TheVariants.{Lui, Addi};
ghost use Rattle.rv_asm.specs.Statements.{upper_part, lower_part, load_words};

use rv_isa::{Instr, encode};

/// The upper 20 bits of a number, one more where the lower 12 are read as negative.
fn upper_part(value: u32) -> u32
    ensures { result ≡ upper_part value }
{
    ((value as u64 + 2048) / 4096 % 1048576) as u32
}

/// The lower 12 bits of a number as a signed number.
fn lower_part(value: u32) -> i32
    ensures { result ≡ lower_part value }
{
    let low = (value % 4096) as i32;
    if low < 2048 { low } else { low - 4096 }
}

/// LUI with the upper part.
fn lui(rd: u8, value: u32) -> Instr
    ensures { result ≡ Lui rd (upper_part value) }
{
    let imm = upper_part(value);
    Instr::Lui { rd, imm }
}

/// ADDI with the lower part.
fn addi(rd: u8, value: u32) -> Instr
    ensures { result ≡ Addi rd rd (lower_part value) }
{
    let imm = lower_part(value);
    Instr::Addi { rd, rs1: rd, imm }
}

/// The words that load a number into a register.
pub fn load_words(rd: u8, value: u32) -> (u32, u32)
    requires { rd < 32 }
    ensures { result.0 ∷ result.1 ∷ [] ≡ load_words rd value }
{
    let upper = lui(rd, value);
    let lower = addi(rd, value);
    (encode(&upper), encode(&lower))
}
