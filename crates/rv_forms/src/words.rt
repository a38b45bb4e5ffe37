//! The word of a statement, and the operands of a word.

ghost use Rattle.std.specs.Prelude.{◌≡◌};
ghost use Rattle.rv_forms.specs.Forms.{kinds_of, mask_of, imm_of, wide_of, operands_of, word_of};
ghost use Rattle.rv_forms.specs.Ranges.{AreInRange};

use crate::kinds::{Operands, Syntax};
use crate::mnemonic::Mnemonic;
use rv_isa::fields::{
    aq_of, csr_of, imm_b, imm_i, imm_j, imm_s, imm_u, rd_of, rl_of, rs1_of, rs2_of,
};
use rv_isa::formats::{
    amo_type, b_type, csr_type, i_type, j_type, lr_type, r_type, s_type, u_type,
};

/// Which bits of the word don't depend on the operands.
pub fn mask_of(syntax: Syntax) -> u32
    ensures { result ≡ mask_of syntax }
{
    match syntax {
        Syntax::UType | Syntax::JType => 0x7F,
        Syntax::IType | Syntax::LoadType | Syntax::SType | Syntax::BType => 0x707F,
        Syntax::CsrType | Syntax::CsrNumberType => 0x707F,
        Syntax::RType | Syntax::ShiftType => 0xFE00_707F,
        Syntax::Exact => 0xFFFF_FFFF,
        Syntax::LrType => 0xF9F0_707F,
        Syntax::AmoType => 0xF800_707F,
    }
}

/// The signed immediate or the distance.
fn imm_of(syntax: Syntax, word: u32) -> i32
    ensures { result ≡ imm_of syntax word }
{
    match syntax {
        Syntax::JType => imm_j(word),
        Syntax::IType | Syntax::LoadType => imm_i(word),
        Syntax::SType => imm_s(word),
        Syntax::BType => imm_b(word),
        _ => 0,
    }
}

/// The upper 20 bits, or a CSR's number.
fn wide_of(syntax: Syntax, word: u32) -> u32
    ensures { result ≡ wide_of syntax word }
{
    match syntax {
        Syntax::UType => imm_u(word),
        _ => csr_of(word),
    }
}

/// The values of the operands, read from the word.
#[tactic(auto, unfolding(crate::specs::Forms::operands_of))]
pub fn operands_of(syntax: Syntax, word: u32) -> Operands
    ensures { result ≡ operands_of syntax word }
{
    Operands {
        rd: rd_of(word),
        rs1: rs1_of(word),
        rs2: rs2_of(word),
        imm: imm_of(syntax, word),
        wide: wide_of(syntax, word),
        aq: aq_of(word),
        rl: rl_of(word),
    }
}

/// The word of an instruction with these operands, each of which is within its range.
#[tactic(auto, unfolding(crate::specs::Forms::word_of))]
pub fn word_of(mnemonic: Mnemonic, operands: Operands) -> u32
    requires { AreInRange (kinds_of mnemonic.syntax) operands }
    ensures { result ≡ word_of mnemonic.syntax mnemonic.value operands }
{
    let value = mnemonic.value;
    let Operands {
        rd,
        rs1,
        rs2,
        imm,
        wide,
        aq,
        rl,
    } = operands;
    match mnemonic.syntax {
        Syntax::UType => u_type(value, rd, wide),
        Syntax::JType => j_type(value, rd, imm),
        Syntax::IType | Syntax::LoadType => i_type(value, rd, rs1, imm),
        Syntax::ShiftType | Syntax::RType => r_type(value, rd, rs1, rs2),
        Syntax::SType => s_type(value, rs1, rs2, imm),
        Syntax::BType => b_type(value, rs1, rs2, imm),
        Syntax::CsrType | Syntax::CsrNumberType => csr_type(value, rd, rs1, wide),
        Syntax::Exact => value,
        Syntax::LrType => lr_type(value, rd, rs1, aq, rl),
        Syntax::AmoType => amo_type(value, rd, rs1, rs2, aq, rl),
    }
}
