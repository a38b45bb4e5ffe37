//! Reading a word by the instruction table: a function for each opcode, on the bits that its rows
//! fix (RISC-V unprivileged, "RV32/64G Instruction Set Listings").

ghost use Rattle.std.specs.Prelude.{◌≡◌, false, IsTrue, IfSome, All, Contains, bit_and};
ghost use Rattle.rv_isa.specs.Table.{Row, table, fits, decode, HasAtMostOneRow, IsEncodable};
ghost use Rattle.rv_isa.specs.Ranges.{IsWithin};

use crate::fields::{
    aq_of, csr_of, imm_b, imm_i, imm_j, imm_s, imm_u, rd_of, rest_of, rl_of, rs1_of, rs2_of,
};
use crate::instr::Instr;

/// The instruction that a word decodes to, `None` where no row of the instruction table fits it
/// (RISC-V unprivileged, RV32I, M, A, Zicsr and Zifencei; privileged, MRET and WFI).
#[inline(always)]
pub fn decode(word: u32) -> Option<Instr>
    ensures value { result ≡ decode word }

    // No two rows fit a word, and the one that does is the one that is read.
    ensures one_row { HasAtMostOneRow word }
    ensures row { (r : Row) → Contains table r
        → IsTrue (fits r word) → result ≡ Some (r.read word) }
    ensures none { result ≡ None → All (λ row. fits row word ≡ false) table }

    // Each field is within its range, and some word decodes to the result.
    ensures within { IfSome result IsWithin }
    ensures encodable { IfSome result IsEncodable }
{
    instruction(word)
}

/// The value alone, by the opcode.
#[tactic(auto, using(crate::proofs::DecodeLemmas::opcode_rows))]
#[inline(always)]
fn instruction(word: u32) -> Option<Instr>
    ensures { result ≡ decode word }
{
    let rd = rd_of(word);
    match word & 0x7F {
        0x37 => Some(Instr::Lui {
            rd,
            imm: imm_u(word),
        }),
        0x17 => Some(Instr::Auipc {
            rd,
            imm: imm_u(word),
        }),
        0x6F => Some(Instr::Jal {
            rd,
            imm: imm_j(word),
        }),
        0x67 => jalr(word),
        0x63 => branch(word),
        0x03 => load(word),
        0x23 => store(word),
        0x13 => op_imm(word),
        0x33 => op(word),
        0x0F => misc_mem(word),
        0x73 => system(word),
        0x2F => amo(word),
        _ => None,
    }
}

/// A word with the opcode LOAD (2.6).
#[tactic(auto, using(crate::proofs::DecodeLemmas::load_rows))]
#[inline(always)]
fn load(word: u32) -> Option<Instr>
    requires { bit_and word 0x7F ≡ 0x03 }
    ensures { result ≡ decode word }
{
    let rd = rd_of(word);
    let rs1 = rs1_of(word);
    let imm = imm_i(word);
    match word & 0x707F {
        0x03 => Some(Instr::Lb { rd, rs1, imm }),
        0x1003 => Some(Instr::Lh { rd, rs1, imm }),
        0x2003 => Some(Instr::Lw { rd, rs1, imm }),
        0x4003 => Some(Instr::Lbu { rd, rs1, imm }),
        0x5003 => Some(Instr::Lhu { rd, rs1, imm }),
        _ => None,
    }
}

/// A word with the opcode STORE (2.6).
#[tactic(auto, using(crate::proofs::DecodeLemmas::store_rows))]
#[inline(always)]
fn store(word: u32) -> Option<Instr>
    requires { bit_and word 0x7F ≡ 0x23 }
    ensures { result ≡ decode word }
{
    let rs1 = rs1_of(word);
    let rs2 = rs2_of(word);
    let imm = imm_s(word);
    match word & 0x707F {
        0x23 => Some(Instr::Sb { rs1, rs2, imm }),
        0x1023 => Some(Instr::Sh { rs1, rs2, imm }),
        0x2023 => Some(Instr::Sw { rs1, rs2, imm }),
        _ => None,
    }
}

/// A word with the opcode BRANCH (2.5).
#[tactic(auto, using(crate::proofs::DecodeLemmas::branch_rows))]
#[inline(always)]
fn branch(word: u32) -> Option<Instr>
    requires { bit_and word 0x7F ≡ 0x63 }
    ensures { result ≡ decode word }
{
    let rs1 = rs1_of(word);
    let rs2 = rs2_of(word);
    let imm = imm_b(word);
    match word & 0x707F {
        0x63 => Some(Instr::Beq { rs1, rs2, imm }),
        0x1063 => Some(Instr::Bne { rs1, rs2, imm }),
        0x4063 => Some(Instr::Blt { rs1, rs2, imm }),
        0x5063 => Some(Instr::Bge { rs1, rs2, imm }),
        0x6063 => Some(Instr::Bltu { rs1, rs2, imm }),
        0x7063 => Some(Instr::Bgeu { rs1, rs2, imm }),
        _ => None,
    }
}

/// A word with the opcode JALR (2.5).
#[tactic(auto, using(crate::proofs::DecodeLemmas::jalr_rows))]
#[inline(always)]
fn jalr(word: u32) -> Option<Instr>
    requires { bit_and word 0x7F ≡ 0x67 }
    ensures { result ≡ decode word }
{
    let rd = rd_of(word);
    let rs1 = rs1_of(word);
    let imm = imm_i(word);
    match word & 0x707F {
        0x67 => Some(Instr::Jalr { rd, rs1, imm }),
        _ => None,
    }
}

/// A word with the opcode OP-IMM (2.4).
#[tactic(auto, using(crate::proofs::DecodeLemmas::op_imm_rows))]
#[inline(always)]
fn op_imm(word: u32) -> Option<Instr>
    requires { bit_and word 0x7F ≡ 0x13 }
    ensures { result ≡ decode word }
{
    let rd = rd_of(word);
    let rs1 = rs1_of(word);
    let imm = imm_i(word);
    match word & 0x707F {
        0x13 => Some(Instr::Addi { rd, rs1, imm }),
        0x2013 => Some(Instr::Slti { rd, rs1, imm }),
        0x3013 => Some(Instr::Sltiu { rd, rs1, imm }),
        0x4013 => Some(Instr::Xori { rd, rs1, imm }),
        0x6013 => Some(Instr::Ori { rd, rs1, imm }),
        0x7013 => Some(Instr::Andi { rd, rs1, imm }),
        0x1013 => slli(word),
        0x5013 => srli_or_srai(word),
        _ => None,
    }
}

/// A word with the opcode OP-IMM and funct3 1.
#[tactic(auto, using(crate::proofs::DecodeLemmas::slli_rows))]
#[inline(always)]
fn slli(word: u32) -> Option<Instr>
    requires { bit_and word 0x707F ≡ 0x1013 }
    ensures { result ≡ decode word }
{
    let rd = rd_of(word);
    let rs1 = rs1_of(word);
    let shamt = rs2_of(word);
    match word & 0xFE00_707F {
        0x1013 => Some(Instr::Slli { rd, rs1, shamt }),
        _ => None,
    }
}

/// A word with the opcode OP-IMM and funct3 5.
#[tactic(auto, using(crate::proofs::DecodeLemmas::srli_or_srai_rows))]
#[inline(always)]
fn srli_or_srai(word: u32) -> Option<Instr>
    requires { bit_and word 0x707F ≡ 0x5013 }
    ensures { result ≡ decode word }
{
    let rd = rd_of(word);
    let rs1 = rs1_of(word);
    let shamt = rs2_of(word);
    match word & 0xFE00_707F {
        0x5013 => Some(Instr::Srli { rd, rs1, shamt }),
        0x4000_5013 => Some(Instr::Srai { rd, rs1, shamt }),
        _ => None,
    }
}

/// A word with the opcode OP (2.4 and M).
#[tactic(auto, using(crate::proofs::DecodeLemmas::op_rows))]
#[inline(always)]
fn op(word: u32) -> Option<Instr>
    requires { bit_and word 0x7F ≡ 0x33 }
    ensures { result ≡ decode word }
{
    let rd = rd_of(word);
    let rs1 = rs1_of(word);
    let rs2 = rs2_of(word);
    match word & 0xFE00_707F {
        0x33 => Some(Instr::Add { rd, rs1, rs2 }),
        0x1033 => Some(Instr::Sll { rd, rs1, rs2 }),
        0x2033 => Some(Instr::Slt { rd, rs1, rs2 }),
        0x3033 => Some(Instr::Sltu { rd, rs1, rs2 }),
        0x4033 => Some(Instr::Xor { rd, rs1, rs2 }),
        0x5033 => Some(Instr::Srl { rd, rs1, rs2 }),
        0x6033 => Some(Instr::Or { rd, rs1, rs2 }),
        0x7033 => Some(Instr::And { rd, rs1, rs2 }),
        0x4000_0033 => Some(Instr::Sub { rd, rs1, rs2 }),
        0x4000_5033 => Some(Instr::Sra { rd, rs1, rs2 }),
        0x0200_0033 => Some(Instr::Mul { rd, rs1, rs2 }),
        0x0200_1033 => Some(Instr::Mulh { rd, rs1, rs2 }),
        0x0200_2033 => Some(Instr::Mulhsu { rd, rs1, rs2 }),
        0x0200_3033 => Some(Instr::Mulhu { rd, rs1, rs2 }),
        0x0200_4033 => Some(Instr::Div { rd, rs1, rs2 }),
        0x0200_5033 => Some(Instr::Divu { rd, rs1, rs2 }),
        0x0200_6033 => Some(Instr::Rem { rd, rs1, rs2 }),
        0x0200_7033 => Some(Instr::Remu { rd, rs1, rs2 }),
        _ => None,
    }
}

/// A word with the opcode MISC-MEM (2.7).
#[tactic(auto, using(crate::proofs::DecodeLemmas::misc_mem_rows))]
#[inline(always)]
fn misc_mem(word: u32) -> Option<Instr>
    requires { bit_and word 0x7F ≡ 0x0F }
    ensures { result ≡ decode word }
{
    let rest = rest_of(word);
    match word & 0x707F {
        0x0F => Some(Instr::Fence { rest }),
        0x100F => Some(Instr::FenceI { rest }),
        _ => None,
    }
}

/// A word with the opcode SYSTEM (2.8 and Zicsr).
#[tactic(auto, using(crate::proofs::DecodeLemmas::system_rows))]
#[inline(always)]
fn system(word: u32) -> Option<Instr>
    requires { bit_and word 0x7F ≡ 0x73 }
    ensures { result ≡ decode word }
{
    let rd = rd_of(word);
    let rs1 = rs1_of(word);
    let csr = csr_of(word);
    match word & 0x707F {
        0x1073 => Some(Instr::Csrrw { rd, rs1, csr }),
        0x2073 => Some(Instr::Csrrs { rd, rs1, csr }),
        0x3073 => Some(Instr::Csrrc { rd, rs1, csr }),
        0x5073 => Some(Instr::Csrrwi { rd, imm: rs1, csr }),
        0x6073 => Some(Instr::Csrrsi { rd, imm: rs1, csr }),
        0x7073 => Some(Instr::Csrrci { rd, imm: rs1, csr }),
        0x73 => privileged(word),
        _ => None,
    }
}

/// A word with the opcode SYSTEM and funct3 0.
#[tactic(auto, using(crate::proofs::DecodeLemmas::privileged_rows))]
#[inline(always)]
fn privileged(word: u32) -> Option<Instr>
    requires { bit_and word 0x707F ≡ 0x73 }
    ensures { result ≡ decode word }
{
    match word {
        0x73 => Some(Instr::Ecall),
        0x0010_0073 => Some(Instr::Ebreak),
        0x3020_0073 => Some(Instr::Mret),
        0x1050_0073 => Some(Instr::Wfi),
        _ => None,
    }
}

/// A word with the opcode AMO, funct3 2 and the funct5 of LR.
#[tactic(auto, using(crate::proofs::DecodeLemmas::lr_rows))]
#[inline(always)]
fn lr(word: u32) -> Option<Instr>
    requires { bit_and word 0xF800_707F ≡ 0x1000_202F }
    ensures { result ≡ decode word }
{
    let rd = rd_of(word);
    let rs1 = rs1_of(word);
    let aq = aq_of(word);
    let rl = rl_of(word);
    match word & 0xF9F0_707F {
        0x1000_202F => Some(Instr::Lr { rd, rs1, aq, rl }),
        _ => None,
    }
}

/// A word with the opcode AMO (A).
#[tactic(auto, using(crate::proofs::DecodeLemmas::amo_rows))]
#[inline(always)]
fn amo(word: u32) -> Option<Instr>
    requires { bit_and word 0x7F ≡ 0x2F }
    ensures { result ≡ decode word }
{
    let rd = rd_of(word);
    let rs1 = rs1_of(word);
    let rs2 = rs2_of(word);
    let aq = aq_of(word);
    let rl = rl_of(word);
    match word & 0xF800_707F {
        0x1800_202F => Some(Instr::Sc {
            rd,
            rs1,
            rs2,
            aq,
            rl,
        }),
        0x0800_202F => Some(Instr::AmoSwap {
            rd,
            rs1,
            rs2,
            aq,
            rl,
        }),
        0x202F => Some(Instr::AmoAdd {
            rd,
            rs1,
            rs2,
            aq,
            rl,
        }),
        0x2000_202F => Some(Instr::AmoXor {
            rd,
            rs1,
            rs2,
            aq,
            rl,
        }),
        0x6000_202F => Some(Instr::AmoAnd {
            rd,
            rs1,
            rs2,
            aq,
            rl,
        }),
        0x4000_202F => Some(Instr::AmoOr {
            rd,
            rs1,
            rs2,
            aq,
            rl,
        }),
        0x8000_202F => Some(Instr::AmoMin {
            rd,
            rs1,
            rs2,
            aq,
            rl,
        }),
        0xA000_202F => Some(Instr::AmoMax {
            rd,
            rs1,
            rs2,
            aq,
            rl,
        }),
        0xC000_202F => Some(Instr::AmoMinu {
            rd,
            rs1,
            rs2,
            aq,
            rl,
        }),
        0xE000_202F => Some(Instr::AmoMaxu {
            rd,
            rs1,
            rs2,
            aq,
            rl,
        }),
        0x1000_202F => lr(word),
        _ => None,
    }
}
