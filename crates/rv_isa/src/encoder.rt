//! Writing an instruction as its word: a function for each format, which puts the fields beside
//! what the row fixes (RISC-V unprivileged, RV32I, 2.2 and 2.3).

ghost use Rattle.std.specs.Prelude.{◌≡◌, ℕ, ◌+◌, ◌-◌, ◌%◌, ◌^◌, ◌<◌, ◌≤◌, Some};
ghost use Rattle.rv_isa.specs.Ranges.{IsRegister, IsSigned, IsOffset, IsWithin};
ghost use Rattle.rv_isa.specs.Table.{decode, IsEncodable};
ghost use Rattle.rv_isa.specs.Words.{u_type_word, j_type_word, i_type_word, b_type_word, s_type_word, r_type_word, fence_word, csr_word, amo_word, lr_word, word_of, unsigned};

use crate::formats::{
    amo_type, b_type, csr_type, fence_type, i_type, j_type, lr_type, r_type, s_type, u_type,
};
use crate::instr::Instr;

/// The one word that decodes to an instruction (RISC-V unprivileged, RV32I, 2.2 and 2.3). It asks
/// that there is one, which holds of what `decode` gave and where each field is within its range.
pub fn encode(instr: &Instr) -> u32
    requires { IsEncodable instr.now }
    ensures decodes { decode result ≡ Some instr.now }
    ensures word { result ≡ word_of instr.now }
    ensures only { (w : ℕ) → w < 2 ^ 32 → decode w ≡ Some instr.now → w ≡ result }
{
    word_of(instr)
}

/// The word of an instruction: what its row fixes and the fields in their places.
fn word_of(instr: &Instr) -> u32
    requires { IsWithin instr.now }
    ensures { result ≡ word_of instr.now }
{
    match *instr {
        Instr::Lui { rd, imm } => u_type(0x37, rd, imm),
        Instr::Auipc { rd, imm } => u_type(0x17, rd, imm),
        Instr::Jal { rd, imm } => j_type(0x6F, rd, imm),
        Instr::Jalr { rd, rs1, imm } => i_type(0x67, rd, rs1, imm),
        Instr::Beq { rs1, rs2, imm } => b_type(0x63, rs1, rs2, imm),
        Instr::Bne { rs1, rs2, imm } => b_type(0x1063, rs1, rs2, imm),
        Instr::Blt { rs1, rs2, imm } => b_type(0x4063, rs1, rs2, imm),
        Instr::Bge { rs1, rs2, imm } => b_type(0x5063, rs1, rs2, imm),
        Instr::Bltu { rs1, rs2, imm } => b_type(0x6063, rs1, rs2, imm),
        Instr::Bgeu { rs1, rs2, imm } => b_type(0x7063, rs1, rs2, imm),
        Instr::Lb { rd, rs1, imm } => i_type(0x03, rd, rs1, imm),
        Instr::Lh { rd, rs1, imm } => i_type(0x1003, rd, rs1, imm),
        Instr::Lw { rd, rs1, imm } => i_type(0x2003, rd, rs1, imm),
        Instr::Lbu { rd, rs1, imm } => i_type(0x4003, rd, rs1, imm),
        Instr::Lhu { rd, rs1, imm } => i_type(0x5003, rd, rs1, imm),
        Instr::Sb { rs1, rs2, imm } => s_type(0x23, rs1, rs2, imm),
        Instr::Sh { rs1, rs2, imm } => s_type(0x1023, rs1, rs2, imm),
        Instr::Sw { rs1, rs2, imm } => s_type(0x2023, rs1, rs2, imm),
        Instr::Addi { rd, rs1, imm } => i_type(0x13, rd, rs1, imm),
        Instr::Slti { rd, rs1, imm } => i_type(0x2013, rd, rs1, imm),
        Instr::Sltiu { rd, rs1, imm } => i_type(0x3013, rd, rs1, imm),
        Instr::Xori { rd, rs1, imm } => i_type(0x4013, rd, rs1, imm),
        Instr::Ori { rd, rs1, imm } => i_type(0x6013, rd, rs1, imm),
        Instr::Andi { rd, rs1, imm } => i_type(0x7013, rd, rs1, imm),
        Instr::Slli { rd, rs1, shamt } => r_type(0x1013, rd, rs1, shamt),
        Instr::Srli { rd, rs1, shamt } => r_type(0x5013, rd, rs1, shamt),
        Instr::Srai { rd, rs1, shamt } => r_type(0x4000_5013, rd, rs1, shamt),
        Instr::Add { rd, rs1, rs2 } => r_type(0x33, rd, rs1, rs2),
        Instr::Sll { rd, rs1, rs2 } => r_type(0x1033, rd, rs1, rs2),
        Instr::Slt { rd, rs1, rs2 } => r_type(0x2033, rd, rs1, rs2),
        Instr::Sltu { rd, rs1, rs2 } => r_type(0x3033, rd, rs1, rs2),
        Instr::Xor { rd, rs1, rs2 } => r_type(0x4033, rd, rs1, rs2),
        Instr::Srl { rd, rs1, rs2 } => r_type(0x5033, rd, rs1, rs2),
        Instr::Or { rd, rs1, rs2 } => r_type(0x6033, rd, rs1, rs2),
        Instr::And { rd, rs1, rs2 } => r_type(0x7033, rd, rs1, rs2),
        Instr::Sub { rd, rs1, rs2 } => r_type(0x4000_0033, rd, rs1, rs2),
        Instr::Sra { rd, rs1, rs2 } => r_type(0x4000_5033, rd, rs1, rs2),
        Instr::Mul { rd, rs1, rs2 } => r_type(0x0200_0033, rd, rs1, rs2),
        Instr::Mulh { rd, rs1, rs2 } => r_type(0x0200_1033, rd, rs1, rs2),
        Instr::Mulhsu { rd, rs1, rs2 } => r_type(0x0200_2033, rd, rs1, rs2),
        Instr::Mulhu { rd, rs1, rs2 } => r_type(0x0200_3033, rd, rs1, rs2),
        Instr::Div { rd, rs1, rs2 } => r_type(0x0200_4033, rd, rs1, rs2),
        Instr::Divu { rd, rs1, rs2 } => r_type(0x0200_5033, rd, rs1, rs2),
        Instr::Rem { rd, rs1, rs2 } => r_type(0x0200_6033, rd, rs1, rs2),
        Instr::Remu { rd, rs1, rs2 } => r_type(0x0200_7033, rd, rs1, rs2),
        Instr::Fence { rest } => fence_type(0x0F, rest),
        Instr::FenceI { rest } => fence_type(0x100F, rest),
        Instr::Csrrw { rd, rs1, csr } => csr_type(0x1073, rd, rs1, csr),
        Instr::Csrrs { rd, rs1, csr } => csr_type(0x2073, rd, rs1, csr),
        Instr::Csrrc { rd, rs1, csr } => csr_type(0x3073, rd, rs1, csr),
        Instr::Csrrwi { rd, imm, csr } => csr_type(0x5073, rd, imm, csr),
        Instr::Csrrsi { rd, imm, csr } => csr_type(0x6073, rd, imm, csr),
        Instr::Csrrci { rd, imm, csr } => csr_type(0x7073, rd, imm, csr),
        Instr::Ecall => 0x73,
        Instr::Ebreak => 0x0010_0073,
        Instr::Mret => 0x3020_0073,
        Instr::Wfi => 0x1050_0073,
        Instr::Lr { rd, rs1, aq, rl } => lr_type(0x1000_202F, rd, rs1, aq, rl),
        Instr::Sc {
            rd,
            rs1,
            rs2,
            aq,
            rl,
        } => amo_type(0x1800_202F, rd, rs1, rs2, aq, rl),
        Instr::AmoSwap {
            rd,
            rs1,
            rs2,
            aq,
            rl,
        } => amo_type(0x0800_202F, rd, rs1, rs2, aq, rl),
        Instr::AmoAdd {
            rd,
            rs1,
            rs2,
            aq,
            rl,
        } => amo_type(0x202F, rd, rs1, rs2, aq, rl),
        Instr::AmoXor {
            rd,
            rs1,
            rs2,
            aq,
            rl,
        } => amo_type(0x2000_202F, rd, rs1, rs2, aq, rl),
        Instr::AmoAnd {
            rd,
            rs1,
            rs2,
            aq,
            rl,
        } => amo_type(0x6000_202F, rd, rs1, rs2, aq, rl),
        Instr::AmoOr {
            rd,
            rs1,
            rs2,
            aq,
            rl,
        } => amo_type(0x4000_202F, rd, rs1, rs2, aq, rl),
        Instr::AmoMin {
            rd,
            rs1,
            rs2,
            aq,
            rl,
        } => amo_type(0x8000_202F, rd, rs1, rs2, aq, rl),
        Instr::AmoMax {
            rd,
            rs1,
            rs2,
            aq,
            rl,
        } => amo_type(0xA000_202F, rd, rs1, rs2, aq, rl),
        Instr::AmoMinu {
            rd,
            rs1,
            rs2,
            aq,
            rl,
        } => amo_type(0xC000_202F, rd, rs1, rs2, aq, rl),
        Instr::AmoMaxu {
            rd,
            rs1,
            rs2,
            aq,
            rl,
        } => amo_type(0xE000_202F, rd, rs1, rs2, aq, rl),
    }
}
