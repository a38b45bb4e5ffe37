//! Words and instructions both ways, with worked words from the standard's tables and from other
//! assemblers, and an instruction that was built.

use rv_isa::{Instr, decode, encode, fields};
use std::process::Abort;

// The row's name in the standard's assembly, without the ordering of an AMO.
fn name(instr: &Instr) -> &'static str {
    match *instr {
        Instr::Lui { .. } => "lui",
        Instr::Auipc { .. } => "auipc",
        Instr::Jal { .. } => "jal",
        Instr::Jalr { .. } => "jalr",
        Instr::Beq { .. } => "beq",
        Instr::Bne { .. } => "bne",
        Instr::Blt { .. } => "blt",
        Instr::Bge { .. } => "bge",
        Instr::Bltu { .. } => "bltu",
        Instr::Bgeu { .. } => "bgeu",
        Instr::Lb { .. } => "lb",
        Instr::Lh { .. } => "lh",
        Instr::Lw { .. } => "lw",
        Instr::Lbu { .. } => "lbu",
        Instr::Lhu { .. } => "lhu",
        Instr::Sb { .. } => "sb",
        Instr::Sh { .. } => "sh",
        Instr::Sw { .. } => "sw",
        Instr::Addi { .. } => "addi",
        Instr::Slti { .. } => "slti",
        Instr::Sltiu { .. } => "sltiu",
        Instr::Xori { .. } => "xori",
        Instr::Ori { .. } => "ori",
        Instr::Andi { .. } => "andi",
        Instr::Slli { .. } => "slli",
        Instr::Srli { .. } => "srli",
        Instr::Srai { .. } => "srai",
        Instr::Add { .. } => "add",
        Instr::Sll { .. } => "sll",
        Instr::Slt { .. } => "slt",
        Instr::Sltu { .. } => "sltu",
        Instr::Xor { .. } => "xor",
        Instr::Srl { .. } => "srl",
        Instr::Or { .. } => "or",
        Instr::And { .. } => "and",
        Instr::Sub { .. } => "sub",
        Instr::Sra { .. } => "sra",
        Instr::Mul { .. } => "mul",
        Instr::Mulh { .. } => "mulh",
        Instr::Mulhsu { .. } => "mulhsu",
        Instr::Mulhu { .. } => "mulhu",
        Instr::Div { .. } => "div",
        Instr::Divu { .. } => "divu",
        Instr::Rem { .. } => "rem",
        Instr::Remu { .. } => "remu",
        Instr::Fence { .. } => "fence",
        Instr::FenceI { .. } => "fence.i",
        Instr::Csrrw { .. } => "csrrw",
        Instr::Csrrs { .. } => "csrrs",
        Instr::Csrrc { .. } => "csrrc",
        Instr::Csrrwi { .. } => "csrrwi",
        Instr::Csrrsi { .. } => "csrrsi",
        Instr::Csrrci { .. } => "csrrci",
        Instr::Ecall => "ecall",
        Instr::Ebreak => "ebreak",
        Instr::Mret => "mret",
        Instr::Wfi => "wfi",
        Instr::Lr { .. } => "lr.w",
        Instr::Sc { .. } => "sc.w",
        Instr::AmoSwap { .. } => "amoswap.w",
        Instr::AmoAdd { .. } => "amoadd.w",
        Instr::AmoXor { .. } => "amoxor.w",
        Instr::AmoAnd { .. } => "amoand.w",
        Instr::AmoOr { .. } => "amoor.w",
        Instr::AmoMin { .. } => "amomin.w",
        Instr::AmoMax { .. } => "amomax.w",
        Instr::AmoMinu { .. } => "amominu.w",
        Instr::AmoMaxu { .. } => "amomaxu.w",
    }
}

// One word a row, put together from its fields: funct7 or what stands there, rs2, rs1, funct3, rd,
// opcode.
const ROWS: [(u32, &str); 68] = [
    (0b00010010001101000101_00001_0110111, "lui"),
    (0b00100100011010001010_00100_0010111, "auipc"),
    (0b00110110100111001111_00111_1101111, "jal"),
    (0b100001101111_10001_000_01010_1100111, "jalr"),
    (0b1101100_11111_10110_000_01101_1100011, "beq"),
    (0b1000111_00110_11011_001_10000_1100011, "bne"),
    (0b0100010_01101_00000_100_10011_1100011, "blt"),
    (0b1111101_10100_00101_101_10110_1100011, "bge"),
    (0b1011000_11011_01010_110_11001_1100011, "bltu"),
    (0b0110011_00010_01111_111_11100_1100011, "bgeu"),
    (0b100101110010_10100_000_11111_0000011, "lb"),
    (0b100110010111_11001_001_00010_0000011, "lh"),
    (0b100110111100_11110_010_00101_0000011, "lw"),
    (0b100111100001_00011_100_01000_0000011, "lbu"),
    (0b101000000110_01000_101_01011_0000011, "lhu"),
    (0b1010101_01100_01101_000_01110_0100011, "sb"),
    (0b0110000_10011_10010_001_10001_0100011, "sh"),
    (0b0001011_11010_10111_010_10100_0100011, "sw"),
    (0b101010011010_11100_000_10111_0010011, "addi"),
    (0b101010111111_00001_010_11010_0010011, "slti"),
    (0b101011100100_00110_011_11101_0010011, "sltiu"),
    (0b101100001001_01011_100_00000_0010011, "xori"),
    (0b101100101110_10000_110_00011_0010011, "ori"),
    (0b101101010011_10101_111_00110_0010011, "andi"),
    (0b0000000_01011_11010_001_01001_0010011, "slli"),
    (0b0000000_10010_11111_101_01100_0010011, "srli"),
    (0b0100000_11001_00100_101_01111_0010011, "srai"),
    (0b0000000_00000_01001_000_10010_0110011, "add"),
    (0b0000000_00111_01110_001_10101_0110011, "sll"),
    (0b0000000_01110_10011_010_11000_0110011, "slt"),
    (0b0000000_10101_11000_011_11011_0110011, "sltu"),
    (0b0000000_11100_11101_100_11110_0110011, "xor"),
    (0b0000000_00011_00010_101_00001_0110011, "srl"),
    (0b0000000_01010_00111_110_00100_0110011, "or"),
    (0b0000000_10001_01100_111_00111_0110011, "and"),
    (0b0100000_11000_10001_000_01010_0110011, "sub"),
    (0b0100000_11111_10110_101_01101_0110011, "sra"),
    (0b0000001_00110_11011_000_10000_0110011, "mul"),
    (0b0000001_01101_00000_001_10011_0110011, "mulh"),
    (0b0000001_10100_00101_010_10110_0110011, "mulhsu"),
    (0b0000001_11011_01010_011_11001_0110011, "mulhu"),
    (0b0000001_00010_01111_100_11100_0110011, "div"),
    (0b0000001_01001_10100_101_11111_0110011, "divu"),
    (0b0000001_10000_11001_110_00010_0110011, "rem"),
    (0b0000001_10111_11110_111_00101_0110011, "remu"),
    (0b0000_1101_0010_00000_000_00000_0001111, "fence"),
    (0b000000000000_00000_001_00000_0001111, "fence.i"),
    (0b001100101111_01101_001_01110_1110011, "csrrw"),
    (0b001100110000_10010_010_10001_1110011, "csrrs"),
    (0b001100110001_10111_011_10100_1110011, "csrrc"),
    (0b001100110010_11100_101_10111_1110011, "csrrwi"),
    (0b001100110011_00001_110_11010_1110011, "csrrsi"),
    (0b001100110100_00110_111_11101_1110011, "csrrci"),
    (0b000000000000_00000_000_00000_1110011, "ecall"),
    (0b000000000001_00000_000_00000_1110011, "ebreak"),
    (0b001100000010_00000_000_00000_1110011, "mret"),
    (0b000100000101_00000_000_00000_1110011, "wfi"),
    (0b00010_1_0_00000_11111_010_01100_0101111, "lr.w"),
    (0b00011_0_1_11001_00100_010_01111_0101111, "sc.w"),
    (0b00001_1_1_00000_01001_010_10010_0101111, "amoswap.w"),
    (0b00000_0_0_00111_01110_010_10101_0101111, "amoadd.w"),
    (0b00100_1_0_01110_10011_010_11000_0101111, "amoxor.w"),
    (0b01100_0_1_10101_11000_010_11011_0101111, "amoand.w"),
    (0b01000_1_1_11100_11101_010_11110_0101111, "amoor.w"),
    (0b10000_0_0_00011_00010_010_00001_0101111, "amomin.w"),
    (0b10100_1_0_01010_00111_010_00100_0101111, "amomax.w"),
    (0b11000_0_1_10001_01100_010_00111_0101111, "amominu.w"),
    (0b11100_1_1_11000_10001_010_01010_0101111, "amomaxu.w"),
];

/// What is tested. No call has a clause, so that what the contracts say stands in no goal of the
/// tests.
trait Coding {
    fn decode(&self, word: u32) -> Option<Instr>;

    /// Whether the row with this name fits a word.
    fn is_row(&self, word: u32, row: &str) -> bool;

    /// The word that the instruction of a word is written back as.
    fn written_back(&self, word: u32) -> Option<u32>;
}

/// The rows of the instruction table.
#[derive(Drop)]
struct Rows;

impl Coding for Rows {
    fn decode(&self, word: u32) -> Option<Instr> {
        decode(word)
    }

    fn is_row(&self, word: u32, row: &str) -> bool {
        match decode(word) {
            Some(instr) => name(&instr) == row,
            None => false,
        }
    }

    fn written_back(&self, word: u32) -> Option<u32> {
        let instr = decode(word)?;
        Some(encode(&instr))
    }
}

fn check_rows<R: Abort, C: Coding>(rt: &R, coding: &C) {
    for (word, row) in ROWS {
        assert!(rt; coding.is_row(word, row), "at {word:#010x}");
        assert_eq!(rt; coding.written_back(word), Some(word), "at {row}");
    }
}

#[test]
fn each_row_is_read_and_written_back(rt: HostRuntime) {
    check_rows(&rt, &Rows);
}

// Words beside the rows: what differs from a row in one place, and what other extensions use.
const OUTSIDE: [u32; 47] = [
    // no opcode, and the longest one
    0x0000_0000,
    0xFFFF_FFFF,
    // low bits that begin a compressed instruction
    0x0031_00B2,
    0x0031_00B1,
    0x0031_00B0,
    // OP-IMM-32 and OP-32, LOAD-FP and STORE-FP, OP-FP, custom-0
    0x0000_001B,
    0x0000_003B,
    0x0000_2007,
    0x0000_2027,
    0x0000_0053,
    0x0000_000B,
    // JALR with funct3 1
    0x0000_1067,
    // branches with funct3 2 and 3
    0x0000_2063,
    0x0000_3063,
    // LD, LWU and a load with funct3 7
    0x0000_3003,
    0x0000_6003,
    0x0000_7003,
    // SD and a store with funct3 4
    0x0000_3023,
    0x0000_4023,
    // SLLI by 32 and with funct7 32, SRLI and SRAI by 32, SRLI with funct7 16
    0x0200_1013,
    0x4000_1013,
    0x0200_5013,
    0x4200_5013,
    0x2000_5013,
    // funct7 32 beside SUB and SRA, funct7 2 and 64
    0x4000_1033,
    0x4000_4033,
    0x4000_7033,
    0x0400_0033,
    0x8000_0033,
    // MISC-MEM with funct3 2
    0x0000_200F,
    // SYSTEM with funct3 4
    0x0000_4073,
    // URET, SRET, SFENCE.VMA
    0x0020_0073,
    0x1020_0073,
    0x1200_0073,
    // ECALL, EBREAK, MRET and WFI with rd 1, with rs1 1
    0x0000_00F3,
    0x0000_8073,
    0x0010_00F3,
    0x0010_8073,
    0x3020_00F3,
    0x3020_8073,
    0x1050_00F3,
    0x1050_8073,
    // LR with rs2 1, funct5 5 and 31, AMOs of 8 bytes and of 1
    0x1010_202F,
    0x2800_202F,
    0xF800_202F,
    0x0000_302F,
    0x0000_002F,
];

fn check_outside<R: Abort, C: Coding>(rt: &R, coding: &C) {
    for word in OUTSIDE {
        assert!(rt; coding.decode(word).is_none(), "at {word:#010x}");
    }
}

#[test]
fn words_beside_the_rows_have_none(rt: HostRuntime) {
    check_outside(&rt, &Rows);
}

fn check_fields<R: Abort, C: Coding>(rt: &R, coding: &C) {
    // x7 and an offset of -2 ^ 20 + 2: bit 31 is the sign, bit 21 the 2
    assert!(rt;
        matches!(
            coding.decode(0b1_0000000001_0_00000000_00111_1101111),
            Some(Instr::Jal {
                rd: 7,
                imm: -1048574
            })
        )
    );
    // bit 20 is the offset's 2048, bits 19 to 12 stand for themselves
    assert!(rt;
        matches!(
            coding.decode(0b0_0000000000_1_10000000_00001_1101111),
            Some(Instr::Jal { rd: 1, imm: 526336 })
        )
    );
    // bit 7 is the offset's 2048, bit 30 its 1024, bit 8 its 2
    assert!(rt;
        matches!(
            coding.decode(0b0_100000_00010_00001_000_0001_1_1100011),
            Some(Instr::Beq {
                rs1: 1,
                rs2: 2,
                imm: 3074
            })
        )
    );
    assert!(rt;
        matches!(
            coding.decode(0b1_000000_00010_00001_001_0000_0_1100011),
            Some(Instr::Bne {
                rs1: 1,
                rs2: 2,
                imm: -4096
            })
        )
    );
    assert!(rt;
        matches!(
            coding.decode(0b1111111_00010_00001_010_11110_0100011),
            Some(Instr::Sw {
                rs1: 1,
                rs2: 2,
                imm: -2
            })
        )
    );
    assert!(rt;
        matches!(
            coding.decode(0b100000000001_00010_000_00001_0010011),
            Some(Instr::Addi {
                rd: 1,
                rs1: 2,
                imm: -2047
            })
        )
    );
    assert!(rt;
        matches!(
            coding.decode(0b10000000000000000001_00001_0110111),
            Some(Instr::Lui {
                rd: 1,
                imm: 0x80001
            })
        )
    );
    assert!(rt;
        matches!(
            coding.decode(0b0100000_11111_00010_101_00001_0010011),
            Some(Instr::Srai {
                rd: 1,
                rs1: 2,
                shamt: 31
            })
        )
    );
    assert!(rt;
        matches!(
            coding.decode(0b001100000101_10001_101_00001_1110011),
            Some(Instr::Csrrwi {
                rd: 1,
                imm: 17,
                csr: 0x305
            })
        )
    );
    assert!(rt;
        matches!(
            coding.decode(0b1000_0011_0001_00010_000_00001_0001111),
            Some(Instr::Fence { rest: 0x20C441 })
        )
    );
    assert!(rt;
        matches!(
            coding.decode(0b00010_1_0_00000_00010_010_00001_0101111),
            Some(Instr::Lr {
                rd: 1,
                rs1: 2,
                aq: true,
                rl: false
            })
        )
    );
    assert!(rt;
        matches!(
            coding.decode(0b00011_0_1_00011_00010_010_00001_0101111),
            Some(Instr::Sc {
                rd: 1,
                rs1: 2,
                rs2: 3,
                aq: false,
                rl: true
            })
        )
    );
}

#[test]
fn fields_stand_in_their_places(rt: HostRuntime) {
    check_fields(&rt, &Rows);
}

// An instruction that was built, and not read: within its fields it is said by a word.
#[tactic(auto, using(rv_isa::proofs::EncodeLemmas::encodable_in_range))]
#[test]
fn a_built_instruction_has_its_word(rt: HostRuntime) {
    let load = Instr::Lw {
        rd: 10,
        rs1: 2,
        imm: -8,
    };
    assert_eq!(rt; encode(&load), 0xFF81_2503);
}
