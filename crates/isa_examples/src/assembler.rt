//! Worked statements, with the words that llvm-mc gives them, and faults.

use rv_asm::{AsmFault, Why, assemble, disassemble};
use std::alloc::Global;

// One statement of each row at least, with the words that llvm-mc gives them.
const STATEMENTS: [(&str, u32); 69] = [
    ("lui x5, 0x12345", 0x123452B7),
    ("auipc x6, 0xfffff", 0xFFFFF317),
    ("jal x1, 2048", 0x001000EF),
    ("jalr x1, x2, -4", 0xFFC100E7),
    ("beq x1, x2, -8", 0xFE208CE3),
    ("bne x3, x4, 12", 0x00419663),
    ("blt x5, x6, 16", 0x0062C863),
    ("bge x7, x8, -4096", 0x8083D063),
    ("bltu x9, x10, 4094", 0x7EA4EFE3),
    ("bgeu x11, x12, 20", 0x00C5FA63),
    ("lb x1, -1(x2)", 0xFFF10083),
    ("lh x3, 2047(x4)", 0x7FF21183),
    ("lw x5, -2048(x6)", 0x80032283),
    ("lbu x7, 0(x8)", 0x00044383),
    ("lhu x9, 6(x10)", 0x00655483),
    ("sb x11, -1(x12)", 0xFEB60FA3),
    ("sh x13, 2(x14)", 0x00D71123),
    ("sw x15, 2047(x16)", 0x7EF82FA3),
    ("addi x17, x18, -2048", 0x80090893),
    ("slti x19, x20, 5", 0x005A2993),
    ("sltiu x21, x22, 6", 0x006B3A93),
    ("xori x23, x24, -1", 0xFFFC4B93),
    ("ori x25, x26, 255", 0x0FFD6C93),
    ("andi x27, x28, 15", 0x00FE7D93),
    ("slli x29, x30, 31", 0x01FF1E93),
    ("srli x31, x1, 1", 0x0010DF93),
    ("srai x2, x3, 17", 0x4111D113),
    ("add x4, x5, x6", 0x00628233),
    ("sll x7, x8, x9", 0x009413B3),
    ("slt x10, x11, x12", 0x00C5A533),
    ("sltu x13, x14, x15", 0x00F736B3),
    ("xor x16, x17, x18", 0x0128C833),
    ("srl x19, x20, x21", 0x015A59B3),
    ("or x22, x23, x24", 0x018BEB33),
    ("and x25, x26, x27", 0x01BD7CB3),
    ("sub x28, x29, x30", 0x41EE8E33),
    ("sra x31, x1, x2", 0x4020DFB3),
    ("mul x3, x4, x5", 0x025201B3),
    ("mulh x6, x7, x8", 0x02839333),
    ("mulhsu x9, x10, x11", 0x02B524B3),
    ("mulhu x12, x13, x14", 0x02E6B633),
    ("div a0, a1, a2", 0x02C5C533),
    ("divu x15, x16, x17", 0x031857B3),
    ("rem x18, x19, x20", 0x0349E933),
    ("remu x21, x22, x23", 0x037B7AB3),
    ("csrrw x1, 0x300, x2", 0x300110F3),
    ("csrrs x3, 0xC00, x4", 0xC00221F3),
    ("csrrc x5, 0x341, x6", 0x341332F3),
    ("csrrwi x7, 0x305, 31", 0x305FD3F3),
    ("csrrsi x8, 0xFFF, 0", 0xFFF06473),
    ("csrrci x9, 0, 1", 0x0000F4F3),
    ("ecall", 0x00000073),
    ("ebreak", 0x00100073),
    ("mret", 0x30200073),
    ("wfi", 0x10500073),
    ("lr.w x1, (x2)", 0x100120AF),
    ("lr.w.aqrl x1, (x2)", 0x160120AF),
    ("sc.w.rl x3, x4, (x5)", 0x1A42A1AF),
    ("amoswap.w.aq x6, x7, (x8)", 0x0C74232F),
    ("amoadd.w x9, x10, (x11)", 0x00A5A4AF),
    ("amoxor.w.aqrl x12, x13, (x14)", 0x26D7262F),
    ("amoand.w x15, x16, (x17)", 0x6108A7AF),
    ("amoor.w.rl x18, x19, (x20)", 0x433A292F),
    ("amomin.w x21, x22, (x23)", 0x816BAAAF),
    ("amomax.w.aq x24, x25, (x26)", 0xA59D2C2F),
    ("amominu.w x27, x28, (x29)", 0xC1CEADAF),
    ("amomaxu.w x30, x31, (x1)", 0xE1F0AF2F),
    ("fence", 0x0000000F),
    ("fence.i", 0x0000100F),
];

// Words and their texts.
const TEXTS: [(u32, &str); 12] = [
    (0x0000006F, "jal x0, 0"),
    (0x00000000, ".word 0x00000000"),
    (0xFFFFFFFF, ".word 0xFFFFFFFF"),
    (0x0ABCDEF0, ".word 0x0ABCDEF0"),
    (0x02C5C533, "div x10, x11, x12"),
    (0x123452B7, "lui x5, 0x12345"),
    (0xFFF00093, "addi x1, x0, -1"),
    (0xFEB60FA3, "sb x11, -1(x12)"),
    (0x300110F3, "csrrw x1, 0x300, x2"),
    (0x26D7262F, "amoxor.w.aqrl x12, x13, (x14)"),
    (0x0000000F, "fence"),
    (0x0FF0000F, ".word 0x0FF0000F"),
];

// Bad lines, each with its number and its first fault.
const FAULTS: [(&str, u64, Why); 24] = [
    ("add x1, x2", 1, Why::Word),
    ("add x1, x2, x3, x4", 1, Why::Word),
    ("foo x1", 1, Why::Word),
    ("ecall\r", 1, Why::Word),
    ("\n ecall", 2, Why::Word),
    ("a: ", 1, Why::Word),
    ("addi x1,x0, 1", 1, Why::Word),
    ("addi x1, x0, 01", 1, Why::Word),
    ("addi x1, x0, -0x1", 1, Why::Word),
    ("lw x1, 4", 1, Why::Word),
    (".word a", 1, Why::Word),
    ("addi x1, x32, 5000", 1, Why::Register),
    ("lw x1, 4(sp)", 1, Why::Register),
    ("add a8, a0, a1", 1, Why::Register),
    ("add x01, x0, x0", 1, Why::Register),
    ("addi x1, x2, 2048", 1, Why::Range),
    ("sw x1, 2048(x32)", 1, Why::Range),
    ("slli x1, x1, 32", 1, Why::Range),
    ("li x1, 99999999999999999999999999", 1, Why::Range),
    ("beq x1, x2, 3", 1, Why::Range),
    ("lui x1, 0x100000", 1, Why::Range),
    ("jal x0, nowhere", 1, Why::Label),
    ("a: ecall\n\na:", 3, Why::Label),
    ("b: jal x0, b\nbeq x0, x0, c\n", 2, Why::Label),
];

/// What is tested. No call has a clause, so that what the contracts say stands in no goal of the
/// tests.
trait Assembler {
    fn assemble(&self, text: &str) -> Result<Vec<u8>, AsmFault>;

    fn disassemble(&self, word: u32) -> Option<String>;
}

/// The assembler, with what gives it memory.
#[derive(Drop)]
struct Statements(Global);

impl Assembler for Statements {
    fn assemble(&self, text: &str) -> Result<Vec<u8>, AsmFault> {
        assemble(self.0, text)
    }

    fn disassemble(&self, word: u32) -> Option<String> {
        let mut into = String::new(self.0);
        disassemble(word, &mut into).ok()?;
        Some(into)
    }
}

/// Whether bytes are those of words, little-endian.
fn are_words(bytes: &[u8], words: &[u32]) -> bool {
    let mut wanted = words.iter();
    for four in bytes.chunks(4) {
        match wanted.next() {
            Some(word) if word.to_le_bytes().as_slice() == four => {}
            _ => return false,
        }
    }
    wanted.next().is_none()
}

/// Whether a text is assembled to words.
fn assembles<A: Assembler>(tested: &A, text: &str, words: &[u32]) -> bool {
    match tested.assemble(text) {
        Ok(bytes) => are_words(bytes.as_slice(), words),
        Err(_) => false,
    }
}

/// Whether a word is disassembled to a text, and that is assembled to the word.
fn is_text_of<A: Assembler>(tested: &A, text: &str, word: u32) -> bool {
    match tested.disassemble(word) {
        Some(found) => found.as_str() == text && assembles(tested, text, &[word]),
        None => false,
    }
}

/// Whether the first fault of a text is this one.
fn is_fault_of<A: Assembler>(tested: &A, text: &str, line: u64, why: Why) -> bool {
    match tested.assemble(text) {
        Ok(_) => false,
        Err(fault) => fault == AsmFault::Line { line, why },
    }
}

#[test]
fn each_row_has_its_word(rt: HostRuntime) {
    for (text, word) in STATEMENTS {
        assert!(rt; assembles(&Statements(rt.alloc()), text, &[word]), "{text}");
    }
}

// Programs with labels, and their words.
const PROGRAMS: [(&str, &[u32]); 4] = [
    ("addi x1, x0, -1\nj: jal x0, j", &[0xFFF00093, 0x0000006F]),
    (
        "start:\n\nbeq a0, x0, end\nli a1, start\njal x1, start\nli x2, -1\nend: .word -0\n",
        &[
            0x00050C63, 0x800005B7, 0x00058593, 0xFF5FF0EF, 0x00000137, 0xFFF10113, 0x00000000,
        ],
    ),
    ("li a0, 0x12345FFF", &[0x12346537, 0xFFF50513]),
    ("", &[]),
];

#[test]
fn labels_stand_for_their_places(rt: HostRuntime) {
    for (text, words) in PROGRAMS {
        assert!(rt; assembles(&Statements(rt.alloc()), text, words), "{text}");
    }
}

#[test]
fn words_have_their_texts(rt: HostRuntime) {
    for (word, text) in TEXTS {
        assert!(rt; is_text_of(&Statements(rt.alloc()), text, word), "{text}");
    }
}

#[test]
fn the_first_fault_is_named(rt: HostRuntime) {
    for (text, line, why) in FAULTS {
        assert!(rt;
            is_fault_of(&Statements(rt.alloc()), text, line, why),
            "{text}"
        );
    }
}
