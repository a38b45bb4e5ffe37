//! Every row at its edges over a bus of one word, reservations, every CSR and an interrupt, with
//! values from the standard's tables or worked out by hand. A line of a text has hexadecimal
//! numbers, and after them what the word is in assembly.

ghost use Rattle.std.specs.Prelude.{◌≡◌, ◌==◌, Some, None, false, if◌then◌else◌};

use colo_base::NoMemory;
use rv_core::{Bus, Hart, HartFields, Outcome};
use rv_isa::decode;
use rv_traps::Csrs;
use std::process::Abort;

/// Where each hart starts.
const START: u32 = 0x8000_0040;
/// Where the one word of memory stands.
const PLACE: u32 = 0x8000_0000;
/// What it holds before each row.
const MEMORY: u32 = 0x1234_80F0;

/// A bus of one word, which takes any width at its place and no other place.
#[derive(Drop)]
struct OneWord {
    value: u32,
}

impl Bus for OneWord {
    ghost acts = { record {
      fetched = λ s a. if a == 0x8000_0000 then Some s.value else None;
      loaded = λ s a w. if a == 0x8000_0000 then Some s.value else None;
      stores = λ s a w v. a == 0x8000_0000;
      stored = λ s a w v. if a == 0x8000_0000 then record { value = v } else s;
      wants = λ s a w v. false;
    } };

    ghost use Rattle.std.proofs.Common.{arith};
    ghost use Rattle.std.proofs.lemmas.Bool.Decides.{nat_tests};

    ghost refused = { λ s a w v h. Prim.grind (arith, nat_tests) };

    ghost ram = { λ s a v h. Prim.grind (arith, nat_tests) };

    ghost same_word = { λ s a v h. Prim.grind (arith, nat_tests) };

    fn fetch(&mut self, addr: u32) -> Option<u32> {
        if addr == PLACE {
            Some(self.value)
        } else {
            None
        }
    }

    fn load(&mut self, addr: u32, width: u32) -> Option<u32> {
        if addr == PLACE {
            Some(self.value)
        } else {
            None
        }
    }

    fn store(&mut self, addr: u32, width: u32, value: u32) -> Result<bool, NoMemory> {
        if addr == PLACE {
            self.value = value;
            return Ok(true);
        }
        Ok(false)
    }
}

/// A word, x1 and x2 before it, and x3, the program counter and the memory after it.
const ROWS: &str = "\
FFFFF1B7 00000000 00000000 FFFFF000 80000044 123480F0 lui x3, 0xFFFFF
80000197 00000000 00000000 00000040 80000044 123480F0 auipc x3, 0x80000
FC1FF1EF 00000000 00000000 80000044 80000000 123480F0 jal x3, -64
7FDFF06F 00000000 00000000 00000000 8010003C 123480F0 jal x0, 0xFFFFC
FFD081E7 80000108 00000000 80000044 80000104 123480F0 jalr x3, x1, -3
80208063 00000005 00000005 00000000 7FFFF040 123480F0 beq x1, x2, -4096
7E209EE3 00000005 00000005 00000000 80000044 123480F0 bne x1, x2, 4092
0020C463 FFFFFFFF 00000001 00000000 80000048 123480F0 blt x1, x2, 8
0020D463 FFFFFFFF 00000001 00000000 80000044 123480F0 bge x1, x2, 8
0020E463 FFFFFFFF 00000001 00000000 80000044 123480F0 bltu x1, x2, 8
0020F463 FFFFFFFF 00000001 00000000 80000048 123480F0 bgeu x1, x2, 8
80008183 80000800 00000000 FFFFFFF0 80000044 123480F0 lb x3, -2048(x1)
00009183 80000000 00000000 FFFF80F0 80000044 123480F0 lh x3, 0(x1)
0000A183 80000000 00000000 123480F0 80000044 123480F0 lw x3, 0(x1)
0000C183 80000000 00000000 000000F0 80000044 123480F0 lbu x3, 0(x1)
0000D183 80000000 00000000 000080F0 80000044 123480F0 lhu x3, 0(x1)
7E208FA3 7FFFF801 89ABCDEF 00000000 80000044 000000EF sb x2, 2047(x1)
00209023 80000000 89ABCDEF 00000000 80000044 0000CDEF sh x2, 0(x1)
FC20AFA3 80000021 89ABCDEF 00000000 80000044 89ABCDEF sw x2, -33(x1)
80008193 00000000 00000000 FFFFF800 80000044 123480F0 addi x3, x1, -2048
00108013 00000007 00000000 00000000 80000044 123480F0 addi x0, x1, 1
FFF0A193 FFFFFFFE 00000000 00000001 80000044 123480F0 slti x3, x1, -1
FFF0B193 00000005 00000000 00000001 80000044 123480F0 sltiu x3, x1, -1
FFF0C193 00000FF0 00000000 FFFFF00F 80000044 123480F0 xori x3, x1, -1
70F0E193 F0000000 00000000 F000070F 80000044 123480F0 ori x3, x1, 0x70F
FF00F193 12345678 00000000 12345670 80000044 123480F0 andi x3, x1, -16
01F09193 00000003 00000000 80000000 80000044 123480F0 slli x3, x1, 31
01F0D193 80000000 00000000 00000001 80000044 123480F0 srli x3, x1, 31
41F0D193 80000000 00000000 FFFFFFFF 80000044 123480F0 srai x3, x1, 31
002081B3 FFFFFFFF 00000002 00000001 80000044 123480F0 add x3, x1, x2
002091B3 00000001 FFFFFFE4 00000010 80000044 123480F0 sll x3, x1, x2
0020A1B3 80000000 7FFFFFFF 00000001 80000044 123480F0 slt x3, x1, x2
0020B1B3 80000000 7FFFFFFF 00000000 80000044 123480F0 sltu x3, x1, x2
0020C1B3 0000FF00 00000FF0 0000F0F0 80000044 123480F0 xor x3, x1, x2
0020D1B3 80000000 00000024 08000000 80000044 123480F0 srl x3, x1, x2
0020E1B3 0000FF00 00000FF0 0000FFF0 80000044 123480F0 or x3, x1, x2
0020F1B3 0000FF00 00000FF0 00000F00 80000044 123480F0 and x3, x1, x2
402081B3 00000001 00000002 FFFFFFFF 80000044 123480F0 sub x3, x1, x2
4020D1B3 80000000 00000024 F8000000 80000044 123480F0 sra x3, x1, x2
022081B3 80000001 00000003 80000003 80000044 123480F0 mul x3, x1, x2
022091B3 80000000 80000000 40000000 80000044 123480F0 mulh x3, x1, x2
022091B3 FFFFFFFF FFFFFFFF 00000000 80000044 123480F0 mulh x3, x1, x2
0220A1B3 80000000 80000000 C0000000 80000044 123480F0 mulhsu x3, x1, x2
0220A1B3 FFFFFFFF FFFFFFFF FFFFFFFF 80000044 123480F0 mulhsu x3, x1, x2
0220B1B3 FFFFFFFF FFFFFFFF FFFFFFFE 80000044 123480F0 mulhu x3, x1, x2
0220C1B3 00000007 00000000 FFFFFFFF 80000044 123480F0 div x3, x1, x2
0220C1B3 80000000 FFFFFFFF 80000000 80000044 123480F0 div x3, x1, x2
0220C1B3 FFFFFFF9 00000002 FFFFFFFD 80000044 123480F0 div x3, x1, x2
0220D1B3 00000007 00000000 FFFFFFFF 80000044 123480F0 divu x3, x1, x2
0220D1B3 80000000 FFFFFFFF 00000000 80000044 123480F0 divu x3, x1, x2
0220E1B3 00000007 00000000 00000007 80000044 123480F0 rem x3, x1, x2
0220E1B3 80000000 FFFFFFFF 00000000 80000044 123480F0 rem x3, x1, x2
0220E1B3 FFFFFFF9 00000002 FFFFFFFF 80000044 123480F0 rem x3, x1, x2
0220F1B3 00000007 00000000 00000007 80000044 123480F0 remu x3, x1, x2
0220F1B3 80000000 FFFFFFFF 80000000 80000044 123480F0 remu x3, x1, x2
0330000F 00000000 00000000 00000000 80000044 123480F0 fence rw, rw
0000100F 00000000 00000000 00000000 80000044 123480F0 fence.i
10500073 00000000 00000000 00000000 80000044 123480F0 wfi
1000A1AF 80000000 00000000 123480F0 80000044 123480F0 lr.w x3, (x1)
1820A1AF 80000000 00000009 00000001 80000044 123480F0 sc.w x3, x2, (x1)
0820A1AF 80000000 00000009 123480F0 80000044 00000009 amoswap.w x3, x2, (x1)
0020A1AF 80000000 F0000000 123480F0 80000044 023480F0 amoadd.w x3, x2, (x1)
2020A1AF 80000000 FFFFFFFF 123480F0 80000044 EDCB7F0F amoxor.w x3, x2, (x1)
6020A1AF 80000000 0000FFFF 123480F0 80000044 000080F0 amoand.w x3, x2, (x1)
4020A1AF 80000000 0000000F 123480F0 80000044 123480FF amoor.w x3, x2, (x1)
8020A1AF 80000000 FFFFFFFF 123480F0 80000044 FFFFFFFF amomin.w x3, x2, (x1)
A020A1AF 80000000 FFFFFFFF 123480F0 80000044 123480F0 amomax.w x3, x2, (x1)
C020A1AF 80000000 FFFFFFFF 123480F0 80000044 123480F0 amominu.w x3, x2, (x1)
E020A1AF 80000000 FFFFFFFF 123480F0 80000044 FFFFFFFF amomaxu.w x3, x2, (x1)
";

/// A word, x1 and x2, and the cause and the value of the trap that it gives.
const TRAPS: &str = "\
002001EF 00000000 00000000 00000000 80000042 jal x3, 2
003081E7 80000000 00000000 00000000 80000002 jalr x3, x1, 3
00000363 00000000 00000000 00000000 80000046 beq x0, x0, 6
00100073 00000000 00000000 00000003 80000040 ebreak
00000073 00000000 00000000 0000000B 00000000 ecall
00109183 00000000 00000000 00000004 00000001 lh x3, 1(x1)
0020A183 80000000 00000000 00000004 80000002 lw x3, 2(x1)
00108183 80000000 00000000 00000005 80000001 lb x3, 1(x1)
002090A3 00000000 00000000 00000006 00000001 sh x2, 1(x1)
0020A223 80000000 00000000 00000007 80000004 sw x2, 4(x1)
1000A1AF 00000001 00000000 00000004 00000001 lr.w x3, (x1)
1000A1AF 00000004 00000000 00000005 00000004 lr.w x3, (x1)
1820A1AF 00000001 00000000 00000006 00000001 sc.w x3, x2, (x1)
1820A1AF 00000004 00000000 00000007 00000004 sc.w x3, x2, (x1)
0020A1AF 00000002 00000000 00000006 00000002 amoadd.w x3, x2, (x1)
0020A1AF 00000004 00000000 00000007 00000004 amoadd.w x3, x2, (x1)
";

/// Words at x1, what they leave in x3, and whether the reservation stands after them.
const RESERVATIONS: &str = "\
1820A1AF 00000001 0 sc.w x3, x2, (x1)
1000A1AF 123480F0 1 lr.w x3, (x1)
0020A023 123480F0 1 sw x2, 0(x1)
1820A1AF 00000000 0 sc.w x3, x2, (x1)
1820A1AF 00000001 0 sc.w x3, x2, (x1)
1000A1AF 00000009 1 lr.w x3, (x1)
";

/// Words at x1, and what they leave in x3 and in mscratch, which starts as 0xFF00.
const CHANGES: &str = "\
340091F3 0000FF00 00000FF0 csrrw x3, mscratch, x1
3400A1F3 0000FF00 0000FFF0 csrrs x3, mscratch, x1
3400B1F3 0000FF00 0000F000 csrrc x3, mscratch, x1
340FD1F3 0000FF00 0000001F csrrwi x3, mscratch, 31
340FE1F3 0000FF00 0000FF1F csrrsi x3, mscratch, 31
340FF1F3 0000FF00 0000FF00 csrrci x3, mscratch, 31
";

/// What a hexadecimal digit stands for.
fn digit(byte: u8) -> u32 {
    match byte {
        b'0'..=b'9' => u32::from(byte - b'0'),
        b'A'..=b'F' => u32::from(byte - b'A' + 10),
        _ => 0,
    }
}

/// The number of a hexadecimal word.
fn number(word: &str) -> u32 {
    let mut value = 0;
    for byte in word.as_bytes() {
        value = value << 4 | digit(*byte);
    }
    value
}

/// The first numbers of a line.
fn numbers(line: &str) -> [u32; 6] {
    let mut numbers = [0; 6];
    for (place, word) in numbers.iter_mut().zip(line.split_whitespace()) {
        *place = number(word);
    }
    numbers
}

/// What is tested. No call has a clause, so that what the contracts say stands in no goal of the
/// tests.
trait Core: Drop {
    /// A hart at the start with these values in x1 and x2, and this word in memory.
    fn start(first: u32, second: u32, memory: u32) -> Self;

    /// What one word does. `None` is that there is no such row.
    fn execute(&mut self, word: u32) -> Option<Outcome>;

    /// Enters the interrupt that is due, and answers its cause.
    fn enter_pending(&mut self) -> Option<u32>;

    /// Goes on at the start.
    fn enter_start(&mut self);

    /// Writes a CSR.
    fn write(&mut self, number: u32, value: u32) -> bool;

    /// The timer and the devices ask for interrupts.
    fn raise_lines(&mut self);

    fn fields(&self) -> HartFields;

    fn zero(&self) -> u32;

    fn memory(&self) -> u32;

    fn csr(&self, number: u32) -> Option<u32>;
}

/// A hart, its CSRs and its bus.
#[derive(Drop)]
struct Board {
    hart: Hart,
    csrs: Csrs,
    bus: OneWord,
}

impl Core for Board {
    fn start(first: u32, second: u32, memory: u32) -> Board {
        let mut hart = Hart::new(START);
        let mut fields = hart.fields();
        fields.x[0] = first;
        fields.x[1] = second;
        hart.set_fields(&fields);
        Board {
            hart,
            csrs: Csrs::new(),
            bus: OneWord { value: memory },
        }
    }

    fn execute(&mut self, word: u32) -> Option<Outcome> {
        let instr = decode(word)?;
        self.hart
            .execute(&instr, &mut self.csrs, &mut self.bus)
            .ok()
    }

    fn enter_pending(&mut self) -> Option<u32> {
        let cause = self.csrs.pending()?;
        let pc = self.csrs.enter(cause, 0, self.hart.pc());
        self.hart.enter(pc);
        Some(cause)
    }

    fn enter_start(&mut self) {
        self.hart.enter(START);
    }

    fn write(&mut self, number: u32, value: u32) -> bool {
        self.csrs.write(number, value)
    }

    fn raise_lines(&mut self) {
        self.csrs.set_mtimecmp(0);
        self.csrs.external(true);
    }

    fn fields(&self) -> HartFields {
        self.hart.fields()
    }

    fn zero(&self) -> u32 {
        self.hart.reg(0)
    }

    fn memory(&self) -> u32 {
        self.bus.value
    }

    fn csr(&self, number: u32) -> Option<u32> {
        self.csrs.read(number)
    }
}

/// Whether a word of `ROWS` leaves what its line says.
fn is_row<C: Core>(line: &str) -> bool {
    let [word, first, second, third, pc, memory] = numbers(line);
    let mut core = C::start(first, second, MEMORY);
    let outcome = core.execute(word);
    let fields = core.fields();
    let left = (core.zero(), fields.x[2], fields.pc, core.memory());
    outcome == Some(Outcome::Next) && left == (0, third, pc, memory)
}

/// Whether a word of `TRAPS` gives its trap and changes nothing.
fn is_trap<C: Core>(line: &str) -> bool {
    let [word, first, second, cause, value, _] = numbers(line);
    let mut core = C::start(first, second, MEMORY);
    let before = core.fields();
    let outcome = core.execute(word);
    let same = core.fields() == before && core.memory() == MEMORY;
    same && outcome == Some(Outcome::Trap { cause, value })
}

/// Whether a word of `RESERVATIONS` leaves what its line says.
fn is_reserved<C: Core>(line: &str, core: &mut C) -> bool {
    let [word, third, reserved, ..] = numbers(line);
    let outcome = core.execute(word);
    let left = core.fields();
    outcome.is_some() && left.x[2] == third && left.reserved == (reserved == 1)
}

/// Whether a word of `CHANGES` leaves what its line says.
fn is_change<C: Core>(line: &str) -> bool {
    let [word, third, scratch, ..] = numbers(line);
    let mut core = C::start(0x0FF0, 0, 0);
    let written = core.write(0x340, 0xFF00);
    let outcome = core.execute(word);
    let left = core.fields().x[2] == third && core.csr(0x340) == Some(scratch);
    written && outcome.is_some() && left
}

/// Whether a word is legal as the line says: an illegal one traps with cause 2 and the word.
fn is_legal<C: Core>(word: u32, legal: bool) -> bool {
    let trap = Outcome::Trap {
        cause: 2,
        value: word,
    };
    C::start(0, 0, 0).execute(word) == Some(if legal { Outcome::Next } else { trap })
}

/// Whether each CSR is read and written where it is held, and refused where it isn't.
fn is_csr<C: Core>(number: u32) -> bool {
    let held = matches!(
        number,
        0x300 | 0x301 | 0x304 | 0x305 | 0x340..=0x344 | 0xB00 | 0xB02 | 0xB80 | 0xB82
    );
    let read_only = matches!(number, 0xF11..=0xF14);
    // csrrs x3, number, x0 and csrrw x0, number, x0
    is_legal::<C>(number << 20 | 0x21F3, held || read_only)
        && is_legal::<C>(number << 20 | 0x1073, held)
}

/// Whether the words of `RESERVATIONS` leave what their lines say, in order.
fn check_reservations<R: Abort, C: Core>(rt: &R, core: &mut C) {
    for line in RESERVATIONS.lines() {
        assert!(rt; is_reserved(line, core), "{line}");
    }
    core.enter_start();
    let left = core.fields();
    assert!(rt; !left.reserved && left.address == PLACE);
    assert!(rt; is_reserved("1820A1AF 00000001 0", core));
}

fn check_return<R: Abort, C: Core>(rt: &R, core: &mut C) {
    assert!(rt; core.write(0x341, 0x124));
    assert!(rt; core.execute(0x3020_0073).is_some());
    assert_eq!(rt; core.fields().pc, 0x124);
    assert_eq!(rt; core.csr(0x300), Some(0x1880));
}

fn check_interrupt<R: Abort, C: Core>(rt: &R, core: &mut C) {
    // mie, and mtvec, which is vectored
    assert!(rt; core.write(0x304, 0x880) && core.write(0x305, 0x8000_0101));
    core.raise_lines();
    assert_eq!(rt; core.enter_pending(), None);
    // csrrsi x0, mstatus, 8
    assert_eq!(rt; core.execute(0x3004_6073), Some(Outcome::Next));
    assert!(rt; core.enter_pending().is_some());
    assert_eq!(rt; core.csr(0x342), Some(0x8000_000B));
    assert_eq!(rt; core.csr(0x341), Some(0x8000_0044));
    assert_eq!(rt; core.fields().pc, 0x8000_012C);
}

#[test]
fn rows_at_their_edges(rt: HostRuntime) {
    for line in ROWS.lines() {
        assert!(rt; is_row::<Board>(line), "{line}");
    }
}

#[test]
fn traps_with_cause_and_value(rt: HostRuntime) {
    for line in TRAPS.lines() {
        assert!(rt; is_trap::<Board>(line), "{line}");
    }
}

#[test]
fn reservations_and_what_clears_them(rt: HostRuntime) {
    check_reservations(&rt, &mut Board::start(PLACE, 9, MEMORY));
}

#[test]
fn each_csr_by_number(rt: HostRuntime) {
    for number in 0..4096u32 {
        assert!(rt; is_csr::<Board>(number), "{number:03x}");
    }
}

#[test]
fn csr_changes(rt: HostRuntime) {
    for line in CHANGES.lines() {
        assert!(rt; is_change::<Board>(line), "{line}");
    }
}

#[test]
fn mret_returns(rt: HostRuntime) {
    check_return(&rt, &mut Board::start(0, 0, 0));
}

#[test]
fn interrupt_after_it_is_enabled(rt: HostRuntime) {
    check_interrupt(&rt, &mut Board::start(0, 0, 0));
}
