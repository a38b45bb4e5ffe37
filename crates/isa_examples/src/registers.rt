//! Worked values from the standard, and every number once.

use crate::scene::play;
use rv_traps::{CsrFields, Csrs};
use worked_steps::{Answer, Scene, no_such_call, nothing, number, number_or_none, word, yes_or_no};

/// The numbers of the CSRs that there are (RISC-V privileged, 2.2).
const NUMBERS: [u32; 17] = [
    0x300, 0x301, 0x304, 0x305, 0x340, 0x341, 0x342, 0x343, 0x344, 0xB00, 0xB02, 0xB80, 0xB82,
    0xF11, 0xF12, 0xF13, 0xF14,
];

/// CSRs whose calls are made.
#[derive(Drop)]
struct Registers(Csrs);

impl Scene for Registers {
    /// `read` and `write` have a CSR's number, and `enter` a cause, a value and an address. `set`
    /// sets the worked fields, and `legal` tells whether they are with another mstatus, mie, mtvec
    /// and mepc. What sets a line of an interrupt has 1 or 0.
    fn call(&mut self, name: &str, n: &[u32; 6]) -> Answer {
        match name {
            "read" => number_or_none(self.0.read(n[0])),
            "write" => yes_or_no(self.0.write(n[0], n[1])),
            "pending" => number_or_none(self.0.pending()),
            "enter" => enter(&mut self.0, n[0], n[1], n[2]),
            "leave" => number(u64::from(self.0.leave())),
            "legal" => yes_or_no(with_others(&self.0, n).is_legal()),
            "is_legal" => yes_or_no(self.0.fields().is_legal()),
            "msip" => yes_or_no(self.0.msip()),
            "mtime" => number(self.0.mtime()),
            "mtimecmp" => number(self.0.mtimecmp()),
            "steps" => number(self.0.steps()),
            "mtvec" => number(u64::from(self.0.fields().mtvec)),
            _ => change(&mut self.0, name, n[0]),
        }
    }
}

/// What changes CSRs beside a write.
fn change(csrs: &mut Csrs, name: &str, n: u32) -> Answer {
    match name {
        "count" => csrs.count(),
        "tick" => csrs.tick(u64::from(n)),
        "external" => csrs.external(n == 1),
        "set_msip" => csrs.set_msip(n == 1),
        "set_mtimecmp" => csrs.set_mtimecmp(u64::from(n)),
        "set" => csrs.set_fields(&FIELDS),
        _ => return no_such_call(),
    }
    nothing()
}

/// Enters a trap, and answers where it goes on.
fn enter(csrs: &mut Csrs, cause: u32, value: u32, pc: u32) -> Answer {
    if pc % 4 == 0 {
        number(u64::from(csrs.enter(cause, value, pc)))
    } else {
        word("odd")
    }
}

/// What CSRs hold, with another mstatus, mie, mtvec and mepc.
fn with_others(csrs: &Csrs, n: &[u32; 6]) -> CsrFields {
    CsrFields {
        mstatus: n[0],
        mie: n[1],
        mtvec: n[2],
        mepc: n[3],
        ..csrs.fields()
    }
}

/// Whether a number is read and written as the standard has it: one whose bits 11 and 10 are set is
/// read-only (2.1).
fn is_as_told(csrs: &mut Csrs, number: u32) -> bool {
    let there = NUMBERS.contains(&number);
    let read_only = number >> 10 == 3;
    csrs.read(number).is_some() == there && csrs.write(number, 0) == (there && !read_only)
}

#[test]
fn each_number_once(rt: HostRuntime) {
    let mut csrs = Csrs::new();
    for number in 0..4096 {
        assert!(rt; is_as_told(&mut csrs, number), "at {number:x}");
    }
}

/// What each CSR reads after all ones were written to it.
const ALL_ONES: &str = "\
count
count
write 300 FFFFFFFF : yes
read 300 : 1888
write 301 FFFFFFFF : yes
read 301 : 40001101
write 304 FFFFFFFF : yes
read 304 : 888
write 305 FFFFFFFF : yes
read 305 : FFFFFFFD
write 340 FFFFFFFF : yes
read 340 : FFFFFFFF
write 341 FFFFFFFF : yes
read 341 : FFFFFFFC
write 342 FFFFFFFF : yes
read 342 : FFFFFFFF
write 343 FFFFFFFF : yes
read 343 : FFFFFFFF
write 344 FFFFFFFF : yes
read 344 : 0
write B00 FFFFFFFF : yes
read B00 : 2
write B82 FFFFFFFF : yes
read B82 : 0
";

/// Timer and external interrupt are pending when MIE is set: the external one is entered.
const AFTER_MIE: &str = "\
set_mtimecmp 5
tick 5
external 1
write 304 880 : yes
write 305 80000101 : yes
read 344 : 880
pending : none
write 300 8 : yes
pending : 8000000B
enter 8000000B 0 80000044 : 8000012C
read 342 : 8000000B
read 341 : 80000044
read 300 : 1880
pending : none
leave : 80000044
read 300 : 1888
";

/// External comes before software, and software before timer; an exception is never vectored.
const ORDER: &str = "\
set_mtimecmp 0
set_msip 1
external 1
write 304 FFFFFFFF : yes
write 300 FFFFFFFF : yes
pending : 8000000B
external 0
pending : 80000003
set_msip 0
pending : 80000007
set_mtimecmp 1
pending : none
write 305 80000103 : yes
enter B 0 80000040 : 80000100
";

/// The values of a machine's state.
const FIELDS: CsrFields = CsrFields {
    mstatus: 0x1880,
    mie: 0x808,
    mtvec: 0x8000_0101,
    mscratch: 1,
    mepc: 0x8000_0040,
    mcause: 2,
    mtval: 3,
    msip: true,
    mtime: 4,
    mtimecmp: 6,
    steps: 0x7_0000_0005,
};

/// They are set and given; `steps` is read in two halves.
const SET_AND_GIVEN: &str = "\
set
tick 1
count
read B00 : 6
read B80 : 7
msip : yes
mtime : 5
mtimecmp : 6
steps : 700000006
is_legal : yes
mtvec : 80000101
legal 800 0 0 0 : no
legal 1800 1 0 0 : no
legal 1800 0 2 0 : no
legal 1800 0 0 2 : no
";

#[test]
fn all_ones(rt: HostRuntime) {
    play(&rt, &mut Registers(Csrs::new()), &[ALL_ONES]);
}

#[test]
fn interrupt_after_mie(rt: HostRuntime) {
    play(&rt, &mut Registers(Csrs::new()), &[AFTER_MIE]);
}

#[test]
fn order_of_interrupts(rt: HostRuntime) {
    play(&rt, &mut Registers(Csrs::new()), &[ORDER]);
}

#[test]
fn fields_set_and_given(rt: HostRuntime) {
    play(&rt, &mut Registers(Csrs::new()), &[SET_AND_GIVEN]);
}
