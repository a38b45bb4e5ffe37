//! The instructions on control and status registers, and the return from a trap.

ghost use Rattle.std.specs.Prelude.{◌≡◌, ℕ, ◌<◌, ◌^◌};
ghost use Rattle.rv_isa.specs.Ranges.{IsWithin};
ghost use Rattle.rv_traps.specs.Cause.{illegal_instruction};
ghost use Rattle.rv_traps.specs.CsrTable.{read_csr};
ghost use Rattle.rv_traps.specs.Trap.{return_from_trap};
ghost use Rattle.rv_core.specs.Registers.{x_of, with_pc};
ghost use Rattle.rv_core.specs.Effect.{IsWordOf};
ghost use Rattle.rv_core.specs.Reach.{hart_result, csr_result, with_csrs, access_csr};
ghost use Rattle.rv_core.specs.Choices.{csr_change, is_csr_write};

use crate::registers::{Hart, Outcome};
use rv_isa::{Instr, encode};
use rv_traps::Csrs;
use rv_traps::cause::ILLEGAL_INSTRUCTION;

/// What becomes of a CSR: its operand, or itself with the operand's bits set or cleared.
#[derive(Clone, Copy)]
pub(crate) enum CsrOp {
    Write,
    Set,
    Clear,
}

impl CsrOp {
    #[inline(always)]
    fn apply(self, operand: u32, old: u32) -> u32
        ensures { result ≡ csr_change self operand old }
    {
        match self {
            CsrOp::Write => operand,
            CsrOp::Set => old | operand,
            CsrOp::Clear => old & !operand,
        }
    }

    /// Whether the CSR is written, by the field of the word that names the operand.
    #[inline(always)]
    fn writes(self, field: u8) -> bool
        ensures { result ≡ is_csr_write self field }
    {
        match self {
            CsrOp::Write => true,
            CsrOp::Set | CsrOp::Clear => field != 0,
        }
    }
}

/// One access to a CSR: its number, the register for its old value, the operand of the change, and
/// whether it is written.
struct Access {
    csr: u32,
    rd: u8,
    change: CsrOp,
    operand: u32,
    writes: bool,
}

/// The trap of an illegal instruction. Its value is the instruction's word.
#[inline(never)]
fn illegal(instr: &Instr) -> Outcome
    requires { IsWithin instr.now }
    ensures { (w : ℕ) → IsWordOf w instr.now → result ≡ Outcome.Trap illegal_instruction w }
{
    Outcome::Trap {
        cause: ILLEGAL_INSTRUCTION,
        value: encode(instr),
    }
}

impl Hart {
    /// A CSR instruction whose operand is a register.
    #[inline(always)]
    pub(crate) fn access_by_register(
        &mut self,
        change: CsrOp,
        rd: u8,
        rs1: u8,
        csr: u32,
        instr: &Instr,
        csrs: &mut Csrs,
    ) -> Outcome
        requires within { IsWithin instr.now }
        requires target { rd < 32 }
        requires source { rs1 < 32 }
        ensures { let is_write = is_csr_write change rs1 in
            let new = csr_change change (x_of self.old rs1) in
            (w : ℕ) → IsWordOf w instr.now → csr_result result self.new csrs.new
            ≡ access_csr self.old csrs.old w rd csr is_write new (read_csr csrs.old csr) }
    {
        let access = Access {
            csr,
            rd,
            change,
            operand: self.at(rs1),
            writes: change.writes(rs1),
        };
        // A copy, so that the decoded value itself never has an address.
        let held = *instr;
        self.access(access, &held, csrs)
    }

    /// A CSR instruction whose operand is a number.
    #[inline(always)]
    pub(crate) fn access_by_number(
        &mut self,
        change: CsrOp,
        rd: u8,
        imm: u8,
        csr: u32,
        instr: &Instr,
        csrs: &mut Csrs,
    ) -> Outcome
        requires within { IsWithin instr.now }
        requires target { rd < 32 }
        ensures { let is_write = is_csr_write change imm in
            let new = csr_change change imm in
            (w : ℕ) → IsWordOf w instr.now → csr_result result self.new csrs.new
            ≡ access_csr self.old csrs.old w rd csr is_write new (read_csr csrs.old csr) }
    {
        let access = Access {
            csr,
            rd,
            change,
            operand: u32::from(imm),
            writes: change.writes(imm),
        };
        // A copy, so that the decoded value itself never has an address.
        let held = *instr;
        self.access(access, &held, csrs)
    }

    /// A CSR instruction.
    fn access(&mut self, access: Access, instr: &Instr, csrs: &mut Csrs) -> Outcome
        requires within { IsWithin instr.now }
        requires target { access.rd < 32 }
        ensures { let new = csr_change access.change access.operand in
            let old = read_csr csrs.old access.csr in
            (w : ℕ) → IsWordOf w instr.now → csr_result result self.new csrs.new
            ≡ access_csr self.old csrs.old w access.rd access.csr access.writes new old }
    {
        let Access {
            csr,
            rd,
            change,
            operand,
            writes,
        } = access;
        let Some(old) = csrs.read(csr) else {
            return illegal(instr);
        };
        if !writes {
            return self.put(rd, old);
        }
        if csrs.write(csr, change.apply(operand, old)) {
            self.put(rd, old)
        } else {
            illegal(instr)
        }
    }

    /// MRET.
    #[inline(always)]
    pub(crate) fn leave(&mut self, csrs: &mut Csrs) -> Outcome
        ensures { let next = hart_result Outcome.Next (with_pc self.old csrs.old.mepc) in
            csr_result result self.new csrs.new ≡ with_csrs next (return_from_trap csrs.old) }
    {
        let pc = csrs.leave();
        self.go_to(pc)
    }
}
