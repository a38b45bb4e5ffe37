//! The registers of one hart.

ghost use Rattle.std.specs.Prelude.{◌≡◌, ◌%◌, ◌<◌, ◌==◌, ◌&&◌, false, replicate, slice_index};
ghost use Rattle.rv_core.specs.Registers.{Regs, x_of, write_register, with_pc, reserve, unreserve};
ghost use Rattle.rv_core.specs.Reach.{hart_result, advance, write_rd, jump};
ghost use Rattle.rv_core.specs.Fields.{IsLegal, fields_of, state_of};

use rv_traps::cause::INSTRUCTION_ADDRESS_MISALIGNED;
use std::marker::Model;

/// How an instruction ended: it is over, or it traps with a cause and a value (RISC-V privileged,
/// mcause and mtval). A trap has changed no register and no memory.
#[derive(Clone, Copy, Debug, PartialEq, Eq)]
pub enum Outcome {
    Next,
    Trap { cause: u32, value: u32 },
}

/// The values of the machine's state that the hart holds. `x` is x1 to x31; `address` is the one
/// that was reserved last.
#[derive(Clone, Copy, Debug, PartialEq, Eq)]
pub struct HartFields {
    pub pc: u32,
    pub x: [u32; 31],
    pub reserved: bool,
    pub address: u32,
}

/// The registers of one hart: the program counter, x0 to x31, and the reservation of LR and SC.
///
/// Contracts see it as a record `Regs`. At every moment x0 is 0 and the program counter is a
/// multiple of 4.
#[derive(Drop)]
pub struct Hart {
    pc: u32,
    x: [u32; 32],
    reserved: bool,
    address: u32,
}

impl Model for Hart {
    ghost use Rattle.rv_core.specs.Registers.{Regs, IsHart};

    ghost Value = { Regs };

    ghost view = { λ h. record { pc = h.pc; x = h.x; reserved = h.reserved; address = h.address } };

    ghost invariant = { λ h.
        IsHart (record { pc = h.pc; x = h.x; reserved = h.reserved; address = h.address }) };
}

impl Hart {
    /// A hart at `pc`, a multiple of 4, with 0 in each register and no reservation.
    pub fn new(pc: u32) -> Hart
        requires { pc % 4 ≡ 0 }
        ensures { result ≡ record { pc = pc; x = replicate 32 0; reserved = false; address = 0 } }
    {
        Hart {
            pc,
            x: [0; 32],
            reserved: false,
            address: 0,
        }
    }

    /// The register x with the number `k`, below 32.
    pub fn reg(&self, k: u32) -> u32
        requires { k < 32 }
        ensures value { result ≡ slice_index self.now.x k }
        ensures x0 { k ≡ 0 → result ≡ 0 }
    {
        self.x[k as usize]
    }

    /// The program counter, a multiple of 4.
    #[inline(always)]
    pub fn pc(&self) -> u32
        ensures value { result ≡ self.now.pc }
        ensures aligned { result % 4 ≡ 0 }
    {
        self.pc
    }

    /// Goes to `pc`, a multiple of 4, and forgets the reservation, as the entry of a trap does.
    pub fn enter(&mut self, pc: u32)
        requires { pc % 4 ≡ 0 }
        ensures { self.new ≡ record self.old { pc = pc; reserved = false } }
    {
        self.pc = pc;
        self.unreserve();
    }

    /// Forgets the reservation. The address that was reserved stays.
    #[inline(always)]
    pub fn unreserve(&mut self)
        ensures { self.new ≡ unreserve self.old }
    {
        self.reserved = false;
    }

    /// The values that the hart holds. They make the same hart again.
    pub fn fields(&self) -> HartFields
        ensures value { result ≡ fields_of self.now }
        ensures legal { IsLegal result }
        ensures back { state_of result ≡ self.now }
    {
        let mut x = [0; 31];
        x.copy_from_slice(&self.x[1..]);
        HartFields {
            pc: self.pc,
            x,
            reserved: self.reserved,
            address: self.address,
        }
    }

    /// Sets the values that the hart holds. The program counter is a multiple of 4.
    pub fn set_fields(&mut self, f: &HartFields)
        requires { IsLegal f.now }
        ensures { self.new ≡ state_of f.now }
    {
        let mut x = [0; 32];
        x[1..].copy_from_slice(&f.x);
        *self = Hart {
            pc: f.pc,
            x,
            reserved: f.reserved,
            address: f.address,
        };
    }

    /// The register with the number `k`, below 32.
    #[inline(always)]
    pub(crate) fn at(&self, k: u8) -> u32
        requires { k < 32 }
        ensures { result ≡ x_of self.now k }
    {
        self.x[k as usize]
    }

    /// Whether `addr` is reserved.
    #[inline(always)]
    pub(crate) fn has_reserved(&self, addr: u32) -> bool
        ensures { result ≡ (self.now.reserved && self.now.address == addr) }
    {
        self.reserved && self.address == addr
    }

    /// Reserves `addr`, in place of any other.
    #[inline(always)]
    pub(crate) fn reserve(&mut self, addr: u32)
        ensures { self.new ≡ reserve self.old addr }
    {
        self.reserved = true;
        self.address = addr;
    }

    /// Writes `value` to the register `rd`, but nothing to x0.
    #[inline(always)]
    fn write(&mut self, rd: u8, value: u32)
        requires { rd < 32 }
        ensures { self.new ≡ write_register self.old rd value }
    {
        self.x[rd as usize] = value;
        self.x[0] = 0;
    }

    /// Writes `value` to the register `rd`, but nothing to x0, and goes on with the next
    /// instruction.
    #[inline(always)]
    pub(crate) fn put(&mut self, rd: u8, value: u32) -> Outcome
        requires { rd < 32 }
        ensures { hart_result result self.new ≡ write_rd self.old rd value }
    {
        self.write(rd, value);
        self.go_on()
    }

    /// Advances the program counter to the next instruction.
    #[inline(always)]
    pub(crate) fn go_on(&mut self) -> Outcome
        ensures { hart_result result self.new ≡ advance self.old }
    {
        self.pc = self.pc.wrapping_add(4);
        Outcome::Next
    }

    /// Continues at `pc`, a multiple of 4.
    #[inline(always)]
    pub(crate) fn go_to(&mut self, pc: u32) -> Outcome
        requires { pc % 4 ≡ 0 }
        ensures { hart_result result self.new ≡ hart_result Outcome.Next (with_pc self.old pc) }
    {
        self.pc = pc;
        Outcome::Next
    }

    /// Jumps to `target`, and leaves the address of the next instruction in `rd`. A target that is
    /// no multiple of 4 traps.
    #[inline(always)]
    pub(crate) fn jump(&mut self, rd: u8, target: u32) -> Outcome
        requires { rd < 32 }
        ensures { hart_result result self.new ≡ jump self.old rd target }
    {
        if target % 4 != 0 {
            return Outcome::Trap {
                cause: INSTRUCTION_ADDRESS_MISALIGNED,
                value: target,
            };
        }
        let link = self.pc.wrapping_add(4);
        self.write(rd, link);
        self.pc = target;
        Outcome::Next
    }
}
