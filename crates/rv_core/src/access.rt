//! Loads, stores and the atomic memory operations.

ghost use Rattle.std.specs.Prelude.{◌≡◌, ℕ, ◌<◌, ◌⊎◌, true, IfOk, IsErr};
ghost use Rattle.rv_core.specs.Registers.{x_of};
ghost use Rattle.rv_core.specs.Effect.{add_signed};
ghost use Rattle.rv_core.specs.Reach.{hart_result, bus_result, write_loaded, load_reserved, load_at, word_at, word_to_load, word_to_modify, store_at, store_conditional, modify};
ghost use Rattle.rv_core.specs.Stores.{MayRunOut, amo_request};
ghost use Rattle.rv_core.specs.Choices.{apply, load_width, extend_loaded, store_width, store_part};

use crate::arithmetic::{AluOp, extend_byte, extend_half, low_byte, low_half};
use crate::buses::Bus;
use crate::registers::{Hart, Outcome};
use colo_base::NoMemory;
use rv_traps::cause::{
    LOAD_ACCESS_FAULT, LOAD_ADDRESS_MISALIGNED, STORE_ACCESS_FAULT, STORE_ADDRESS_MISALIGNED,
};

/// The loads: what each reads, and how it fills a word.
#[derive(Clone, Copy)]
pub(crate) enum Load {
    Lb,
    Lh,
    Lw,
    Lbu,
    Lhu,
}

impl Load {
    #[inline(always)]
    fn width(self) -> u32
        ensures value { result ≡ load_width self }
        ensures range { (result ≡ 1) ⊎ ((result ≡ 2) ⊎ (result ≡ 4)) }
    {
        match self {
            Load::Lb | Load::Lbu => 1,
            Load::Lh | Load::Lhu => 2,
            Load::Lw => 4,
        }
    }

    #[inline(always)]
    fn extend(self, value: u32) -> u32
        ensures { result ≡ extend_loaded self value }
    {
        match self {
            Load::Lb => extend_byte(value),
            Load::Lh => extend_half(value),
            Load::Lw => value,
            Load::Lbu => low_byte(value),
            Load::Lhu => low_half(value),
        }
    }
}

/// The stores: what each writes of a word.
#[derive(Clone, Copy)]
pub(crate) enum Store {
    Sb,
    Sh,
    Sw,
}

impl Store {
    #[inline(always)]
    fn width(self) -> u32
        ensures value { result ≡ store_width self }
        ensures range { (result ≡ 1) ⊎ ((result ≡ 2) ⊎ (result ≡ 4)) }
    {
        match self {
            Store::Sb => 1,
            Store::Sh => 2,
            Store::Sw => 4,
        }
    }

    #[inline(always)]
    fn part(self, value: u32) -> u32
        ensures { result ≡ store_part self value }
    {
        match self {
            Store::Sb => low_byte(value),
            Store::Sh => low_half(value),
            Store::Sw => value,
        }
    }
}

/// The `width` bytes at `addr` as a number, or the trap.
#[inline(always)]
fn load_at<B: Bus>(bus: &mut B, addr: u32, width: u32) -> Result<u32, Outcome>
    requires { (width ≡ 1) ⊎ ((width ≡ 2) ⊎ (width ≡ 4)) }
    ensures value { result ≡ load_at B.acts bus.old addr width }
    ensures same { bus.new ≡ bus.old }
{
    if addr % width != 0 {
        return Err(Outcome::Trap {
            cause: LOAD_ADDRESS_MISALIGNED,
            value: addr,
        });
    }
    bus.load(addr, width).ok_or(Outcome::Trap {
        cause: LOAD_ACCESS_FAULT,
        value: addr,
    })
}

/// The word at `addr` for an atomic instruction, or the trap, with these causes.
#[inline(always)]
fn word_at<B: Bus>(bus: &mut B, misaligned: u32, fault: u32, addr: u32) -> Result<u32, Outcome>
    ensures value { result ≡ word_at B.acts bus.old misaligned fault addr }
    ensures same { bus.new ≡ bus.old }
{
    if addr % 4 != 0 {
        return Err(Outcome::Trap {
            cause: misaligned,
            value: addr,
        });
    }
    bus.fetch(addr).ok_or(Outcome::Trap {
        cause: fault,
        value: addr,
    })
}

impl Hart {
    /// The address of a load or a store.
    #[inline(always)]
    fn address(&self, rs1: u8, imm: i32) -> u32
        requires { rs1 < 32 }
        ensures { result ≡ add_signed (x_of self.now rs1) imm }
    {
        self.at(rs1).wrapping_add_signed(imm)
    }

    /// The loads.
    #[inline(always)]
    pub(crate) fn load<B: Bus>(
        &mut self,
        kind: Load,
        rd: u8,
        rs1: u8,
        imm: i32,
        bus: &mut B,
    ) -> Outcome
        requires target { rd < 32 }
        requires source { rs1 < 32 }
        ensures done { let addr = add_signed (x_of self.old rs1) imm in
            hart_result result self.new
            ≡ write_loaded self.old rd (extend_loaded kind)
            (load_at B.acts bus.old addr (load_width kind)) }
        ensures same { bus.new ≡ bus.old }
    {
        match load_at(bus, self.address(rs1, imm), kind.width()) {
            Ok(value) => self.put(rd, kind.extend(value)),
            Err(trap) => trap,
        }
    }

    /// The stores.
    #[inline(always)]
    pub(crate) fn store<B: Bus>(
        &mut self,
        kind: Store,
        rs1: u8,
        rs2: u8,
        imm: i32,
        bus: &mut B,
    ) -> Result<Outcome, NoMemory>
        requires base { rs1 < 32 }
        requires source { rs2 < 32 }
        ensures done { let addr = add_signed (x_of self.old rs1) imm in
            let value = store_part kind (x_of self.old rs2) in
            IfOk result (λ o. bus_result o self.new bus.new
            ≡ store_at B.acts self.old bus.old addr (store_width kind) value) }
        ensures memory { let addr = add_signed (x_of self.old rs1) imm in
            let value = store_part kind (x_of self.old rs2) in
            IsErr result → B.acts.wants bus.old addr (store_width kind) value ≡ true }
    {
        let addr = self.address(rs1, imm);
        let width = kind.width();
        if addr % width != 0 {
            return Ok(Outcome::Trap {
                cause: STORE_ADDRESS_MISALIGNED,
                value: addr,
            });
        }
        let value = kind.part(self.at(rs2));
        if bus.store(addr, width, value)? {
            Ok(self.go_on())
        } else {
            Ok(Outcome::Trap {
                cause: STORE_ACCESS_FAULT,
                value: addr,
            })
        }
    }

    /// LR.
    #[inline(always)]
    pub(crate) fn load_reserved<B: Bus>(&mut self, rd: u8, rs1: u8, bus: &mut B) -> Outcome
        requires target { rd < 32 }
        requires source { rs1 < 32 }
        ensures done { let addr = x_of self.old rs1 in
            hart_result result self.new
            ≡ load_reserved self.old rd addr (word_to_load B.acts bus.old addr) }
        ensures same { bus.new ≡ bus.old }
    {
        let addr = self.at(rs1);
        match word_at(bus, LOAD_ADDRESS_MISALIGNED, LOAD_ACCESS_FAULT, addr) {
            Ok(value) => {
                self.reserve(addr);
                self.put(rd, value)
            }
            Err(trap) => trap,
        }
    }

    /// SC.
    #[inline(always)]
    pub(crate) fn store_conditional<B: Bus>(
        &mut self,
        rd: u8,
        rs1: u8,
        rs2: u8,
        bus: &mut B,
    ) -> Result<Outcome, NoMemory>
        requires target { rd < 32 }
        requires base { rs1 < 32 }
        requires source { rs2 < 32 }
        ensures done { let addr = x_of self.old rs1 in
            let word = word_to_modify B.acts bus.old addr in
            IfOk result (λ o. bus_result o self.new bus.new
            ≡ store_conditional B.acts self.old bus.old rd addr (x_of self.old rs2) word) }
        ensures memory { IsErr result
            → B.acts.wants bus.old (x_of self.old rs1) 4 (x_of self.old rs2) ≡ true }
    {
        let addr = self.at(rs1);
        if let Err(trap) = word_at(bus, STORE_ADDRESS_MISALIGNED, STORE_ACCESS_FAULT, addr) {
            return Ok(trap);
        }
        let value = self.at(rs2);
        if self.has_reserved(addr) {
            let _taken = bus.store(addr, 4, value)?;
            self.unreserve();
            Ok(self.put(rd, 0))
        } else {
            self.unreserve();
            Ok(self.put(rd, 1))
        }
    }

    /// The atomic memory operations.
    #[inline(always)]
    pub(crate) fn modify<B: Bus>(
        &mut self,
        operation: AluOp,
        rd: u8,
        rs1: u8,
        rs2: u8,
        bus: &mut B,
    ) -> Result<Outcome, NoMemory>
        requires target { rd < 32 }
        requires base { rs1 < 32 }
        requires source { rs2 < 32 }
        ensures done { let addr = x_of self.old rs1 in
            let new : ℕ → ℕ = λ old. apply operation old (x_of self.old rs2) in
            IfOk result (λ o. bus_result o self.new bus.new
            ≡ modify B.acts self.old bus.old rd addr new (word_to_modify B.acts bus.old addr)) }
        ensures memory { let new : ℕ → ℕ = λ old. apply operation old (x_of self.old rs2) in
            let request = amo_request B.acts bus.old (x_of self.old rs1) new in
            IsErr result → MayRunOut B.acts bus.old request }
    {
        let addr = self.at(rs1);
        match word_at(bus, STORE_ADDRESS_MISALIGNED, STORE_ACCESS_FAULT, addr) {
            Ok(old) => {
                let new = operation.apply(old, self.at(rs2));
                let _taken = bus.store(addr, 4, new)?;
                Ok(self.put(rd, old))
            }
            Err(trap) => Ok(trap),
        }
    }
}
