//! The control and status registers, call by call.

ghost use Rattle.std.specs.Prelude.{◌≡◌, ◌<◌, ◌%◌, ◌^◌, IfSome};
ghost use Rattle.std.specs.Bool.{OnFalse};
ghost use Rattle.rv_traps.specs.Fields.{IsLegal, fields_of, state_of};
ghost use Rattle.rv_traps.specs.CsrTable.{read_csr, write_csr, is_writable, mip_of};
ghost use Rattle.rv_traps.specs.Trap.{pending_interrupt, enter_trap, trap_handler, return_from_trap, tick, count_step, boot_csrs};

use crate::cause::{
    INTERRUPT_BIT, MACHINE_EXTERNAL_INTERRUPT, MACHINE_SOFTWARE_INTERRUPT, MACHINE_TIMER_INTERRUPT,
};
use crate::fields::CsrFields;
use crate::numbers::*;
use crate::words;
use shared_definitions::{high_half, low_half};
use std::marker::Model;

/// The control and status registers of the hart with its timer and the lines that raise interrupts
/// (RISC-V privileged, 3.1 and 3.2.1).
///
/// Contracts see it as a `CsrState`: the values of `CsrFields`, and what `external` set.
#[derive(Drop)]
pub struct Csrs {
    fields: CsrFields,
    external: bool,
}

impl Model for Csrs {
    ghost use Rattle.rv_traps.specs.CsrState.{CsrState, AreWords};
    ghost use Rattle.rv_traps.specs.Fields.{IsLegal, state_of};

    ghost Value = { CsrState };

    ghost view = { λ c. state_of c.fields c.external };

    ghost invariant = { λ c. IsLegal c.fields
        × AreWords c.fields.mtvec c.fields.mscratch c.fields.mepc c.fields.mcause c.fields.mtval };
}

impl Csrs {
    /// The registers of a machine that starts (RISC-V privileged, 3.4): all 0 but `mstatus`, which
    /// is 0x1800, and `mtimecmp`, which is all ones.
    #[tactic(auto, unfolding(crate::specs::Trap::boot_csrs))]
    pub fn new() -> Csrs
        ensures { result ≡ boot_csrs }
    {
        Csrs {
            fields: CsrFields {
                mstatus: words::mstatus_with(false, false),
                mie: 0,
                mtvec: 0,
                mscratch: 0,
                mepc: 0,
                mcause: 0,
                mtval: 0,
                msip: false,
                mtime: 0,
                mtimecmp: u64::MAX,
                steps: 0,
            },
            external: false,
        }
    }

    /// What CSR `number` reads (RISC-V privileged, 2.2 and 3.1). `None` exactly where there is no
    /// such CSR.
    #[tactic(auto, unfolding(crate::specs::CsrTable::read_csr, crate::specs::CsrTable::row_at, crate::specs::CsrTable::table))]
    pub fn read(&self, number: u32) -> Option<u32>
        ensures value { result ≡ read_csr self.now number }
        ensures small { IfSome result (λ v. v < 2 ^ 32) }
    {
        let value = match number {
            MSTATUS => self.fields.mstatus,
            MISA => RV32_WITH_A_I_M,
            MIE => self.fields.mie,
            MTVEC => self.fields.mtvec,
            MSCRATCH => self.fields.mscratch,
            MEPC => self.fields.mepc,
            MCAUSE => self.fields.mcause,
            MTVAL => self.fields.mtval,
            MIP => self.mip(),
            MCYCLE | MINSTRET => low_half(self.fields.steps),
            MCYCLEH | MINSTRETH => high_half(self.fields.steps),
            MVENDORID | MARCHID | MIMPID | MHARTID => 0,
            _ => return None,
        };
        Some(value)
    }

    /// Writes CSR `number` (RISC-V privileged, 2.1 to 3.1). `false` exactly where there is no such
    /// CSR or it is read-only; nothing changes then. A write to `misa`, `mip` or a counter is
    /// ignored.
    #[tactic(auto, unfolding(crate::specs::CsrTable::is_writable, crate::specs::CsrTable::write_csr, crate::specs::CsrTable::write_at, crate::specs::CsrTable::row_at, crate::specs::CsrTable::table))]
    pub fn write(&mut self, number: u32, value: u32) -> bool
        ensures allowed { result ≡ is_writable number }
        ensures effect { self.new ≡ write_csr self.old number value }
        ensures refused { OnFalse result (self.new ≡ self.old) }
    {
        match number {
            MSTATUS => self.fields.mstatus = words::mstatus_of(value),
            MIE => self.fields.mie = words::mie_of(value),
            MTVEC => self.fields.mtvec = words::mtvec_of(value),
            MSCRATCH => self.fields.mscratch = value,
            MEPC => self.fields.mepc = words::mepc_of(value),
            MCAUSE => self.fields.mcause = value,
            MTVAL => self.fields.mtval = value,
            MISA | MIP | MCYCLE | MINSTRET | MCYCLEH | MINSTRETH => {}
            _ => return false,
        }
        true
    }

    /// Enters the trap of this cause and value at `pc`, a multiple of 4 (RISC-V privileged, 3.1.6.1
    /// and 3.1.7). A cause with bit 31 is an interrupt. The result is the new pc, a multiple of 4.
    #[tactic(auto, unfolding(crate::specs::Trap::enter_trap, crate::specs::Trap::trap_handler))]
    pub fn enter(&mut self, cause: u32, value: u32, pc: u32) -> u32
        requires { pc % 4 ≡ 0 }
        ensures effect { self.new ≡ enter_trap self.old cause value pc }
        ensures target { result ≡ trap_handler self.old cause }
        ensures aligned { result % 4 ≡ 0 }
        ensures small { result < 2 ^ 32 }
    {
        self.fields.mstatus = words::mstatus_with(false, words::is_set(3, self.fields.mstatus));
        self.fields.mepc = pc;
        self.fields.mcause = cause;
        self.fields.mtval = value;
        let base = self.fields.mtvec / 4 * 4;
        if words::is_set(31, cause) && words::is_set(0, self.fields.mtvec) {
            base.wrapping_add(cause.wrapping_mul(4))
        } else {
            base
        }
    }

    /// Returns from a trap (RISC-V privileged, 3.3.2). The result is the new pc, which is `mepc`, a
    /// multiple of 4.
    #[tactic(auto, unfolding(crate::specs::Trap::return_from_trap))]
    pub fn leave(&mut self) -> u32
        ensures effect { self.new ≡ return_from_trap self.old }
        ensures target { result ≡ self.old.mepc }
        ensures aligned { result % 4 ≡ 0 }
        ensures small { result < 2 ^ 32 }
    {
        self.fields.mstatus = words::mstatus_with(words::is_set(7, self.fields.mstatus), true);
        self.fields.mepc
    }

    /// The cause of the due interrupt, with bit 31 set (RISC-V privileged, 3.1.9). `None` exactly
    /// where none is due.
    #[tactic(auto, unfolding(crate::specs::Trap::pending_interrupt))]
    pub fn pending(&self) -> Option<u32>
        ensures value { result ≡ pending_interrupt self.now }
        ensures small { IfSome result (λ v. v < 2 ^ 32) }
    {
        if !words::is_set(3, self.fields.mstatus) {
            return None;
        }
        let shared = self.fields.mie & self.mip();
        if shared == 0 {
            return None;
        }
        if words::is_set(MACHINE_EXTERNAL_INTERRUPT, shared) {
            Some(INTERRUPT_BIT + MACHINE_EXTERNAL_INTERRUPT)
        } else if words::is_set(MACHINE_SOFTWARE_INTERRUPT, shared) {
            Some(INTERRUPT_BIT + MACHINE_SOFTWARE_INTERRUPT)
        } else if words::is_set(MACHINE_TIMER_INTERRUPT, shared) {
            Some(INTERRUPT_BIT + MACHINE_TIMER_INTERRUPT)
        } else {
            None
        }
    }

    /// `mtime` goes on by `d` microseconds, modulo 2^64 (RISC-V privileged, 3.2.1).
    pub fn tick(&mut self, d: u64)
        ensures { self.new ≡ tick self.old d }
    {
        self.fields.mtime = self.fields.mtime.wrapping_add(d);
    }

    /// Sets the devices' line, bit 11 of `mip` (RISC-V privileged, 3.1.9).
    pub fn external(&mut self, on: bool)
        ensures { self.new ≡ record self.old { external = on } }
    {
        self.external = on;
    }

    /// The software interrupt's line, bit 3 of `mip` (RISC-V privileged, 3.1.9).
    pub fn msip(&self) -> bool
        ensures { result ≡ self.now.msip }
    {
        self.fields.msip
    }

    /// Sets the software interrupt's line.
    pub fn set_msip(&mut self, on: bool)
        ensures { self.new ≡ record self.old { msip = on } }
    {
        self.fields.msip = on;
    }

    /// The time in microseconds from which the timer's interrupt is pending (RISC-V privileged,
    /// 3.2.1).
    pub fn mtimecmp(&self) -> u64
        ensures { result ≡ self.now.mtimecmp }
    {
        self.fields.mtimecmp
    }

    /// Sets the time from which the timer's interrupt is pending.
    pub fn set_mtimecmp(&mut self, value: u64)
        ensures { self.new ≡ record self.old { mtimecmp = value } }
    {
        self.fields.mtimecmp = value;
    }

    /// The time in microseconds (RISC-V privileged, 3.2.1).
    pub fn mtime(&self) -> u64
        ensures { result ≡ self.now.mtime }
    {
        self.fields.mtime
    }

    /// Counts one step more, modulo 2^64, as `mcycle` and `minstret` read it (RISC-V privileged,
    /// 3.1.10).
    pub fn count(&mut self)
        ensures { self.new ≡ count_step self.old }
    {
        self.fields.steps = self.fields.steps.wrapping_add(1);
    }

    /// How many steps were counted.
    pub fn steps(&self) -> u64
        ensures { result ≡ self.now.steps }
    {
        self.fields.steps
    }

    /// The values that the registers hold. With the devices' line they make the same registers
    /// again.
    pub fn fields(&self) -> CsrFields
        ensures value { result ≡ fields_of self.now }
        ensures legal { IsLegal result }
        ensures back { state_of result self.now.external ≡ self.now }
    {
        self.fields
    }

    /// Sets the values that the registers hold, which `CsrFields::is_legal` tests. What `external`
    /// set stays.
    pub fn set_fields(&mut self, f: &CsrFields)
        requires { IsLegal f.now }
        ensures { self.new ≡ state_of f.now self.old.external }
    {
        self.hold(*f);
    }

    /// Holds these values.
    fn hold(&mut self, f: CsrFields)
        requires { IsLegal f }
        ensures { self.new ≡ state_of f self.old.external }
    {
        self.fields = f;
    }

    /// `mip`: bit 3 is the software interrupt's line, bit 7 says that the time has come, bit 11 is
    /// the devices' line.
    fn mip(&self) -> u32
        ensures { result ≡ mip_of self.now }
    {
        let software = if self.fields.msip { 0x8 } else { 0 };
        let timer = if self.fields.mtime >= self.fields.mtimecmp {
            0x80
        } else {
            0
        };
        let external = if self.external { 0x800 } else { 0 };
        software + timer + external
    }
}
