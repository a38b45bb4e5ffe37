//! The values of the CSRs and the timer, as a machine's state holds them.

ghost use Rattle.std.specs.Prelude.{◌↔◌, IsTrue};
ghost use Rattle.rv_traps.specs.Fields.{IsLegal};

use crate::words;

/// What a `Csrs` holds, but for the devices' line.
///
/// `msip` is the software interrupt's line, `mtime` and `mtimecmp` are the timer's, and `steps` is
/// the number of steps that were made.
#[derive(Clone, Copy, Debug, PartialEq, Eq)]
pub struct CsrFields {
    pub mstatus: u32,
    pub mie: u32,
    pub mtvec: u32,
    pub mscratch: u32,
    pub mepc: u32,
    pub mcause: u32,
    pub mtval: u32,
    pub msip: bool,
    pub mtime: u64,
    pub mtimecmp: u64,
    pub steps: u64,
}

impl CsrFields {
    /// Whether registers can hold these values: `mstatus` is 0x1800 with bits 3 and 7 free, `mie`
    /// is within 0x888, bit 1 of `mtvec` is 0, and `mepc` is a multiple of 4.
    pub fn is_legal(&self) -> bool
        ensures { IsTrue result ↔ IsLegal self.now }
    {
        words::mstatus_of(self.mstatus) == self.mstatus
            && words::mie_of(self.mie) == self.mie
            && !words::is_set(1, self.mtvec)
            && self.mepc % 4 == 0
    }
}
