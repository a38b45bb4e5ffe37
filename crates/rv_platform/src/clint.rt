//! The core-local interruptor: the software interrupt's line and the timer, as registers in the
//! address space.

ghost use Rattle.std.specs.Prelude.{◌≡◌};
ghost use Rattle.std.specs.Bool.{OnFalse};
ghost use Rattle.rv_platform.specs.Clint.{load_clint, stores_clint, store_clint};

use shared_definitions::{high_half, low_half, with_high_half, with_low_half};

/// The address of `msip`.
const MSIP: u32 = 0x0200_0000;
/// The address of the low half of `mtimecmp`.
const MTIMECMP: u32 = 0x0200_4000;
/// The address of its high half.
const MTIMECMP_HIGH: u32 = 0x0200_4004;
/// The address of the low half of `mtime`.
const MTIME: u32 = 0x0200_BFF8;
/// The address of its high half.
const MTIME_HIGH: u32 = 0x0200_BFFC;

/// What the interruptor holds: the software interrupt's line, the time from which the timer's
/// interrupt is pending, and the time.
#[derive(Clone, Copy)]
pub struct Clint {
    pub msip: bool,
    pub mtimecmp: u64,
    pub mtime: u64,
}

impl Clint {
    /// The word of a register. `None` exactly where the access isn't one of 4 bytes at a register's
    /// address.
    #[tactic(auto, unfolding(crate::specs::Clint::load_clint, crate::specs::Clint::register_at, crate::specs::Clint::registers))]
    #[inline(never)]
    pub fn load(&self, addr: u32, width: u32) -> Option<u32>
        ensures { result ≡ load_clint self.now addr width }
    {
        if width != 4 {
            return None;
        }
        match addr {
            MSIP => Some(if self.msip { 1 } else { 0 }),
            MTIMECMP => Some(low_half(self.mtimecmp)),
            MTIMECMP_HIGH => Some(high_half(self.mtimecmp)),
            MTIME => Some(low_half(self.mtime)),
            MTIME_HIGH => Some(high_half(self.mtime)),
            _ => None,
        }
    }

    /// Writes the word of a register. `false` exactly where the access isn't one of 4 bytes at a
    /// register's address; nothing changes then, nor at `mtime`.
    #[tactic(auto, unfolding(crate::specs::Clint::stores_clint, crate::specs::Clint::store_clint, crate::specs::Clint::register_at, crate::specs::Clint::registers))]
    #[inline(never)]
    pub fn store(&mut self, addr: u32, width: u32, value: u32) -> bool
        ensures taken { result ≡ stores_clint addr width }
        ensures after { self.new ≡ store_clint self.old addr width value }
        ensures refused { OnFalse result (self.new ≡ self.old) }
    {
        if width != 4 {
            return false;
        }
        match addr {
            MSIP => self.msip = value % 2 == 1,
            MTIMECMP => self.mtimecmp = with_low_half(self.mtimecmp, value),
            MTIMECMP_HIGH => self.mtimecmp = with_high_half(self.mtimecmp, value),
            MTIME | MTIME_HIGH => {}
            _ => return false,
        }
        true
    }
}
