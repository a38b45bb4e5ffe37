//! Why a text could not be assembled.

ghost use Rattle.std.specs.Prelude.{◌≡◌};
ghost use Rattle.rv_asm.specs.declared.fault.AsmFault.TheVariants.{NoMemory};

use std::alloc::{AllocError, AllocFailed};

/// What is wrong with a line.
#[derive(Clone, Copy, Debug, PartialEq, Eq)]
pub enum Why {
    /// No such statement or operand form.
    Word,
    /// No such register.
    Register,
    /// A number that doesn't fit, or a distance that is odd.
    Range,
    /// A label that is unknown or given twice.
    Label,
}

/// Why a text could not be assembled.
#[derive(Clone, Copy, Debug, PartialEq, Eq)]
pub enum AsmFault {
    /// The first bad line, counted from 1, and its first fault.
    Line { line: u64, why: Why },
    /// An allocation was refused.
    NoMemory,
}

impl From<AllocError> for AsmFault {
    ghost from_gives = { λ _ e. e ≡ NoMemory };

    fn from(_: AllocError) -> AsmFault {
        AsmFault::NoMemory
    }
}

impl<T: Drop> From<AllocFailed<T>> for AsmFault {
    ghost from_gives = { λ _ e. e ≡ NoMemory };

    fn from(_: AllocFailed<T>) -> AsmFault {
        AsmFault::NoMemory
    }
}
