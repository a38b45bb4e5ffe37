//! Why a text is refused.

ghost use Rattle.std.specs.Prelude.{◌≡◌};

use colo_base::NoMemory;
use std::alloc::{AllocError, AllocFailed};

/// Why a line is bad: the first of these that holds of it.
#[derive(Clone, Copy, Debug, PartialEq, Eq)]
pub enum LineWhy {
    /// The first word is unknown, no form of the line fits, or it is a mark that follows no event.
    Word,
    /// No form that fits has so many words, or the text's last newline is missing.
    Count,
    /// In each form that is left a number is bad.
    Number,
    /// It is a second stop.
    SecondStop,
    /// It is a report with no stop before it, or after another report.
    FalseReport,
}

/// Why a text isn't read.
#[derive(Clone, Copy, Debug, PartialEq, Eq)]
pub enum LineFault {
    /// The first bad line, counted from 1, and its first case.
    Bad { line: u64, why: LineWhy },
    /// An allocation was refused.
    NoMemory,
}

impl From<NoMemory> for LineFault {
    ghost use Rattle.replay_log.specs.declared.causes.LineFault.TheVariants as variant;

    ghost from_gives = { λ _ fault. fault ≡ variant.NoMemory };

    fn from(_: NoMemory) -> LineFault {
        LineFault::NoMemory
    }
}

impl From<AllocError> for LineFault {
    ghost use Rattle.replay_log.specs.declared.causes.LineFault.TheVariants as variant;

    ghost from_gives = { λ _ fault. fault ≡ variant.NoMemory };

    fn from(_: AllocError) -> LineFault {
        LineFault::NoMemory
    }
}

impl<T: Drop> From<AllocFailed<T>> for LineFault {
    ghost use Rattle.replay_log.specs.declared.causes.LineFault.TheVariants as variant;

    ghost from_gives = { λ _ fault. fault ≡ variant.NoMemory };

    fn from(_: AllocFailed<T>) -> LineFault {
        LineFault::NoMemory
    }
}
