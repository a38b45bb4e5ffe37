//! The errors that carry nothing but their name, and the causes of a checkpoint.

use std::alloc::{AllocError, AllocFailed};

/// An allocation was refused. The one answer that no clause ties to a cause.
#[derive(Clone, Copy, Debug, PartialEq, Eq)]
pub struct NoMemory;

impl From<AllocError> for NoMemory {
    fn from(_: AllocError) -> NoMemory {
        NoMemory
    }
}

impl<T: Drop> From<AllocFailed<T>> for NoMemory {
    fn from(_: AllocFailed<T>) -> NoMemory {
        NoMemory
    }
}

/// A call on the outside did not do what it was asked.
#[derive(Clone, Copy, Debug, PartialEq, Eq)]
pub struct Failed;

/// Fewer bytes remain than were asked for.
#[derive(Clone, Copy, Debug, PartialEq, Eq)]
pub struct Short;

/// Why a checkpoint starts.
#[derive(Clone, Copy, Debug, PartialEq, Eq)]
pub enum Cause {
    /// Both nodes sent different symbols at one offset.
    Differ,
    /// A guest opened a connection again that it had opened already.
    Restart,
    /// One node has waited for the other for too long.
    Wait,
    /// The schedule asked for it.
    Asked,
}
