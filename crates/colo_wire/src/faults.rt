//! Why no message was read.

ghost use Rattle.std.specs.Prelude.{◌≡◌};
ghost use Rattle.colo_wire.specs.declared.faults.WireFault.TheVariants.{NoMemory};

use std::alloc::AllocError;

/// Why no message was read: the first place where the bytes go on as no message does.
#[derive(Clone, Copy, Debug, PartialEq, Eq)]
pub enum WireFault {
    /// The bytes are the beginning of a message, and not all of it.
    More,
    /// The first byte is no kind.
    Kind,
    /// The next four bytes are no length that the kind allows.
    Length,
    /// A field of the body has a value that it can't have.
    Field,
    /// Memory ran out.
    NoMemory,
}

impl From<AllocError> for WireFault {
    ghost from_gives = { λ _ e. e ≡ NoMemory };

    fn from(_: AllocError) -> WireFault {
        WireFault::NoMemory
    }
}
