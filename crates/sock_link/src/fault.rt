//! Why a piece of a stream was not taken as it should.

use colo_base::NoMemory;

/// Why a piece of a stream was not taken as it should.
#[derive(Clone, Copy, Debug, PartialEq, Eq)]
pub enum LinkFault {
    /// The record that begins at byte `at` of the stream, counted from 0, states a length above
    /// 69,632 bytes.
    TooLong {
        /// Where the record begins.
        at: u64,
    },
    /// An allocation was refused.
    NoMemory,
}

impl From<NoMemory> for LinkFault {
    ghost use Rattle.std.specs.Prelude.{◌≡◌};
    ghost use Rattle.sock_link.specs.declared.fault.LinkFault.TheVariants as variant;

    ghost from_gives = { λ _ fault. fault ≡ variant.NoMemory };

    fn from(_: NoMemory) -> LinkFault {
        LinkFault::NoMemory
    }
}
