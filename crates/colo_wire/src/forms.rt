//! The table of kinds: what stands in the body of each, and how long it may be.

ghost use Rattle.std.specs.Prelude.{◌≡◌, ◌<◌, ◌≤◌};
ghost use Rattle.colo_wire.specs.Forms.{places_of, lengths_of};

use crate::kinds::Kind;

/// A place in the body of a message.
#[derive(Clone, Copy)]
pub enum Place {
    /// So many bytes, of any values.
    Any(usize),
    /// One byte, 0 or 1: whether an opening was seen.
    Seen,
    /// One byte: the flags of a line.
    Flags,
    /// A number of so many bytes, which is 0 without this flag in the byte before it.
    Marked { flag: u8, width: usize },
    /// An offset, in four bytes, which is 0 without this flag.
    Offset { flag: u8 },
}

/// The lengths that a body may have: from the shortest to the longest, in steps.
#[derive(Clone, Copy)]
pub struct Lengths {
    pub shortest: usize,
    pub longest: usize,
    pub step: usize,
}

/// The flag of a seen opening, and of a line that is opened.
pub const OPENED: u8 = 1;
/// The flag of a line that was reset.
pub const RESET: u8 = 2;
/// The flag of a line with a refusal.
pub const REFUSED: u8 = 4;
/// The flag of a line that ends.
pub const FIN: u8 = 8;

/// An index, whether an opening was seen, its two numbers, and a trim; the frame follows.
const WAITING: &[Place] = &[
    Place::Any(8),
    Place::Seen,
    Place::Marked {
        flag: OPENED,
        width: 4,
    },
    Place::Marked {
        flag: OPENED,
        width: 4,
    },
    Place::Marked {
        flag: OPENED,
        width: 4,
    },
];

/// The number of a checkpoint, a page or a sector.
const COUNT: &[Place] = &[Place::Any(4)];

/// A tuple, and two numbers.
const NUMBER: &[Place] = &[
    Place::Any(4),
    Place::Any(2),
    Place::Any(2),
    Place::Any(4),
    Place::Any(4),
];

/// A tuple, a MAC, the flags; client, own, number, refused, acked, window, MSS and base.
const LINE: &[Place] = &[
    Place::Any(4),
    Place::Any(2),
    Place::Any(2),
    Place::Any(6),
    Place::Flags,
    Place::Marked {
        flag: OPENED,
        width: 4,
    },
    Place::Marked {
        flag: OPENED,
        width: 4,
    },
    Place::Marked {
        flag: OPENED,
        width: 4,
    },
    Place::Marked {
        flag: REFUSED,
        width: 4,
    },
    Place::Offset { flag: OPENED },
    Place::Marked {
        flag: OPENED,
        width: 2,
    },
    Place::Marked {
        flag: OPENED,
        width: 2,
    },
    Place::Offset { flag: OPENED },
];

/// The places of a kind's body, from its front on. Bytes of any values may follow, as far as the
/// length allows.
pub fn places_of(kind: Kind) -> &'static [Place]
    ensures { result.now ≡ places_of kind }
{
    match kind {
        Kind::Frame | Kind::Held => WAITING,
        Kind::Number | Kind::Known => NUMBER,
        Kind::Line => LINE,
        Kind::Begin | Kind::End | Kind::Ack => COUNT,
        Kind::Page | Kind::Disk | Kind::Write => COUNT,
        Kind::State | Kind::Bytes | Kind::Sent => &[],
    }
}

/// Lengths in steps.
fn stepped(shortest: usize, longest: usize, step: usize) -> Lengths
    ensures { result ≡ record { shortest = shortest; longest = longest; step = step } }
{
    Lengths {
        shortest,
        longest,
        step,
    }
}

/// The lengths that a kind's body may have.
pub fn lengths_of(kind: Kind) -> Lengths
    ensures value { result ≡ lengths_of kind }
    ensures step { 0 < result.step }
    ensures small_step { result.step ≤ 512 }
    ensures shortest { result.shortest ≤ 8192 }
{
    match kind {
        Kind::Frame | Kind::Held => stepped(35, 1535, 1),
        Kind::Number | Kind::Known => stepped(16, 16, 1),
        Kind::Begin | Kind::End | Kind::Ack => stepped(4, 4, 1),
        Kind::State => stepped(0, 16_777_216, 1),
        Kind::Page => stepped(4100, 4100, 1),
        Kind::Disk => stepped(516, 65_540, 512),
        Kind::Write => stepped(516, 516, 1),
        Kind::Line => stepped(43, 43, 1),
        Kind::Bytes => stepped(1, 65_536, 1),
        Kind::Sent => stepped(14, 1514, 1),
    }
}
