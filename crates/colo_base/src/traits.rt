//! The outside: files, a connection, a text that is written and a clock, each as a trait whose
//! clauses say what its calls mean.
//!
//! What an object means at one moment is its ghost member `state`. Whether its contents can be
//! observed never changes, and they are pinned only where they can: a real file may be changed by
//! others, a file in memory is not.
//!
//! A call that fails increments a count of that kind of call. A call that answers `Ok` changes no
//! count, and no call changes a count of another kind. No count falls, and each ends at 2^64 - 1,
//! where every failing call counts as having incremented it.

ghost use Rattle.std.specs.Prelude.{◌≡◌, ◌<◌, IsTrue, IsErr, IsErrOf, OnOk, OnErr, IfOk, length};
ghost use Rattle.std.specs.Io.{StartsWith};
ghost use Rattle.colo_base.specs.Count.{Increased};

use crate::Failed;
use std::alloc::{AllocError, AllocFailed};

/// Why a call on a shelf did not do what it was asked.
#[derive(Clone, Copy, Debug, PartialEq, Eq)]
pub enum ShelfFault {
    /// The file is missing, or reading or writing it failed. The count of such calls for its name
    /// increased.
    Failed,
    /// An allocation was refused.
    NoMemory,
}

impl From<AllocError> for ShelfFault {
    ghost use Rattle.std.specs.Prelude.{◌≡◌};
    ghost use Rattle.colo_base.specs.declared.traits.ShelfFault.TheVariants as variant;

    ghost from_gives = { λ _ fault. fault ≡ variant.NoMemory };

    fn from(_: AllocError) -> ShelfFault {
        ShelfFault::NoMemory
    }
}

impl<T: Drop> From<AllocFailed<T>> for ShelfFault {
    ghost use Rattle.std.specs.Prelude.{◌≡◌};
    ghost use Rattle.colo_base.specs.declared.traits.ShelfFault.TheVariants as variant;

    ghost from_gives = { λ _ fault. fault ≡ variant.NoMemory };

    fn from(_: AllocFailed<T>) -> ShelfFault {
        ShelfFault::NoMemory
    }
}

/// What a receive answers.
#[derive(Clone, Copy, Debug, PartialEq, Eq)]
pub enum Heard {
    /// So many bytes were taken, at least one. They are the first of the buffer.
    Took(usize),
    /// No byte has come. The count of such answers increased.
    Quiet,
    /// No further byte will come.
    Ended,
}

/// Files by name, each a string of bytes.
///
/// A shelf means the contents of each name, where they can be observed, and for each name how many
/// fetches and how many creates and appends failed. A call leaves every other name's contents
/// alone.
pub trait Shelf {
    ghost use Rattle.colo_base.specs.Shelf.{ShelfState, ChangesOnly, NoFetchFailed, NoWriteFailed, Fetches, Empties, EmptiesOrKeeps, Adds, AddsPart};

    ghost state: { Self → ShelfState };

    /// Appends the contents of the file `name` to `into`. It changes no file.
    ///
    /// A missing file is `Failed`. Whatever the answer, `into` begins with what it held.
    fn fetch(&mut self, name: &str, into: &mut Vec<u8>) -> Result<(), ShelfFault>
        ensures bytes { OnOk result
            (Fetches (state self.old) name.now into.old.items into.new.items) }
        ensures front { StartsWith into.new.items into.old.items }
        ensures only { ChangesOnly (λ _. ⊥) (state self.old) (state self.new) }
        ensures cause { IsErrOf result ShelfFault.Failed
            → Increased ((state self.old).fetch_faults name.now)
            ((state self.new).fetch_faults name.now) }
        ensures counts { OnOk result (NoFetchFailed (state self.old) (state self.new)) }
        ensures writes { NoWriteFailed (state self.old) (state self.new) };

    /// Makes the file `name` empty, whether it was there or not.
    ///
    /// After an `Err` it is empty, or as it was.
    fn create(&mut self, name: &str) -> Result<(), ShelfFault>
        ensures ok { OnOk result (Empties (state self.old) (state self.new) name.now) }
        ensures err { OnErr result (EmptiesOrKeeps (state self.old) (state self.new) name.now) }
        ensures only { ChangesOnly (λ other. other ≡ name.now) (state self.old) (state self.new) }
        ensures cause { IsErrOf result ShelfFault.Failed
            → Increased ((state self.old).write_faults name.now)
            ((state self.new).write_faults name.now) }
        ensures counts { OnOk result (NoWriteFailed (state self.old) (state self.new)) }
        ensures fetches { NoFetchFailed (state self.old) (state self.new) };

    /// Adds `bytes` at the end of the file `name`, and creates a file that isn't there.
    ///
    /// After an `Err` a prefix of the bytes was added, or the file is as it was.
    fn append(&mut self, name: &str, bytes: &[u8]) -> Result<(), ShelfFault>
        ensures ok { OnOk result (Adds (state self.old) (state self.new) name.now bytes.now) }
        ensures err { OnErr result (AddsPart (state self.old) (state self.new) name.now bytes.now) }
        ensures only { ChangesOnly (λ other. other ≡ name.now) (state self.old) (state self.new) }
        ensures cause { IsErrOf result ShelfFault.Failed
            → Increased ((state self.old).write_faults name.now)
            ((state self.new).write_faults name.now) }
        ensures counts { OnOk result (NoWriteFailed (state self.old) (state self.new)) }
        ensures fetches { NoFetchFailed (state self.old) (state self.new) };
}

/// A connection that carries bytes both ways.
///
/// A link means whether an `open` of it answered `Ok`, the answers of its receives and the bytes
/// sent, where they can be observed, and how many opens of each address, receives and sends failed
/// and how many receives were quiet.
pub trait Link {
    ghost use Rattle.colo_base.specs.Link.{LinkState, LinkGoesOn, NoOpenFailed, NoReceiveFailed, NoSendFailed, NoneQuiet, CountsOpen, CountsReceive, CountsSend, SameAnswers, SameSent, Sends, SendsPart, Hears};

    ghost state: { Self → LinkState };

    /// Connects to `address`. Nothing is heard or sent by it.
    ///
    /// After an `Err` the link is open exactly where it was.
    fn open(&mut self, address: &str) -> Result<(), Failed>
        ensures ok { OnOk result (IsTrue (state self.new).opened) }
        ensures err { OnErr result ((state self.new).opened ≡ (state self.old).opened) }
        ensures heard { SameAnswers (state self.old) (state self.new) }
        ensures sent { SameSent (state self.old) (state self.new) }
        ensures goes_on { LinkGoesOn (state self.old) (state self.new) }
        ensures cause { IsErr result
            → Increased ((state self.old).open_faults address.now)
            ((state self.new).open_faults address.now) }
        ensures counts { OnOk result (NoOpenFailed (state self.old) (state self.new)) }
        ensures others { CountsOpen (state self.old) (state self.new) };

    /// Takes bytes that have come into the front of `into`, which isn't empty.
    ///
    /// The link must have been opened. Nothing is sent by it. After an `Err` no answer was added,
    /// and nothing is said of what `into` holds.
    fn receive(&mut self, into: &mut [u8]) -> Result<Heard, Failed>
        requires opened { IsTrue (state self.old).opened }
        requires room { 0 < length into.old }
        ensures ok { IfOk result (λ heard. Hears (state self.old) (state self.new) into.new heard) }
        ensures err { OnErr result (SameAnswers (state self.old) (state self.new)) }
        ensures opened { (state self.new).opened ≡ (state self.old).opened }
        ensures sent { SameSent (state self.old) (state self.new) }
        ensures goes_on { LinkGoesOn (state self.old) (state self.new) }
        ensures cause { IsErr result → Increased (state self.old).receive_faults
            (state self.new).receive_faults }
        ensures counts { OnOk result (NoReceiveFailed (state self.old) (state self.new)) }
        ensures quiets { OnErr result (NoneQuiet (state self.old) (state self.new)) }
        ensures others { CountsReceive (state self.old) (state self.new) };

    /// Sends `bytes`.
    ///
    /// The link must have been opened. Nothing is heard by it. After an `Err` a prefix of the bytes
    /// was sent.
    fn send(&mut self, bytes: &[u8]) -> Result<(), Failed>
        requires { IsTrue (state self.old).opened }
        ensures ok { OnOk result (Sends (state self.old) (state self.new) bytes.now) }
        ensures err { OnErr result (SendsPart (state self.old) (state self.new) bytes.now) }
        ensures opened { (state self.new).opened ≡ (state self.old).opened }
        ensures heard { SameAnswers (state self.old) (state self.new) }
        ensures goes_on { LinkGoesOn (state self.old) (state self.new) }
        ensures cause { IsErr result → Increased (state self.old).send_faults
            (state self.new).send_faults }
        ensures counts { OnOk result (NoSendFailed (state self.old) (state self.new)) }
        ensures others { CountsSend (state self.old) (state self.new) };
}

/// A text that is written, as standard output.
///
/// A sink means the bytes put, where they can be observed, and how many puts failed.
pub trait Sink {
    ghost use Rattle.colo_base.specs.Sink.{SinkState, SinkGoesOn, Puts, PutsPart};

    ghost state: { Self → SinkState };

    /// Writes `bytes`.
    ///
    /// After an `Err` a prefix of the bytes was written.
    fn put(&mut self, bytes: &[u8]) -> Result<(), Failed>
        ensures ok { OnOk result (Puts (state self.old) (state self.new) bytes.now) }
        ensures err { OnErr result (PutsPart (state self.old) (state self.new) bytes.now) }
        ensures goes_on { SinkGoesOn (state self.old) (state self.new) }
        ensures cause { IsErr result → Increased (state self.old).faults (state self.new).faults }
        ensures counts { OnOk result ((state self.new).faults ≡ (state self.old).faults) };
}

/// A clock that counts ticks.
///
/// A clock means the numbers that it gave, where they can be observed, as long as they are fewer
/// than 2^64 - 1. It never fails.
pub trait Clock {
    ghost use Rattle.colo_base.specs.Clock.{ClockState, Gives};

    ghost state: { Self → ClockState };

    /// How many ticks the clock has counted.
    fn ticks(&mut self) -> u64
        ensures { Gives (state self.old) (state self.new) result };
}
