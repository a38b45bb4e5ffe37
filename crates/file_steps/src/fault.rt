//! Why the work of a command ends early: the statuses, and the lines that are printed.

ghost use Rattle.std.specs.Prelude.{◌≡◌, ◌++◌, OnOk, OnErr, codes};
ghost use Rattle.colo_base.specs.Count.{Increased};
ghost use Rattle.colo_base.specs.Sink.{SinkGoesOn, Puts, PutsPart};
ghost use Rattle.file_steps.specs.Status.{fault_line, fault_status, read_fault, refusal_of, spaced, write_fault};

use colo_base::{Failed, NoMemory, ShelfFault, Sink};
use itoa::Buffer;
use std::alloc::{AllocError, AllocFailed};

/// Why what a command reads is refused, or stops its run. The line is `head`, then a space and a
/// number for each that is there, and a newline.
#[derive(Clone, Copy, Debug, PartialEq, Eq)]
pub struct Refusal {
    /// The status that the program ends with; none of those of [`Fault`].
    pub status: u8,
    /// The line's text.
    pub head: &'static str,
    /// The first number of the line.
    pub first: Option<u64>,
    /// The second number of the line.
    pub second: Option<u64>,
}

/// Why a command ends with another status than 0.
#[derive(Clone, Copy, Debug, PartialEq, Eq)]
pub enum Fault {
    /// The words name no task.
    Usage,
    /// What is read is refused, or stops the run.
    Refused(Refusal),
    /// A file can't be read, or the link can't be opened or heard.
    Read,
    /// A file can't be written, or bytes can't be sent.
    Write,
    /// An allocation was refused.
    NoMemory,
}

impl From<AllocError> for Fault {
    ghost use Rattle.file_steps.specs.declared.fault.Fault.{Fault};

    ghost from_gives = { λ _ fault. fault ≡ Fault.NoMemory };

    fn from(_: AllocError) -> Fault {
        Fault::NoMemory
    }
}

impl From<NoMemory> for Fault {
    ghost use Rattle.file_steps.specs.declared.fault.Fault.{Fault};

    ghost from_gives = { λ _ fault. fault ≡ Fault.NoMemory };

    fn from(_: NoMemory) -> Fault {
        Fault::NoMemory
    }
}

impl<T: Drop> From<AllocFailed<T>> for Fault {
    ghost use Rattle.file_steps.specs.declared.fault.Fault.{Fault};

    ghost from_gives = { λ _ fault. fault ≡ Fault.NoMemory };

    fn from(_: AllocFailed<T>) -> Fault {
        Fault::NoMemory
    }
}

/// Puts a text.
fn put_text<O: Sink>(out: &mut O, text: &str) -> Result<(), Failed>
    ensures ok { OnOk result (Puts (O.state out.old) (O.state out.new) text.now) }
    ensures err { OnErr result (PutsPart (O.state out.old) (O.state out.new) text.now) }
    ensures cause { OnErr result (Increased (O.state out.old).faults (O.state out.new).faults) }
    ensures goes_on { SinkGoesOn (O.state out.old) (O.state out.new) }
{
    out.put(text.as_bytes())
}

/// Puts a text and then another, unless the first fails.
fn put_both<O: Sink>(out: &mut O, first: &str, second: &str) -> Result<(), Failed>
    ensures ok { OnOk result (Puts (O.state out.old) (O.state out.new) (first.now ++ second.now)) }
    ensures err { OnErr result (PutsPart (O.state out.old) (O.state out.new)
        (first.now ++ second.now)) }
    ensures cause { OnErr result (Increased (O.state out.old).faults (O.state out.new).faults) }
    ensures goes_on { SinkGoesOn (O.state out.old) (O.state out.new) }
{
    put_text(out, first)?;
    put_text(out, second)
}

/// Puts a space and a number in decimal, where there is one.
fn put_spaced<O: Sink>(out: &mut O, number: Option<u64>) -> Result<(), Failed>
    ensures ok { OnOk result (Puts (O.state out.old) (O.state out.new) (spaced number)) }
    ensures err { OnErr result (PutsPart (O.state out.old) (O.state out.new) (spaced number)) }
    ensures cause { OnErr result (Increased (O.state out.old).faults (O.state out.new).faults) }
    ensures goes_on { SinkGoesOn (O.state out.old) (O.state out.new) }
{
    match number {
        None => put_text(out, ""),
        Some(number) => put_both(out, " ", Buffer::new().format(number)),
    }
}

/// Puts the two numbers of a line, where they are there, and a newline.
fn put_tail<O: Sink>(out: &mut O, first: Option<u64>, second: Option<u64>) -> Result<(), Failed>
    ensures ok { OnOk result (Puts (O.state out.old) (O.state out.new)
        (spaced first ++ (spaced second ++ codes "\n"))) }
    ensures err { OnErr result (PutsPart (O.state out.old) (O.state out.new)
        (spaced first ++ (spaced second ++ codes "\n"))) }
    ensures cause { OnErr result (Increased (O.state out.old).faults (O.state out.new).faults) }
    ensures goes_on { SinkGoesOn (O.state out.old) (O.state out.new) }
{
    put_spaced(out, first)?;
    put_spaced(out, second)?;
    put_text(out, "\n")
}

impl Refusal {
    /// Puts its line. After an `Err` a prefix was put.
    fn put<O: Sink>(self, out: &mut O) -> Result<(), Failed>
        ensures ok { OnOk result (Puts (O.state out.old) (O.state out.new) (refusal_of self).line) }
        ensures err { OnErr result (PutsPart (O.state out.old) (O.state out.new)
            (refusal_of self).line) }
        ensures cause { OnErr result (Increased (O.state out.old).faults (O.state out.new).faults) }
        ensures goes_on { SinkGoesOn (O.state out.old) (O.state out.new) }
    {
        put_text(out, self.head)?;
        put_tail(out, self.first, self.second)
    }
}

impl Fault {
    /// The status that the program ends with.
    pub fn status(self) -> u8
        ensures { result ≡ fault_status self }
    {
        match self {
            Fault::Usage => 1,
            Fault::Refused(refusal) => refusal.status,
            Fault::Read => 6,
            Fault::Write => 7,
            Fault::NoMemory => 8,
        }
    }

    /// Puts its line. After an `Err` a prefix was put.
    pub fn put<O: Sink>(self, out: &mut O) -> Result<(), Failed>
        ensures ok { OnOk result (Puts (O.state out.old) (O.state out.new) (fault_line self)) }
        ensures err { OnErr result (PutsPart (O.state out.old) (O.state out.new)
            (fault_line self)) }
        ensures cause { OnErr result (Increased (O.state out.old).faults (O.state out.new).faults) }
        ensures goes_on { SinkGoesOn (O.state out.old) (O.state out.new) }
    {
        match self {
            Fault::Usage => put_text(out, "usage\n"),
            Fault::Refused(refusal) => refusal.put(out),
            Fault::Read => put_text(out, "read failed\n"),
            Fault::Write => put_text(out, "write failed\n"),
            Fault::NoMemory => put_text(out, "no memory\n"),
        }
    }
}

/// A fault of a fetch as the task's.
pub fn read_fault(fault: ShelfFault) -> Fault
    ensures { result ≡ read_fault fault }
{
    match fault {
        ShelfFault::Failed => Fault::Read,
        ShelfFault::NoMemory => Fault::NoMemory,
    }
}

/// A fault of a create or an append as the task's.
pub fn write_fault(fault: ShelfFault) -> Fault
    ensures { result ≡ write_fault fault }
{
    match fault {
        ShelfFault::Failed => Fault::Write,
        ShelfFault::NoMemory => Fault::NoMemory,
    }
}
