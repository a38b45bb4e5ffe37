//! The unit of writing: what one event leaves.

ghost use Rattle.std.specs.Prelude.{OnOk, IfErr};
ghost use Rattle.file_steps.specs.Events.{event_steps};
ghost use Rattle.file_steps.specs.Steps.{FailsToWrite, Writes};

use crate::fault::Fault;
use crate::files::append;
use colo_base::Shelf;
use std::alloc::Global;

/// Writes what an event leaves: its lines of the log, then the frames released, each after its
/// length, and then the messages delivered, each after its direction.
pub fn write_event<S: Shelf>(
    alloc: Global,
    shelf: &mut S,
    out: &str,
    log: &[u8],
    released: &[u8],
    wire: &[u8],
) -> Result<(), Fault>
    ensures done { OnOk result (Writes out.now (event_steps log.now released.now wire.now)
        (S.state shelf.old) (S.state shelf.new)) }
    ensures fails { IfErr result (FailsToWrite out.now
        (event_steps log.now released.now wire.now) (S.state shelf.old) (S.state shelf.new)) }
{
    append(alloc, shelf, out, ".log", log)?;
    append(alloc, shelf, out, ".released", released)?;
    append(alloc, shelf, out, ".wire", wire)
}
