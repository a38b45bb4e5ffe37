//! A command's one file.

ghost use Rattle.std.specs.Prelude.{OnOk, IfErr};
ghost use Rattle.file_steps.specs.Steps.{FailsToWrite, Writes};
ghost use Rattle.command_plans.specs.OneFile.{one_file};

use colo_base::Shelf;
use file_steps::{Fault, append, create};
use std::alloc::Global;

/// Writes the file of this name.
pub fn write_file<S: Shelf>(
    alloc: Global,
    shelf: &mut S,
    out: &str,
    bytes: &[u8],
) -> Result<(), Fault>
    ensures done { OnOk result (Writes out.now (one_file bytes.now) (S.state shelf.old)
        (S.state shelf.new)) }
    ensures fails { IfErr result (FailsToWrite out.now (one_file bytes.now) (S.state shelf.old)
        (S.state shelf.new)) }
{
    create(alloc, shelf, out, "")?;
    append(alloc, shelf, out, "", bytes)
}
