//! Steps on files.

ghost use Rattle.std.specs.Prelude.{◌≡◌, ℕ, List, [], ◌∷◌, IfOk, OnOk, IfErr, flat_map, string_bytes};
ghost use Rattle.file_steps.specs.Steps as step;
ghost use Rattle.file_steps.specs.Steps.{FailsToWrite, Writes, append_step, file_name};

use crate::fault::{Fault, write_fault};
use colo_base::Shelf;
use std::alloc::{AllocError, Global};

/// The name of a file.
fn name_of(alloc: Global, out: &str, end: &str) -> Result<String, AllocError>
    ensures { IfOk result (λ name. string_bytes name ≡ file_name out.now end.now) }
{
    let mut name = String::from_str(alloc, out)?;
    name.push_str(end)?;
    Ok(name)
}

/// Makes the file that is named `out` and `end` empty.
pub fn create<S: Shelf>(alloc: Global, shelf: &mut S, out: &str, end: &str) -> Result<(), Fault>
    ensures done { OnOk result (Writes out.now (step.create end.now ∷ []) (S.state shelf.old)
        (S.state shelf.new)) }
    ensures fails { IfErr result (FailsToWrite out.now (step.create end.now ∷ [])
        (S.state shelf.old) (S.state shelf.new)) }
{
    let name = name_of(alloc, out, end)?;
    match shelf.create(name.as_str()) {
        Ok(()) => Ok(()),
        Err(fault) => Err(write_fault(fault)),
    }
}

/// Adds bytes, of which there is at least one, at the end of the file that is named `out` and
/// `end`.
fn append_some<S: Shelf>(
    alloc: Global,
    shelf: &mut S,
    out: &str,
    end: &str,
    bytes: &[u8],
) -> Result<(), Fault>
    ensures done { OnOk result (Writes out.now (step.append end.now bytes.now ∷ [])
        (S.state shelf.old) (S.state shelf.new)) }
    ensures fails { IfErr result (FailsToWrite out.now (step.append end.now bytes.now ∷ [])
        (S.state shelf.old) (S.state shelf.new)) }
{
    let name = name_of(alloc, out, end)?;
    match shelf.append(name.as_str(), bytes) {
        Ok(()) => Ok(()),
        Err(fault) => Err(write_fault(fault)),
    }
}

/// Adds bytes at the end of the file that is named `out` and `end`. Where there is none, nothing is
/// done.
pub fn append<S: Shelf>(
    alloc: Global,
    shelf: &mut S,
    out: &str,
    end: &str,
    bytes: &[u8],
) -> Result<(), Fault>
    ensures done { OnOk result (Writes out.now (append_step end.now bytes.now)
        (S.state shelf.old) (S.state shelf.new)) }
    ensures fails { IfErr result (FailsToWrite out.now (append_step end.now bytes.now)
        (S.state shelf.old) (S.state shelf.new)) }
{
    if bytes.is_empty() {
        return Ok(());
    }
    append_some(alloc, shelf, out, end, bytes)
}

/// Makes files empty, in their order. Where one can't be created, those after it are as they were.
pub fn create_all<S: Shelf>(
    alloc: Global,
    shelf: &mut S,
    out: &str,
    ends: &[&str],
) -> Result<(), Fault>
    ensures done { OnOk result (Writes out.now
        (flat_map (λ end. step.create end.now ∷ []) ends.now) (S.state shelf.old)
        (S.state shelf.new)) }
    ensures fails { IfErr result (FailsToWrite out.now
        (flat_map (λ end. step.create end.now ∷ []) ends.now) (S.state shelf.old)
        (S.state shelf.new)) }
{
    for end in ends {
        create(alloc, shelf, out, end)?;
    }
    Ok(())
}
