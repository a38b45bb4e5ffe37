//! The files that a task reads.

ghost use Rattle.std.specs.Prelude.{◌≡◌, ℕ, List, [], ◌∷◌, ◌++◌, IfOk, IsErrOf, OnOk, IfErr, IsTrue, Some, map};
ghost use Rattle.colo_base.specs.Count.{Increased};
ghost use Rattle.colo_base.specs.Shelf.{NoFetchFailed, NoWriteFailed};
ghost use Rattle.file_steps.specs.Reading.{AreRead, IsUntouched, KeepsFiles, ReadFails};
ghost use Rattle.file_steps.specs.ReadBytes.{texts_of};

use crate::fault::{Fault, read_fault};
use colo_base::{Shelf, ShelfFault};
use std::alloc::Global;

/// The bytes of a file.
fn read_file<S: Shelf>(alloc: Global, shelf: &mut S, name: &str) -> Result<Vec<u8>, ShelfFault>
    ensures bytes { IfOk result (λ file. IsTrue (S.state shelf.old).observable
        → (S.state shelf.old).contents name.now ≡ Some file.items) }
    ensures files { KeepsFiles (S.state shelf.old) (S.state shelf.new) }
    ensures writes { NoWriteFailed (S.state shelf.old) (S.state shelf.new) }
    ensures counts { OnOk result (NoFetchFailed (S.state shelf.old) (S.state shelf.new)) }
    ensures cause { IsErrOf result ShelfFault.Failed
        → Increased ((S.state shelf.old).fetch_faults name.now)
        ((S.state shelf.new).fetch_faults name.now) }
{
    let mut file = Vec::new(alloc);
    shelf.fetch(name, &mut file)?;
    Ok(file)
}

/// Fetches a file, and adds its bytes to those of others.
fn read_one<S: Shelf>(
    alloc: Global,
    shelf: &mut S,
    name: &str,
    files: &mut Vec<Vec<u8>>,
) -> Result<(), Fault>
    ensures read { OnOk result ((text : List ℕ)
        × (texts_of files.new.items ≡ texts_of files.old.items ++ text ∷ [])
        × (IsTrue (S.state shelf.old).observable
        → (S.state shelf.old).contents name.now ≡ Some text)) }
    ensures untouched { OnOk result (IsUntouched (S.state shelf.old) (S.state shelf.new)) }
    ensures fails { IfErr result (ReadFails (name.now ∷ []) (S.state shelf.old)
        (S.state shelf.new)) }
{
    let file = match read_file(alloc, shelf, name) {
        Ok(file) => file,
        Err(fault) => return Err(read_fault(fault)),
    };
    files.push(file)?;
    Ok(())
}

/// Fetches files in their order, up to the first that fails.
pub fn read_all<S: Shelf>(
    alloc: Global,
    shelf: &mut S,
    names: &[&str],
) -> Result<Vec<Vec<u8>>, Fault>
    ensures read { IfOk result (λ files. AreRead (S.state shelf.old)
        (map (λ name. name.now) names.now) (texts_of files.items)) }
    ensures untouched { OnOk result (IsUntouched (S.state shelf.old) (S.state shelf.new)) }
    ensures fails { IfErr result (ReadFails (map (λ name. name.now) names.now) (S.state shelf.old)
        (S.state shelf.new)) }
{
    let mut files = Vec::new(alloc);
    for name in names {
        read_one(alloc, shelf, name, &mut files)?;
    }
    Ok(files)
}
