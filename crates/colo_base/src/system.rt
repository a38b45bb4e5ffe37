//! The real outside: files and standard output. What is here is trusted to do what the system calls
//! say. Its failures are shown by counts alone, one of each kind for all names, and no contents can
//! be observed.

ghost use Rattle.std.specs.Prelude.{◌≡◌, ◌↔◌};
ghost use Rattle.std.specs.Io.{StartsWith};
ghost use Rattle.std.specs.IoError.{error_kind};

use crate::{Failed, Shelf, ShelfFault, Sink};
use std::alloc::Global;
use std::collections::BTreeMap;
use std::fs::{File, OpenOptions};
use std::io;
use std::io::{ErrorKind, Read, Write};
use std::marker::Model;
use std::rt::Files;

/// The greatest file that is fetched, in bytes.
const FILE_LIMIT: usize = 1_073_741_824;

/// The files of the system, of which those that it created stay open. A contract sees how many calls
/// failed, one count of a kind for all names.
#[derive(Drop)]
pub struct FileShelf<'a, R: Files> {
    alloc: Global,
    files: &'a R,
    open: BTreeMap<String, R::File>,
    fetch_faults: u64,
    write_faults: u64,
}

impl<'a, R: Files> Model for FileShelf<'a, R> {
    ghost use Rattle.colo_base.specs.InMemory.{ShelfCounts};

    ghost Value = { ShelfCounts };

    ghost view = { λ s. record { fetch_faults = s.fetch_faults; write_faults = s.write_faults } };
}

impl<'a, R: Files> FileShelf<'a, R> {
    /// The files that `files` reaches, of which no call has failed.
    pub fn new(alloc: Global, files: &'a R) -> FileShelf<'a, R>
        ensures { result ≡ record { fetch_faults = 0; write_faults = 0 } }
    {
        FileShelf {
            alloc,
            files,
            open: BTreeMap::new(alloc),
            fetch_faults: 0,
            write_faults: 0,
        }
    }
}

/// Reads a file to its end, or a byte past the limit.
fn read_file<R: Files>(files: &R, name: &str, into: &mut Vec<u8>) -> io::Result<usize>
    ensures { StartsWith into.new.items into.old.items }
{
    let file = File::open(files, name)?;
    file.take(FILE_LIMIT as u64 + 1).read_to_end(into)
}

/// Opens a file for writing at its end, and creates one that isn't there.
fn open_end<R: Files>(files: &R, name: &str) -> io::Result<R::File> {
    let mut options = OpenOptions::new();
    options.append(true).create(true);
    options.open(files, name)
}

/// Empties a file, or creates it, and opens it for writing at its end.
fn create_file<R: Files>(files: &R, name: &str) -> io::Result<R::File> {
    File::create(files, name)?;
    open_end(files, name)
}

/// What an error of the system is to a caller.
fn fault_of(error: &io::Error) -> ShelfFault
    ensures { (result ≡ ShelfFault.NoMemory) ↔ (error_kind error.now ≡ ErrorKind.OutOfMemory) }
{
    match error.kind() {
        ErrorKind::OutOfMemory => ShelfFault::NoMemory,
        _ => ShelfFault::Failed,
    }
}

impl<'a, R: Files> FileShelf<'a, R> {
    /// Creates the file and keeps it open.
    fn create_open(&mut self, name: &str) -> Result<(), ShelfFault>
        ensures { self.new ≡ self.old }
    {
        let file = match create_file(self.files, name) {
            Ok(file) => file,
            Err(error) => return Err(fault_of(&error)),
        };
        self.open.insert(String::from_str(self.alloc, name)?, file)?;
        Ok(())
    }

    /// Writes the bytes to the file where it is open, else opens it for this write.
    fn append_open(&mut self, name: &str, bytes: &[u8]) -> io::Result<()>
        ensures { self.new ≡ self.old }
    {
        match self.open.get_mut(name) {
            Some(file) => file.write_all(bytes),
            None => open_end(self.files, name)?.write_all(bytes),
        }
    }
}

impl<'a, R: Files> Shelf for FileShelf<'a, R> {
    ghost use Rattle.std.specs.Prelude.{false, None};

    ghost state = { λ shelf. record {
      observable = false;
      contents = λ name. None;
      fetch_faults = λ name. shelf.fetch_faults;
      write_faults = λ name. shelf.write_faults;
    } };

    /// Reads the file. One of more than 1,073,741,824 bytes is `Failed`.
    fn fetch(&mut self, name: &str, into: &mut Vec<u8>) -> Result<(), ShelfFault> {
        let fault = match read_file(self.files, name, into) {
            Ok(count) if count <= FILE_LIMIT => return Ok(()),
            Ok(_) => ShelfFault::Failed,
            Err(error) => fault_of(&error),
        };
        self.fetch_faults = self.fetch_faults.saturating_add(1);
        Err(fault)
    }

    /// Empties the file, or creates it, and keeps it open.
    fn create(&mut self, name: &str) -> Result<(), ShelfFault> {
        let Err(fault) = self.create_open(name) else {
            return Ok(());
        };
        self.write_faults = self.write_faults.saturating_add(1);
        Err(fault)
    }

    /// Adds the bytes at the end of the file, or creates it. Of a file that this shelf created it is
    /// one write. A write that takes nothing is `Failed`.
    fn append(&mut self, name: &str, bytes: &[u8]) -> Result<(), ShelfFault> {
        let Err(error) = self.append_open(name, bytes) else {
            return Ok(());
        };
        self.write_faults = self.write_faults.saturating_add(1);
        Err(fault_of(&error))
    }
}

/// Standard output. A contract sees how many puts failed.
#[derive(Drop)]
pub struct OutSink<'a, P: Print> {
    output: &'a P,
    faults: u64,
}

impl<'a, P: Print> Model for OutSink<'a, P> {
    ghost use Rattle.std.specs.Prelude.{ℕ};

    ghost Value = { ℕ };

    ghost view = { λ s. s.faults };
}

impl<'a, P: Print> OutSink<'a, P> {
    /// The standard output of `output`, on which no put has failed.
    pub fn new(output: &'a P) -> OutSink<'a, P>
        ensures { result ≡ 0 }
    {
        OutSink { output, faults: 0 }
    }
}

impl<'a, P: Print> Sink for OutSink<'a, P> {
    ghost use Rattle.std.specs.Prelude.{false, []};

    ghost state = { λ sink. record { observable = false; bytes = []; faults = sink } };

    /// Writes the bytes. A write that takes nothing is `Failed`.
    fn put(&mut self, bytes: &[u8]) -> Result<(), Failed> {
        if self.output.write_all(bytes).is_ok() {
            return Ok(());
        }
        self.faults = self.faults.saturating_add(1);
        Err(Failed)
    }
}
