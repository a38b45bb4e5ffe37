//! The program over files in memory, as a script drives it.

use colo_base::{MemoryLink, MemoryShelf, MemorySink, ScriptClock};
use colo_top::colo;
use std::alloc::Global;

/// What a script drives. No call has a clause, so that what the contracts say stands in no goal of
/// a test.
pub trait Program {
    /// No file stands.
    fn start(alloc: Global) -> Self
    where
        Self: Sized;
    /// Makes bytes the contents of a file; `false` where memory ran out.
    fn set(&mut self, name: &str, bytes: &[u8]) -> bool;
    /// Lets a call of the files fail; `false` where memory ran out.
    fn fail(&mut self, call: u64) -> bool;
    /// The bytes of a file.
    fn contents(&self, name: &str) -> Option<&[u8]>;
    /// Calls the program with the words of a command line, and gives its status.
    fn run(&mut self, words: &[String]) -> u8;
    /// What the last run printed.
    fn printed(&self) -> &[u8];
}

/// The top call over an outside in memory.
#[derive(Drop)]
pub struct Memory {
    alloc: Global,
    shelf: MemoryShelf,
    link: MemoryLink,
    clock: ScriptClock,
    out: MemorySink,
}

impl Program for Memory {
    fn start(alloc: Global) -> Memory {
        Memory {
            alloc,
            shelf: MemoryShelf::new(alloc),
            link: MemoryLink::new(alloc),
            clock: ScriptClock::new(Vec::new(alloc)),
            out: MemorySink::new(alloc),
        }
    }

    fn set(&mut self, name: &str, bytes: &[u8]) -> bool {
        self.shelf.set(name, bytes).is_ok()
    }

    fn fail(&mut self, call: u64) -> bool {
        self.shelf.fail(call).is_ok()
    }

    fn contents(&self, name: &str) -> Option<&[u8]> {
        self.shelf.contents(name)
    }

    fn run(&mut self, words: &[String]) -> u8 {
        self.out = MemorySink::new(self.alloc);
        colo(
            self.alloc,
            words,
            &mut self.shelf,
            &mut self.link,
            &mut self.clock,
            &mut self.out,
        )
    }

    fn printed(&self) -> &[u8] {
        self.out.bytes()
    }
}
