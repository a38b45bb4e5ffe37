//! A checkpoint kept apart as a script drives it.

ghost use Rattle.std.specs.Prelude.{◌≡◌, true};
ghost use Rattle.kept_checkpoint.specs.Kept.{HasPageSize};

use crate::checkpoint::TUPLE;
use colo_base::{Contents, NoMemory};
use colo_wire::Message;
use kept_checkpoint::{KeptCheckpoint, Tables};
use std::alloc::Global;

/// What a script drives. No call has a clause, so that what the contracts say stands in no goal of
/// a test.
pub trait Kept {
    /// The state's bytes alone, of a guest with two pages and three sectors; `None` where memory
    /// ran out.
    fn start(alloc: Global, state: Contents) -> Option<Self>
    where
        Self: Sized;
    /// Keeps a message, where it fits, and says whether it did; `None` where memory ran out.
    fn hear(&mut self, message: &Message) -> Option<bool>;
    /// What the whole gives; `None` where memory ran out.
    fn close(self) -> Option<Whole>;
}

/// What a whole checkpoint gives: how many frames wait, how many lines there are, where that of the
/// connection ends, and the number of its client 1000.
#[derive(Clone, Copy)]
pub struct Whole {
    pub frames: usize,
    pub lines: usize,
    pub end: Option<u32>,
    pub number: Option<u32>,
}

/// What is kept for a guest with two pages and three sectors.
#[derive(Drop)]
pub struct Apart {
    kept: KeptCheckpoint,
}

/// Whether a page has its size.
fn is_sized(message: &Message) -> bool
    ensures { result ≡ true → HasPageSize message.now }
{
    match message {
        Message::Page { bytes, .. } => bytes.as_slice().len() == 4096,
        _ => true,
    }
}

fn whole_of(tables: &Tables) -> Whole {
    let end = match tables.lines.line(&TUPLE) {
        Some(line) => Some(line.end()),
        None => None,
    };
    Whole {
        frames: tables.inbox.len(),
        lines: tables.lines.len(),
        end,
        number: tables.numbers.number(&TUPLE, 1000),
    }
}

impl Kept for Apart {
    fn start(alloc: Global, state: Contents) -> Option<Apart> {
        let kept = KeptCheckpoint::new(alloc, state, 2, 3).ok()?;
        Some(Apart { kept })
    }

    fn hear(&mut self, message: &Message) -> Option<bool> {
        if !self.kept.fits(message) || !is_sized(message) {
            return Some(false);
        }
        match self.kept.keep(message) {
            Ok(()) => Some(true),
            Err(NoMemory) => None,
        }
    }

    fn close(self) -> Option<Whole> {
        let Apart { kept } = self;
        match kept.close() {
            Ok(tables) => Some(whole_of(&tables)),
            Err(NoMemory) => None,
        }
    }
}
