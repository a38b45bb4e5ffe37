//! A pair over two test guests as a text drives it.

ghost use Rattle.std.specs.Prelude.{◌≡◌, true};
ghost use Rattle.pair_core.specs.Steps.{HasLimits};

use crate::words::table;
use colo_base::NoMemory;
use pair_core::{Pair, Step, StepFault};
use replay_log::Line;
use state_wire::{Guest, ScriptGuest};
use std::alloc::Global;

/// What a text drives. No call has a clause, so that what the contracts say stands in no goal of a
/// test.
pub trait Session {
    /// Two guests that have made no turn, over the table of a text; `None` where memory ran out.
    fn start(alloc: Global, text: &str) -> Option<Self>
    where
        Self: Sized;
    /// A client sends a frame; `false` where memory ran out.
    fn send(&mut self, frame: &[u8]) -> bool;
    /// Makes the event of a line. A line with numbers past the limits of a schedule gets
    /// `NoMemory`, and so does each one after a million events.
    fn make(&mut self, line: &Line) -> Result<Step, StepFault>;
    /// How many frames clients have sent, and how many events have happened.
    fn counts(&self) -> (usize, u64);
    /// How many messages are on their way down, and up.
    fn ways(&self) -> (usize, usize);
    /// How many turns the survivor's guest made.
    fn turned(&self) -> u64;
    /// Appends the state of the survivor's guest; `false` where memory ran out.
    fn state(&self, into: &mut Vec<u8>) -> bool;
}

/// Whether a line's numbers are within the limits of a schedule.
fn has_limits(line: &Line) -> bool
    ensures { result ≡ true → HasLimits line.now }
{
    match line {
        Line::Primary { b, n, .. } | Line::Secondary { b, n, .. } => *b <= 256 && *n <= 100_000,
        _ => true,
    }
}

fn pair(alloc: Global, text: &str) -> Result<Pair<ScriptGuest>, NoMemory> {
    let first = ScriptGuest::new(alloc, table(alloc, text)?);
    let second = ScriptGuest::new(alloc, table(alloc, text)?);
    Pair::new(alloc, first, second)
}

impl Session for Pair<ScriptGuest> {
    fn start(alloc: Global, text: &str) -> Option<Pair<ScriptGuest>> {
        pair(alloc, text).ok()
    }

    fn send(&mut self, frame: &[u8]) -> bool {
        self.offer(frame).is_ok()
    }

    fn make(&mut self, line: &Line) -> Result<Step, StepFault> {
        if !has_limits(line) || self.steps() >= 1_000_000 {
            return Err(StepFault::NoMemory);
        }
        self.step(line)
    }

    fn counts(&self) -> (usize, u64) {
        (self.offered(), self.steps())
    }

    fn ways(&self) -> (usize, usize) {
        self.waiting()
    }

    fn turned(&self) -> u64 {
        self.survivor().turned()
    }

    fn state(&self, into: &mut Vec<u8>) -> bool {
        self.survivor().state(into).is_ok()
    }
}
