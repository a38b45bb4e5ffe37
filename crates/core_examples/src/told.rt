//! What the last event of a session told.

use crate::session::Session;
use colo_base::Frames;
use pair_core::{Step, StepFault};
use replay_log::{Answer, Line, write_record};
use std::alloc::Global;

/// A session, and what its last event told.
#[derive(Drop)]
pub struct Told<S: Session + Drop> {
    alloc: Global,
    session: S,
    fault: Option<StepFault>,
    answer: Option<Answer>,
    log: Vec<u8>,
    read: usize,
    released: Frames,
    seen: usize,
    wire: Vec<u8>,
}

impl<S: Session + Drop> Told<S> {
    /// A session of which no event has happened.
    pub fn new(alloc: Global, session: S) -> Told<S> {
        Told {
            alloc,
            session,
            fault: None,
            answer: None,
            log: Vec::new(alloc),
            read: 0,
            released: Frames::new(alloc),
            seen: 0,
            wire: Vec::new(alloc),
        }
    }

    /// Keeps what an event told; `false` where memory ran out.
    fn keep(&mut self, step: Step) -> bool {
        let Step {
            entry,
            released,
            wire,
        } = step;
        let mut log = Vec::new(self.alloc);
        let is_written = write_record(&entry, &mut log).is_ok();
        self.answer = Some(entry.answer);
        self.log = log;
        self.read = 0;
        self.released = released;
        self.seen = 0;
        self.wire = wire;
        is_written
    }

    /// A client sends a frame; `false` where memory ran out.
    pub fn offer(&mut self, frame: &[u8]) -> bool {
        self.session.send(frame)
    }

    /// Makes the event of a line; `false` where it is refused.
    pub fn event(&mut self, line: &Line) -> bool {
        match self.session.make(line) {
            Ok(step) => self.keep(step),
            Err(fault) => {
                self.fault = Some(fault);
                false
            }
        }
    }

    /// Why the last line was refused.
    pub fn fault(&self) -> Option<StepFault> {
        self.fault
    }

    /// Whether the last event has this answer; the lines of its log are not asked for then.
    pub fn answers(&mut self, answer: Answer) -> bool {
        self.read = self.log.len();
        self.answer == Some(answer)
    }

    /// Whether this is the next line of the log that the last event made.
    pub fn tells(&mut self, line: &str) -> bool {
        let Some(rest) = self.log.get(self.read..) else {
            return false;
        };
        let text = line.as_bytes();
        let is_next = rest.starts_with(text) && rest.get(text.len()) == Some(&b'\n');
        self.read = self.read.saturating_add(text.len()).saturating_add(1);
        is_next
    }

    /// Whether this is the next frame that went out in the last event.
    pub fn releases(&mut self, frame: &[u8]) -> bool {
        let is_next = self.released.get(self.seen) == Some(frame);
        self.seen = self.seen.saturating_add(1);
        is_next
    }

    /// Whether all lines and frames of the last event were asked for.
    pub fn is_told(&self) -> bool {
        self.read == self.log.len() && self.seen == self.released.len()
    }

    /// The message that the last event delivered, after its arrow.
    pub fn wire(&self) -> &[u8] {
        &self.wire
    }

    /// How many frames clients have sent, and how many events have happened.
    pub fn counts(&self) -> (usize, u64) {
        self.session.counts()
    }

    /// How many messages are on their way down, and up.
    pub fn waiting(&self) -> (usize, usize) {
        self.session.ways()
    }

    /// How many turns the survivor's guest made.
    pub fn turned(&self) -> u64 {
        self.session.turned()
    }

    /// Whether the last frame that the survivor's guest received is this.
    pub fn received(&self, frame: &[u8]) -> bool {
        let mut state = Vec::new(self.alloc);
        self.session.state(&mut state) && state.get(8..) == Some(frame)
    }
}
