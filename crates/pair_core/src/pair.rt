//! A pair, and one step of it.

ghost use Rattle.std.specs.Prelude.{◌≡◌, ◌≢◌, ◌+◌, ◌≤◌, ◌<◌, ◌^◌, ◌++◌, ◌∷◌, [], true, false, length, None, Some, Ok, Err, IsErr, IfOk, IfErr, OnOk, OnErr};
ghost use Rattle.node_primary.specs.Node.{IsCaptured};
ghost use Rattle.pair_core.specs.Events.{event_of};
ghost use Rattle.pair_core.specs.Inside.{Makes, plain};
ghost use Rattle.pair_core.specs.Pair.{new_pair, pair_of, survivor};
ghost use Rattle.pair_core.specs.Steps.{HasLimits, IsStep, refusal, report_refusal, stop_refusal};
ghost use Rattle.pair_core.specs.declared.pair.StepFault.TheVariants as step_fault;
ghost use Rattle.replay_log.specs.declared.records.Answer.TheVariants as answer;

use crate::event::{Event, quiet};
use crate::node::{Node, is_primary};
use crate::parts::Parts;
use colo_base::{Frames, NoMemory};
use node_parts::Outbox;
use node_primary::Primary;
use node_secondary::Secondary;
use replay_log::{Answer, Line, Record};
use state_wire::Guest;
use std::alloc::Global;
use std::marker::Model;

/// What an event of a pair made: its record for the log, the frames that go out to clients, and the
/// bytes of the message that it delivered behind `>` or `<`, none where it delivered none.
#[derive(Drop)]
pub struct Step {
    pub entry: Record,
    pub released: Frames,
    pub wire: Vec<u8>,
}

/// Why a line of a schedule isn't an event.
#[derive(Clone, Copy, Debug, PartialEq, Eq)]
pub enum StepFault {
    /// A node has stopped already.
    SecondStop,
    /// No node has stopped, or its stop was reported already.
    FalseReport,
    /// Memory ran out.
    NoMemory,
}

impl From<NoMemory> for StepFault {
    ghost from_gives = { λ _ fault. fault ≡ step_fault.NoMemory };

    fn from(_: NoMemory) -> StepFault {
        StepFault::NoMemory
    }
}

/// Two nodes over guests of one type, the links between them, and the frames of clients.
///
/// After `NoMemory` it is spent: each later call that can answer `NoMemory` does.
#[derive(Drop)]
pub struct Pair<G: Guest + Drop> {
    parts: Parts<G>,
    steps: u64,
    spent: bool,
    alloc: Global,
}

impl<G: Guest + Drop> Model for Pair<G> {
    ghost use Rattle.std.specs.Prelude.{◌≤◌, ◌≡◌, false};
    ghost use Rattle.pair_core.specs.Inside.{held_of};
    ghost use Rattle.pair_core.specs.Pair.{Held};

    ghost Value = { Held G };

    ghost view = { λ p. held_of p.parts p.steps p.spent };

    ghost invariant = { λ p. p.spent ≡ false → p.parts.sent_heard ≤ p.steps };
}

impl<G: Guest + Drop> Pair<G> {
    /// A pair over these guests, of which no event has happened, and to which no client has sent.
    pub fn new(alloc: Global, first: G, second: G) -> Result<Pair<G>, NoMemory>
        ensures pair { IfOk result (λ p. pair_of G.meaning p
            ≡ new_pair (G.meaning first) (G.meaning second)) }
        ensures steps { IfOk result (λ p. p.steps ≡ 0) }
        ensures spent { IfOk result (λ p. p.spent ≡ false) }
    {
        Pair::with_frames(alloc, first, second, Frames::new(alloc))
    }

    /// A pair over these guests, of which no event has happened, and to which clients send these
    /// frames, one with each line `c`.
    pub fn with_frames(
        alloc: Global,
        first: G,
        second: G,
        frames: Frames,
    ) -> Result<Pair<G>, NoMemory>
        ensures pair { IfOk result (λ p. pair_of G.meaning p
            ≡ record (new_pair (G.meaning first) (G.meaning second)) { frames = frames }) }
        ensures steps { IfOk result (λ p. p.steps ≡ 0) }
        ensures spent { IfOk result (λ p. p.spent ≡ false) }
    {
        let first = Primary::new(alloc, first)?;
        let second = Secondary::new(alloc, second)?;
        Ok(Pair {
            parts: Parts {
                first,
                second,
                down: Outbox::new(alloc),
                up: Outbox::new(alloc),
                frames,
                next: 0,
                stopped: None,
                is_reported: false,
                sent_heard: 0,
            },
            steps: 0,
            spent: false,
            alloc,
        })
    }

    /// The next frame that a client sends; it comes with a line `c`.
    pub fn offer(&mut self, frame: &[u8]) -> Result<(), NoMemory>
        ensures after { OnOk result (pair_of G.meaning self.new
            ≡ record (pair_of G.meaning self.old) { frames = self.old.frames ++ frame.now ∷ [] }) }
        ensures steps { self.new.steps ≡ self.old.steps }
        ensures spent { self.old.spent ≡ true → IsErr result }
        ensures failed { OnErr result (self.new.spent ≡ true) }
        ensures going { OnOk result (self.new.spent ≡ false) }
    {
        if self.spent {
            return Err(NoMemory);
        }
        match self.parts.frames.push(frame) {
            Ok(()) => Ok(()),
            Err(NoMemory) => {
                self.spent = true;
                Err(NoMemory)
            }
        }
    }

    /// Makes the event of a line of a schedule.
    ///
    /// `SecondStop` comes exactly for a line `x` where a node has stopped already, and
    /// `FalseReport` exactly for a line `r` where none has, or its stop was reported already; all
    /// is as before then.
    pub fn step(&mut self, line: &Line) -> Result<Step, StepFault>
        requires limits { HasLimits line.now }
        requires counted { self.old.steps < 2 ^ 63 }
        ensures after { OnOk result (pair_of G.meaning self.new
            ≡ (event_of (pair_of G.meaning self.old) line.now).after) }
        ensures step { IfOk result (IsStep (pair_of G.meaning self.old) line.now) }
        ensures steps { OnOk result (self.new.steps ≡ self.old.steps + 1) }
        ensures good { OnOk result (refusal (pair_of G.meaning self.old) line.now ≡ None) }
        ensures cause { IfErr result (λ f. f ≢ step_fault.NoMemory
            → refusal (pair_of G.meaning self.old) line.now ≡ Some f) }
        ensures refused { IfErr result (λ f. f ≢ step_fault.NoMemory → self.new ≡ self.old) }
        ensures found { IfErr result (λ f. f ≡ step_fault.NoMemory → self.old.spent ≡ false
            → refusal (pair_of G.meaning self.old) line.now ≡ None) }
        ensures spent { self.old.spent ≡ true → result ≡ Err step_fault.NoMemory }
        ensures failed { result ≡ Err step_fault.NoMemory → self.new.spent ≡ true }
        ensures going { result ≢ Err step_fault.NoMemory → self.new.spent ≡ false }
    {
        if self.spent {
            return Err(StepFault::NoMemory);
        }
        if let Some(fault) = self.refusal(line) {
            return Err(fault);
        }
        match self.parts.event(self.alloc, line) {
            Ok(event) => {
                self.steps += 1;
                Ok(step_of(*line, event))
            }
            Err(NoMemory) => {
                self.spent = true;
                Err(StepFault::NoMemory)
            }
        }
    }

    /// Why a line is refused.
    fn refusal(&self, line: &Line) -> Option<StepFault>
        ensures { result ≡ refusal (pair_of G.meaning self.now) line.now }
    {
        match line {
            Line::StopPrimary | Line::StopSecondary => self.stop_refusal(),
            Line::Report => self.report_refusal(),
            Line::Primary { .. } | Line::Secondary { .. } | Line::Client => None,
            Line::ToSecondary | Line::ToPrimary | Line::Ask => None,
        }
    }

    fn stop_refusal(&self) -> Option<StepFault>
        ensures { result ≡ stop_refusal self.now.stopped }
    {
        match self.parts.stopped {
            None => None,
            Some(_) => Some(StepFault::SecondStop),
        }
    }

    fn report_refusal(&self) -> Option<StepFault>
        ensures { result ≡ report_refusal self.now.stopped self.now.is_reported }
    {
        match self.parts.stopped {
            None => Some(StepFault::FalseReport),
            Some(_) if self.parts.is_reported => Some(StepFault::FalseReport),
            Some(_) => None,
        }
    }

    /// How many frames clients have sent.
    pub fn offered(&self) -> usize
        ensures { result ≡ length self.now.frames }
    {
        self.parts.frames.len()
    }

    /// How many events have happened.
    pub fn steps(&self) -> u64
        ensures { result ≡ self.now.steps }
    {
        self.steps
    }

    /// How many messages are on their way to the secondary, and to the primary.
    pub fn waiting(&self) -> (usize, usize)
        ensures down { result.0 ≡ length self.now.down }
        ensures up { result.1 ≡ length self.now.up }
    {
        (self.parts.down.len(), self.parts.up.len())
    }

    /// Whether the primary awaits the acknowledgement of a checkpoint. While it does, its guest
    /// rests as it was captured.
    pub fn awaits(&self) -> bool
        ensures value { result ≡ self.now.first.awaits }
        ensures captured { result ≡ true → IsCaptured (G.meaning self.now.first.guest) }
    {
        self.parts.first.awaits()
    }

    /// The guest of the node that survives: the secondary's exactly where the primary stopped.
    pub fn survivor(&self) -> &G
        ensures { result.now ≡ survivor self.now }
    {
        if is_primary(self.parts.stopped) {
            self.parts.second.guest()
        } else {
            self.parts.first.guest()
        }
    }
}

/// What an event tells of a line.
fn step_of(line: Line, event: Event) -> Step
    ensures line { result.entry.line ≡ line }
    ensures answer { result.entry.answer ≡ event.answer }
    ensures marks { result.entry.marks ≡ event.marks }
    ensures released { result.released ≡ event.released }
    ensures wire { result.wire.items ≡ event.wire.items }
{
    let Event {
        answer,
        marks,
        released,
        wire,
    } = event;
    Step {
        entry: Record {
            line,
            answer,
            marks,
        },
        released,
        wire,
    }
}

impl<G: Guest + Drop> Parts<G> {
    /// A node stops.
    fn stop(&mut self, alloc: Global, node: Node) -> Event
        ensures after { plain G.meaning self.new
            ≡ record (plain G.meaning self.old) { stopped = Some node } }
        ensures answer { result.answer ≡ answer.Zero }
        ensures marks { result.marks ≡ [] }
        ensures released { result.released ≡ [] }
        ensures wire { result.wire.items ≡ [] }
        ensures sent { self.new.sent_heard ≡ self.old.sent_heard }
    {
        self.stopped = Some(node);
        quiet(alloc, Answer::Zero, Frames::new(alloc))
    }

    /// The event of a line.
    fn event(&mut self, alloc: Global, line: &Line) -> Result<Event, NoMemory>
        requires limits { HasLimits line.now }
        requires counted { self.old.sent_heard < 2 ^ 63 }
        ensures after { OnOk result (plain G.meaning self.new
            ≡ (event_of (plain G.meaning self.old) line.now).after) }
        ensures made { IfOk result (λ e. Makes e
            (event_of (plain G.meaning self.old) line.now)) }
        ensures sent { OnOk result (self.new.sent_heard ≤ self.old.sent_heard + 1) }
    {
        match line {
            Line::Primary { d, i, b, n } => {
                self.primary_event(alloc, (u64::from(*d), *i, *b, *n))
            }
            Line::Secondary { d, i, b, n } => {
                self.secondary_event(alloc, (u64::from(*d), *i, *b, *n))
            }
            Line::Client => self.client_event(alloc),
            Line::ToSecondary => self.down_event(alloc),
            Line::ToPrimary => self.up_event(alloc),
            Line::StopPrimary => Ok(self.stop(alloc, Node::Primary)),
            Line::StopSecondary => Ok(self.stop(alloc, Node::Secondary)),
            Line::Report => self.report_event(alloc),
            Line::Ask => self.ask_event(alloc),
        }
    }
}
