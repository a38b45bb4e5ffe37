//! Deliveries: a message comes to the node that it goes to.

ghost use Rattle.std.specs.Prelude.{◌≡◌, ◌≢◌, ◌||◌, ◌+◌, ◌≤◌, ◌<◌, ◌^◌, IfOk, OnOk};
ghost use Rattle.colo_wire.specs.declared.answers.HearFault.TheVariants as hear_fault;
ghost use Rattle.colo_wire.specs.Reader.{IsWhole, message_of};
ghost use Rattle.pair_core.specs.Events.{counts_on, down_event, nothing, primary_hears, secondary_hears, up_event};
ghost use Rattle.pair_core.specs.Pair.{Pair, is_primary, is_secondary};
ghost use Rattle.pair_core.specs.Inside.{Makes, plain};

use crate::event::{Event, nothing, told_marks, wire_of};
use crate::node::{is_primary, is_secondary};
use crate::parts::Parts;
use colo_base::{Frames, NoMemory};
use colo_wire::{HearFault, Told};
use replay_log::Answer;
use state_wire::Guest;
use std::alloc::Global;

/// The kind of a message about a frame that the secondary's guest sent.
const SENT: u8 = 13;

/// The arrows before a message to the secondary, and before one to the primary.
const DOWN: u8 = 62;

const UP: u8 = 60;

/// How many frames of its guest the secondary told of since the last acknowledgement, after a
/// message.
fn counts_on(awaits: bool, told: &Told, sent: u64) -> u64
    requires { sent < 2 ^ 63 }
    ensures value { result ≡ counts_on awaits told.now sent }
    ensures at_most { result ≤ sent + 1 }
{
    if told.ack.is_some() {
        0
    } else if told.kind == SENT && !awaits {
        sent + 1
    } else {
        sent
    }
}

/// What is told of a message that isn't taken.
fn lost(alloc: Global, fault: HearFault) -> Result<Event, NoMemory>
    ensures made { IfOk result (λ e. (w : Pair) → Makes e (nothing w)) }
    ensures refused { OnOk result (fault ≢ hear_fault.NoMemory) }
{
    match fault {
        HearFault::NoMemory => Err(NoMemory),
        HearFault::NoMessage(_) | HearFault::NotDue(_) => Ok(nothing(alloc)),
    }
}

impl<G: Guest + Drop> Parts<G> {
    /// The secondary hears a message; one that isn't due is lost.
    #[tactic(auto, unfolding(crate::specs::Events::secondary_hears, crate::specs::Events::hears_with))]
    fn secondary_hears(&mut self, alloc: Global, message: &[u8]) -> Result<Event, NoMemory>
        requires { IsWhole (message_of message.now) message.now }
        ensures after { OnOk result (plain G.meaning self.new
            ≡ (secondary_hears (plain G.meaning self.old) (message_of message.now)).after) }
        ensures made { IfOk result (λ e. Makes e
            (secondary_hears (plain G.meaning self.old) (message_of message.now))) }
        ensures sent { OnOk result (self.new.sent_heard ≡ self.old.sent_heard) }
    {
        let mut out = Frames::new(alloc);
        match self.second.hear(message, &mut out) {
            Ok(told) => {
                self.send_up()?;
                Ok(Event {
                    answer: Answer::Heard {
                        kind: told.kind,
                        full: told.full,
                    },
                    marks: told_marks(alloc, &told)?,
                    released: out,
                    wire: wire_of(alloc, DOWN, message)?,
                })
            }
            Err(fault) => {
                let event = lost(alloc, fault)?;
                Ok(event)
            }
        }
    }

    /// Whether no message can come to the secondary.
    fn is_down_shut(&self) -> bool
        ensures { result ≡ (is_secondary self.now.stopped || self.now.is_reported) }
    {
        is_secondary(self.stopped) || self.is_reported
    }

    /// The oldest message on the link to the secondary is delivered, unless the secondary stopped
    /// or a stop was reported.
    pub fn down_event(&mut self, alloc: Global) -> Result<Event, NoMemory>
        ensures after { OnOk result (plain G.meaning self.new
            ≡ (down_event (plain G.meaning self.old)).after) }
        ensures made { IfOk result (λ e. Makes e (down_event (plain G.meaning self.old))) }
        ensures sent { OnOk result (self.new.sent_heard ≡ self.old.sent_heard) }
    {
        if self.is_down_shut() {
            return Ok(nothing(alloc));
        }
        match self.down.take() {
            None => Ok(nothing(alloc)),
            Some(message) => self.secondary_hears(alloc, &message),
        }
    }

    /// The primary hears a message; one that isn't due is lost.
    #[tactic(auto, unfolding(crate::specs::Events::primary_hears, crate::specs::Events::hears_back_with))]
    fn primary_hears(&mut self, alloc: Global, message: &[u8]) -> Result<Event, NoMemory>
        requires read { IsWhole (message_of message.now) message.now }
        requires counted { self.old.sent_heard < 2 ^ 63 }
        ensures after { OnOk result (plain G.meaning self.new
            ≡ (primary_hears (plain G.meaning self.old) (message_of message.now)).after) }
        ensures made { IfOk result (λ e. Makes e
            (primary_hears (plain G.meaning self.old) (message_of message.now))) }
        ensures sent { OnOk result (self.new.sent_heard ≤ self.old.sent_heard + 1) }
    {
        let mut out = Frames::new(alloc);
        let awaits = self.first.awaits();
        match self.first.hear(message, &mut out) {
            Ok(told) => {
                let sent = counts_on(awaits, &told, self.sent_heard);
                self.sent_heard = sent;
                self.send_down()?;
                Ok(Event {
                    answer: Answer::HeardBack {
                        kind: told.kind,
                        sent,
                        released: out.len() as u64,
                    },
                    marks: told_marks(alloc, &told)?,
                    released: out,
                    wire: wire_of(alloc, UP, message)?,
                })
            }
            Err(fault) => {
                let event = lost(alloc, fault)?;
                Ok(event)
            }
        }
    }

    /// Whether no message can come to the primary.
    fn is_up_shut(&self) -> bool
        ensures { result ≡ (is_primary self.now.stopped || self.now.is_reported) }
    {
        is_primary(self.stopped) || self.is_reported
    }

    /// The oldest message on the link to the primary is delivered, unless the primary stopped or a
    /// stop was reported.
    pub fn up_event(&mut self, alloc: Global) -> Result<Event, NoMemory>
        requires counted { self.old.sent_heard < 2 ^ 63 }
        ensures after { OnOk result (plain G.meaning self.new
            ≡ (up_event (plain G.meaning self.old)).after) }
        ensures made { IfOk result (λ e. Makes e (up_event (plain G.meaning self.old))) }
        ensures sent { OnOk result (self.new.sent_heard ≤ self.old.sent_heard + 1) }
    {
        if self.is_up_shut() {
            return Ok(nothing(alloc));
        }
        match self.up.take() {
            None => Ok(nothing(alloc)),
            Some(message) => self.primary_hears(alloc, &message),
        }
    }
}
