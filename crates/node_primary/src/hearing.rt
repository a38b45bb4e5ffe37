//! What a primary hears.

ghost use Rattle.std.specs.Prelude.{◌≡◌, ◌++◌, true, false, None, Some, IfOk, OnOk, OnErr};
ghost use Rattle.shared_definitions.specs.Begins.{Begins};
ghost use Rattle.colo_wire.specs.Kinds.{number_of_kind};
ghost use Rattle.out_compare.specs.Comparing.{learn, take_heard};
ghost use Rattle.node_primary.specs.Answers.{ack_by, told_of};
ghost use Rattle.node_primary.specs.Inside.{AreSound, plain};
ghost use Rattle.node_primary.specs.Steps.{acknowledged, is_due, primary_hear, settle_node, unless_awaiting};

use crate::parts::Parts;
use colo_base::{Cause, Frames, NoMemory};
use colo_wire::{Message, Told, kind_number};
use inet_frame::Tuple;
use state_wire::Guest;
use std::alloc::Global;

impl<G: Guest + Drop> Parts<G> {
    /// Hears the acknowledgement of the last capture.

    fn hear_ack(
        &mut self,
        alloc: Global,
        out: &mut Frames,
    ) -> Result<Option<(u32, Cause)>, NoMemory>
        requires sound { AreSound G.meaning self.old }
        ensures after { OnOk result (plain G.meaning self.new
            ≡ (settle_node (acknowledged (plain G.meaning self.old)) false).after) }
        ensures capture { IfOk result (λ capture. capture
            ≡ (settle_node (acknowledged (plain G.meaning self.old)) false).capture) }
        ensures out { OnOk result (out.new ≡ out.old
            ++ (settle_node (acknowledged (plain G.meaning self.old)) false).out) }
        ensures begins { OnErr result (Begins out.old out.new) }
        ensures sound { AreSound G.meaning self.new }
        ensures going { OnOk result (self.new.compare.spent ≡ false) }
    {
        self.awaits = false;
        self.compare.acknowledged()?;
        self.settle(alloc, false, out)
    }

    /// Hears the number that the secondary keeps for a client.
    fn hear_known(
        &mut self,
        alloc: Global,
        known: (Tuple, u32, u32),
        out: &mut Frames,
    ) -> Result<Option<(u32, Cause)>, NoMemory>
        requires sound { AreSound G.meaning self.old }
        requires going { self.old.compare.spent ≡ false }
        ensures after { OnOk result (plain G.meaning self.new
            ≡ (unless_awaiting (plain G.meaning self.old)
            (learn self.old.compare.comparing known.0 known.1 known.2)).after) }
        ensures capture { IfOk result (λ capture. capture
            ≡ (unless_awaiting (plain G.meaning self.old)
            (learn self.old.compare.comparing known.0 known.1 known.2)).capture) }
        ensures out { OnOk result (out.new ≡ out.old ++ (unless_awaiting (plain G.meaning self.old)
            (learn self.old.compare.comparing known.0 known.1 known.2)).out) }
        ensures begins { OnErr result (Begins out.old out.new) }
        ensures sound { AreSound G.meaning self.new }
        ensures going { OnOk result (self.new.compare.spent ≡ false) }
    {
        if self.awaits {
            return Ok(None);
        }
        self.compare.known(&known.0, known.1, known.2);
        self.settle(alloc, false, out)
    }

    /// Hears a frame that the secondary's guest sent.
    fn hear_sent(
        &mut self,
        alloc: Global,
        frame: &[u8],
        out: &mut Frames,
    ) -> Result<Option<(u32, Cause)>, NoMemory>
        requires sound { AreSound G.meaning self.old }
        requires going { self.old.compare.spent ≡ false }
        ensures after { OnOk result (plain G.meaning self.new
            ≡ (unless_awaiting (plain G.meaning self.old)
            (take_heard self.old.compare.comparing frame.now)).after) }
        ensures capture { IfOk result (λ capture. capture
            ≡ (unless_awaiting (plain G.meaning self.old)
            (take_heard self.old.compare.comparing frame.now)).capture) }
        ensures out { OnOk result (out.new ≡ out.old ++ (unless_awaiting (plain G.meaning self.old)
            (take_heard self.old.compare.comparing frame.now)).out) }
        ensures begins { OnErr result (Begins out.old out.new) }
        ensures sound { AreSound G.meaning self.new }
        ensures going { OnOk result (self.new.compare.spent ≡ false) }
    {
        if self.awaits {
            return Ok(None);
        }
        let took = self.compare.secondary(frame)?;
        let _ = took;
        self.settle(alloc, false, out)
    }

    /// Hears a message, and says which checkpoint it captures.
    fn hear_message(
        &mut self,
        alloc: Global,
        message: &Message,
        out: &mut Frames,
    ) -> Result<Option<(u32, Cause)>, NoMemory>
        requires sound { AreSound G.meaning self.old }
        requires going { self.old.compare.spent ≡ false }
        ensures after { OnOk result (plain G.meaning self.new
            ≡ (primary_hear (plain G.meaning self.old) message.now).after) }
        ensures capture { IfOk result (λ capture. capture
            ≡ (primary_hear (plain G.meaning self.old) message.now).capture) }
        ensures out { OnOk result (out.new
            ≡ out.old ++ (primary_hear (plain G.meaning self.old) message.now).out) }
        ensures begins { OnErr result (Begins out.old out.new) }
        ensures sound { AreSound G.meaning self.new }
        ensures going { OnOk result (self.new.compare.spent ≡ false) }
    {
        match message {
            Message::Ack { e: _e } => self.hear_ack(alloc, out),
            Message::Known {
                tuple,
                client,
                number,
            } => self.hear_known(alloc, (*tuple, *client, *number), out),
            Message::Sent { frame } => self.hear_sent(alloc, frame.as_slice(), out),
            Message::Frame { .. } | Message::Number { .. } | Message::Begin { .. } => Ok(None),
            Message::State { .. } | Message::Page { .. } | Message::Disk { .. } => Ok(None),
            Message::Write { .. } | Message::Held { .. } | Message::Line { .. } => Ok(None),
            Message::Bytes { .. } | Message::End { .. } => Ok(None),
        }
    }

    /// Hears a message that is due.
    pub fn hear(
        &mut self,
        alloc: Global,
        message: &Message,
        out: &mut Frames,
    ) -> Result<Told, NoMemory>
        requires sound { AreSound G.meaning self.old }
        requires going { self.old.compare.spent ≡ false }
        ensures after { OnOk result (plain G.meaning self.new
            ≡ (primary_hear (plain G.meaning self.old) message.now).after) }
        ensures told { IfOk result (λ t. t ≡ told_of (plain G.meaning self.old) message.now) }
        ensures out { OnOk result (out.new
            ≡ out.old ++ (primary_hear (plain G.meaning self.old) message.now).out) }
        ensures begins { OnErr result (Begins out.old out.new) }
        ensures sound { AreSound G.meaning self.new }
        ensures going { OnOk result (self.new.compare.spent ≡ false) }
    {
        let capture = self.hear_message(alloc, message, out)?;
        Ok(Told {
            kind: kind_number(message),
            full: false,
            commit: None,
            ack: ack_by(message),
            capture,
        })
    }
}

/// The checkpoint that a message acknowledges.
fn ack_by(message: &Message) -> Option<u32>
    ensures { result ≡ ack_by message.now }
{
    match message {
        Message::Ack { e } => Some(*e),
        Message::Frame { .. } | Message::Number { .. } | Message::Begin { .. } => None,
        Message::State { .. } | Message::Page { .. } | Message::Disk { .. } => None,
        Message::Write { .. } | Message::Held { .. } | Message::Line { .. } => None,
        Message::Bytes { .. } | Message::End { .. } => None,
        Message::Known { .. } | Message::Sent { .. } => None,
    }
}
