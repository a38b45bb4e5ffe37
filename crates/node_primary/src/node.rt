//! A primary.

ghost use Rattle.std.specs.Prelude.{◌≡◌, ◌≢◌, ◌≤◌, ◌++◌, true, false, [], Ok, Err, IsErr, IfErr, IfOk, OnOk, OnErr};
ghost use Rattle.frame_mirror.specs.Inboxes.{AreAccepted};
ghost use Rattle.colo_wire.specs.Spelling.{IsMessage};
ghost use Rattle.colo_wire.specs.declared.answers.HearFault.TheVariants as hear_fault;
ghost use Rattle.out_compare.specs.Comparing.{nothing_compared};
ghost use Rattle.node_parts.specs.Counts.{HasCounts};
ghost use Rattle.node_parts.specs.Outboxes.{TakesFirst};
ghost use Rattle.node_parts.specs.Reading.{Reading, Reads};
ghost use Rattle.node_primary.specs.Answers.{IsAnswered, asked_number, turned_by};
ghost use Rattle.node_primary.specs.Node.{IsCaptured, primary_of};
ghost use Rattle.node_primary.specs.Steps.{gated_for, primary_ask, primary_ingress, primary_report, primary_turn};

use crate::parts::Parts;
use colo_base::{Cause, Frames, NoMemory};
use colo_wire::{Gate, HearFault, Message, Told, Turned, WireFault, kind_number};
use frame_mirror::Inbox;
use node_parts::{Outbox, count_parts, read};
use out_compare::Compare;
use state_wire::Guest;
use std::alloc::Global;
use std::marker::Model;

/// The primary of a pair, over a guest.
///
/// After `NoMemory` it is spent: each later call that can answer `NoMemory` does. A call that
/// answers so releases nothing.
#[derive(Drop)]
pub struct Primary<G: Guest + Drop> {
    parts: Parts<G>,
    spent: bool,
    alloc: Global,
}

impl<G: Guest + Drop> Model for Primary<G> {
    ghost use Rattle.node_primary.specs.Inside.{AnswersToo, AreSound, held_of};
    ghost use Rattle.node_primary.specs.Node.{Held};

    ghost Value = { Held G };

    ghost view = { λ p. held_of p.parts p.spent };

    ghost invariant = { λ p. AreSound G.meaning p.parts × AnswersToo p.parts p.spent };
}

impl<G: Guest + Drop> Primary<G> {
    /// A primary over this guest, which has heard and sent nothing.
    pub fn new(alloc: Global, guest: G) -> Result<Primary<G>, NoMemory>
        ensures { IfOk result (λ p. p ≡ record {
          guest = guest;
          inbox = [];
          comparing = nothing_compared;
          waits = [];
          captures = 0;
          awaits = false;
          spent = false;
        }) }
    {
        count_parts(&guest);
        let inbox = Inbox::new(alloc)?;
        Ok(Primary {
            parts: Parts {
                guest,
                inbox,
                compare: Compare::new(alloc),
                waits: Outbox::new(alloc),
                captures: 0,
                awaits: false,
            },
            spent: false,
            alloc,
        })
    }

    /// Makes a turn, unless it awaits the acknowledgement of a checkpoint: then nothing happens.
    /// The clock goes on by `d`; where `i` holds and the guest can receive, it is given the oldest
    /// frame that waits; at most `b` block requests are served, and `n` steps are made. What the
    /// guest sends is compared, and what both guests agree on is released to `out`. A checkpoint is
    /// captured where there is a cause.
    pub fn turn(
        &mut self,
        d: u64,
        i: bool,
        b: u32,
        n: u32,
        out: &mut Frames,
    ) -> Result<(Turned, Option<(u32, Cause)>), NoMemory>
        requires requests { b ≤ 256 }
        requires steps { n ≤ 100000 }
        ensures after { OnOk result (primary_of G.meaning self.new
            ≡ (primary_turn (primary_of G.meaning self.old)
            (record { ticks = d; wants = i; requests = b; steps = n })).after) }
        ensures turned { IfOk result (λ r. r.0 ≡ turned_by (primary_of G.meaning self.old)
            (record { ticks = d; wants = i; requests = b; steps = n })) }
        ensures capture { IfOk result (λ r. r.1 ≡ (primary_turn (primary_of G.meaning self.old)
            (record { ticks = d; wants = i; requests = b; steps = n })).capture) }
        ensures released { OnOk result (out.new
            ≡ out.old ++ (primary_turn (primary_of G.meaning self.old)
            (record { ticks = d; wants = i; requests = b; steps = n })).out) }
        ensures unreleased { OnErr result (out.new ≡ out.old) }
        ensures spent { self.old.spent ≡ true → IsErr result }
        ensures failed { OnErr result (self.new.spent ≡ true) }
        ensures going { OnOk result (self.new.spent ≡ false) }
    {
        if self.spent {
            return Err(NoMemory);
        }
        let count = out.len();
        match self.parts.turn(self.alloc, (d, i, b, n), out) {
            Ok(turned) => Ok(turned),
            Err(NoMemory) => {
                out.truncate(count);
                self.spent = true;
                Err(NoMemory)
            }
        }
    }

    /// Hears a message from the secondary: a number that it has, a frame that its guest sent, or
    /// the acknowledgement of the last checkpoint. What both guests agree on then is released to
    /// `out`, and a checkpoint is captured where there is a cause. While it awaits an
    /// acknowledgement, all else is ignored.
    ///
    /// `NoMessage` comes exactly where the bytes aren't one whole message, and `NotDue`, with the
    /// kind, exactly where the message isn't due; all is as before then.
    #[tactic(auto, using(crate::proofs::HearLemmas::none_by, crate::proofs::HearLemmas::answered_by))]
    pub fn hear(&mut self, message: &[u8], out: &mut Frames) -> Result<Told, HearFault>
        ensures answered { result ≢ Err hear_fault.NoMemory → (reading : Reading)
            × Reads message.now reading × IsAnswered (primary_of G.meaning self.old) reading result
            (primary_of G.meaning self.new) out.old out.new }
        ensures each { (reading : Reading) → Reads message.now reading →
            result ≢ Err hear_fault.NoMemory → IsAnswered (primary_of G.meaning self.old) reading
            result (primary_of G.meaning self.new) out.old out.new }
        ensures refused { IfErr result (λ f. f ≢ hear_fault.NoMemory → self.new ≡ self.old) }
        ensures unreleased { OnErr result (out.new ≡ out.old) }
        ensures spent { self.old.spent ≡ true → result ≡ Err hear_fault.NoMemory }
        ensures failed { result ≡ Err hear_fault.NoMemory → self.new.spent ≡ true }
        ensures going { result ≢ Err hear_fault.NoMemory → self.new.spent ≡ false }
    {
        if self.spent {
            return Err(HearFault::NoMemory);
        }
        match read(self.alloc, message) {
            Ok(message) => self.hear_message(&message, out),
            Err(WireFault::NoMemory) => {
                self.spent = true;
                Err(HearFault::NoMemory)
            }
            Err(fault) => Err(HearFault::NoMessage(fault)),
        }
    }

    /// Hears a message, where it is due.
    #[tactic(auto, using(crate::proofs::HearLemmas::refused_by, crate::proofs::HearLemmas::heard_by))]
    fn hear_message(&mut self, message: &Message, out: &mut Frames) -> Result<Told, HearFault>
        requires going { self.old.spent ≡ false }
        ensures answered { result ≢ Err hear_fault.NoMemory → IsAnswered
            (primary_of G.meaning self.old) (Ok message.now) result
            (primary_of G.meaning self.new) out.old out.new }
        ensures refused { IfErr result (λ f. f ≢ hear_fault.NoMemory → self.new ≡ self.old) }
        ensures unreleased { OnErr result (out.new ≡ out.old) }
        ensures failed { result ≡ Err hear_fault.NoMemory → self.new.spent ≡ true }
        ensures going { result ≢ Err hear_fault.NoMemory → self.new.spent ≡ false }
    {
        if !self.parts.is_due(message) {
            return Err(HearFault::NotDue(kind_number(message)));
        }
        let count = out.len();
        match self.parts.hear(self.alloc, message, out) {
            Ok(told) => Ok(told),
            Err(NoMemory) => {
                out.truncate(count);
                self.spent = true;
                Err(HearFault::NoMemory)
            }
        }
    }

    /// Captures a checkpoint, and gives its number. `None` exactly where the acknowledgement of one
    /// is awaited, or the node is alone; then nothing happens.
    pub fn ask(&mut self) -> Result<Option<u32>, NoMemory>
        ensures after { OnOk result (primary_of G.meaning self.new
            ≡ primary_ask (primary_of G.meaning self.old)) }
        ensures answer { IfOk result (λ e. e ≡ asked_number (primary_of G.meaning self.old)) }
        ensures spent { self.old.spent ≡ true → IsErr result }
        ensures failed { OnErr result (self.new.spent ≡ true) }
        ensures going { OnOk result (self.new.spent ≡ false) }
    {
        if self.spent {
            return Err(NoMemory);
        }
        match self.parts.ask(self.alloc) {
            Ok(e) => Ok(e),
            Err(NoMemory) => {
                self.spent = true;
                Err(NoMemory)
            }
        }
    }

    /// Hears that the secondary stopped: from now on the node is alone, and what waits to be agreed
    /// on is released to `out`. What waits to go out is dropped, and a checkpoint that isn't
    /// acknowledged is awaited no more. A second report does nothing.
    pub fn report(&mut self, out: &mut Frames) -> Result<(), NoMemory>
        ensures after { OnOk result (primary_of G.meaning self.new
            ≡ (primary_report (primary_of G.meaning self.old)).after) }
        ensures released { OnOk result (out.new
            ≡ out.old ++ (primary_report (primary_of G.meaning self.old)).out) }
        ensures unreleased { OnErr result (out.new ≡ out.old) }
        ensures spent { self.old.spent ≡ true → IsErr result }
        ensures failed { OnErr result (self.new.spent ≡ true) }
        ensures going { OnOk result (self.new.spent ≡ false) }
    {
        if self.spent {
            return Err(NoMemory);
        }
        let count = out.len();
        match self.parts.report(self.alloc, out) {
            Ok(()) => Ok(()),
            Err(NoMemory) => {
                out.truncate(count);
                self.spent = true;
                Err(NoMemory)
            }
        }
    }

    /// Takes a client's frame with this index in the client stream: one that is accepted and finds
    /// room waits, and goes to the secondary; an ARP request for the guest is answered to `out`;
    /// any other is dropped.
    pub fn ingress(&mut self, index: u64, frame: &[u8], out: &mut Frames) -> Result<Gate, NoMemory>
        ensures after { OnOk result (primary_of G.meaning self.new
            ≡ primary_ingress (primary_of G.meaning self.old) index frame.now) }
        ensures answer { IfOk result (λ gate. gate
            ≡ (gated_for (primary_of G.meaning self.old) index frame.now).answer) }
        ensures released { OnOk result (out.new
            ≡ out.old ++ (gated_for (primary_of G.meaning self.old) index frame.now).out) }
        ensures unreleased { OnErr result (out.new ≡ out.old) }
        ensures spent { self.old.spent ≡ true → IsErr result }
        ensures failed { OnErr result (self.new.spent ≡ true) }
        ensures going { OnOk result (self.new.spent ≡ false) }
    {
        if self.spent {
            return Err(NoMemory);
        }
        let count = out.len();
        match self.parts.ingress(self.alloc, index, frame, out) {
            Ok(gate) => Ok(gate),
            Err(NoMemory) => {
                out.truncate(count);
                self.spent = true;
                Err(NoMemory)
            }
        }
    }

    /// The oldest message to the secondary that waits, spelled: `None` exactly where none waits. It
    /// takes no memory.
    pub fn outgoing(&mut self) -> Option<Vec<u8>>
        ensures message { TakesFirst self.old.waits self.new.waits result }
        ensures rest { self.new ≡ record self.old { waits = self.new.waits } }
    {
        self.parts.waits.take()
    }

    /// The guest.
    pub fn guest(&self) -> &G
        ensures { result.now ≡ self.now.guest }
    {
        &self.parts.guest
    }

    /// Whether it awaits the acknowledgement of a checkpoint. The guest has as many pages and
    /// sectors as its kind says, and the frames that wait were accepted; while an acknowledgement
    /// is awaited, the guest rests as it was captured.
    pub fn awaits(&self) -> bool
        ensures value { result ≡ self.now.awaits }
        ensures counts { HasCounts (G.meaning self.now.guest) }
        ensures accepted { AreAccepted self.now.inbox }
        ensures captured { result ≡ true → IsCaptured (G.meaning self.now.guest) }
    {
        self.parts.awaits
    }
}
