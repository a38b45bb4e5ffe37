//! What a secondary hears.

ghost use Rattle.std.specs.Prelude.{◌≡◌, ◌≢◌, true, false, not, Ok, Err, None, Some, IfErr, IfOk, IsSome, IsTrue, OnErr, OnOk};
ghost use Rattle.frame_mirror.specs.Accepted.{is_accepted};
ghost use Rattle.frame_mirror.specs.Inboxes.{has_room};
ghost use Rattle.colo_wire.specs.Kinds.{number_of_kind};
ghost use Rattle.colo_wire.specs.Spelling.{IsMessage, kind_of};
ghost use Rattle.colo_wire.specs.declared.answers.HearFault.TheVariants as hear_fault;
ghost use Rattle.node_secondary.specs.Node.{node_of};
ghost use Rattle.node_secondary.specs.Hearing.{IsOther, commit, hear_due, hear_frame, hear_number, hear_state, is_due, told, told_of};
ghost use Rattle.node_parts.specs.Reading.{Reading, Reads};
ghost use Rattle.node_secondary.specs.Answers.{IsAnswered};
ghost use Rattle.node_secondary.specs.Steps.{is_due_to};
ghost use Rattle.node_secondary.specs.Survivor.{second_of};
ghost use Rattle.node_secondary.specs.declared.under_way.UnderWay.TheVariants as under_way;

use crate::due::is_due;
use crate::node::Secondary;
use crate::parts::{begin_kept, keep_number, keep_part, put_frame, trim_lines};
use crate::under_way::UnderWay;
use colo_base::{Contents, Frames, NoMemory};
use colo_wire::{HearFault, Message, Told, WireFault, kind_number};
use frame_mirror::Waiting;
use inet_frame::Tuple;
use kept_checkpoint::{KeptCheckpoint, Tables};
use node_parts::{count_parts, put_message, read};
use state_wire::Guest;
use std::mem;

/// What is told of a message.
fn told(kind: u8, full: bool, commit: Option<u32>) -> Told
    ensures { result ≡ told kind full commit }
{
    Told {
        kind,
        full,
        commit,
        ack: None,
        capture: None,
    }
}

impl<G: Guest + Drop> Secondary<G> {
    /// Hears a message from the primary. A client's frame trims its connection's line and is put
    /// last, where there is room; a number is kept where none is kept for its incarnation, and the
    /// one that is kept goes to the primary as a message. What is heard from the begin of a
    /// checkpoint on is kept apart, until its end makes guest, inbox, lines and numbers those of
    /// the checkpoint, and it is acknowledged. Nothing is released. A node alone hears nothing.
    ///
    /// `NoMessage` comes exactly where the bytes aren't one whole message, and `NotDue`, with the
    /// kind, exactly where the message isn't due; all is as before then. After `NoMemory` no
    /// message was put.
    #[tactic(auto, using(crate::proofs::HearingLemmas::none_by, crate::proofs::HearingLemmas::answered_by, crate::proofs::LoneLemmas::lone_spent))]
    pub fn hear(&mut self, message: &[u8], out: &mut Frames) -> Result<Told, HearFault>
        ensures answered { result ≢ Err hear_fault.NoMemory → (reading : Reading)
            × Reads message.now reading × IsAnswered (second_of G.meaning self.old) reading result
            (second_of G.meaning self.new) }
        ensures each { (reading : Reading) → Reads message.now reading →
            result ≢ Err hear_fault.NoMemory → IsAnswered (second_of G.meaning self.old) reading
            result (second_of G.meaning self.new) }
        ensures refused { IfErr result (λ f. f ≢ hear_fault.NoMemory → self.new ≡ self.old) }
        ensures unsaid { OnErr result (self.new.waits ≡ self.old.waits) }
        ensures released { out.new ≡ out.old }
        ensures spent { self.old.spent ≡ true → result ≡ Err hear_fault.NoMemory }
        ensures failed { result ≡ Err hear_fault.NoMemory → self.new.spent ≡ true }
        ensures going { result ≢ Err hear_fault.NoMemory → self.new.spent ≡ false }
    {
        if self.spent {
            return Err(HearFault::NoMemory);
        }
        match read(self.alloc, message) {
            Ok(message) => self.hear_message(message),
            Err(WireFault::NoMemory) => {
                self.spent = true;
                Err(HearFault::NoMemory)
            }
            Err(fault) => Err(HearFault::NoMessage(fault)),
        }
    }

    /// Says whether a message is due. It takes no memory.
    fn is_due(&self, message: &Message) -> bool
        ensures value { result ≡ is_due_to (second_of G.meaning self.now) message.now }
        ensures hears { result ≡ true → self.now.alone ≡ None }
        ensures due { result ≡ true → is_due (node_of G.meaning self.now) message.now ≡ true }
    {
        match &self.alone {
            Some(_) => false,
            None => is_due(
                &self.guest,
                self.committed.wrapping_add(1),
                &self.under_way,
                message,
            ),
        }
    }

    /// Hears a message, where it is due.
    #[tactic(auto, using(crate::proofs::HearingLemmas::refused_by, crate::proofs::HearingLemmas::heard_by, crate::proofs::LoneLemmas::lone_spent))]
    fn hear_message(&mut self, message: Message) -> Result<Told, HearFault>
        requires message { IsMessage message }
        requires going { self.old.spent ≡ false }
        ensures answered { result ≢ Err hear_fault.NoMemory → IsAnswered
            (second_of G.meaning self.old) (Ok message) result (second_of G.meaning self.new) }
        ensures refused { IfErr result (λ f. f ≢ hear_fault.NoMemory → self.new ≡ self.old) }
        ensures unsaid { OnErr result (self.new.waits ≡ self.old.waits) }
        ensures failed { result ≡ Err hear_fault.NoMemory → self.new.spent ≡ true }
        ensures going { result ≢ Err hear_fault.NoMemory → self.new.spent ≡ false }
    {
        if !self.is_due(&message) {
            return Err(HearFault::NotDue(kind_number(&message)));
        }
        match self.hear_due(message) {
            Ok(told) => Ok(told),
            Err(NoMemory) => {
                self.spent = true;
                Err(HearFault::NoMemory)
            }
        }
    }

    /// Hears a message that is due.
    #[tactic(auto, using(crate::proofs::HearingLemmas::frame_is_accepted, crate::proofs::HearingLemmas::state_is_accepted, crate::proofs::HearingLemmas::other_by))]
    fn hear_due(&mut self, message: Message) -> Result<Told, NoMemory>
        requires message { IsMessage message }
        requires due { is_due (node_of G.meaning self.old) message ≡ true }
        requires hears { self.old.alone ≡ None }
        ensures after { OnOk result (node_of G.meaning self.new
            ≡ hear_due (node_of G.meaning self.old) message) }
        ensures told { IfOk result (λ t. t ≡ told_of (node_of G.meaning self.old) message) }
        ensures unsaid { OnErr result (self.new.waits ≡ self.old.waits) }
        ensures hears { self.new.alone ≡ None }
        ensures still { self.new.spent ≡ self.old.spent }
    {
        match message {
            Message::Frame {
                index,
                seen,
                trim,
                frame,
            } => Ok(self.hear_frame(Waiting {
                index,
                seen,
                trim,
                frame,
            })),
            Message::Number {
                tuple,
                client,
                number,
            } => self.hear_number(tuple, client, number),
            Message::Begin { e: _e } => Ok(self.hear_begin()),
            Message::State { bytes } => self.hear_state(bytes),
            Message::End { e } => self.commit(e),
            part => self.hear_part(&part),
        }
    }

    /// Hears a client's frame. It takes no memory.
    fn hear_frame(&mut self, waiting: Waiting) -> Told
        requires accepted { is_accepted waiting.frame ≡ true }
        requires hears { self.old.alone ≡ None }
        ensures after { node_of G.meaning self.new
            ≡ hear_frame (node_of G.meaning self.old) waiting }
        ensures told { result ≡ told 1 (not (has_room self.old.inbox)) None }
        ensures hears { self.new.alone ≡ None }
        ensures still { self.new.spent ≡ self.old.spent }
    {
        trim_lines(&mut self.lines, &waiting);
        told(1, put_frame(&mut self.inbox, waiting), None)
    }

    /// Hears a number.
    #[tactic(auto, using(crate::proofs::LoneLemmas::lone_by))]
    fn hear_number(&mut self, tuple: Tuple, client: u32, number: u32) -> Result<Told, NoMemory>
        requires hears { self.old.alone ≡ None }
        ensures after { OnOk result (node_of G.meaning self.new
            ≡ hear_number (node_of G.meaning self.old) tuple client number) }
        ensures told { IfOk result (λ t. t ≡ told 2 false None) }
        ensures unsaid { OnErr result (self.new.waits ≡ self.old.waits) }
        ensures hears { self.new.alone ≡ None }
        ensures still { self.new.spent ≡ self.old.spent }
    {
        keep_number(
            self.alloc,
            &mut self.numbers,
            &mut self.waits,
            tuple,
            client,
            number,
        )?;
        Ok(told(2, false, None))
    }

    /// Hears that a checkpoint begins. It takes no memory.
    fn hear_begin(&mut self) -> Told
        requires hears { self.old.alone ≡ None }
        ensures after { node_of G.meaning self.new ≡ record (node_of G.meaning self.old) {
          under_way = under_way.Begun;
        } }
        ensures told { result ≡ told 3 false None }
        ensures hears { self.new.alone ≡ None }
        ensures still { self.new.spent ≡ self.old.spent }
    {
        self.under_way = UnderWay::Begun;
        told(3, false, None)
    }

    /// Hears a state that the guest accepts.
    #[tactic(auto, using(crate::proofs::HearingLemmas::state_loadable))]
    fn hear_state(&mut self, bytes: Contents) -> Result<Told, NoMemory>
        requires accepted { (G.meaning self.old.guest).kind.accepts bytes ≡ true }
        requires hears { self.old.alone ≡ None }
        ensures after { OnOk result (node_of G.meaning self.new
            ≡ hear_state (node_of G.meaning self.old) bytes) }
        ensures told { IfOk result (λ t. t ≡ told 4 false None) }
        ensures unsaid { OnErr result (self.new.waits ≡ self.old.waits) }
        ensures hears { self.new.alone ≡ None }
        ensures still { self.new.spent ≡ self.old.spent }
    {
        let kept = begin_kept(self.alloc, &self.guest, bytes)?;
        self.under_way = UnderWay::Heard(kept);
        Ok(told(4, false, None))
    }

    /// Hears a part of a checkpoint.
    #[tactic(auto, using(crate::proofs::HearingLemmas::kept_loadable, crate::proofs::HearingLemmas::part_is_due, crate::proofs::HearingLemmas::page_sized, crate::proofs::HearingLemmas::other_heard, crate::proofs::HearingLemmas::other_told))]
    fn hear_part(&mut self, message: &Message) -> Result<Told, NoMemory>
        requires other { IsOther message.now }
        requires message { IsMessage message.now }
        requires due { is_due (node_of G.meaning self.old) message.now ≡ true }
        requires hears { self.old.alone ≡ None }
        ensures after { OnOk result (node_of G.meaning self.new
            ≡ hear_due (node_of G.meaning self.old) message.now) }
        ensures told { IfOk result (λ t. t ≡ told_of (node_of G.meaning self.old) message.now) }
        ensures unsaid { OnErr result (self.new.waits ≡ self.old.waits) }
        ensures hears { self.new.alone ≡ None }
        ensures still { self.new.spent ≡ self.old.spent }
    {
        let under_way = mem::replace(&mut self.under_way, UnderWay::Nothing);
        self.under_way = keep_part(under_way, message)?;
        Ok(told(kind_number(message), false, None))
    }

    /// Hears the end of a checkpoint.
    #[tactic(auto, using(crate::proofs::HearingLemmas::loadable_heard))]
    fn commit(&mut self, e: u32) -> Result<Told, NoMemory>
        requires hears { self.old.alone ≡ None }
        ensures after { OnOk result (node_of G.meaning self.new
            ≡ commit (node_of G.meaning self.old) e self.old.under_way) }
        ensures told { IfOk result (λ t. t ≡ told 11 false (Some e)) }
        ensures unsaid { OnErr result (self.new.waits ≡ self.old.waits) }
        ensures hears { self.new.alone ≡ None }
        ensures still { self.new.spent ≡ self.old.spent }
    {
        match mem::replace(&mut self.under_way, UnderWay::Nothing) {
            UnderWay::Nothing => Ok(told(11, false, Some(e))),
            UnderWay::Begun => {
                self.under_way = UnderWay::Begun;
                Ok(told(11, false, Some(e)))
            }
            UnderWay::Heard(kept) => self.load(kept, e),
        }
    }

    /// Makes guest, inbox, lines and numbers those of a checkpoint, and acknowledges it.
    #[tactic(auto, using(crate::proofs::HearingLemmas::ack_spells, crate::proofs::LoneLemmas::lone_by))]
    fn load(&mut self, kept: KeptCheckpoint, e: u32) -> Result<Told, NoMemory>
        requires accepted { IsTrue ((G.meaning self.old.guest).kind.accepts kept.state) }
        requires outside { self.old.under_way ≡ under_way.Nothing }
        requires hears { self.old.alone ≡ None }
        ensures after { OnOk result (node_of G.meaning self.new
            ≡ commit (node_of G.meaning self.old) e (under_way.Heard kept)) }
        ensures told { IfOk result (λ t. t ≡ told 11 false (Some e)) }
        ensures unsaid { OnErr result (self.new.waits ≡ self.old.waits) }
        ensures hears { self.new.alone ≡ None }
        ensures still { self.new.spent ≡ self.old.spent }
    {
        let loaded = kept.load(&mut self.guest);
        count_parts(&self.guest);
        loaded?;
        let Tables {
            inbox,
            lines,
            numbers,
        } = kept.close()?;
        self.inbox = inbox;
        self.lines = lines;
        self.numbers = numbers;
        self.committed = e;
        put_message(self.alloc, &Message::Ack { e }, &mut self.waits)?;
        Ok(told(11, false, Some(e)))
    }
}
