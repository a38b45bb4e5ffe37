//! A client's frame at a primary.

ghost use Rattle.std.specs.Prelude.{◌≡◌, ◌∷◌, [], ◌<◌, ◌++◌, false, length, map, option_to_list, IfOk, IfSome, IsSome, OnOk, OnErr};
ghost use Rattle.frame_mirror.specs.Accepted.{is_accepted};
ghost use Rattle.frame_mirror.specs.declared.ring.TheConstants.{INBOX_ROOM};
ghost use Rattle.frame_mirror.specs.declared.ring.Waiting.{Waiting};
ghost use Rattle.shared_definitions.specs.Begins.{Begins};
ghost use Rattle.colo_wire.specs.Reader.{message_of};
ghost use Rattle.colo_wire.specs.Spelling.{IsMessage, message_bytes};
ghost use Rattle.colo_wire.specs.declared.messages.Message.TheVariants as message;
ghost use Rattle.node_parts.specs.Outboxes.{IsRead};
ghost use Rattle.node_release.specs.Gated.{MayWait};
ghost use Rattle.node_primary.specs.Inside.{AreSound, plain};
ghost use Rattle.node_primary.specs.Steps.{frame_message, gated_for, primary_ingress, told, with_waiting};

use crate::parts::Parts;
use colo_base::{Frames, NoMemory};
use colo_wire::{Gate, encode_frame};
use frame_mirror::{Waiting, hold};
use node_parts::Outbox;
use node_release::let_in;
use state_wire::Guest;
use std::alloc::Global;

/// The bytes of the message about a frame that waits.
fn spell(alloc: Global, waiting: &Waiting) -> Result<Vec<u8>, NoMemory>
    requires { MayWait waiting.now }
    ensures read { IfOk result IsRead }
    ensures message { IfOk result (λ bytes. message_of bytes.items ≡ frame_message waiting.now) }
{
    let mut bytes = Vec::new(alloc);
    encode_frame(
        waiting.index,
        waiting.seen,
        waiting.trim,
        waiting.frame.as_slice(),
        &mut bytes,
    )?;
    Ok(bytes)
}

/// Puts a message about a frame that waits.
fn tell(alloc: Global, waiting: &Waiting, waits: &mut Outbox) -> Result<(), NoMemory>
    requires { MayWait waiting.now }
    ensures { OnOk result (waits.new ≡ waits.old ++ frame_message waiting.now ∷ []) }
{
    let bytes = spell(alloc, waiting)?;
    waits.put(bytes)
}

impl<G: Guest + Drop> Parts<G> {
    /// Puts a frame that was let in last, and tells the secondary of it, unless the node is alone.
    fn take(&mut self, alloc: Global, waiting: Waiting) -> Result<(), NoMemory>
        requires sound { AreSound G.meaning self.old }
        requires may_wait { MayWait waiting }
        requires room { length self.old.inbox < INBOX_ROOM }
        ensures after { OnOk result (plain G.meaning self.new
            ≡ with_waiting (plain G.meaning self.old) (Some waiting)) }
        ensures sound { AreSound G.meaning self.new }
        ensures compare { self.new.compare ≡ self.old.compare }
    {
        if !self.compare.is_alone() {
            tell(alloc, &waiting, &mut self.waits)?;
        }
        hold(&mut self.inbox, waiting);
        Ok(())
    }

    /// Lets a client's frame in.
    pub fn ingress(
        &mut self,
        alloc: Global,
        index: u64,
        frame: &[u8],
        out: &mut Frames,
    ) -> Result<Gate, NoMemory>
        requires sound { AreSound G.meaning self.old }
        ensures after { OnOk result (plain G.meaning self.new
            ≡ primary_ingress (plain G.meaning self.old) index frame.now) }
        ensures answer { IfOk result (λ gate. gate
            ≡ (gated_for (plain G.meaning self.old) index frame.now).answer) }
        ensures out { OnOk result (out.new
            ≡ out.old ++ (gated_for (plain G.meaning self.old) index frame.now).out) }
        ensures begins { OnErr result (Begins out.old out.new) }
        ensures sound { AreSound G.meaning self.new }
        ensures spent { self.new.compare.spent ≡ self.old.compare.spent }
    {
        let (gate, waiting) = let_in(alloc, &mut self.compare, &self.inbox, index, frame, out)?;
        if let Some(waiting) = waiting {
            self.take(alloc, waiting)?;
        }
        Ok(gate)
    }
}
