//! A client's frame at a pair.

ghost use Rattle.std.specs.Prelude.{◌≡◌, ◌<◌, IfOk, IfSome, OnOk, length, slice_get};
ghost use Rattle.std.specs.Option.{option_map};
ghost use Rattle.pair_core.specs.Events.{client_event, frame_comes, primary_takes, secondary_takes};
ghost use Rattle.pair_core.specs.Inside.{Makes, plain};

use crate::event::{Event, gate_answer, nothing, quiet};
use crate::node::is_primary;
use crate::parts::Parts;
use colo_base::{Frames, NoMemory};
use replay_log::Answer;
use state_wire::Guest;
use std::alloc::Global;

/// The primary takes a frame.
#[tactic(auto, unfolding(crate::specs::Events::primary_takes))]
fn primary_takes<G: Guest + Drop>(
    alloc: Global,
    parts: &mut Parts<G>,
    index: u64,
    frame: &[u8],
) -> Result<Event, NoMemory>
    ensures after { OnOk result (plain G.meaning parts.new
        ≡ (primary_takes (plain G.meaning parts.old) index frame.now).after) }
    ensures made { IfOk result (λ e. Makes e
        (primary_takes (plain G.meaning parts.old) index frame.now)) }
    ensures sent { OnOk result (parts.new.sent_heard ≡ parts.old.sent_heard) }
{
    let mut out = Frames::new(alloc);
    let gate = parts.first.ingress(index, frame, &mut out)?;
    parts.send_down()?;
    Ok(quiet(alloc, gate_answer(index, gate), out))
}

/// The secondary takes a frame, if it is alone; else it is lost.
#[tactic(auto, unfolding(crate::specs::Events::secondary_takes))]
fn secondary_takes<G: Guest + Drop>(
    alloc: Global,
    parts: &mut Parts<G>,
    index: u64,
    frame: &[u8],
) -> Result<Event, NoMemory>
    ensures after { OnOk result (plain G.meaning parts.new
        ≡ (secondary_takes (plain G.meaning parts.old) index frame.now).after) }
    ensures made { IfOk result (λ e. Makes e
        (secondary_takes (plain G.meaning parts.old) index frame.now)) }
    ensures sent { OnOk result (parts.new.sent_heard ≡ parts.old.sent_heard) }
{
    let mut out = Frames::new(alloc);
    if !parts.second.is_alone() {
        return Ok(quiet(alloc, Answer::Lost { index }, out));
    }
    let gate = parts.second.ingress(index, frame, &mut out)?;
    Ok(quiet(alloc, gate_answer(index, gate), out))
}

/// A frame comes to the node that would take it.
fn frame_comes<G: Guest + Drop>(
    alloc: Global,
    parts: &mut Parts<G>,
    index: u64,
    frame: &[u8],
) -> Result<Event, NoMemory>
    ensures after { OnOk result (plain G.meaning parts.new
        ≡ (frame_comes (plain G.meaning parts.old) index frame.now).after) }
    ensures made { IfOk result (λ e. Makes e
        (frame_comes (plain G.meaning parts.old) index frame.now)) }
    ensures sent { OnOk result (parts.new.sent_heard ≡ parts.old.sent_heard) }
{
    if is_primary(parts.stopped) {
        secondary_takes(alloc, parts, index, frame)
    } else {
        primary_takes(alloc, parts, index, frame)
    }
}

impl<G: Guest + Drop> Parts<G> {
    /// A copy of the client's next frame, where there is one.
    fn next_frame(&self, alloc: Global) -> Result<Option<Vec<u8>>, NoMemory>
        ensures frame { IfOk result (λ frame. option_map (λ bytes. bytes.items) frame
            ≡ slice_get self.now.frames self.now.next) }
        ensures inside { IfOk result (λ frame. IfSome frame (λ _.
            self.now.next < length self.now.frames)) }
    {
        let Some(frame) = self.frames.get(self.next) else {
            return Ok(None);
        };
        Ok(Some(frame.to_vec(alloc)?))
    }

    /// The client's next frame comes, where there is one.
    pub fn client_event(&mut self, alloc: Global) -> Result<Event, NoMemory>
        ensures after { OnOk result (plain G.meaning self.new
            ≡ (client_event (plain G.meaning self.old)).after) }
        ensures made { IfOk result (λ e. Makes e (client_event (plain G.meaning self.old))) }
        ensures sent { OnOk result (self.new.sent_heard ≡ self.old.sent_heard) }
    {
        let index = self.next;
        let _count = self.frames.len();
        match self.next_frame(alloc)? {
            None => Ok(nothing(alloc)),
            Some(frame) => {
                self.next = index + 1;
                frame_comes(alloc, self, index as u64, &frame)
            }
        }
    }
}
