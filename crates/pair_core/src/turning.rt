//! Turns of both nodes.

ghost use Rattle.std.specs.Prelude.{◌≡◌, ◌≤◌, IfOk, OnOk};
ghost use Rattle.node_primary.specs.Inside.{turn_in};
ghost use Rattle.pair_core.specs.Events.{primary_event, primary_makes, secondary_event, secondary_makes};
ghost use Rattle.pair_core.specs.Inside.{Makes, plain};

use crate::event::{Event, capture_marks, nothing, quiet, turn_answer};
use crate::node::{is_primary, is_secondary};
use crate::parts::Parts;
use colo_base::{Frames, NoMemory};
use state_wire::Guest;
use std::alloc::Global;

impl<G: Guest + Drop> Parts<G> {
    /// The primary makes a turn.
    #[tactic(auto, unfolding(crate::specs::Events::primary_makes))]
    fn primary_makes(
        &mut self,
        alloc: Global,
        turn: (u64, bool, u32, u32),
    ) -> Result<Event, NoMemory>
        requires requests { turn.2 ≤ 256 }
        requires steps { turn.3 ≤ 100000 }
        ensures after { OnOk result (plain G.meaning self.new
            ≡ (primary_makes (plain G.meaning self.old) (turn_in turn)).after) }
        ensures made { IfOk result (λ e. Makes e
            (primary_makes (plain G.meaning self.old) (turn_in turn))) }
        ensures sent { OnOk result (self.new.sent_heard ≡ self.old.sent_heard) }
    {
        let mut out = Frames::new(alloc);
        let (turned, capture) = self.first.turn(turn.0, turn.1, turn.2, turn.3, &mut out)?;
        self.send_down()?;
        let marks = capture_marks(alloc, capture)?;
        Ok(Event {
            answer: turn_answer(turned, out.len() as u64),
            marks,
            released: out,
            wire: Vec::new(alloc),
        })
    }

    /// The secondary makes a turn.
    #[tactic(auto, unfolding(crate::specs::Events::secondary_makes))]
    fn secondary_makes(
        &mut self,
        alloc: Global,
        turn: (u64, bool, u32, u32),
    ) -> Result<Event, NoMemory>
        requires requests { turn.2 ≤ 256 }
        requires steps { turn.3 ≤ 100000 }
        ensures after { OnOk result (plain G.meaning self.new
            ≡ (secondary_makes (plain G.meaning self.old) (turn_in turn)).after) }
        ensures made { IfOk result (λ e. Makes e
            (secondary_makes (plain G.meaning self.old) (turn_in turn))) }
        ensures sent { OnOk result (self.new.sent_heard ≡ self.old.sent_heard) }
    {
        let mut out = Frames::new(alloc);
        let (turned, _capture) = self.second.turn(turn.0, turn.1, turn.2, turn.3, &mut out)?;
        self.send_up()?;
        let answer = turn_answer(turned, out.len() as u64);
        Ok(quiet(alloc, answer, out))
    }

    /// A turn of the primary, unless it stopped.
    pub fn primary_event(
        &mut self,
        alloc: Global,
        turn: (u64, bool, u32, u32),
    ) -> Result<Event, NoMemory>
        requires requests { turn.2 ≤ 256 }
        requires steps { turn.3 ≤ 100000 }
        ensures after { OnOk result (plain G.meaning self.new
            ≡ (primary_event (plain G.meaning self.old) (turn_in turn)).after) }
        ensures made { IfOk result (λ e. Makes e
            (primary_event (plain G.meaning self.old) (turn_in turn))) }
        ensures sent { OnOk result (self.new.sent_heard ≡ self.old.sent_heard) }
    {
        if is_primary(self.stopped) {
            return Ok(nothing(alloc));
        }
        self.primary_makes(alloc, turn)
    }

    /// A turn of the secondary, unless it stopped.
    pub fn secondary_event(
        &mut self,
        alloc: Global,
        turn: (u64, bool, u32, u32),
    ) -> Result<Event, NoMemory>
        requires requests { turn.2 ≤ 256 }
        requires steps { turn.3 ≤ 100000 }
        ensures after { OnOk result (plain G.meaning self.new
            ≡ (secondary_event (plain G.meaning self.old) (turn_in turn)).after) }
        ensures made { IfOk result (λ e. Makes e
            (secondary_event (plain G.meaning self.old) (turn_in turn))) }
        ensures sent { OnOk result (self.new.sent_heard ≡ self.old.sent_heard) }
    {
        if is_secondary(self.stopped) {
            return Ok(nothing(alloc));
        }
        self.secondary_makes(alloc, turn)
    }
}
