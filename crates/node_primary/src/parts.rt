//! The parts of a primary, and what the calls have in common: settling, and a capture.

ghost use Rattle.std.specs.Prelude.{◌≡◌, ◌++◌, false, IfOk, OnOk, OnErr};
ghost use Rattle.shared_definitions.specs.Begins.{Begins};
ghost use Rattle.node_primary.specs.Inside.{AreSound, plain};
ghost use Rattle.node_primary.specs.Steps.{capture, next_capture, settle_node};

use checkpoint_capture::put_capture;
use colo_base::{Cause, Frames, NoMemory};
use frame_mirror::Inbox;
use node_parts::Outbox;
use node_release::cause_of;
use out_compare::Compare;
use state_wire::Guest;
use std::alloc::Global;

/// The parts of a primary.
#[derive(Drop)]
pub(crate) struct Parts<G: Guest + Drop> {
    pub guest: G,
    pub inbox: Inbox,
    pub compare: Compare,
    pub waits: Outbox,
    pub captures: u32,
    pub awaits: bool,
}

impl<G: Guest + Drop> Parts<G> {
    /// Captures a checkpoint, and gives its number: all of its messages wait then.
    #[tactic(auto, unfolding(crate::specs::Steps::capture))]
    pub fn capture(&mut self, alloc: Global) -> Result<u32, NoMemory>
        requires sound { AreSound G.meaning self.old }
        ensures after { OnOk result (plain G.meaning self.new
            ≡ capture (plain G.meaning self.old)) }
        ensures number { IfOk result (λ e. e ≡ next_capture self.old.captures) }
        ensures sound { AreSound G.meaning self.new }
        ensures spent { self.new.compare.spent ≡ self.old.compare.spent }
    {
        self.compare.captured();
        let e = self.captures.wrapping_add(1);
        put_capture(
            alloc,
            &self.guest,
            &self.inbox,
            self.compare.lines(),
            self.compare.numbers(),
            e,
            &mut self.waits,
        )?;
        self.captures = e;
        self.awaits = true;
        Ok(e)
    }

    /// Ends an event: releases what both nodes agree on, and captures a checkpoint where there is a
    /// cause.
    #[tactic(auto, unfolding(crate::specs::Steps::settle_node))]
    pub fn settle(
        &mut self,
        alloc: Global,
        is_turn: bool,
        out: &mut Frames,
    ) -> Result<Option<(u32, Cause)>, NoMemory>
        requires sound { AreSound G.meaning self.old }
        ensures after { OnOk result (plain G.meaning self.new
            ≡ (settle_node (plain G.meaning self.old) is_turn).after) }
        ensures capture { IfOk result (λ capture. capture
            ≡ (settle_node (plain G.meaning self.old) is_turn).capture) }
        ensures out { OnOk result (out.new
            ≡ out.old ++ (settle_node (plain G.meaning self.old) is_turn).out) }
        ensures begins { OnErr result (Begins out.old out.new) }
        ensures sound { AreSound G.meaning self.new }
        ensures going { OnOk result (self.new.compare.spent ≡ false) }
    {
        let need = self.compare.settle(is_turn, out)?;
        match cause_of(need) {
            None => Ok(None),
            Some(cause) => {
                let e = self.capture(alloc)?;
                Ok(Some((e, cause)))
            }
        }
    }
}
