//! The report of a stop, and a checkpoint that is asked for.

ghost use Rattle.std.specs.Prelude.{◌≡◌, IfOk, OnOk};
ghost use Rattle.pair_core.specs.Events.{ask_event, primary_asks, primary_survives, report_event, secondary_survives};
ghost use Rattle.pair_core.specs.Inside.{Makes, plain};

use crate::event::{Event, ask_marks, nothing, quiet};
use crate::node::is_primary;
use crate::parts::Parts;
use colo_base::{Frames, NoMemory};
use replay_log::Answer;
use state_wire::Guest;
use std::alloc::Global;

impl<G: Guest + Drop> Parts<G> {
    /// The secondary hears that the primary stopped.
    #[tactic(auto, unfolding(crate::specs::Events::secondary_survives))]
    fn secondary_survives(&mut self, alloc: Global) -> Result<Event, NoMemory>
        ensures after { OnOk result (plain G.meaning self.new
            ≡ (secondary_survives (plain G.meaning self.old)).after) }
        ensures made { IfOk result (λ e. Makes e (secondary_survives (plain G.meaning self.old))) }
        ensures sent { OnOk result (self.new.sent_heard ≡ self.old.sent_heard) }
    {
        let mut out = Frames::new(alloc);
        self.second.report(&mut out)?;
        self.down.clear();
        self.up.clear();
        self.is_reported = true;
        let released = out.len() as u64;
        Ok(quiet(alloc, Answer::Reported { released }, out))
    }

    /// The primary hears that the secondary stopped.
    #[tactic(auto, unfolding(crate::specs::Events::primary_survives))]
    fn primary_survives(&mut self, alloc: Global) -> Result<Event, NoMemory>
        ensures after { OnOk result (plain G.meaning self.new
            ≡ (primary_survives (plain G.meaning self.old)).after) }
        ensures made { IfOk result (λ e. Makes e (primary_survives (plain G.meaning self.old))) }
        ensures sent { OnOk result (self.new.sent_heard ≡ self.old.sent_heard) }
    {
        let mut out = Frames::new(alloc);
        self.first.report(&mut out)?;
        self.down.clear();
        self.up.clear();
        self.is_reported = true;
        let released = out.len() as u64;
        Ok(quiet(alloc, Answer::Reported { released }, out))
    }

    /// The stop is reported to the node that survives.
    pub fn report_event(&mut self, alloc: Global) -> Result<Event, NoMemory>
        ensures after { OnOk result (plain G.meaning self.new
            ≡ (report_event (plain G.meaning self.old)).after) }
        ensures made { IfOk result (λ e. Makes e (report_event (plain G.meaning self.old))) }
        ensures sent { OnOk result (self.new.sent_heard ≡ self.old.sent_heard) }
    {
        if is_primary(self.stopped) {
            self.secondary_survives(alloc)
        } else {
            self.primary_survives(alloc)
        }
    }

    /// The primary is asked for a checkpoint.
    #[tactic(auto, unfolding(crate::specs::Events::primary_asks))]
    fn primary_asks(&mut self, alloc: Global) -> Result<Event, NoMemory>
        ensures after { OnOk result (plain G.meaning self.new
            ≡ (primary_asks (plain G.meaning self.old)).after) }
        ensures made { IfOk result (λ e. Makes e (primary_asks (plain G.meaning self.old))) }
        ensures sent { OnOk result (self.new.sent_heard ≡ self.old.sent_heard) }
    {
        let asked = self.first.ask()?;
        self.send_down()?;
        let answer = match asked {
            None => Answer::Nothing,
            Some(_) => Answer::Zero,
        };
        Ok(Event {
            answer,
            marks: ask_marks(alloc, asked)?,
            released: Frames::new(alloc),
            wire: Vec::new(alloc),
        })
    }

    /// A checkpoint is asked for; after a stop that does nothing.
    pub fn ask_event(&mut self, alloc: Global) -> Result<Event, NoMemory>
        ensures after { OnOk result (plain G.meaning self.new
            ≡ (ask_event (plain G.meaning self.old)).after) }
        ensures made { IfOk result (λ e. Makes e (ask_event (plain G.meaning self.old))) }
        ensures sent { OnOk result (self.new.sent_heard ≡ self.old.sent_heard) }
    {
        if self.stopped.is_some() {
            return Ok(nothing(alloc));
        }
        self.primary_asks(alloc)
    }
}
