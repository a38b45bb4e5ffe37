//! A turn of a primary, the checkpoint that is asked for, and the report of the secondary's stop.

ghost use Rattle.std.specs.Prelude.{◌≡◌, ◌≤◌, ◌++◌, false, fold, IfOk, OnOk, OnErr};
ghost use Rattle.std.specs.Option.{option_map};
ghost use Rattle.shared_definitions.specs.Begins.{Begins};
ghost use Rattle.node_primary.specs.Answers.{asked_number, turned_by};
ghost use Rattle.node_primary.specs.Inside.{AreSound, plain, turn_in};
ghost use Rattle.node_primary.specs.Steps.{follow_all, followed, frame_taken, primary_ask, primary_report, primary_turn};

use crate::parts::Parts;
use colo_base::{Cause, Frames, NoMemory};
use colo_wire::Turned;
use node_parts::make_turn;
use node_release::{follow, follow_telling};
use state_wire::Guest;
use std::alloc::Global;

impl<G: Guest + Drop> Parts<G> {
    /// Follows what the guest sent, and tells new numbers, unless the node is alone.
    fn follow(&mut self, alloc: Global, sent: &Frames) -> Result<(), NoMemory>
        requires sound { AreSound G.meaning self.old }
        requires going { self.old.compare.spent ≡ false }
        ensures after { OnOk result (plain G.meaning self.new
            ≡ follow_all (plain G.meaning self.old) sent.now) }
        ensures sound { AreSound G.meaning self.new }
        ensures going { OnOk result (self.new.compare.spent ≡ false) }
        ensures rest { self.new.awaits ≡ self.old.awaits }
    {
        if self.compare.is_alone() {
            follow(&mut self.compare, sent)
        } else {
            follow_telling(alloc, &mut self.compare, sent, &mut self.waits)
        }
    }

    /// Makes a turn of the guest, and follows it. It gives the index of the frame that the guest
    /// was given.
    fn run(&mut self, alloc: Global, turn: (u64, bool, u32, u32)) -> Result<Option<u64>, NoMemory>
        requires sound { AreSound G.meaning self.old }
        requires going { self.old.compare.spent ≡ false }
        requires awake { self.old.awaits ≡ false }
        requires requests { turn.2 ≤ 256 }
        requires steps { turn.3 ≤ 100000 }
        ensures after { OnOk result (plain G.meaning self.new
            ≡ followed (plain G.meaning self.old) (turn_in turn)) }
        ensures index { IfOk result (λ index. index ≡ option_map (λ w. w.index)
            (frame_taken (plain G.meaning self.old) (turn_in turn))) }
        ensures sound { AreSound G.meaning self.new }
        ensures going { OnOk result (self.new.compare.spent ≡ false) }
    {
        let made = make_turn(
            alloc,
            &mut self.guest,
            &mut self.inbox,
            self.compare.lines(),
            turn,
        )?;
        self.follow(alloc, &made.sent)?;
        Ok(made.index)
    }

    /// Makes a turn, unless an acknowledgement is awaited.
    pub fn turn(
        &mut self,
        alloc: Global,
        turn: (u64, bool, u32, u32),
        out: &mut Frames,
    ) -> Result<(Turned, Option<(u32, Cause)>), NoMemory>
        requires sound { AreSound G.meaning self.old }
        requires going { self.old.compare.spent ≡ false }
        requires requests { turn.2 ≤ 256 }
        requires steps { turn.3 ≤ 100000 }
        ensures after { OnOk result (plain G.meaning self.new
            ≡ (primary_turn (plain G.meaning self.old) (turn_in turn)).after) }
        ensures turned { IfOk result (λ r. r.0
            ≡ turned_by (plain G.meaning self.old) (turn_in turn)) }
        ensures capture { IfOk result (λ r. r.1
            ≡ (primary_turn (plain G.meaning self.old) (turn_in turn)).capture) }
        ensures out { OnOk result (out.new
            ≡ out.old ++ (primary_turn (plain G.meaning self.old) (turn_in turn)).out) }
        ensures begins { OnErr result (Begins out.old out.new) }
        ensures sound { AreSound G.meaning self.new }
        ensures going { OnOk result (self.new.compare.spent ≡ false) }
    {
        if self.awaits {
            return Ok((Turned::Paused, None));
        }
        let index = self.run(alloc, turn)?;
        let capture = self.settle(alloc, true, out)?;
        Ok((Turned::Made(index), capture))
    }

    /// Captures the checkpoint that is asked for, where none is awaited and the node isn't alone.
    pub fn ask(&mut self, alloc: Global) -> Result<Option<u32>, NoMemory>
        requires sound { AreSound G.meaning self.old }
        ensures after { OnOk result (plain G.meaning self.new
            ≡ primary_ask (plain G.meaning self.old)) }
        ensures answer { IfOk result (λ e. e ≡ asked_number (plain G.meaning self.old)) }
        ensures sound { AreSound G.meaning self.new }
        ensures spent { self.new.compare.spent ≡ self.old.compare.spent }
    {
        if self.awaits || self.compare.is_alone() {
            return Ok(None);
        }
        let e = self.capture(alloc)?;
        Ok(Some(e))
    }

    /// Hears that the secondary stopped.
    pub fn report(&mut self, alloc: Global, out: &mut Frames) -> Result<(), NoMemory>
        requires sound { AreSound G.meaning self.old }
        requires going { self.old.compare.spent ≡ false }
        ensures after { OnOk result (plain G.meaning self.new
            ≡ (primary_report (plain G.meaning self.old)).after) }
        ensures out { OnOk result (out.new
            ≡ out.old ++ (primary_report (plain G.meaning self.old)).out) }
        ensures begins { OnErr result (Begins out.old out.new) }
        ensures sound { AreSound G.meaning self.new }
        ensures going { OnOk result (self.new.compare.spent ≡ false) }
    {
        if self.compare.is_alone() {
            return Ok(());
        }
        self.compare.alone();
        self.awaits = false;
        self.waits.clear();
        let capture = self.settle(alloc, false, out)?;
        let _ = capture;
        Ok(())
    }
}
