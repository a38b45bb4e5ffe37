//! A secondary.

ghost use Rattle.std.specs.Prelude.{◌≡◌, ◌≤◌, ◌++◌, true, false, [], is_some, IsErr, IsSome, IfOk, OnOk, OnErr, None, Some, fold};
ghost use Rattle.std.specs.Option.{option_map};
ghost use Rattle.tcp_track.specs.Tracking.{nothing_tracked};
ghost use Rattle.node_secondary.specs.Node.{is_under_way, node_of};
ghost use Rattle.frame_mirror.specs.Inboxes.{AreAccepted};
ghost use Rattle.node_parts.specs.Counts.{HasCounts};
ghost use Rattle.node_parts.specs.Outboxes.{TakesFirst};
ghost use Rattle.node_secondary.specs.declared.under_way.UnderWay.TheVariants as under_way;
ghost use Rattle.node_secondary.specs.Inside.{turn_in};
ghost use Rattle.node_secondary.specs.Steps.{gate_for, secondary_ingress, secondary_report, secondary_turn, survive_as, taken_by, turned_by};
ghost use Rattle.node_secondary.specs.Survivor.{hears, second_of};
ghost use Rattle.node_secondary.specs.Turns.{frame_taken, make_turn};

use crate::surviving::{enter, turn_alone};
use crate::telling::tell_all;
use crate::under_way::UnderWay;
use colo_base::{Cause, Frames, NoMemory};
use colo_wire::{Gate, Turned};
use frame_mirror::Inbox;
use node_parts::{Outbox, count_parts, make_turn};
use out_compare::Compare;
use seq_rewriter::Numbers;
use state_wire::Guest;
use std::alloc::Global;
use std::marker::Model;
use std::mem;
use tcp_track::Tracker;

/// The secondary of a pair, over a guest. It hears its primary, and releases nothing; from the
/// report of the primary's stop on it is alone, and releases what its own guest sends.
///
/// After `NoMemory` it is spent: each later call that can answer `NoMemory` does. A call that
/// answers so releases nothing.
#[derive(Drop)]
pub struct Secondary<G: Guest + Drop> {
    pub(crate) guest: G,
    pub(crate) inbox: Inbox,
    pub(crate) lines: Tracker,
    pub(crate) numbers: Numbers,
    pub(crate) waits: Outbox,
    pub(crate) committed: u32,
    pub(crate) under_way: UnderWay,
    pub(crate) alone: Option<Compare>,
    pub(crate) spent: bool,
    pub(crate) alloc: Global,
}

impl<G: Guest + Drop> Model for Secondary<G> {
    ghost use Rattle.std.specs.Prelude.{◌≡◌};
    ghost use Rattle.frame_mirror.specs.Inboxes.{AreAccepted};
    ghost use Rattle.node_parts.specs.Counts.{HasCounts};
    ghost use Rattle.node_secondary.specs.Inside.{IsLone, comparing_of};
    ghost use Rattle.node_secondary.specs.Node.{Held, IsLoadable};

    ghost Value = { Held G };

    ghost view = { λ s. record {
      guest = s.guest;
      inbox = s.inbox;
      lines = s.lines;
      numbers = s.numbers;
      waits = s.waits;
      committed = s.committed;
      under_way = s.under_way;
      alone = comparing_of s.alone;
      spent = s.spent;
    } };

    ghost invariant = { λ s. AreAccepted s.inbox
        × IsLoadable (G.meaning s.guest).kind s.under_way × HasCounts (G.meaning s.guest)
        × IsLone s.alone s.waits s.spent };
}

impl<G: Guest + Drop> Secondary<G> {
    /// A secondary over this guest, which has heard and sent nothing.
    pub fn new(alloc: Global, guest: G) -> Result<Secondary<G>, NoMemory>
        ensures { IfOk result (λ s. s ≡ record {
          guest = guest;
          inbox = [];
          lines = nothing_tracked;
          numbers = [];
          waits = [];
          committed = 0;
          under_way = under_way.Nothing;
          alone = None;
          spent = false;
        }) }
    {
        count_parts(&guest);
        let inbox = Inbox::new(alloc)?;
        Ok(Secondary {
            guest,
            inbox,
            lines: Tracker::new(alloc),
            numbers: Numbers::new(alloc),
            waits: Outbox::new(alloc),
            committed: 0,
            under_way: UnderWay::Nothing,
            alone: None,
            spent: false,
            alloc,
        })
    }

    /// Makes a turn: the clock goes on by `d`; where `i` holds and the guest can receive, it is
    /// given the oldest frame that waits; at most `b` block requests are served, and `n` steps are
    /// made. Each frame that the guest sends and that counts goes to the primary as a message, and
    /// none is released; a node alone tells nothing, and releases to `out` what its guest sends. No
    /// checkpoint is captured.
    #[tactic(auto, using(crate::proofs::LoneLemmas::lone_spent))]
    pub fn turn(
        &mut self,
        d: u64,
        i: bool,
        b: u32,
        n: u32,
        out: &mut Frames,
    ) -> Result<(Turned, Option<(u32, Cause)>), NoMemory>
        requires requests { b ≤ 256 }
        requires steps { n ≤ 100000 }
        ensures after { OnOk result (second_of G.meaning self.new
            ≡ (secondary_turn (second_of G.meaning self.old)
            (record { ticks = d; wants = i; requests = b; steps = n })).after) }
        ensures turned { IfOk result (λ r. r.0 ≡ turned_by (second_of G.meaning self.old)
            (record { ticks = d; wants = i; requests = b; steps = n })) }
        ensures capture { IfOk result (λ r. r.1 ≡ None) }
        ensures released { OnOk result (out.new
            ≡ out.old ++ (secondary_turn (second_of G.meaning self.old)
            (record { ticks = d; wants = i; requests = b; steps = n })).out) }
        ensures unreleased { OnErr result (out.new ≡ out.old) }
        ensures spent { self.old.spent ≡ true → IsErr result }
        ensures failed { OnErr result (self.new.spent ≡ true) }
        ensures going { OnOk result (self.new.spent ≡ false) }
    {
        if self.spent {
            return Err(NoMemory);
        }
        match self.run((d, i, b, n), out) {
            Ok(index) => Ok((Turned::Made(index), None)),
            Err(NoMemory) => {
                self.spent = true;
                Err(NoMemory)
            }
        }
    }

    /// Makes a turn, alone or not. It gives the index of the frame that the guest was given.
    #[tactic(auto, using(crate::proofs::HearingLemmas::same_loadable, crate::proofs::LoneLemmas::lone_on, crate::proofs::LoneLemmas::lone_going))]
    fn run(
        &mut self,
        turn: (u64, bool, u32, u32),
        out: &mut Frames,
    ) -> Result<Option<u64>, NoMemory>
        requires going { self.old.spent ≡ false }
        requires requests { turn.2 ≤ 256 }
        requires steps { turn.3 ≤ 100000 }
        ensures after { OnOk result (second_of G.meaning self.new
            ≡ (secondary_turn (second_of G.meaning self.old) (turn_in turn)).after) }
        ensures index { IfOk result (λ index. index ≡ option_map (λ w. w.index)
            (taken_by (second_of G.meaning self.old) (turn_in turn))) }
        ensures released { OnOk result (out.new
            ≡ out.old ++ (secondary_turn (second_of G.meaning self.old) (turn_in turn)).out) }
        ensures unreleased { OnErr result (out.new ≡ out.old) }
        ensures going { OnOk result (self.new.spent ≡ false) }
    {
        match &mut self.alone {
            None => self.make_turn(turn),
            Some(compare) => {
                match turn_alone(
                    self.alloc,
                    &mut self.guest,
                    &mut self.inbox,
                    compare,
                    turn,
                    out,
                ) {
                    Ok(index) => Ok(index),
                    Err(NoMemory) => {
                        self.spent = true;
                        Err(NoMemory)
                    }
                }
            }
        }
    }

    /// Makes a turn of the guest, follows what it sends, and puts messages about it. It gives the
    /// index of the frame that the guest was given.
    #[tactic(auto, using(crate::proofs::HearingLemmas::same_loadable, crate::proofs::LoneLemmas::lone_by))]
    fn make_turn(&mut self, turn: (u64, bool, u32, u32)) -> Result<Option<u64>, NoMemory>
        requires hears { self.old.alone ≡ None }
        requires requests { turn.2 ≤ 256 }
        requires steps { turn.3 ≤ 100000 }
        ensures after { OnOk result (node_of G.meaning self.new ≡ make_turn
            (node_of G.meaning self.old) (turn_in turn)) }
        ensures index { IfOk result (λ index. index ≡ option_map (λ w. w.index)
            (frame_taken (node_of G.meaning self.old) (turn_in turn))) }
        ensures hears { self.new.alone ≡ None }
        ensures still { self.new.spent ≡ self.old.spent }
    {
        let made = make_turn(
            self.alloc,
            &mut self.guest,
            &mut self.inbox,
            &self.lines,
            turn,
        )?;
        tell_all(self.alloc, &made.sent, &mut self.lines, &mut self.waits)?;
        Ok(made.index)
    }

    /// Hears that the primary stopped: from now on the node is alone, and all that its lines hold
    /// is released to `out`, each connection under the number that is kept for its client. What was
    /// heard of a checkpoint that isn't whole is dropped, and so are the messages that wait. A
    /// second report does nothing.
    #[tactic(auto, using(crate::proofs::LoneLemmas::lone_spent))]
    pub fn report(&mut self, out: &mut Frames) -> Result<(), NoMemory>
        ensures after { OnOk result (second_of G.meaning self.new
            ≡ (secondary_report (second_of G.meaning self.old)).after) }
        ensures released { OnOk result (out.new
            ≡ out.old ++ (secondary_report (second_of G.meaning self.old)).out) }
        ensures alone { OnOk result (IsSome self.new.alone) }
        ensures unreleased { OnErr result (out.new ≡ out.old) }
        ensures spent { self.old.spent ≡ true → IsErr result }
        ensures failed { OnErr result (self.new.spent ≡ true) }
        ensures going { OnOk result (self.new.spent ≡ false) }
    {
        if self.spent {
            return Err(NoMemory);
        }
        if self.alone.is_some() {
            return Ok(());
        }
        match self.survive(out) {
            Ok(()) => Ok(()),
            Err(NoMemory) => {
                self.spent = true;
                Err(NoMemory)
            }
        }
    }

    /// Becomes the survivor.
    #[tactic(auto, unfolding(crate::specs::Steps::survive_as))]
    fn survive(&mut self, out: &mut Frames) -> Result<(), NoMemory>
        requires hears { self.old.alone ≡ None }
        ensures after { OnOk result (second_of G.meaning self.new
            ≡ (survive_as (node_of G.meaning self.old)).after) }
        ensures released { OnOk result (out.new
            ≡ out.old ++ (survive_as (node_of G.meaning self.old)).out) }
        ensures alone { OnOk result (IsSome self.new.alone) }
        ensures unreleased { OnErr result (out.new ≡ out.old) }
        ensures still { self.new.spent ≡ self.old.spent }
    {
        let lines = mem::replace(&mut self.lines, Tracker::new(self.alloc));
        let numbers = mem::replace(&mut self.numbers, Numbers::new(self.alloc));
        let compare = Compare::survive(self.alloc, lines, numbers, out)?;
        self.under_way = UnderWay::Nothing;
        self.waits.clear();
        self.alone = Some(compare);
        Ok(())
    }

    /// Takes a client's frame with this index in the client stream, once the node is alone: one
    /// that is accepted and finds room waits; an ARP request for the guest is answered to `out`;
    /// any other is dropped.
    #[tactic(auto, using(crate::proofs::LoneLemmas::lone_spent))]
    pub fn ingress(&mut self, index: u64, frame: &[u8], out: &mut Frames) -> Result<Gate, NoMemory>
        requires alone { IsSome self.old.alone }
        ensures after { OnOk result (second_of G.meaning self.new
            ≡ (secondary_ingress (second_of G.meaning self.old) index frame.now).after) }
        ensures answer { IfOk result (λ gate. Some gate
            ≡ gate_for (second_of G.meaning self.old) index frame.now) }
        ensures released { OnOk result (out.new
            ≡ out.old ++ (secondary_ingress (second_of G.meaning self.old) index frame.now).out) }
        ensures unreleased { OnErr result (out.new ≡ out.old) }
        ensures spent { self.old.spent ≡ true → IsErr result }
        ensures failed { OnErr result (self.new.spent ≡ true) }
        ensures going { OnOk result (self.new.spent ≡ false) }
    {
        if self.spent {
            return Err(NoMemory);
        }
        match self.enter(index, frame, out) {
            Ok(gate) => Ok(gate),
            Err(NoMemory) => {
                self.spent = true;
                Err(NoMemory)
            }
        }
    }

    /// Takes a client's frame, alone.
    #[tactic(auto, using(crate::proofs::LoneLemmas::lone_on))]
    fn enter(&mut self, index: u64, frame: &[u8], out: &mut Frames) -> Result<Gate, NoMemory>
        requires alone { IsSome self.old.alone }
        requires going { self.old.spent ≡ false }
        ensures after { OnOk result (second_of G.meaning self.new
            ≡ (secondary_ingress (second_of G.meaning self.old) index frame.now).after) }
        ensures answer { IfOk result (λ gate. Some gate
            ≡ gate_for (second_of G.meaning self.old) index frame.now) }
        ensures released { OnOk result (out.new
            ≡ out.old ++ (secondary_ingress (second_of G.meaning self.old) index frame.now).out) }
        ensures unreleased { OnErr result (out.new ≡ out.old) }
        ensures still { self.new.spent ≡ self.old.spent }
    {
        match &mut self.alone {
            None => unreachable!(),
            Some(compare) => enter(self.alloc, compare, &mut self.inbox, index, frame, out),
        }
    }

    /// The oldest message to the primary that waits, spelled: `None` exactly where none waits; none
    /// does at a node alone. It takes no memory.
    #[tactic(auto, using(crate::proofs::LoneLemmas::lone_taken, crate::proofs::LoneLemmas::lone_silent))]
    pub fn outgoing(&mut self) -> Option<Vec<u8>>
        ensures message { TakesFirst self.old.waits self.new.waits result }
        ensures rest { self.new ≡ record self.old { waits = self.new.waits } }
        ensures alone { IsSome self.old.alone → self.old.waits ≡ [] }
    {
        self.waits.take()
    }

    /// Whether a checkpoint has begun that isn't whole yet. The guest has as many pages and sectors
    /// as its kind says, and the frames that wait were accepted.
    pub fn is_hearing(&self) -> bool
        ensures value { result ≡ is_under_way self.now.under_way }
        ensures counts { HasCounts (G.meaning self.now.guest) }
        ensures accepted { AreAccepted self.now.inbox }
    {
        match &self.under_way {
            UnderWay::Nothing => false,
            UnderWay::Begun | UnderWay::Heard(_) => true,
        }
    }

    /// Whether the primary's stop was reported, so that the node is alone.
    pub fn is_alone(&self) -> bool
        ensures { result ≡ is_some self.now.alone }
    {
        self.alone.is_some()
    }

    /// The guest.
    pub fn guest(&self) -> &G
        ensures { result.now ≡ self.now.guest }
    {
        &self.guest
    }
}
