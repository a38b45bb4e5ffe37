//! A connection in memory, over a script of what is to come.

ghost use Rattle.std.specs.Prelude.{◌≡◌, ◌<◌, ◌≤◌, ◌↔◌, [], ◌∷◌, ◌++◌, true, false, IsTrue, IsErr, OnOk, OnErr, IfOk, length};
ghost use Rattle.colo_base.specs.Count.{incremented};
ghost use Rattle.colo_base.specs.FailurePlan.{empty_plan, plan_failure, count_call, is_next_failing};
ghost use Rattle.colo_base.specs.InMemory.{heard_of, link_state, receive};
ghost use Rattle.colo_base.specs.Link.{Hears, LinkGoesOn};

use crate::failure_plan::FailurePlan;
use crate::incoming::Incoming;
use crate::{Failed, Heard, Link, NoMemory};
use std::alloc::Global;
use std::marker::Model;

/// What came at a receive.
#[derive(Drop)]
enum Given {
    Bytes(Vec<u8>),
    Quiet,
    Ended,
}

/// An answer of a receive, as it is kept, with the room that was offered.
#[derive(Drop)]
struct Reply {
    room: usize,
    given: Given,
}

/// A connection over a list of pieces and quiet answers that are to come. It keeps its answers and
/// what it sends.
#[derive(Drop)]
pub struct MemoryLink {
    coming: Incoming,
    answers: Vec<Reply>,
    sent: Vec<u8>,
    opened: bool,
    plan: FailurePlan,
    open_faults: u64,
    receive_faults: u64,
    send_faults: u64,
    quiets: u64,
}

impl Model for MemoryLink {
    ghost use Rattle.std.specs.Prelude.{map};
    ghost use Rattle.colo_base.specs.InMemory.{LinkParts, answer_of};

    ghost Value = { LinkParts };

    ghost view = { λ l. record {
      coming = l.coming;
      answers = map answer_of l.answers.items;
      sent = l.sent.items;
      opened = l.opened;
      plan = l.plan;
      open_faults = l.open_faults;
      receive_faults = l.receive_faults;
      send_faults = l.send_faults;
      quiets = l.quiets;
    } };
}

impl MemoryLink {
    /// A link to which nothing comes, of which no call is to fail.
    pub fn new(alloc: Global) -> MemoryLink
        ensures coming { result.coming ≡ [] }
        ensures answers { result.answers ≡ [] }
        ensures sent { result.sent ≡ [] }
        ensures opened { result.opened ≡ false }
        ensures plan { result.plan ≡ empty_plan }
        ensures open_faults { result.open_faults ≡ 0 }
        ensures receive_faults { result.receive_faults ≡ 0 }
        ensures send_faults { result.send_faults ≡ 0 }
        ensures quiets { result.quiets ≡ 0 }
    {
        MemoryLink {
            coming: Incoming::new(alloc),
            answers: Vec::new(alloc),
            sent: Vec::new(alloc),
            opened: false,
            plan: FailurePlan::new(alloc),
            open_faults: 0,
            receive_faults: 0,
            send_faults: 0,
            quiets: 0,
        }
    }

    /// Adds a piece of at least one byte that is to come. One receive takes as many bytes of the
    /// oldest piece as there is room for, and of no other. After `NoMemory` the link is as it was.
    pub fn piece(&mut self, bytes: &[u8]) -> Result<(), NoMemory>
        requires { 0 < length bytes.now }
        ensures ok { OnOk result (self.new
            ≡ record self.old { coming = self.old.coming ++ bytes.now ∷ [] }) }
        ensures err { OnErr result (self.new ≡ self.old) }
    {
        self.coming.add(bytes)
    }

    /// Adds one quiet answer that is to come. After `NoMemory` the link is as it was.
    pub fn quiet(&mut self) -> Result<(), NoMemory>
        ensures ok { OnOk result (self.new
            ≡ record self.old { coming = self.old.coming ++ [] ∷ [] }) }
        ensures err { OnErr result (self.new ≡ self.old) }
    {
        self.coming.add(&[])
    }

    /// The bytes sent.
    pub fn sent(&self) -> &[u8]
        ensures { result.now ≡ self.now.sent }
    {
        self.sent.as_slice()
    }

    /// The call of the trait with this number fails, and does nothing. The first is 1. After
    /// `NoMemory` the link is as it was.
    pub fn fail(&mut self, call: u64) -> Result<(), NoMemory>
        ensures ok { OnOk result (self.new
            ≡ record self.old { plan = plan_failure self.old.plan call }) }
        ensures err { OnErr result (self.new ≡ self.old) }
    {
        self.plan.fail(call)
    }

    /// Takes the next that is to come, and keeps the answer first. After `NoMemory` the link is as
    /// it was.
    fn hear(&mut self, into: &mut [u8]) -> Result<Heard, NoMemory>
        requires { 0 < length into.old }
        ensures heard { IfOk result (λ heard. heard ≡ heard_of self.old.coming (length into.old)) }
        ensures hears { IfOk result (λ heard. Hears (link_state self.old)
            (link_state self.new) into.new heard) }
        ensures ok { OnOk result (self.new ≡ receive self.old (length into.old)) }
        ensures quiets { self.old.quiets ≤ self.new.quiets }
        ensures err { OnErr result (self.new ≡ self.old) }
    {
        let room = into.len();
        let Some(left) = self.coming.oldest() else {
            self.answers.push(Reply {
                room,
                given: Given::Ended,
            })?;
            return Ok(Heard::Ended);
        };
        if left.is_empty() {
            self.answers.push(Reply {
                room,
                given: Given::Quiet,
            })?;
            self.quiets = self.quiets.saturating_add(1);
            self.coming.pass(0);
            return Ok(Heard::Quiet);
        }
        let count = left.len().min(room);
        let taken = &left[..count];
        into[..count].copy_from_slice(taken);
        let copy = taken.to_vec(*self.sent.allocator())?;
        self.answers.push(Reply {
            room,
            given: Given::Bytes(copy),
        })?;
        self.coming.pass(count);
        Ok(Heard::Took(count))
    }
}

impl Link for MemoryLink {
    ghost use Rattle.colo_base.specs.InMemory.{link_state};

    ghost state = { link_state };

    /// Opens the link, at whatever address. `Failed` exactly where the call was to fail.
    fn open(&mut self, _address: &str) -> Result<(), Failed>
        ensures planned { IsErr result ↔ IsTrue (is_next_failing self.old.plan) }
        ensures ok { OnOk result (self.new
            ≡ record self.old { opened = true; plan = count_call self.old.plan }) }
        ensures err { OnErr result (self.new
            ≡ record self.old {
              plan = count_call self.old.plan;
              open_faults = incremented self.old.open_faults;
            }) }
        ensures goes_on { LinkGoesOn (link_state self.old) (link_state self.new) }
    {
        if self.plan.count_call() {
            self.open_faults = self.open_faults.saturating_add(1);
            return Err(Failed);
        }
        self.opened = true;
        Ok(())
    }

    /// Takes the next that is to come: `Ended` exactly where nothing is. A call that was to fail is
    /// `Failed`, as is one for which there is no memory; they take nothing.
    fn receive(&mut self, into: &mut [u8]) -> Result<Heard, Failed>
        requires opened { IsTrue self.old.opened }
        requires room { 0 < length into.old }
        ensures planned { IsTrue (is_next_failing self.old.plan) → IsErr result }
        ensures heard { IfOk result (λ heard. heard ≡ heard_of self.old.coming (length into.old)) }
        ensures hears { IfOk result (λ heard. Hears (link_state self.old)
            (link_state self.new) into.new heard) }
        ensures ok { OnOk result (self.new
            ≡ record (receive self.old (length into.old)) { plan = count_call self.old.plan }) }
        ensures err { OnErr result (self.new
            ≡ record self.old {
              plan = count_call self.old.plan;
              receive_faults = incremented self.old.receive_faults;
            }) }
        ensures goes_on { LinkGoesOn (link_state self.old) (link_state self.new) }
    {
        if !self.plan.count_call() {
            if let Ok(heard) = self.hear(into) {
                return Ok(heard);
            }
        }
        self.receive_faults = self.receive_faults.saturating_add(1);
        Err(Failed)
    }

    /// Keeps the bytes. A call that was to fail is `Failed`, as is one for which there is no
    /// memory; they keep nothing.
    fn send(&mut self, bytes: &[u8]) -> Result<(), Failed>
        requires { IsTrue self.old.opened }
        ensures planned { IsTrue (is_next_failing self.old.plan) → IsErr result }
        ensures ok { OnOk result (self.new
            ≡ record self.old {
              sent = self.old.sent ++ bytes.now;
              plan = count_call self.old.plan;
            }) }
        ensures err { OnErr result (self.new
            ≡ record self.old {
              plan = count_call self.old.plan;
              send_faults = incremented self.old.send_faults;
            }) }
        ensures goes_on { LinkGoesOn (link_state self.old) (link_state self.new) }
    {
        if !self.plan.count_call() && self.sent.extend_from_slice(bytes).is_ok() {
            return Ok(());
        }
        self.send_faults = self.send_faults.saturating_add(1);
        Err(Failed)
    }
}
