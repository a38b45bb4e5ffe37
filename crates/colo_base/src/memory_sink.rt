//! A sink in memory.

ghost use Rattle.std.specs.Prelude.{◌≡◌, [], ◌∷◌, ◌++◌, IsTrue, IsErr, OnOk, OnErr};
ghost use Rattle.colo_base.specs.Count.{incremented};
ghost use Rattle.colo_base.specs.FailurePlan.{empty_plan, plan_failure, count_call, is_next_failing};
ghost use Rattle.colo_base.specs.InMemory.{sink_state};
ghost use Rattle.colo_base.specs.Sink.{SinkGoesOn};

use crate::failure_plan::FailurePlan;
use crate::{Failed, NoMemory, Sink};
use std::alloc::Global;
use std::marker::Model;

/// A sink that keeps the bytes put.
#[derive(Drop)]
pub struct MemorySink {
    bytes: Vec<u8>,
    plan: FailurePlan,
    faults: u64,
}

impl Model for MemorySink {
    ghost use Rattle.colo_base.specs.InMemory.{SinkParts};

    ghost Value = { SinkParts };

    ghost view = { λ s. record { bytes = s.bytes.items; plan = s.plan; faults = s.faults } };
}

impl MemorySink {
    /// A sink without bytes, of which no call is to fail.
    pub fn new(alloc: Global) -> MemorySink
        ensures { result ≡ record { bytes = []; plan = empty_plan; faults = 0 } }
    {
        MemorySink {
            bytes: Vec::new(alloc),
            plan: FailurePlan::new(alloc),
            faults: 0,
        }
    }

    /// The bytes put.
    pub fn bytes(&self) -> &[u8]
        ensures { result.now ≡ self.now.bytes }
    {
        self.bytes.as_slice()
    }

    /// The put with this number fails, and puts nothing. The first is 1.
    pub fn fail(&mut self, call: u64) -> Result<(), NoMemory>
        ensures ok { OnOk result (self.new
            ≡ record self.old { plan = plan_failure self.old.plan call }) }
        ensures err { OnErr result (self.new ≡ self.old) }
    {
        self.plan.fail(call)
    }
}

impl Sink for MemorySink {
    ghost use Rattle.colo_base.specs.InMemory.{sink_state};

    ghost state = { sink_state };

    /// Keeps the bytes. A put that was to fail is `Failed`, as is one for which there is no memory;
    /// they keep nothing.
    fn put(&mut self, bytes: &[u8]) -> Result<(), Failed>
        ensures planned { IsTrue (is_next_failing self.old.plan) → IsErr result }
        ensures ok { OnOk result (self.new
            ≡ record self.old {
              bytes = self.old.bytes ++ bytes.now;
              plan = count_call self.old.plan;
            }) }
        ensures err { OnErr result (self.new
            ≡ record self.old {
              plan = count_call self.old.plan;
              faults = incremented self.old.faults;
            }) }
        ensures goes_on { SinkGoesOn (sink_state self.old) (sink_state self.new) }
    {
        if !self.plan.count_call() && self.bytes.extend_from_slice(bytes).is_ok() {
            return Ok(());
        }
        self.faults = self.faults.saturating_add(1);
        Err(Failed)
    }
}
