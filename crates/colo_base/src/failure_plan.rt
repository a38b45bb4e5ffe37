//! Which calls of an object in memory are to fail.

ghost use Rattle.std.specs.Prelude.{◌≡◌, [], ◌∷◌, ◌++◌, OnOk, OnErr};
ghost use Rattle.colo_base.specs.FailurePlan.{empty_plan, plan_failure, count_call, is_next_failing};

use crate::NoMemory;
use std::alloc::Global;
use std::marker::Model;

/// A list of calls that are to fail, by number, and how many calls were made.
#[derive(Drop)]
pub struct FailurePlan {
    failing: Vec<u64>,
    made: u64,
}

impl Model for FailurePlan {
    ghost use Rattle.colo_base.specs.FailurePlan.{PlanState};

    ghost Value = { PlanState };

    ghost view = { λ p. record { failing = p.failing.items; made = p.made } };
}

impl FailurePlan {
    /// No call is to fail, and none was made.
    pub fn new(alloc: Global) -> FailurePlan
        ensures { result ≡ empty_plan }
    {
        FailurePlan {
            failing: Vec::new(alloc),
            made: 0,
        }
    }

    /// The call with this number is to fail. The first is 1.
    pub fn fail(&mut self, call: u64) -> Result<(), NoMemory>
        ensures ok { OnOk result (self.new ≡ plan_failure self.old call) }
        ensures err { OnErr result (self.new ≡ self.old) }
    {
        self.failing.push(call)?;
        Ok(())
    }

    /// Counts a call, and answers whether it is to fail.
    pub fn count_call(&mut self) -> bool
        ensures fails { result ≡ is_next_failing self.old }
        ensures counts { self.new ≡ count_call self.old }
    {
        self.made = self.made.saturating_add(1);
        self.failing.contains(&self.made)
    }

    /// The allocator of the list.
    pub fn allocator(&self) -> Global {
        *self.failing.allocator()
    }
}
