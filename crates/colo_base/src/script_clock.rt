//! A clock over a list of numbers.

ghost use Rattle.std.specs.Prelude.{◌≡◌};
ghost use Rattle.colo_base.specs.Count.{incremented};
ghost use Rattle.colo_base.specs.Clock.{Gives};
ghost use Rattle.colo_base.specs.InMemory.{tick_at, clock_state};

use crate::Clock;
use std::marker::Model;

/// A clock that gives the numbers of a list, and from its end on the last of them again.
#[derive(Drop)]
pub struct ScriptClock {
    script: Vec<u64>,
    count: usize,
}

impl Model for ScriptClock {
    ghost use Rattle.colo_base.specs.InMemory.{ClockParts};

    ghost Value = { ClockParts };

    ghost view = { λ c. record { script = c.script.items; count = c.count } };
}

impl ScriptClock {
    /// A clock over these numbers, which has given none.
    pub fn new(ticks: Vec<u64>) -> ScriptClock
        ensures { result ≡ record { script = ticks.items; count = 0 } }
    {
        ScriptClock {
            script: ticks,
            count: 0,
        }
    }

    /// The next number.
    fn advance(&mut self) -> u64
        ensures value { result ≡ tick_at self.old.script self.old.count }
        ensures next { self.new ≡ record self.old { count = incremented self.old.count } }
    {
        let place = self.count.min(self.script.len().saturating_sub(1));
        self.count = self.count.saturating_add(1);
        self.script.get(place).copied().unwrap_or(0)
    }
}

impl Clock for ScriptClock {
    ghost use Rattle.colo_base.specs.InMemory.{clock_state};

    ghost state = { clock_state };

    /// The next number of the list; from its end on the last one, and 0 where the list is empty.
    fn ticks(&mut self) -> u64
        ensures value { result ≡ tick_at self.old.script self.old.count }
        ensures next { self.new ≡ record self.old { count = incremented self.old.count } }
        ensures gives { Gives (clock_state self.old) (clock_state self.new) result }
    {
        self.advance()
    }
}
