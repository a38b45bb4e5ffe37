//! The clock of the system.

ghost use Rattle.std.specs.Prelude.{◌≡◌};

use colo_base::Clock;
use std::time;
use std::time::Instant;

/// The clock of the system: a tick is a microsecond, counted from an arbitrary start.
#[derive(Drop)]
pub struct SystemClock<'a, C: time::Clock> {
    source: &'a C,
    last: u64,
}

impl<'a, C: time::Clock> SystemClock<'a, C> {
    /// The clock that `source` reads.
    pub fn new(source: &'a C) -> SystemClock<'a, C> {
        SystemClock { source, last: 0 }
    }
}

impl<'a, C: time::Clock> Clock for SystemClock<'a, C> {
    ghost use Rattle.std.specs.Prelude.{false, []};

    ghost state = { λ clock. record { observable = false; given = [] } };

    /// The microseconds that have passed. Where the system can't tell them, the last number comes
    /// again.
    fn ticks(&mut self) -> u64 {
        if let Ok(time) = self.source.monotonic() {
            self.last = u64::try_from(time.as_micros()).unwrap_or(u64::MAX);
        }
        self.last
    }
}
