//! What a run on a live link holds between its events.

ghost use Rattle.std.specs.Prelude.{◌≡◌, []};
ghost use Rattle.sock_link.specs.Unframed.{nothing_fed};
ghost use Rattle.command_plans.specs.Steps.{IsCounted};

use command_plans::Counts;
use sock_link::Unframer;
use std::alloc::Global;

/// How many bytes one receive takes at most.
pub(crate) const ROOM: usize = 65_536;

/// The files of a run: what their names begin with.
#[derive(Clone, Copy)]
pub(crate) struct Output<'a> {
    pub alloc: Global,
    pub out: &'a str,
}

/// What a run holds beside its pair.
#[derive(Drop)]
pub(crate) struct Server {
    pub counts: Counts,
    pub unframer: Unframer,
    pub round: u64,
    pub first_tick: u64,
    pub second_tick: u64,
}

impl Server {
    /// Before the first round, with the clock at this tick.
    pub fn new(alloc: Global, tick: u64) -> Server
        ensures counts { IsCounted [] result.counts }
        ensures lines { result.counts.lines ≡ 0 }
        ensures unframer { result.unframer ≡ nothing_fed }
        ensures round { result.round ≡ 1 }
        ensures first_tick { result.first_tick ≡ tick }
        ensures second_tick { result.second_tick ≡ tick }
    {
        Server {
            counts: Counts {
                lines: 0,
                released: 0,
                captured: 0,
            },
            unframer: Unframer::new(alloc),
            round: 1,
            first_tick: tick,
            second_tick: tick,
        }
    }
}
