//! A node over the test guest as a script drives it.

use colo_base::{Frames, NoMemory};
use colo_wire::{Gate, HearFault, Told, Turned};
use node_primary::Primary;
use node_secondary::Secondary;
use state_wire::{Guest, ScriptGuest};
use std::alloc::Global;

/// What a script drives. No call has a clause, so that what the contracts say stands in no goal of
/// a test.
pub trait Node {
    /// One whose guest has this table; `None` where memory ran out.
    fn start(alloc: Global, table: Vec<Frames>) -> Option<Self>
    where
        Self: Sized;
    /// Hears a message.
    fn listen(&mut self, message: &[u8], out: &mut Frames) -> Result<Told, HearFault>;
    /// Makes a turn with a clock and a wish for a frame.
    fn go(&mut self, ticks: u64, wish: bool, out: &mut Frames) -> Result<Turned, NoMemory>;
    /// A client's frame comes; `None` where it can't.
    fn receive(
        &mut self,
        index: u64,
        frame: &[u8],
        out: &mut Frames,
    ) -> Result<Option<Gate>, NoMemory>;
    /// Hears that the other node stopped.
    fn survive(&mut self, out: &mut Frames) -> Result<(), NoMemory>;
    /// Captures a checkpoint.
    fn capture(&mut self) -> Result<Option<u32>, NoMemory>;
    /// Takes the oldest message that waits.
    fn oldest(&mut self) -> Option<Vec<u8>>;
    /// Appends the guest's state.
    fn state(&self, into: &mut Vec<u8>) -> Result<(), NoMemory>;
    /// How many turns the guest made.
    fn turned(&self) -> u64;
}

impl Node for Secondary<ScriptGuest> {
    fn start(alloc: Global, table: Vec<Frames>) -> Option<Secondary<ScriptGuest>> {
        Secondary::new(alloc, ScriptGuest::new(alloc, table)).ok()
    }

    fn listen(&mut self, message: &[u8], out: &mut Frames) -> Result<Told, HearFault> {
        self.hear(message, out)
    }

    fn go(&mut self, ticks: u64, wish: bool, out: &mut Frames) -> Result<Turned, NoMemory> {
        let (turned, _) = self.turn(ticks, wish, 0, 0, out)?;
        Ok(turned)
    }

    fn receive(
        &mut self,
        index: u64,
        frame: &[u8],
        out: &mut Frames,
    ) -> Result<Option<Gate>, NoMemory> {
        if !self.is_alone() {
            return Ok(None);
        }
        Ok(Some(self.ingress(index, frame, out)?))
    }

    fn survive(&mut self, out: &mut Frames) -> Result<(), NoMemory> {
        self.report(out)
    }

    fn capture(&mut self) -> Result<Option<u32>, NoMemory> {
        Ok(None)
    }

    fn oldest(&mut self) -> Option<Vec<u8>> {
        self.outgoing()
    }

    fn state(&self, into: &mut Vec<u8>) -> Result<(), NoMemory> {
        self.guest().state(into)
    }

    fn turned(&self) -> u64 {
        self.guest().turned()
    }
}

impl Node for Primary<ScriptGuest> {
    fn start(alloc: Global, table: Vec<Frames>) -> Option<Primary<ScriptGuest>> {
        Primary::new(alloc, ScriptGuest::new(alloc, table)).ok()
    }

    fn listen(&mut self, message: &[u8], out: &mut Frames) -> Result<Told, HearFault> {
        self.hear(message, out)
    }

    fn go(&mut self, ticks: u64, wish: bool, out: &mut Frames) -> Result<Turned, NoMemory> {
        let (turned, _) = self.turn(ticks, wish, 0, 0, out)?;
        Ok(turned)
    }

    fn receive(
        &mut self,
        index: u64,
        frame: &[u8],
        out: &mut Frames,
    ) -> Result<Option<Gate>, NoMemory> {
        Ok(Some(self.ingress(index, frame, out)?))
    }

    fn survive(&mut self, out: &mut Frames) -> Result<(), NoMemory> {
        self.report(out)
    }

    fn capture(&mut self) -> Result<Option<u32>, NoMemory> {
        self.ask()
    }

    fn oldest(&mut self) -> Option<Vec<u8>> {
        self.outgoing()
    }

    fn state(&self, into: &mut Vec<u8>) -> Result<(), NoMemory> {
        self.guest().state(into)
    }

    fn turned(&self) -> u64 {
        self.guest().turned()
    }
}
