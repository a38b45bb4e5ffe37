//! A guest for tests, driven by a table.

ghost use Rattle.std.specs.Prelude.{◌≡◌, ◌≤◌, ◌<◌, ◌++◌, ℕ, List, [], map, unwrap_or, IsTrue, OnOk, OnErr, IfSome, length, slice_get};
ghost use Rattle.std.specs.Io.{StartsWith};
ghost use Rattle.std.specs.Option.{ForSome, option_copied};
ghost use Rattle.std.specs.Int.{w64, to_be_bytes};
ghost use Rattle.state_wire.specs.Guest.{BeginsWith};
ghost use Rattle.state_wire.specs.Script.{next_number, script_accepts, script_bytes, script_kind, script_meaning};

use crate::Guest;
use colo_base::{Frames, NoMemory};
use std::alloc::Global;
use std::marker::Model;

/// A guest whose turn with clock `d` sends the frames at place `d` of a table, and none past its
/// end.
///
/// Its state is a number of 64 bits, at first 0, and the last frame that it received, at first
/// empty. A turn makes the number
/// `31 * number + d + 1` modulo 2^64. The state's bytes are the number's eight, big-endian, and the
/// frame. It has no
/// pages and no sectors, and can always receive.
#[derive(Drop)]
pub struct ScriptGuest {
    table: Vec<Frames>,
    number: u64,
    frame: Vec<u8>,
    turned: u64,
}

impl Model for ScriptGuest {
    ghost use Rattle.std.specs.Prelude.{◌≤◌, length};
    ghost use Rattle.std.specs.Int.{w64, to_be_bytes};
    ghost use Rattle.state_wire.specs.Guest.{BeginsWith};
    ghost use Rattle.state_wire.specs.Script.{ScriptParts};

    ghost Value = { ScriptParts };

    ghost view = { λ g. record {
      table = g.table.items;
      number = g.number;
      frame = g.frame.items;
      turned = g.turned;
    } };

    ghost invariant = { λ g. length g.frame.items ≤ 1514 };
}

impl ScriptGuest {
    /// A guest over this table that has made no turn. It takes no memory.
    pub fn new(alloc: Global, table: Vec<Frames>) -> ScriptGuest
        ensures { result ≡ record { table = table.items; number = 0; frame = []; turned = 0 } }
    {
        ScriptGuest {
            table,
            number: 0,
            frame: Vec::new(alloc),
            turned: 0,
        }
    }
}

/// The number that eight big-endian bytes spell.
#[tactic(auto, using(std::proofs::lemmas::Nat::be_bytes_8))]
fn number_in(bytes: &[u8; 8]) -> u64
    ensures { to_be_bytes w64 result ≡ bytes.now }
{
    u64::from_be_bytes(*bytes)
}

/// Appends every frame of a list. After `NoMemory` `out` begins with what it held.
#[tactic(auto, using(crate::proofs::BeginLemmas::begins_with))]
fn append_all(frames: &Frames, out: &mut Frames) -> Result<(), NoMemory>
    ensures ok { OnOk result (out.new ≡ out.old ++ frames.now) }
    ensures front { BeginsWith out.new out.old }
{
    for k in 0..frames.len() {
        let Some(frame) = frames.get(k) else {
            return Ok(());
        };
        out.push(frame)?;
    }
    Ok(())
}

/// Appends the frames at a place of the table, and none past its end.
fn send_from(table: &[Frames], ticks: u64, out: &mut Frames) -> Result<(), NoMemory>
    ensures ok { OnOk result (out.new ≡ out.old ++ unwrap_or (slice_get table.now ticks) []) }
    ensures front { BeginsWith out.new out.old }
{
    if ticks < table.len() as u64 {
        append_all(&table[ticks as usize], out)
    } else {
        Ok(())
    }
}

/// Keeps a copy of a frame, if there is one.
fn receive(held: &mut Vec<u8>, frame: Option<&[u8]>) -> Result<(), NoMemory>
    ensures ok { OnOk result (held.new.items
        ≡ unwrap_or (option_copied frame.entry) held.old.items) }
    ensures err { OnErr result (held.new.items ≡ held.old.items) }
{
    let Some(bytes) = frame else {
        return Ok(());
    };
    let alloc = *held.allocator();
    *held = bytes.to_vec(alloc)?;
    Ok(())
}

impl Guest for ScriptGuest {
    ghost meaning = { script_meaning };

    fn can_receive(&self) -> bool {
        true
    }

    fn turn(
        &mut self,
        ticks: u64,
        frame: Option<&[u8]>,
        _requests: u32,
        _steps: u32,
        out: &mut Frames,
    ) -> Result<(), NoMemory> {
        send_from(&self.table, ticks, out)?;
        receive(&mut self.frame, frame)?;
        self.number = self
            .number
            .wrapping_mul(31)
            .wrapping_add(ticks)
            .wrapping_add(1);
        self.turned = self.turned.wrapping_add(1);
        Ok(())
    }

    fn turned(&self) -> u64 {
        self.turned
    }

    fn pages(&self) -> u32 {
        0
    }

    fn page(&self, _k: u32) -> Option<&[u8]> {
        None
    }

    fn sectors(&self) -> u32 {
        0
    }

    fn sector(&self, _k: u32) -> Option<&[u8]> {
        None
    }

    fn state(&self, into: &mut Vec<u8>) -> Result<(), NoMemory> {
        into.extend_from_slice(&self.number.to_be_bytes())?;
        into.extend_from_slice(&self.frame)?;
        Ok(())
    }

    fn accepts(&self, state: &[u8]) -> bool {
        8 <= state.len() && state.len() <= 1522
    }

    fn load_state(&mut self, state: &[u8]) -> Result<(), NoMemory> {
        let Some((number, frame)) = state.split_first_chunk::<8>() else {
            return Ok(());
        };
        let alloc = *self.frame.allocator();
        self.frame = frame.to_vec(alloc)?;
        self.number = number_in(number);
        Ok(())
    }

    fn load_page(&mut self, _k: u32, _bytes: &[u8]) {}

    fn load_sector(&mut self, _k: u32, _bytes: &[u8]) {}
}
