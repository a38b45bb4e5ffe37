//! Steps on the link and the clock.

ghost use Rattle.std.specs.Prelude.{◌≡◌, ℕ, ◌<◌, List, [], ◌∷◌, IsTrue, OnOk, IfErr, IfOk, length};
ghost use Rattle.colo_base.specs.Clock.{ClockState};
ghost use Rattle.colo_base.specs.Link.{LinkState};
ghost use Rattle.colo_base.specs.Shelf.{ShelfState};
ghost use Rattle.file_steps.specs.Steps as step;
ghost use Rattle.file_steps.specs.Steps.{Done, Fails, arrival_of, came, nothing, outside, ticked};

use crate::fault::Fault;
use colo_base::{Clock, Heard, Link};

/// Opens the link to an address.
pub fn connect<L: Link>(link: &mut L, address: &str) -> Result<(), Fault>
    ensures done { (out : List ℕ) (s : ShelfState) (k : ClockState) → OnOk result (Done out
        (step.connect address.now ∷ []) nothing (outside s (L.state link.old) k)
        (outside s (L.state link.new) k)) }
    ensures fails { (out : List ℕ) (s : ShelfState) (k : ClockState) → IfErr result (Fails out
        (step.connect address.now ∷ []) nothing (outside s (L.state link.old) k)
        (outside s (L.state link.new) k)) }
{
    match link.open(address) {
        Ok(()) => Ok(()),
        Err(_) => Err(Fault::Read),
    }
}

/// Hears once into a buffer.
pub fn hear<L: Link>(link: &mut L, into: &mut [u8]) -> Result<Heard, Fault>
    requires opened { IsTrue (L.state link.old).opened }
    requires room { 0 < length into.old }
    ensures done { (out : List ℕ) (s : ShelfState) (k : ClockState) → IfOk result (λ heard. Done out
        (step.hear (length into.new) ∷ []) (came (arrival_of into.new heard))
        (outside s (L.state link.old) k) (outside s (L.state link.new) k)) }
    ensures fails { (out : List ℕ) (s : ShelfState) (k : ClockState) → IfErr result (Fails out
        (step.hear (length into.new) ∷ []) nothing (outside s (L.state link.old) k)
        (outside s (L.state link.new) k)) }
{
    match link.receive(into) {
        Ok(heard) => Ok(heard),
        Err(_) => Err(Fault::Read),
    }
}

/// Sends bytes over the link.
pub fn send<L: Link>(link: &mut L, bytes: &[u8]) -> Result<(), Fault>
    requires { IsTrue (L.state link.old).opened }
    ensures done { (out : List ℕ) (s : ShelfState) (k : ClockState) → OnOk result (Done out
        (step.send bytes.now ∷ []) nothing (outside s (L.state link.old) k)
        (outside s (L.state link.new) k)) }
    ensures fails { (out : List ℕ) (s : ShelfState) (k : ClockState) → IfErr result (Fails out
        (step.send bytes.now ∷ []) nothing (outside s (L.state link.old) k)
        (outside s (L.state link.new) k)) }
{
    match link.send(bytes) {
        Ok(()) => Ok(()),
        Err(_) => Err(Fault::Write),
    }
}

/// Reads the clock once.
pub fn read_clock<K: Clock>(clock: &mut K) -> u64
    ensures { (out : List ℕ) (s : ShelfState) (l : LinkState) → Done out (step.read_clock ∷ [])
        (ticked result) (outside s l (K.state clock.old)) (outside s l (K.state clock.new)) }
{
    clock.ticks()
}
