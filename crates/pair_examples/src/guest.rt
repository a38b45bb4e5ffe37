//! The test guest, as a table drives it.

use colo_base::Frames;
use state_wire::{Guest, ScriptGuest};
use std::alloc::Global;

/// What the tests drive. No call has a clause, so that what the contracts say stands in no goal of
/// a test; `false` is also where memory ran out.
trait Driven {
    /// One over a table that has made no turn.
    fn start(alloc: Global, table: Vec<Frames>) -> Self
    where
        Self: Sized;
    /// Makes a turn without a frame.
    fn go(&mut self, ticks: u64, out: &mut Frames) -> bool;
    /// Makes a turn with a frame of fourteen bytes.
    fn take(&mut self, ticks: u64, frame: &[u8; 14], out: &mut Frames) -> bool;
    /// Appends its state.
    fn add_state(&self, into: &mut Vec<u8>) -> bool;
    /// Whether these bytes are a state.
    fn is_state(&self, bytes: &[u8]) -> bool;
    /// Makes these bytes its state, where they are one.
    fn load(&mut self, bytes: &[u8]) -> bool;
    /// How many turns it made.
    fn count(&self) -> u64;
    /// Whether it has pages or sectors.
    fn has_parts(&self) -> bool;
}

impl Driven for ScriptGuest {
    fn start(alloc: Global, table: Vec<Frames>) -> ScriptGuest {
        ScriptGuest::new(alloc, table)
    }

    fn go(&mut self, ticks: u64, out: &mut Frames) -> bool {
        self.turn(ticks, None, 0, 0, out).is_ok()
    }

    fn take(&mut self, ticks: u64, frame: &[u8; 14], out: &mut Frames) -> bool {
        self.turn(ticks, Some(frame.as_slice()), 0, 0, out).is_ok()
    }

    fn add_state(&self, into: &mut Vec<u8>) -> bool {
        self.state(into).is_ok()
    }

    fn is_state(&self, bytes: &[u8]) -> bool {
        self.accepts(bytes)
    }

    fn load(&mut self, bytes: &[u8]) -> bool {
        self.accepts(bytes) && self.load_state(bytes).is_ok()
    }

    fn count(&self) -> u64 {
        self.turned()
    }

    fn has_parts(&self) -> bool {
        self.pages() != 0
            || self.sectors() != 0
            || self.page(0).is_some()
            || self.sector(0).is_some()
    }
}

/// The frames of a place.
fn two(alloc: Global) -> Option<Frames> {
    let mut two = Frames::new(alloc);
    if two.push(b"first frame..").is_ok() && two.push(b"second").is_ok() {
        Some(two)
    } else {
        None
    }
}

/// A table whose second place has two frames, and whose first has none.
fn table(alloc: Global) -> Option<Vec<Frames>> {
    let two = two(alloc)?;
    let mut table = Vec::new(alloc);
    if table.push(Frames::new(alloc)).is_ok() && table.push(two).is_ok() {
        Some(table)
    } else {
        None
    }
}

/// A guest over the table that has made no turn.
fn started<D: Driven>(alloc: Global) -> Option<D> {
    match table(alloc) {
        Some(table) => Some(D::start(alloc, table)),
        None => None,
    }
}

/// The state after two turns. 31 * 0 + 1 + 1 is 2, and 31 * 2 + 2 + 1 is 65.
const STATE: &[u8] = b"\0\0\0\0\0\0\0Afourteen bytes";

/// What two turns send; `None` where memory ran out.
fn sent<D: Driven>(alloc: Global, guest: &mut D) -> Option<Frames> {
    let mut out = Frames::new(alloc);
    if guest.take(1, b"fourteen bytes", &mut out) && guest.go(2, &mut out) {
        Some(out)
    } else {
        None
    }
}

fn are_sent(out: &Frames) -> bool {
    out.len() == 2 && out.get(1) == Some(b"second".as_slice())
}

/// Whether two turns send what stands in their places.
fn sends_its_place<D: Driven>(alloc: Global, guest: &mut D) -> bool {
    match sent(alloc, guest) {
        Some(out) => are_sent(&out) && guest.count() == 2,
        None => false,
    }
}

/// Whether a guest has the state above.
fn has_state<D: Driven>(alloc: Global, guest: &D) -> bool {
    let mut state = Vec::new(alloc);
    guest.add_state(&mut state) && state.as_slice() == STATE
}

/// Whether a guest sends its places, and has the state above then.
fn is_driven<D: Driven + Drop>(alloc: Global) -> bool {
    match started::<D>(alloc) {
        Some(mut guest) => sends_its_place(alloc, &mut guest) && has_state(alloc, &guest),
        None => false,
    }
}

/// Whether another guest loads that state, which is no turn.
fn is_loaded<D: Driven + Drop>(alloc: Global) -> bool {
    match started::<D>(alloc) {
        Some(mut guest) => guest.load(STATE) && has_state(alloc, &guest) && guest.count() == 0,
        None => false,
    }
}

/// Whether a guest has no pages and no sectors, and a state has eight bytes at least.
fn has_no_parts<D: Driven + Drop>(alloc: Global) -> bool {
    match started::<D>(alloc) {
        Some(guest) => !guest.has_parts() && !guest.is_state(&[0; 7]) && guest.is_state(&[0; 8]),
        None => false,
    }
}

#[test]
fn a_turn_sends_its_place_of_the_table(rt: HostRuntime) {
    assert!(rt; is_driven::<ScriptGuest>(rt.alloc()));
    assert!(rt; is_loaded::<ScriptGuest>(rt.alloc()));
}

#[test]
fn there_are_no_pages_and_no_sectors(rt: HostRuntime) {
    assert!(rt; has_no_parts::<ScriptGuest>(rt.alloc()));
}
