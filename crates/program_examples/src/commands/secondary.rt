//! A secondary over the machine, played from a script: the parts of another machine, the primary,
//! that come as a checkpoint are its guest's from then on.
//!
//! `primary` and `secondary` make the same turn of one of them; `same` and `differ` compare the
//! bytes of their states, memory and disks; `ack` is the message that the secondary then puts. Any
//! other word is a message that is made of the primary and heard; a number is that of a page.

use colo_base::Frames;
use colo_guests::image;
use disk_buffers::WholeDisk;
use guest_machine::Machine;
use node_secondary::Secondary;
use state_wire::Guest;
use std::alloc::Global;
use std::process::Abort;
use std::test::Fail;

/// What the script drives. No call has a clause, so that what the contracts say stands in no goal
/// of the test.
trait Machines {
    /// Both have made no turn; `None` where memory ran out.
    fn start(alloc: Global) -> Option<Self>
    where
        Self: Sized;
    /// Makes a turn of the primary, or of the secondary; `false` where memory ran out.
    fn turn(&mut self, of_primary: bool) -> bool;
    /// Appends the bytes of a state; `false` where memory ran out.
    fn state(&self, of_primary: bool, into: &mut Vec<u8>) -> bool;
    /// How many pages a memory has.
    fn pages(&self, of_primary: bool) -> u32;
    /// A page of a memory.
    fn page(&self, of_primary: bool, k: u32) -> Option<&[u8]>;
    /// The first sector of a disk.
    fn sector(&self, of_primary: bool) -> Option<&[u8]>;
    /// The secondary hears a message. Gives the checkpoint that it took, if any, where the message
    /// isn't refused.
    fn hear(&mut self, message: &[u8]) -> Option<Option<u32>>;
    /// The oldest message of the secondary that waits.
    fn outgoing(&mut self) -> Option<Vec<u8>>;
}

/// A guest that boots.
trait Boots {
    /// `disk_log` in 1 MiB of memory, over a disk of one sector of such bytes.
    fn booted(alloc: Global, byte: u8) -> Option<Self>
    where
        Self: Sized;
}

impl Boots for Machine<WholeDisk> {
    fn booted(alloc: Global, byte: u8) -> Option<Machine<WholeDisk>> {
        let image = image(alloc, "disk_log").ok()??;
        let disk = WholeDisk::new(alloc, &[byte; 512]).ok()?;
        Machine::boot(alloc, &image, disk, 1).ok()
    }
}

/// A machine, and a secondary over another one.
#[derive(Drop)]
struct Both<G: Guest + Drop> {
    alloc: Global,
    primary: G,
    node: Secondary<G>,
}

impl<G: Guest + Drop> Both<G> {
    /// The guest of one of them.
    fn guest(&self, of_primary: bool) -> &G {
        if of_primary {
            &self.primary
        } else {
            self.node.guest()
        }
    }
}

/// A secondary over a disk of zeros.
fn booted_secondary<G: Guest + Boots + Drop>(alloc: Global) -> Option<Secondary<G>> {
    Secondary::new(alloc, G::booted(alloc, 0)?).ok()
}

impl<G: Guest + Boots + Drop> Machines for Both<G> {
    fn start(alloc: Global) -> Option<Both<G>> {
        let node = booted_secondary(alloc)?;
        let primary = G::booted(alloc, 7)?;
        Some(Both {
            alloc,
            primary,
            node,
        })
    }

    fn turn(&mut self, of_primary: bool) -> bool {
        let mut out = Frames::new(self.alloc);
        if of_primary {
            self.primary.turn(10, None, 1, 50, &mut out).is_ok()
        } else {
            self.node.turn(10, false, 1, 50, &mut out).is_ok()
        }
    }

    fn state(&self, of_primary: bool, into: &mut Vec<u8>) -> bool {
        self.guest(of_primary).state(into).is_ok()
    }

    fn pages(&self, of_primary: bool) -> u32 {
        self.guest(of_primary).pages()
    }

    fn page(&self, of_primary: bool, k: u32) -> Option<&[u8]> {
        self.guest(of_primary).page(k)
    }

    fn sector(&self, of_primary: bool) -> Option<&[u8]> {
        self.guest(of_primary).sector(0)
    }

    fn hear(&mut self, message: &[u8]) -> Option<Option<u32>> {
        match self.node.hear(message, &mut Frames::new(self.alloc)) {
            Ok(told) => Some(told.commit),
            Err(_) => None,
        }
    }

    fn outgoing(&mut self) -> Option<Vec<u8>> {
        self.node.outgoing()
    }
}

/// The bytes of a state.
fn state<M: Machines>(alloc: Global, both: &M, of_primary: bool) -> Option<Vec<u8>> {
    let mut bytes = Vec::new(alloc);
    if both.state(of_primary, &mut bytes) {
        Some(bytes)
    } else {
        None
    }
}

/// Whether both memories have the same pages.
fn have_same_pages<M: Machines>(both: &M) -> bool {
    for k in 0..both.pages(true) {
        if both.page(true, k) != both.page(false, k) {
            return false;
        }
    }
    both.pages(true) == both.pages(false)
}

/// Whether states, memories and disks are the same; `None` where memory ran out.
fn are_same<M: Machines>(alloc: Global, both: &M) -> Option<bool> {
    let is_same_state = state(alloc, both, true)? == state(alloc, both, false)?;
    let is_same_sector = both.sector(true) == both.sector(false);
    Some(is_same_state && is_same_sector && have_same_pages(both))
}

/// Appends a message of this kind, whose contents are a number's bytes and a part of a machine.
fn put_message(kind: u8, number: &[u8], part: &[u8], out: &mut Vec<u8>) -> bool {
    let length = number.len().saturating_add(part.len());
    let length = u32::try_from(length).unwrap_or(0);
    out.push(kind).is_ok()
        && out.extend_from_slice(&length.to_be_bytes()).is_ok()
        && out.extend_from_slice(number).is_ok()
        && out.extend_from_slice(part).is_ok()
}

fn put_state<M: Machines>(alloc: Global, both: &M, out: &mut Vec<u8>) -> bool {
    match state(alloc, both, true) {
        Some(bytes) => put_message(4, &[], &bytes, out),
        None => false,
    }
}

fn put_page<M: Machines>(both: &M, word: &str, out: &mut Vec<u8>) -> bool {
    let k = word.parse().unwrap_or(u32::MAX);
    match both.page(true, k) {
        Some(page) => put_message(5, &k.to_be_bytes(), page, out),
        None => false,
    }
}

fn put_sector<M: Machines>(both: &M, out: &mut Vec<u8>) -> bool {
    match both.sector(true) {
        Some(sector) => put_message(6, &[0; 4], sector, out),
        None => false,
    }
}

/// Appends the message of a word.
fn put_word<M: Machines>(alloc: Global, both: &M, word: &str, out: &mut Vec<u8>) -> bool {
    match word {
        "begin" => put_message(3, &[0, 0, 0, 1], &[], out),
        "state" => put_state(alloc, both, out),
        "disk" => put_sector(both, out),
        "end" => put_message(11, &[0, 0, 0, 1], &[], out),
        _ => put_page(both, word, out),
    }
}

/// The secondary hears the message of a word. Gives the checkpoint that it took, if any.
fn hear<M: Machines>(alloc: Global, both: &mut M, word: &str) -> Option<Option<u32>> {
    let mut message = Vec::new(alloc);
    if put_word(alloc, both, word, &mut message) {
        both.hear(&message)
    } else {
        None
    }
}

/// Whether the acknowledgement of checkpoint 1 is put.
fn is_acknowledged<M: Machines>(both: &mut M) -> bool {
    match both.outgoing() {
        Some(message) => message.as_slice() == [14, 0, 0, 0, 4, 0, 0, 0, 1].as_slice(),
        None => false,
    }
}

/// Makes a step, and says whether it did what its word says.
fn make<M: Machines>(alloc: Global, both: &mut M, word: &str) -> bool {
    match word {
        "primary" => both.turn(true),
        "secondary" => both.turn(false),
        "same" => are_same(alloc, both) == Some(true),
        "differ" => are_same(alloc, both) == Some(false),
        "ack" => is_acknowledged(both),
        "end" => hear(alloc, both, word) == Some(Some(1)),
        _ => hear(alloc, both, word) == Some(None),
    }
}

/// Pages 16 and 26, at 0x80010000 and 0x8001A000, are those to which the guest writes: the rings
/// of the card and those of the block device stand there.
const CHECKPOINT: &str = "\
differ secondary primary primary primary primary primary primary \
begin state 16 26 disk differ end ack same secondary differ primary same";

/// Plays the script above.
fn play<R: Abort + AllocGlobal, M: Machines + Drop>(rt: &R) -> Result<(), Fail> {
    let mut both = M::start(rt.alloc()).ok_or("out of memory")?;
    for word in CHECKPOINT.split_whitespace() {
        assert!(rt; make(rt.alloc(), &mut both, word), "{word}");
    }
    Ok(())
}

#[test]
fn a_checkpoint_makes_the_secondary_the_other_machine(rt: HostRuntime) -> Result<(), Fail> {
    play::<_, Both<Machine<WholeDisk>>>(&rt)
}
