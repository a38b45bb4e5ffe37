//! A checkpoint of a primary over a machine with 1 MiB of memory and a disk of one sector: the
//! kinds and sizes of its messages, each of which is its kind, a length in four bytes and contents.

use colo_guests::image;
use disk_buffers::WholeDisk;
use guest_machine::Machine;
use node_primary::Primary;
use std::alloc::Global;
use std::process::Abort;
use std::test::Fail;

type Captured = Primary<Machine<WholeDisk>>;

/// What the test drives. No call has a clause, so that what the contracts say stands in no goal of
/// a test.
trait Captures {
    /// A node whose guest has made no turn.
    fn start(alloc: Global) -> Option<Self>
    where
        Self: Sized;
    /// Captures a checkpoint, and gives its number.
    fn capture(&mut self) -> Option<u32>;
    /// Takes the oldest message that waits.
    fn oldest(&mut self) -> Option<Vec<u8>>;
}

/// `mute` in 1 MiB of memory, over a disk of one sector.
fn machine(alloc: Global) -> Option<Machine<WholeDisk>> {
    let image = image(alloc, "mute").ok()??;
    let disk = WholeDisk::new(alloc, &[0; 512]).ok()?;
    Machine::boot(alloc, &image, disk, 1).ok()
}

impl Captures for Captured {
    fn start(alloc: Global) -> Option<Captured> {
        Primary::new(alloc, machine(alloc)?).ok()
    }

    fn capture(&mut self) -> Option<u32> {
        self.ask().ok()?
    }

    fn oldest(&mut self) -> Option<Vec<u8>> {
        self.outgoing()
    }
}

/// The kind and the size of the oldest message.
fn oldest_kind<C: Captures>(node: &mut C) -> Option<(u8, usize)> {
    let message = node.oldest()?;
    Some((*message.first()?, message.len()))
}

/// A machine's state has 359 bytes, and a page its number before its 4,096 bytes; 256 pages are
/// 1 MiB. The sector has the number of the first one before its 512 bytes.
const MESSAGES: [(u8, usize, usize); 5] = [
    (3, 9, 1),
    (4, 364, 1),
    (5, 4105, 256),
    (6, 521, 1),
    (11, 9, 1),
];

/// Asserts that so many messages have a kind and a size.
fn are_alike<R: Abort, C: Captures>(rt: &R, node: &mut C, kind: (u8, usize), count: usize) {
    for _ in 0..count {
        assert_eq!(rt; oldest_kind(node), Some(kind));
    }
}

/// Asserts that a checkpoint has the messages above, and no more.
fn is_whole<R: Abort + AllocGlobal, C: Captures + Drop>(rt: &R) -> Result<(), Fail> {
    let mut node = C::start(rt.alloc()).ok_or("out of memory")?;
    assert_eq!(rt; node.capture(), Some(1));
    for (kind, size, count) in MESSAGES {
        are_alike(rt, &mut node, (kind, size), count);
    }
    assert_eq!(rt; oldest_kind(&mut node), None);
    Ok(())
}

#[test]
fn a_checkpoint_of_a_mebibyte_has_each_page_and_sector(rt: HostRuntime) -> Result<(), Fail> {
    is_whole::<_, Captured>(&rt)
}
