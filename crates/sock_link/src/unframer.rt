//! Cuts a byte stream into frames, however it came.

ghost use Rattle.std.specs.Prelude.{◌≡◌, ◌+◌, ◌^◌, ◌<◌, ◌↔◌, [], true, false, IsTrue, OnOk, OnErr, IfOk, IfErr, option_map, length};
ghost use Rattle.sock_link.specs.Stream.{is_too_long};
ghost use Rattle.sock_link.specs.Unframed.{nothing_fed, Feeds, FeedEnds, Gives};

use crate::backlog::Backlog;
use crate::fault::LinkFault;
use crate::frame::{is_too_long, whole_record};
use crate::records::whole_records;
use colo_base::NoMemory;
use std::alloc::Global;
use std::marker::Model;

/// Cuts a byte stream into frames. Pieces of the stream go in, in whatever cutting, and its frames
/// come out in order.
///
/// A contract sees the whole frames that wait, what has come of the unfinished record, where that
/// one begins, and how many bytes came. The work is linear in the bytes: each is copied in, moved
/// to the front of the memory at most once, and copied out.
#[derive(Drop)]
pub struct Unframer {
    backlog: Backlog,
    whole: usize,
    count: usize,
    place: u64,
    fed: u64,
}

impl Model for Unframer {
    ghost use Rattle.sock_link.specs.Unframed.{Unframed};

    ghost Value = { Unframed };

    ghost use Rattle.sock_link.specs.Holding.{unframed_of, IsHeld};

    ghost view = { unframed_of };

    ghost invariant = { IsHeld };
}

impl Unframer {
    /// An unframer before the first byte of a stream.
    pub fn new(alloc: Global) -> Unframer
        ensures { result ≡ nothing_fed }
    {
        Unframer {
            backlog: Backlog::new(alloc),
            whole: 0,
            count: 0,
            place: 0,
            fed: 0,
        }
    }

    /// How many bytes were fed, those of a call that answered `TooLong` too.
    pub fn fed(&self) -> u64
        ensures { result ≡ self.now.fed }
    {
        self.fed
    }

    /// Where the unfinished record begins, counted from the stream's first byte.
    pub fn place(&self) -> u64
        ensures { result ≡ self.now.place }
    {
        self.place
    }

    /// Whether no byte of an unfinished record has come.
    pub fn at_boundary(&self) -> bool
        ensures { IsTrue result ↔ (self.now.part ≡ []) }
    {
        self.backlog.as_slice().len() == self.whole
    }

    /// Takes the next piece of the stream.
    ///
    /// Those fed and the piece must stay below 2^63 bytes. `TooLong` comes exactly where the stream
    /// so far holds a whole length above 69,632, with the place where that record begins; from then
    /// on it comes again, and the frames before it are still given. After `NoMemory` the unframer
    /// is as it was.
    pub fn feed(&mut self, piece: &[u8]) -> Result<(), LinkFault>
        requires { self.old.fed + length piece.now < 2 ^ 63 }
        ensures ok { OnOk result (Feeds self.old self.new piece.now) }
        ensures short { OnOk result (is_too_long self.new.part ≡ false) }
        ensures err { IfErr result (λ fault. FeedEnds self.old self.new piece.now fault) }
    {
        if self.is_stuck() {
            self.pass_by(piece);
            return Err(LinkFault::TooLong { at: self.place });
        }
        if self.take_in(piece)? {
            return Err(LinkFault::TooLong { at: self.place });
        }
        Ok(())
    }

    /// Gives the oldest frame that waits. `None` exactly where no whole frame is left. After
    /// `NoMemory` no frame is lost.
    pub fn next_frame(&mut self) -> Result<Option<Vec<u8>>, NoMemory>
        ensures ok { IfOk result (λ given.
            Gives self.old self.new (option_map (λ frame. frame.items) given)) }
        ensures err { OnErr result (self.new ≡ self.old) }
    {
        let bytes = self.backlog.as_slice();
        let Some(size) = whole_record(bytes) else {
            return Ok(None);
        };
        let frame = Vec::from_slice(self.backlog.allocator(), &bytes[4..size])?;
        self.backlog.skip(size);
        self.whole -= size;
        self.count -= 1;
        Ok(Some(frame))
    }

    /// Whether a length above the limit has come.
    fn is_stuck(&self) -> bool
        ensures { result ≡ is_too_long self.now.part }
    {
        is_too_long(self.backlog.after(self.whole))
    }

    /// Counts a piece after a length above the limit.
    fn pass_by(&mut self, piece: &[u8])
        requires stuck { is_too_long self.old.part ≡ true }
        requires fits { self.old.fed + length piece.now < 2 ^ 63 }
        ensures feeds { Feeds self.old self.new piece.now }
        ensures stuck { is_too_long self.new.part ≡ true }
    {
        self.fed += piece.len() as u64;
    }

    /// Takes a piece, and says whether a length above the limit has come with it.
    fn take_in(&mut self, piece: &[u8]) -> Result<bool, NoMemory>
        requires { self.old.fed + length piece.now < 2 ^ 63 }
        ensures feeds { OnOk result (Feeds self.old self.new piece.now) }
        ensures stuck { IfOk result (λ stuck. stuck ≡ is_too_long self.new.part) }
        ensures err { OnErr result (self.new ≡ self.old) }
    {
        self.backlog.add(piece)?;
        let rest = self.backlog.after(self.whole);
        let records = whole_records(rest);
        self.whole += records.size;
        self.count += records.count;
        self.place += records.size as u64;
        self.fed += piece.len() as u64;
        let left = self.backlog.after(self.whole);
        if !is_too_long(left) {
            return Ok(false);
        }
        self.backlog.keep(self.whole + 4);
        Ok(true)
    }
}
