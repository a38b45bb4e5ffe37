//! Parts of a state, by their places.

ghost use Rattle.std.specs.Prelude.{◌≡◌, ◌+◌, ◌*◌, ◌≤◌, ◌<◌, length, OnOk, OnErr, IfOk};
ghost use Rattle.std.specs.Option.{option_copied};
ghost use Rattle.kept_checkpoint.specs.Slots.{AreOfSize, no_parts, part_at, put_part, put_sectors, sector_at, sector_size};

use colo_base::{Contents, NoMemory};
use std::alloc::Global;
use std::marker::Model;

/// How many bytes a sector has.
pub(crate) const SECTOR_SIZE: usize = 512;

/// A place for each part of a state, with the part as it was heard last, where it was heard.
/// A contract sees the list of the places.
#[derive(Drop)]
pub struct Slots {
    parts: Vec<Option<Contents>>,
}

impl Model for Slots {
    ghost use Rattle.kept_checkpoint.specs.Slots.{Slots};

    ghost Value = { Slots };

    ghost view = { λ s. s.parts.items };
}

impl Slots {
    /// So many places, of which no part was heard.
    pub fn new(alloc: Global, count: u32) -> Result<Slots, NoMemory>
        ensures { IfOk result (λ slots. slots ≡ no_parts count) }
    {
        let mut parts = Vec::new(alloc);
        for _ in 0..count {
            parts.push(None)?;
        }
        Ok(Slots { parts })
    }

    /// How many places there are.
    pub fn len(&self) -> usize
        ensures { result ≡ length self.now }
    {
        self.parts.len()
    }

    /// What was heard of a place: `None` where nothing was, or there is no such place.
    pub fn part(&self, k: usize) -> Option<&[u8]>
        ensures { option_copied result ≡ part_at self.now k }
    {
        match self.parts.get(k)? {
            Some(part) => Some(part.as_slice()),
            None => None,
        }
    }

    /// Keeps a copy of a part at its place, in place of what was heard of it before. After
    /// `NoMemory` all is as it was.
    pub fn put(&mut self, alloc: Global, k: usize, part: &[u8]) -> Result<(), NoMemory>
        requires { k < length self.old }
        ensures ok { OnOk result (self.new ≡ put_part self.old k part.now) }
        ensures err { OnErr result (self.new ≡ self.old) }
    {
        self.parts[k] = Some(Contents::from_vec(part.to_vec(alloc)?));
        Ok(())
    }

    /// Keeps copies of the first `count` sectors of `bytes`, at the places from `first` on.
    pub fn put_sectors(
        &mut self,
        alloc: Global,
        first: u32,
        bytes: &[u8],
        count: usize,
    ) -> Result<(), NoMemory>
        requires places { first + count ≤ length self.old }
        requires whole { sector_size * count ≤ length bytes.now }
        ensures ok { OnOk result (self.new ≡ put_sectors first bytes.now count self.old) }
        ensures sizes { AreOfSize sector_size self.old → AreOfSize sector_size self.new }
    {
        for n in 0..count {
            self.put(alloc, first as usize + n, sector_at(bytes, n))?;
        }
        Ok(())
    }
}

/// The sector with this number in a string of bytes.
fn sector_at(bytes: &[u8], n: usize) -> &[u8]
    requires { sector_size * n + sector_size ≤ length bytes.now }
    ensures { result.now ≡ sector_at bytes.now n }
{
    let at = SECTOR_SIZE * n;
    &bytes[at..at + SECTOR_SIZE]
}
