//! A list of frames, each a string of bytes.

ghost use Rattle.std.specs.Prelude.{◌≡◌, ◌<◌, ◌↔◌, [], ◌∷◌, ◌++◌, length, take, IsSome, IfSome, OnOk, OnErr, slice_get};
ghost use Rattle.std.specs.Option.{option_copied};

use crate::NoMemory;
use std::alloc::Global;
use std::marker::Model;

/// Frames in order, each a string of bytes. A contract sees the list of their bytes.
#[derive(Drop)]
pub struct Frames {
    frames: Vec<Vec<u8>>,
}

impl Model for Frames {
    ghost use Rattle.std.specs.Prelude.{List, ℕ, map};

    ghost Value = { List (List ℕ) };

    ghost view = { λ f. map (λ frame. frame.items) f.frames.items };
}

impl Frames {
    /// No frames. It takes no memory.
    pub fn new(alloc: Global) -> Frames
        ensures { result ≡ [] }
    {
        Frames {
            frames: Vec::new(alloc),
        }
    }

    /// Adds a copy of `frame` at the end. After `NoMemory` the list is as it was.
    pub fn push(&mut self, frame: &[u8]) -> Result<(), NoMemory>
        ensures ok { OnOk result (self.new ≡ self.old ++ frame.now ∷ []) }
        ensures err { OnErr result (self.new ≡ self.old) }
    {
        let alloc = *self.frames.allocator();
        let copy = frame.to_vec(alloc)?;
        self.add(copy)
    }

    /// Adds `frame` at the end, without a copy. After `NoMemory` the list is as it was, and the
    /// frame is lost.
    pub fn add(&mut self, frame: Vec<u8>) -> Result<(), NoMemory>
        ensures ok { OnOk result (self.new ≡ self.old ++ frame.items ∷ []) }
        ensures err { OnErr result (self.new ≡ self.old) }
    {
        self.frames.push(frame)?;
        Ok(())
    }

    /// Keeps the first `count` frames alone; all, where there are no more. It takes no memory.
    pub fn truncate(&mut self, count: usize)
        ensures { self.new ≡ take count self.old }
    {
        self.frames.truncate(count);
    }

    /// How many frames there are.
    pub fn len(&self) -> usize
        ensures { result ≡ length self.now }
    {
        self.frames.len()
    }

    /// The frame with number `k`, counted from 0. `None` exactly where `k` is not below `len`.
    pub fn get(&self, k: usize) -> Option<&[u8]>
        ensures { option_copied result ≡ slice_get self.now k }
    {
        let frame = self.frames.get(k)?;
        Some(frame.as_slice())
    }
}
