//! What is to come over a link in memory.

ghost use Rattle.std.specs.Prelude.{◌≡◌, ◌≤◌, [], ◌∷◌, ◌++◌, OnOk, OnErr, IfSome, length, slice_get, unwrap_or};
ghost use Rattle.std.specs.Option.{option_copied};
ghost use Rattle.colo_base.specs.Incoming.{pass};

use crate::NoMemory;
use std::alloc::Global;
use std::collections::VecDeque;
use std::marker::Model;

/// Pieces of bytes that are to come, the oldest first. A contract sees what is left of each.
#[derive(Drop)]
pub struct Incoming {
    pieces: VecDeque<Vec<u8>>,
    taken: usize,
}

impl Model for Incoming {
    ghost use Rattle.std.specs.Prelude.{List, ℕ, map, ◌≤◌, length};
    ghost use Rattle.colo_base.specs.Incoming.{coming_of, IsWithin};

    ghost Value = { List (List ℕ) };

    ghost view = { λ s. coming_of s.taken (map (λ piece. piece.items) s.pieces.items) };

    ghost invariant = { λ s. IsWithin s.taken (map (λ piece. piece.items) s.pieces.items) };
}

impl Incoming {
    /// Nothing is to come.
    pub fn new(alloc: Global) -> Incoming
        ensures { result ≡ [] }
    {
        Incoming {
            pieces: VecDeque::new(alloc),
            taken: 0,
        }
    }

    /// Adds a piece at the end. After `NoMemory` nothing was added.
    pub fn add(&mut self, piece: &[u8]) -> Result<(), NoMemory>
        ensures ok { OnOk result (self.new ≡ self.old ++ piece.now ∷ []) }
        ensures err { OnErr result (self.new ≡ self.old) }
    {
        let alloc = *self.pieces.allocator();
        let copy = piece.to_vec(alloc)?;
        self.pieces.push_back(copy)?;
        Ok(())
    }

    /// What is left of the oldest piece.
    pub fn oldest(&self) -> Option<&[u8]>
        ensures { option_copied result ≡ slice_get self.now 0 }
    {
        let piece = self.pieces.front()?;
        Some(&piece[self.taken..])
    }

    /// Takes `n` bytes of the oldest piece, which goes once nothing of it is left.
    pub fn pass(&mut self, n: usize)
        requires { n ≤ length (unwrap_or (slice_get self.old 0) []) }
        ensures { self.new ≡ pass n self.old }
    {
        let left = self.pieces.front().map_or(0, |piece| piece.len());
        if self.taken + n < left {
            self.taken += n;
        } else {
            self.pieces.pop_front();
            self.taken = 0;
        }
    }
}
