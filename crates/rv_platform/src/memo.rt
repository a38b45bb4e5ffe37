//! Words that were decoded, kept so that a word that is fetched again isn't decoded again.

ghost use Rattle.std.specs.Prelude.{◌≡◌, ◌<◌, All, length, slice_index_or};
ghost use Rattle.std.specs.Bool.{OnFalse, OnTrue};
ghost use Rattle.rv_isa.specs.Table.{decode};
ghost use Rattle.rv_platform.specs.Memo.{IsDecoded};

use rv_isa::{Instr, decode};
use std::marker::Model;

/// The number of places.
const PLACES: usize = 1024;

/// A word, and the instruction that it decodes to.
#[derive(Clone, Copy)]
pub struct Decoded {
    pub word: u32,
    pub instr: Instr,
}

/// Words that were decoded, each at the place that follows from its address. An entry answers only
/// for its own word, so no store has to clear one.
///
/// Contracts see nothing of it, since it changes no answer.
#[derive(Drop)]
pub struct Memo {
    entries: [Decoded; 1024],
}

impl Model for Memo {
    ghost use Rattle.std.specs.Prelude.{◌≡◌, All, length};
    ghost use Rattle.rv_platform.specs.Memo.{IsDecoded};

    ghost Value = { Unit {0} };

    ghost view = { λ m. tt };

    ghost invariant = { λ m. (length m.entries ≡ 1024) × All IsDecoded m.entries };
}

/// Sees to it that a place has a word. `false` exactly where the word decodes to nothing.
#[inline(always)]
fn remember(entries: &mut [Decoded], place: usize, word: u32) -> bool
    requires inside { place < length entries.old }
    requires decoded { All IsDecoded entries.old }
    ensures known { OnTrue result
        ((d : Decoded) → (slice_index_or entries.new place d).word ≡ word) }
    ensures unknown { OnFalse result (decode word ≡ None) }
    ensures decoded { All IsDecoded entries.new }
    ensures len { length entries.new ≡ length entries.old }
{
    entries[place].word == word || learn(entries, place, word)
}

/// Decodes a word, and keeps what it decodes to.
#[inline(never)]
fn learn(entries: &mut [Decoded], place: usize, word: u32) -> bool
    requires inside { place < length entries.old }
    requires decoded { All IsDecoded entries.old }
    ensures known { OnTrue result
        ((d : Decoded) → (slice_index_or entries.new place d).word ≡ word) }
    ensures unknown { OnFalse result (decode word ≡ None) }
    ensures decoded { All IsDecoded entries.new }
    ensures len { length entries.new ≡ length entries.old }
{
    match decode(word) {
        Some(instr) => {
            entries[place] = Decoded { word, instr };
            true
        }
        None => false,
    }
}

/// The word of `addi x0, x0, 0`.
#[tactic(auto, using(crate::proofs::MemoLemmas::nop_decoded))]
fn nop() -> Decoded
    ensures { IsDecoded result }
{
    Decoded {
        word: 0x13,
        instr: Instr::Addi {
            rd: 0,
            rs1: 0,
            imm: 0,
        },
    }
}

impl Memo {
    /// A memo of one word alone.
    pub fn new() -> Memo {
        Memo {
            entries: [nop(); PLACES],
        }
    }

    /// The instruction of the word at an address, `None` where it decodes to nothing.
    #[inline(always)]
    pub fn decode(&mut self, addr: u32, word: u32) -> Option<Instr>
        ensures { result ≡ decode word }
    {
        let place = (addr / 4) as usize % PLACES;
        if !remember(&mut self.entries, place, word) {
            return None;
        }
        Some(self.entries[place].instr)
    }
}
