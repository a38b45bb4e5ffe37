//! One message of a checkpoint, spelled from what it holds without a copy.

ghost use Rattle.std.specs.Prelude.{◌≡◌, ◌≤◌, ◌%◌, [], ◌∷◌, ◌++◌, None, OnOk, length};
ghost use Rattle.colo_wire.specs.declared.messages.Message.TheVariants as message;

use colo_base::NoMemory;
use colo_wire::{encode_bytes, encode_disk, encode_held, encode_page, encode_state};
use node_parts::Outbox;
use std::alloc::Global;
use tcp_track::{Offset, Opening};

/// The room that a message needs beside its body: kind and length.
const HEAD: usize = 5;

/// Puts a `State`.
pub fn put_state(alloc: Global, state: &[u8], waits: &mut Outbox) -> Result<(), NoMemory>
    requires { length state.now ≤ 16777216 }
    ensures { OnOk result (waits.new ≡ waits.old ++ message.State state.now ∷ []) }
{
    let mut bytes = Vec::with_capacity(alloc, HEAD + state.len())?;
    encode_state(state, &mut bytes)?;
    waits.put(bytes)
}

/// Puts a `Page`.
pub fn put_page(alloc: Global, k: u32, page: &[u8], waits: &mut Outbox) -> Result<(), NoMemory>
    requires { length page.now ≡ 4096 }
    ensures { OnOk result (waits.new ≡ waits.old ++ message.Page k page.now ∷ []) }
{
    let mut bytes = Vec::with_capacity(alloc, HEAD + 4 + page.len())?;
    encode_page(k, page, &mut bytes)?;
    waits.put(bytes)
}

/// Puts a `Disk`.
pub fn put_disk(
    alloc: Global,
    first: u32,
    sectors: &[u8],
    waits: &mut Outbox,
) -> Result<(), NoMemory>
    requires at_least { 512 ≤ length sectors.now }
    requires at_most { length sectors.now ≤ 65536 }
    requires whole { length sectors.now % 512 ≡ 0 }
    ensures { OnOk result (waits.new ≡ waits.old ++ message.Disk first sectors.now ∷ []) }
{
    let mut bytes = Vec::with_capacity(alloc, HEAD + 4 + sectors.len())?;
    encode_disk(first, sectors, &mut bytes)?;
    waits.put(bytes)
}

/// Puts a `Held`.
pub fn put_held(
    alloc: Global,
    index: u64,
    seen: Option<Opening>,
    trim: Offset,
    frame: &[u8],
    waits: &mut Outbox,
) -> Result<(), NoMemory>
    requires at_least { 14 ≤ length frame.now }
    requires at_most { length frame.now ≤ 1514 }
    requires untrimmed { seen ≡ None → trim ≡ 0 }
    ensures { OnOk result (waits.new
        ≡ waits.old ++ message.Held index seen trim frame.now ∷ []) }
{
    let mut bytes = Vec::with_capacity(alloc, HEAD + 21 + frame.len())?;
    encode_held(index, seen, trim, frame, &mut bytes)?;
    waits.put(bytes)
}

/// Puts a `Bytes`.
pub fn put_bytes(alloc: Global, piece: &[u8], waits: &mut Outbox) -> Result<(), NoMemory>
    requires at_least { 1 ≤ length piece.now }
    requires at_most { length piece.now ≤ 65536 }
    ensures { OnOk result (waits.new ≡ waits.old ++ message.Bytes piece.now ∷ []) }
{
    let mut bytes = Vec::with_capacity(alloc, HEAD + piece.len())?;
    encode_bytes(piece, &mut bytes)?;
    waits.put(bytes)
}
