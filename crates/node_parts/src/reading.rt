//! Bytes, read as one whole message.

ghost use Rattle.std.specs.Prelude.{◌≡◌, ◌≢◌, Err, IfErr, IfOk};
ghost use Rattle.colo_wire.specs.Reader.{IsWhole};
ghost use Rattle.colo_wire.specs.declared.faults.WireFault.TheVariants.{NoMemory};
ghost use Rattle.node_parts.specs.Reading.{Reading, Reads};

use colo_wire::{Message, WireFault, decode};
use std::alloc::Global;

/// The message that the bytes are: `decode`'s fault where they are none, and `Length` where bytes
/// follow a whole one.
#[tactic(auto, using(crate::proofs::ReadingLemmas::whole_by, crate::proofs::ReadingLemmas::followed_by, crate::proofs::ReadingLemmas::fault_read))]
pub fn read(alloc: Global, bytes: &[u8]) -> Result<Message, WireFault>
    ensures found { IfOk result (λ m. IsWhole m bytes.now) }
    ensures fault { IfErr result (λ f. f ≢ NoMemory → Reads bytes.now (Err f)) }
    ensures each { (reading : Reading) → Reads bytes.now reading → result ≢ Err NoMemory →
        result ≡ reading }
{
    match decode(alloc, bytes) {
        Ok((message, size)) => {
            if size == bytes.len() {
                Ok(message)
            } else {
                Err(WireFault::Length)
            }
        }
        Err(fault) => Err(fault),
    }
}
