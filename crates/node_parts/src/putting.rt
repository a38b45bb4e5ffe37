//! Messages, put.

ghost use Rattle.std.specs.Prelude.{◌≡◌, [], ◌∷◌, ◌++◌, IfOk, OnOk, OnErr};
ghost use Rattle.colo_wire.specs.Reader.{message_of};
ghost use Rattle.colo_wire.specs.Spelling.{HasSpelling, IsMessage, message_bytes};
ghost use Rattle.node_parts.specs.Outboxes.{IsRead};

use crate::outbox::Outbox;
use crate::ranges::is_message;
use colo_base::NoMemory;
use colo_wire::{Message, encode};
use std::alloc::Global;

/// The bytes of a message.
fn spell(alloc: Global, message: &Message) -> Result<Vec<u8>, NoMemory>
    requires { HasSpelling message.now }
    ensures { IfOk result (λ bytes. bytes.items ≡ message_bytes message.now) }
{
    let mut bytes = Vec::new(alloc);
    encode(message, &mut bytes)?;
    Ok(bytes)
}

/// The bytes of a message are read as it.
fn read_back(message: &Message, bytes: &Vec<u8>)
    requires message { IsMessage message.now }
    requires spelled { bytes.now.items ≡ message_bytes message.now }
    ensures whole { IsRead bytes.now }
    ensures same { message_of bytes.now.items ≡ message.now }
{}

/// Puts a message last. After `NoMemory` none is put.
pub fn put_message(alloc: Global, message: &Message, waits: &mut Outbox) -> Result<(), NoMemory>
    requires { HasSpelling message.now }
    ensures ok { OnOk result (waits.new ≡ waits.old ++ message.now ∷ []) }
    ensures err { OnErr result (waits.new ≡ waits.old) }
{
    is_message(message);
    let bytes = spell(alloc, message)?;
    read_back(message, &bytes);
    waits.put(bytes)
}
