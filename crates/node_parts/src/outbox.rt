//! Messages that wait to go out, or are on their way.

ghost use Rattle.std.specs.Prelude.{◌≡◌, ◌==◌, [], ◌∷◌, ◌++◌, length, OnOk, OnErr};
ghost use Rattle.colo_wire.specs.Reader.{message_of};
ghost use Rattle.node_parts.specs.Outboxes.{IsRead, TakesFirst};

use colo_base::NoMemory;
use std::alloc::Global;
use std::collections::VecDeque;
use std::marker::Model;

/// Messages that wait to go out, the oldest first, spelled. A contract sees the list of messages.
#[derive(Drop)]
pub struct Outbox {
    messages: VecDeque<Vec<u8>>,
}

impl Model for Outbox {
    ghost use Rattle.std.specs.Prelude.{List, map};
    ghost use Rattle.std.specs.List.{AllByRecursion};
    ghost use Rattle.colo_wire.specs.declared.messages.Message.{Message};
    ghost use Rattle.colo_wire.specs.Reader.{message_of};
    ghost use Rattle.node_parts.specs.Outboxes.{IsRead};

    ghost Value = { List Message };

    ghost view = { λ o. map (λ message. message_of message.items) o.messages.items };

    ghost invariant = { λ o. AllByRecursion IsRead o.messages.items };
}

impl Outbox {
    /// No messages. It takes no memory.
    pub fn new(alloc: Global) -> Outbox
        ensures { result ≡ [] }
    {
        Outbox {
            messages: VecDeque::new(alloc),
        }
    }

    /// Puts the bytes of a message last. After `NoMemory` the list is as it was.
    pub fn put(&mut self, message: Vec<u8>) -> Result<(), NoMemory>
        requires { IsRead message }
        ensures ok { OnOk result (self.new ≡ self.old ++ message_of message.items ∷ []) }
        ensures err { OnErr result (self.new ≡ self.old) }
    {
        self.messages.push_back(message)?;
        Ok(())
    }

    /// Takes the oldest message, spelled: `None` exactly where none waits. It takes no memory.
    pub fn take(&mut self) -> Option<Vec<u8>>
        ensures { TakesFirst self.old self.new result }
    {
        self.messages.pop_front()
    }

    /// Drops all. It takes no memory.
    pub fn clear(&mut self)
        ensures { self.new ≡ [] }
    {
        self.messages.clear();
    }

    /// How many messages wait.
    pub fn len(&self) -> usize
        ensures { result ≡ length self.now }
    {
        self.messages.len()
    }

    /// Says whether none waits.
    pub fn is_empty(&self) -> bool
        ensures { result ≡ (length self.now == 0) }
    {
        self.messages.is_empty()
    }
}
