//! Which message is due when.

ghost use Rattle.std.specs.Prelude.{◌≡◌};
ghost use Rattle.node_primary.specs.Inside.{plain};
ghost use Rattle.node_primary.specs.Steps.{is_due, is_due_together};

use crate::parts::Parts;
use colo_wire::Message;
use inet_frame::counted;
use state_wire::Guest;

impl<G: Guest + Drop> Parts<G> {
    /// Says whether a message is due while the secondary runs.
    fn is_due_together(&self, message: &Message) -> bool
        ensures { result ≡ is_due_together (plain G.meaning self.now) message.now }
    {
        match message {
            Message::Known { .. } => true,
            Message::Sent { frame } => counted(frame.as_slice()).is_some(),
            Message::Ack { e } => self.awaits && *e == self.captures,
            Message::Frame { .. } | Message::Number { .. } | Message::Begin { .. } => false,
            Message::State { .. } | Message::Page { .. } | Message::Disk { .. } => false,
            Message::Write { .. } | Message::Held { .. } | Message::Line { .. } => false,
            Message::Bytes { .. } | Message::End { .. } => false,
        }
    }

    /// Says whether a message is due. It takes no memory.
    pub fn is_due(&self, message: &Message) -> bool
        ensures { result ≡ is_due (plain G.meaning self.now) message.now }
    {
        !self.compare.is_alone() && self.is_due_together(message)
    }
}
