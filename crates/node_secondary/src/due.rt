//! Which message is due when.

ghost use Rattle.std.specs.Prelude.{◌≡◌};
ghost use Rattle.node_secondary.specs.Hearing.{is_due_at, is_due_begun, is_due_outside, is_due_within};

use crate::under_way::UnderWay;
use colo_wire::Message;
use frame_mirror::is_accepted;
use kept_checkpoint::KeptCheckpoint;
use state_wire::Guest;

/// Says whether a message is due outside a checkpoint, where the next has this number.
fn is_due_outside(next: u32, message: &Message) -> bool
    ensures { result ≡ is_due_outside next message.now }
{
    match message {
        Message::Frame { frame, .. } => is_accepted(frame.as_slice()),
        Message::Number { .. } => true,
        Message::Begin { e } => *e == next,
        Message::State { .. } | Message::Page { .. } | Message::Disk { .. } => false,
        Message::Write { .. } | Message::Held { .. } | Message::Line { .. } => false,
        Message::Bytes { .. } | Message::End { .. } | Message::Known { .. } => false,
        Message::Sent { .. } | Message::Ack { .. } => false,
    }
}

/// Says whether a message is due directly after the begin of a checkpoint.
fn is_due_begun<G: Guest + Drop>(guest: &G, message: &Message) -> bool
    ensures { result ≡ is_due_begun (G.meaning guest.now).kind message.now }
{
    match message {
        Message::State { bytes } => guest.accepts(bytes.as_slice()),
        Message::Frame { .. } | Message::Number { .. } | Message::Begin { .. } => false,
        Message::Page { .. } | Message::Disk { .. } | Message::Write { .. } => false,
        Message::Held { .. } | Message::Line { .. } | Message::Bytes { .. } => false,
        Message::End { .. } | Message::Known { .. } => false,
        Message::Sent { .. } | Message::Ack { .. } => false,
    }
}

/// Says whether a message is due within a checkpoint of this number, of which so much was heard.
fn is_due_within(next: u32, kept: &KeptCheckpoint, message: &Message) -> bool
    ensures { result ≡ is_due_within next kept.now message.now }
{
    match message {
        Message::End { e } => *e == next,
        Message::Frame { .. } | Message::Number { .. } | Message::Begin { .. } => {
            kept.fits(message)
        }
        Message::State { .. } | Message::Page { .. } | Message::Disk { .. } => kept.fits(message),
        Message::Write { .. } | Message::Held { .. } | Message::Line { .. } => kept.fits(message),
        Message::Bytes { .. } | Message::Known { .. } => kept.fits(message),
        Message::Sent { .. } | Message::Ack { .. } => kept.fits(message),
    }
}

/// Says whether a message is due, where so much was heard of the next checkpoint. It takes no
/// memory.
pub fn is_due<G: Guest + Drop>(
    guest: &G,
    next: u32,
    under_way: &UnderWay,
    message: &Message,
) -> bool
    ensures { result ≡ is_due_at (G.meaning guest.now).kind next under_way.now message.now }
{
    match under_way {
        UnderWay::Nothing => is_due_outside(next, message),
        UnderWay::Begun => is_due_begun(guest, message),
        UnderWay::Heard(kept) => is_due_within(next, kept, message),
    }
}
