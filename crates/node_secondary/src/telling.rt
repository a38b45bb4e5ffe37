//! What a guest sends: followed, and told to the primary.

ghost use Rattle.std.specs.Prelude.{◌≡◌, ◌++◌, ◌∷◌, [], fold, IsSome, OnOk};
ghost use Rattle.inet_frame.specs.Counted.{counted};
ghost use Rattle.tcp_track.specs.Tracking.{taken};
ghost use Rattle.colo_wire.specs.declared.messages.Message.TheVariants as message;
ghost use Rattle.node_secondary.specs.Turns.{sent_message, sent_messages};

use colo_base::{Contents, Frames, NoMemory};
use colo_wire::Message;
use inet_frame::counted;
use node_parts::{Outbox, put_message};
use std::alloc::Global;
use tcp_track::Tracker;

/// Puts a message about a frame that counts.
#[tactic(auto, using(crate::proofs::TurnLemmas::sent_spelled))]
fn tell_counted(alloc: Global, frame: &[u8], waits: &mut Outbox) -> Result<(), NoMemory>
    requires { IsSome (counted frame.now) }
    ensures { OnOk result (waits.new ≡ waits.old ++ message.Sent frame.now ∷ []) }
{
    let message = Message::Sent {
        frame: Contents::from_vec(frame.to_vec(alloc)?),
    };
    put_message(alloc, &message, waits)
}

/// Puts a message about a frame, where it counts.
fn tell(alloc: Global, frame: &[u8], waits: &mut Outbox) -> Result<(), NoMemory>
    ensures { OnOk result (waits.new ≡ waits.old ++ sent_message frame.now) }
{
    match counted(frame) {
        Some(_) => tell_counted(alloc, frame, waits),
        None => Ok(()),
    }
}

/// Follows all frames, and puts a message about each that counts.
pub fn tell_all(
    alloc: Global,
    frames: &Frames,
    lines: &mut Tracker,
    waits: &mut Outbox,
) -> Result<(), NoMemory>
    ensures lines { OnOk result (lines.new ≡ fold taken lines.old frames.now) }
    ensures waits { OnOk result (waits.new ≡ waits.old ++ sent_messages frames.now) }
{
    for k in 0..frames.len() {
        let Some(frame) = frames.get(k) else {
            return Ok(());
        };
        lines.take(frame)?;
        tell(alloc, frame, waits)?;
    }
    Ok(())
}
