//! The messages of an inbox.

ghost use Rattle.std.specs.Prelude.{◌≡◌, [], ◌∷◌, ◌++◌, true, OnOk, drop, take};
ghost use Rattle.frame_mirror.specs.Accepted.{is_accepted};
ghost use Rattle.frame_mirror.specs.Inboxes.{AreAccepted};
ghost use Rattle.checkpoint_form.specs.Inbox.{held_message, inbox_messages};
ghost use Rattle.checkpoint_capture.specs.Trims.{TrimWhatIsSeen, TrimsWhatIsSeen};

use crate::messages::put_held;
use colo_base::NoMemory;
use frame_mirror::{Inbox, Waiting};
use node_parts::Outbox;
use std::alloc::Global;

/// Puts a frame that waits.
#[tactic(auto, using(crate::proofs::HeldLemmas::accepted_fits))]
fn put_waiting(alloc: Global, waiting: &Waiting, waits: &mut Outbox) -> Result<(), NoMemory>
    requires accepted { is_accepted waiting.now.frame ≡ true }
    requires trims { TrimsWhatIsSeen waiting.now }
    ensures { OnOk result (waits.new ≡ waits.old ++ held_message waiting.now ∷ []) }
{
    let frame = waiting.frame.as_slice();
    put_held(
        alloc,
        waiting.index,
        waiting.seen,
        waiting.trim,
        frame,
        waits,
    )
}

/// Puts the frame in place `k`, where there is one.
fn put_place(alloc: Global, inbox: &Inbox, k: usize, waits: &mut Outbox) -> Result<(), NoMemory>
    requires accepted { AreAccepted inbox.now }
    requires trims { TrimWhatIsSeen inbox.now }
    ensures { OnOk result (waits.new ≡ waits.old
        ++ inbox_messages (take 1 (drop k inbox.now))) }
{
    match inbox.get(k) {
        Some(waiting) => put_waiting(alloc, waiting, waits),
        None => Ok(()),
    }
}

/// Puts all frames that wait, the oldest first.
pub fn put_inbox(alloc: Global, inbox: &Inbox, waits: &mut Outbox) -> Result<(), NoMemory>
    requires accepted { AreAccepted inbox.now }
    requires trims { TrimWhatIsSeen inbox.now }
    ensures { OnOk result (waits.new ≡ waits.old ++ inbox_messages inbox.now) }
{
    for k in 0..inbox.len() {
        put_place(alloc, inbox, k, waits)?;
    }
    Ok(())
}
