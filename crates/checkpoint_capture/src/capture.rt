//! A whole checkpoint.

ghost use Rattle.std.specs.Prelude.{◌≡◌, [], ◌∷◌, ◌++◌, IsTrue, OnOk};
ghost use Rattle.colo_wire.specs.declared.messages.Message.TheVariants as message;
ghost use Rattle.frame_mirror.specs.Inboxes.{AreAccepted};
ghost use Rattle.checkpoint_form.specs.Captured.{captured_messages};
ghost use Rattle.checkpoint_capture.specs.Sizes.{HaveSize};
ghost use Rattle.checkpoint_capture.specs.Trims.{TrimWhatIsSeen};

use crate::guest_parts::{put_guest_state, put_pages, put_sectors};
use crate::held::put_inbox;
use crate::line_parts::put_lines;
use colo_base::NoMemory;
use colo_wire::Message;
use frame_mirror::Inbox;
use node_parts::{Outbox, put_message};
use seq_rewriter::Numbers;
use state_wire::Guest;
use std::alloc::Global;
use tcp_track::Tracker;

/// Puts checkpoint `e` where messages wait to go out: its begin; the guest's state, its pages and
/// its sectors; the frames that wait in the inbox; in table order each line with its number and
/// its bytes; its end.
///
/// Each frame in the inbox is accepted as it is, and one whose sender has seen no opening trims
/// nothing. After `NoMemory` nothing is said of what waits.
pub fn put_capture<G: Guest>(
    alloc: Global,
    guest: &G,
    inbox: &Inbox,
    lines: &Tracker,
    numbers: &Numbers,
    e: u32,
    waits: &mut Outbox,
) -> Result<(), NoMemory>
    requires accepted { AreAccepted inbox.now }
    requires trims { TrimWhatIsSeen inbox.now }
    ensures ok { OnOk result (waits.new ≡ waits.old
        ++ (captured_messages (G.meaning guest.now).state inbox.now lines.now numbers.now e
        ++ message.End e ∷ [])) }
    ensures accepts { OnOk result (IsTrue
        ((G.meaning guest.now).kind.accepts (G.meaning guest.now).state.bytes)) }
    ensures pages { OnOk result (HaveSize 4096 (G.meaning guest.now).state.pages) }
    ensures sectors { OnOk result (HaveSize 512 (G.meaning guest.now).state.sectors) }
{
    put_message(alloc, &Message::Begin { e }, waits)?;
    put_guest_state(alloc, guest, waits)?;
    put_pages(alloc, guest, waits)?;
    put_sectors(alloc, guest, waits)?;
    put_inbox(alloc, inbox, waits)?;
    put_lines(alloc, lines, numbers, waits)?;
    put_message(alloc, &Message::End { e }, waits)?;
    Ok(())
}
