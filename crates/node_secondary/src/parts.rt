//! What single messages leave of a secondary's parts.

ghost use Rattle.std.specs.Prelude.{◌≡◌, ◌<◌, ◌++◌, ◌∷◌, [], true, not, length, IsSome, IfOk, OnErr, OnOk};
ghost use Rattle.frame_mirror.specs.Accepted.{is_accepted};
ghost use Rattle.frame_mirror.specs.Inboxes.{AreAccepted, has_room};
ghost use Rattle.seq_rewriter.specs.Kept.{keep_number};
ghost use Rattle.colo_wire.specs.declared.messages.Message.TheVariants as message;
ghost use Rattle.kept_checkpoint.specs.Kept.{HasPageSize, begin_kept};
ghost use Rattle.node_secondary.specs.Hearing.{IsPart, keep_part, known_number, trim_lines, with_frame};

use crate::under_way::UnderWay;
use colo_base::{Contents, NoMemory};
use colo_wire::Message;
use frame_mirror::{Inbox, Waiting, has_room, hold};
use inet_frame::{Seen, Tuple, parse};
use kept_checkpoint::KeptCheckpoint;
use node_parts::{Outbox, put_message};
use seq_rewriter::Numbers;
use state_wire::Guest;
use std::alloc::Global;
use tcp_track::Tracker;

/// Forgets what a client's frame trims of its connection's line. It takes no memory.
pub fn trim_lines(lines: &mut Tracker, waiting: &Waiting)
    ensures { lines.new ≡ trim_lines lines.old waiting.now }
{
    let Some(seen) = waiting.seen else {
        return;
    };
    match parse(waiting.frame.as_slice()) {
        Seen::Tcp(view) => lines.trim(&view.client_tuple(), seen.client, waiting.trim),
        Seen::Arp(_) | Seen::Udp(_) | Seen::Other(_) => {}
    }
}

/// Puts a frame last, where there is room, and says whether there was none. It takes no memory.
pub fn put_frame(inbox: &mut Inbox, waiting: Waiting) -> bool
    requires accepted { is_accepted waiting.frame ≡ true }
    requires all { AreAccepted inbox.old }
    ensures inbox { inbox.new ≡ with_frame inbox.old waiting }
    ensures all { AreAccepted inbox.new }
    ensures full { result ≡ not (has_room inbox.old) }
{
    if has_room(inbox) {
        hold(inbox, waiting);
        false
    } else {
        true
    }
}

/// Keeps a number that was heard, and puts a message about the one that is kept. After `NoMemory`
/// none is put.
#[tactic(auto, using(colo_wire::proofs::SpellingLemmas::known_spells))]
pub fn keep_number(
    alloc: Global,
    numbers: &mut Numbers,
    waits: &mut Outbox,
    tuple: Tuple,
    client: u32,
    number: u32,
) -> Result<(), NoMemory>
    ensures numbers { OnOk result (numbers.new ≡ keep_number numbers.old tuple client number) }
    ensures waits { OnOk result (waits.new ≡ waits.old ++ message.Known tuple client
        (known_number numbers.old tuple client number) ∷ []) }
    ensures err { OnErr result (waits.new ≡ waits.old) }
{
    let number = numbers.opened(&tuple, client, number)?;
    let known = Message::Known {
        tuple,
        client,
        number,
    };
    put_message(alloc, &known, waits)
}

/// The state of a checkpoint, kept for this guest.
pub fn begin_kept<G: Guest + Drop>(
    alloc: Global,
    guest: &G,
    state: Contents,
) -> Result<KeptCheckpoint, NoMemory>
    ensures { IfOk result (λ kept. kept ≡ begin_kept state
        (G.meaning guest.now).kind.page_count (G.meaning guest.now).kind.sector_count) }
{
    KeptCheckpoint::new(alloc, state, guest.pages(), guest.sectors())
}

/// Keeps a part of the checkpoint that is under way. After `NoMemory` nothing of it is.
pub fn keep_part(under_way: UnderWay, message: &Message) -> Result<UnderWay, NoMemory>
    requires fits { IsPart under_way message.now }
    requires size { HasPageSize message.now }
    ensures { IfOk result (λ new. new ≡ keep_part under_way message.now) }
{
    match under_way {
        UnderWay::Nothing => Ok(UnderWay::Nothing),
        UnderWay::Begun => Ok(UnderWay::Begun),
        UnderWay::Heard(mut kept) => {
            kept.keep(message)?;
            Ok(UnderWay::Heard(kept))
        }
    }
}
