//! A client's frame at a node that releases.

ghost use Rattle.std.specs.Prelude.{◌≡◌, ◌<◌, ◌++◌, length, true, None, Some, IfOk, IfSome, OnOk, OnErr};
ghost use Rattle.inet_frame.specs.Counted.{tcp_in};
ghost use Rattle.frame_mirror.specs.Accepted.{entry_of, is_accepted};
ghost use Rattle.frame_mirror.specs.declared.ingress.Entry.TheVariants as entry;
ghost use Rattle.frame_mirror.specs.declared.ring.TheConstants.{INBOX_ROOM};
ghost use Rattle.node_release.specs.Gated.{IsClean, MayWait, gated, looked_by, seen_by, taken_by, trim_by};

use colo_base::{Contents, Frames, NoMemory};
use colo_wire::Gate;
use frame_mirror::{Entry, Inbox, Waiting, accept, has_room};
use inet_frame::{Seen, parse};
use out_compare::Compare;
use std::alloc::Global;
use tcp_track::{Offset, Opening};

/// What a client has seen, and how far its frame trims.
#[tactic(auto, using(crate::proofs::GateLemmas::nothing_trimmed))]
fn look(compare: &mut Compare, frame: &[u8]) -> (Option<Opening>, Offset)
    ensures untrimmed { result.0 ≡ None → result.1 ≡ 0 }
    ensures seen { result.0 ≡ seen_by compare.old.comparing (tcp_in frame.now) }
    ensures trim { result.1 ≡ trim_by compare.old.comparing (tcp_in frame.now) }
    ensures after { compare.new.comparing
        ≡ looked_by compare.old.comparing (tcp_in frame.now) }
    ensures spent { compare.new.spent ≡ compare.old.spent }
{
    match parse(frame) {
        Seen::Tcp(view) => compare.client(&view),
        Seen::Arp(_) | Seen::Udp(_) | Seen::Other(_) => (None, 0),
    }
}

/// Lets an accepted frame in, where there is room. It takes no memory.
#[tactic(auto, unfolding(crate::specs::Gated::gated))]
fn take(
    compare: &mut Compare,
    inbox: &Inbox,
    index: u64,
    frame: Contents,
) -> (Gate, Option<Waiting>)
    requires { is_accepted frame ≡ true }
    ensures answer { result.0
        ≡ (gated compare.old.comparing inbox.now index (entry.Frame frame)).answer }
    ensures waiting { result.1
        ≡ (gated compare.old.comparing inbox.now index (entry.Frame frame)).waiting }
    ensures after { compare.new.comparing
        ≡ (gated compare.old.comparing inbox.now index (entry.Frame frame)).comparing }
    ensures spent { compare.new.spent ≡ compare.old.spent }
    ensures may_wait { IfSome result.1 MayWait }
    ensures room { IfSome result.1 (λ w. length inbox.now < INBOX_ROOM) }
{
    if !has_room(inbox) {
        return (Gate::Full, None);
    }
    let (seen, trim) = look(compare, frame.as_slice());
    let waiting = Waiting {
        index,
        seen,
        trim,
        frame,
    };
    (Gate::Taken { seen, trim }, Some(waiting))
}

/// Does with an entry what becomes of it.
#[tactic(auto, unfolding(crate::specs::Gated::gated))]
fn enter(
    compare: &mut Compare,
    inbox: &Inbox,
    index: u64,
    entry: Entry,
    out: &mut Frames,
) -> Result<(Gate, Option<Waiting>), NoMemory>
    requires { IsClean entry }
    ensures answer { IfOk result (λ r. r.0
        ≡ (gated compare.old.comparing inbox.now index entry).answer) }
    ensures waiting { IfOk result (λ r. r.1
        ≡ (gated compare.old.comparing inbox.now index entry).waiting) }
    ensures after { OnOk result (compare.new.comparing
        ≡ (gated compare.old.comparing inbox.now index entry).comparing) }
    ensures out { OnOk result (out.new ≡ out.old
        ++ (gated compare.old.comparing inbox.now index entry).out) }
    ensures may_wait { IfOk result (λ r. IfSome r.1 MayWait) }
    ensures room { IfOk result (λ r. IfSome r.1 (λ w. length inbox.now < INBOX_ROOM)) }
    ensures spent { compare.new.spent ≡ compare.old.spent }
    ensures same { OnErr result (out.new ≡ out.old) }
{
    match entry {
        Entry::Drop(why) => Ok((Gate::Dropped(why), None)),
        Entry::Answer(reply) => {
            out.push(&reply)?;
            Ok((Gate::Answered, None))
        }
        Entry::Frame(frame) => Ok(take(compare, inbox, index, frame)),
    }
}

/// A client's frame, as what becomes of it.
fn read(alloc: Global, frame: &[u8]) -> Result<Entry, NoMemory>
    ensures value { IfOk result (λ entry. entry ≡ entry_of frame.now) }
    ensures clean { IfOk result IsClean }
{
    let entry = accept(alloc, frame)?;
    Ok(entry)
}

/// Lets a client's frame in: one that is accepted is given back as it will wait, where the inbox
/// has room; an ARP request for the guest is answered to `out`; any other is dropped. Nothing is
/// put into the inbox yet. After `NoMemory` all is as it was.
pub fn let_in(
    alloc: Global,
    compare: &mut Compare,
    inbox: &Inbox,
    index: u64,
    frame: &[u8],
    out: &mut Frames,
) -> Result<(Gate, Option<Waiting>), NoMemory>
    ensures answer { IfOk result (λ r. r.0
        ≡ (gated compare.old.comparing inbox.now index (entry_of frame.now)).answer) }
    ensures waiting { IfOk result (λ r. r.1
        ≡ (gated compare.old.comparing inbox.now index (entry_of frame.now)).waiting) }
    ensures after { OnOk result (compare.new.comparing
        ≡ (gated compare.old.comparing inbox.now index (entry_of frame.now)).comparing) }
    ensures out { OnOk result (out.new ≡ out.old
        ++ (gated compare.old.comparing inbox.now index (entry_of frame.now)).out) }
    ensures may_wait { IfOk result (λ r. IfSome r.1 MayWait) }
    ensures room { IfOk result (λ r. IfSome r.1 (λ w. length inbox.now < INBOX_ROOM)) }
    ensures spent { compare.new.spent ≡ compare.old.spent }
    ensures same { OnErr result (out.new ≡ out.old) }
{
    let entry = read(alloc, frame)?;
    enter(compare, inbox, index, entry, out)
}
