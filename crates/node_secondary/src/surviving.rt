//! A secondary that survived its primary: it is alone, takes clients' frames and releases what its
//! guest sends.

ghost use Rattle.std.specs.Prelude.{◌≡◌, ◌≤◌, ◌++◌, false, option_to_list, IfOk, OnOk, OnErr};
ghost use Rattle.std.specs.Option.{option_map};
ghost use Rattle.frame_mirror.specs.Accepted.{entry_of};
ghost use Rattle.frame_mirror.specs.Inboxes.{AreAccepted};
ghost use Rattle.node_parts.specs.Counts.{HasCounts};
ghost use Rattle.node_parts.specs.Turns.{taken_frame, takes};
ghost use Rattle.node_release.specs.Gated.{gated};
ghost use Rattle.node_secondary.specs.Inside.{lone, turn_in};
ghost use Rattle.node_secondary.specs.Steps.{followed, gated_for, let_in, settle_alone};
ghost use Rattle.node_secondary.specs.Survivor.{alone};

use colo_base::{Frames, NoMemory};
use colo_wire::Gate;
use frame_mirror::{Inbox, hold};
use node_parts::make_turn;
use node_release::{follow, let_in};
use out_compare::Compare;
use state_wire::Guest;
use std::alloc::Global;

/// Makes a turn of the guest of a node alone, and follows what it sends. It gives the index of the
/// frame that the guest was given.
fn run_alone<G: Guest + Drop>(
    alloc: Global,
    guest: &mut G,
    inbox: &mut Inbox,
    compare: &mut Compare,
    turn: (u64, bool, u32, u32),
) -> Result<Option<u64>, NoMemory>
    requires accepted { AreAccepted inbox.old }
    requires going { compare.old.spent ≡ false }
    requires requests { turn.2 ≤ 256 }
    requires steps { turn.3 ≤ 100000 }
    ensures after { OnOk result (lone (G.meaning guest.new) inbox.new compare.new.comparing
        ≡ followed (lone (G.meaning guest.old) inbox.old compare.old.comparing) (turn_in turn)) }
    ensures index { IfOk result (λ index. index ≡ option_map (λ w. w.index)
        (taken_frame (takes (G.meaning guest.old) turn.1) inbox.old)) }
    ensures accepted { AreAccepted inbox.new }
    ensures kind { (G.meaning guest.new).kind ≡ (G.meaning guest.old).kind }
    ensures counts { HasCounts (G.meaning guest.new) }
    ensures going { OnOk result (compare.new.spent ≡ false) }
{
    let made = make_turn(alloc, guest, inbox, compare.lines(), turn)?;
    follow(compare, &made.sent)?;
    Ok(made.index)
}

/// Makes a turn of the guest of a node alone, and releases what it sent to `out`, by its own lines
/// in the place of both nodes'. After `NoMemory` nothing went out.
pub(crate) fn turn_alone<G: Guest + Drop>(
    alloc: Global,
    guest: &mut G,
    inbox: &mut Inbox,
    compare: &mut Compare,
    turn: (u64, bool, u32, u32),
    out: &mut Frames,
) -> Result<Option<u64>, NoMemory>
    requires accepted { AreAccepted inbox.old }
    requires going { compare.old.spent ≡ false }
    requires requests { turn.2 ≤ 256 }
    requires steps { turn.3 ≤ 100000 }
    ensures after { OnOk result (alone (lone (G.meaning guest.new) inbox.new
        compare.new.comparing) ≡ (settle_alone (followed (lone (G.meaning guest.old) inbox.old
        compare.old.comparing) (turn_in turn))).after) }
    ensures out { OnOk result (out.new ≡ out.old ++ (settle_alone (followed
        (lone (G.meaning guest.old) inbox.old compare.old.comparing) (turn_in turn))).out) }
    ensures index { IfOk result (λ index. index ≡ option_map (λ w. w.index)
        (taken_frame (takes (G.meaning guest.old) turn.1) inbox.old)) }
    ensures same { OnErr result (out.new ≡ out.old) }
    ensures accepted { AreAccepted inbox.new }
    ensures kind { (G.meaning guest.new).kind ≡ (G.meaning guest.old).kind }
    ensures counts { HasCounts (G.meaning guest.new) }
    ensures going { OnOk result (compare.new.spent ≡ false) }
{
    let index = run_alone(alloc, guest, inbox, compare, turn)?;
    let need = compare.settle(true, out)?;
    let _ = need;
    Ok(index)
}

/// Takes a client's frame: one that is accepted and finds room is put last; an ARP request for the
/// guest is answered to `out`; any other is dropped. After `NoMemory` nothing went out.
pub(crate) fn enter(
    alloc: Global,
    compare: &mut Compare,
    inbox: &mut Inbox,
    index: u64,
    frame: &[u8],
    out: &mut Frames,
) -> Result<Gate, NoMemory>
    requires accepted { AreAccepted inbox.old }
    ensures answer { IfOk result (λ gate. gate
        ≡ (gated compare.old.comparing inbox.old index (entry_of frame.now)).answer) }
    ensures inbox { OnOk result (inbox.new ≡ inbox.old ++ option_to_list
        (gated compare.old.comparing inbox.old index (entry_of frame.now)).waiting) }
    ensures compare { OnOk result (compare.new.comparing
        ≡ (gated compare.old.comparing inbox.old index (entry_of frame.now)).comparing) }
    ensures out { OnOk result (out.new ≡ out.old
        ++ (gated compare.old.comparing inbox.old index (entry_of frame.now)).out) }
    ensures same { OnErr result (out.new ≡ out.old) }
    ensures accepted { AreAccepted inbox.new }
    ensures spent { compare.new.spent ≡ compare.old.spent }
{
    let (gate, waiting) = let_in(alloc, compare, inbox, index, frame, out)?;
    if let Some(waiting) = waiting {
        hold(inbox, waiting);
    }
    Ok(gate)
}
