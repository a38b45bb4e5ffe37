//! A turn of a node's guest.

ghost use Rattle.std.specs.Prelude.{◌≡◌, ◌≤◌, IfOk, OnOk};
ghost use Rattle.std.specs.Option.{ForSome, option_copied, option_map};
ghost use Rattle.frame_mirror.specs.Inboxes.{AreAccepted};
ghost use Rattle.state_wire.specs.Guest.{CanReceive, IsFrame, after_turn, sent_in, turn_of};
ghost use Rattle.node_parts.specs.Counts.{HasCounts};
ghost use Rattle.node_parts.specs.Turns.{left_frames, taken_frame, takes, turn_for};

use crate::counts::count_parts;
use crate::giving::{bytes_of, take_frame};
use colo_base::{Frames, NoMemory};
use frame_mirror::Inbox;
use state_wire::Guest;
use std::alloc::Global;
use tcp_track::Tracker;

/// What a turn gave.
#[derive(Drop)]
pub struct Made {
    /// The index of the client frame that the guest was given.
    pub index: Option<u64>,
    /// The frames that the guest sent.
    pub sent: Frames,
}

/// Says whether the guest takes a frame, where one is wanted.
fn wants_frame<G: Guest>(guest: &G, wants: bool) -> bool
    ensures { result ≡ takes (G.meaning guest.now) wants }
{
    wants && guest.can_receive()
}

/// Makes a turn of the guest with this frame.
fn run_guest<G: Guest>(
    alloc: Global,
    guest: &mut G,
    turn: (u64, u32, u32),
    frame: Option<&[u8]>,
) -> Result<Frames, NoMemory>
    requires frame { ForSome frame (λ bytes. IsFrame bytes.now) }
    requires receives { CanReceive (G.meaning guest.old) (option_copied frame) }
    requires requests { turn.1 ≤ 256 }
    requires steps { turn.2 ≤ 100000 }
    ensures sent { IfOk result (λ sent. sent ≡ sent_in (G.meaning guest.old)
        (turn_of turn.0 (option_copied frame.entry) turn.1 turn.2)) }
    ensures guest { OnOk result (G.meaning guest.new ≡ after_turn (G.meaning guest.old)
        (turn_of turn.0 (option_copied frame.entry) turn.1 turn.2)) }
    ensures kind { (G.meaning guest.new).kind ≡ (G.meaning guest.old).kind }
    ensures counts { HasCounts (G.meaning guest.new) }
{
    let mut sent = Frames::new(alloc);
    let made = guest.turn(turn.0, frame, turn.1, turn.2, &mut sent);
    count_parts(guest);
    made?;
    Ok(sent)
}

/// Makes a turn of a node's guest: the clock goes on by `d`; where `i` holds and the guest can
/// receive, it is given the oldest frame that waits, as its own numbering wants it; at most `b`
/// block requests are served, and `n` steps are made. Nothing that it sends is followed yet.
pub fn make_turn<G: Guest>(
    alloc: Global,
    guest: &mut G,
    inbox: &mut Inbox,
    lines: &Tracker,
    turn: (u64, bool, u32, u32),
) -> Result<Made, NoMemory>
    requires accepted { AreAccepted inbox.old }
    requires requests { turn.2 ≤ 256 }
    requires steps { turn.3 ≤ 100000 }
    ensures index { IfOk result (λ made. made.index ≡ option_map (λ w. w.index)
        (taken_frame (takes (G.meaning guest.old) turn.1) inbox.old)) }
    ensures sent { IfOk result (λ made. made.sent ≡ sent_in (G.meaning guest.old)
        (turn_for (G.meaning guest.old) inbox.old lines.now
        (record { ticks = turn.0; wants = turn.1; requests = turn.2; steps = turn.3 }))) }
    ensures guest { OnOk result (G.meaning guest.new ≡ after_turn (G.meaning guest.old)
        (turn_for (G.meaning guest.old) inbox.old lines.now
        (record { ticks = turn.0; wants = turn.1; requests = turn.2; steps = turn.3 }))) }
    ensures inbox { inbox.new ≡ left_frames (takes (G.meaning guest.old) turn.1) inbox.old }
    ensures accepted { AreAccepted inbox.new }
    ensures kind { (G.meaning guest.new).kind ≡ (G.meaning guest.old).kind }
    ensures counts { HasCounts (G.meaning guest.new) }
{
    let (d, i, b, n) = turn;
    let wants = wants_frame(guest, i);
    let given = take_frame(wants, lines, inbox);
    let sent = run_guest(alloc, guest, (d, b, n), bytes_of(&given))?;
    let index = given.map(|g| g.index);
    Ok(Made { index, sent })
}
