//! The frame that a guest is given.

ghost use Rattle.std.specs.Prelude.{◌≡◌, true, IsSome, IfSome};
ghost use Rattle.std.specs.Option.{ForSome, option_copied, option_map};
ghost use Rattle.inet_frame.specs.Counted.{tcp_in};
ghost use Rattle.tcp_track.specs.Tracking.{current_at};
ghost use Rattle.state_wire.specs.Guest.{IsFrame};
ghost use Rattle.frame_mirror.specs.Accepted.{is_accepted};
ghost use Rattle.frame_mirror.specs.Inboxes.{AreAccepted};
ghost use Rattle.node_parts.specs.Turns.{current_for, frame_for, left_frames, taken_frame};

use frame_mirror::{Inbox, Waiting};
use inet_frame::{Seen, Tuple, parse};
use seq_rewriter::inward;
use tcp_track::{Opening, Tracker};

/// A client frame as a guest is given it.
#[derive(Drop)]
pub(crate) struct Given {
    /// Its index in the client stream.
    pub index: u64,
    /// Its bytes.
    pub frame: Vec<u8>,
}

/// The current opening of a tuple.
fn current_at(lines: &Tracker, tuple: &Tuple) -> Option<Opening>
    ensures { result ≡ current_at lines.now tuple.now }
{
    let line = lines.line(tuple)?;
    line.opening
}

/// The guest's current opening of the connection of a client's frame.
fn current_for(lines: &Tracker, frame: &[u8]) -> Option<Opening>
    ensures { result ≡ current_for lines.now (tcp_in frame.now) }
{
    match parse(frame) {
        Seen::Tcp(view) => current_at(lines, &view.client_tuple()),
        Seen::Arp(_) | Seen::Udp(_) | Seen::Other(_) => None,
    }
}

/// The bytes of a waiting frame as the guest's own numbering wants them. It takes no memory.
#[tactic(auto, using(frame_mirror::proofs::AcceptLemmas::accepted_is_segment))]
fn frame_for(lines: &Tracker, waiting: Waiting) -> Vec<u8>
    requires { is_accepted waiting.frame ≡ true }
    ensures bytes { result.items ≡ frame_for lines.now waiting }
    ensures still_tcp { IsSome (tcp_in result.items) }
{
    let mut frame = waiting.frame.into_vec();
    let current = current_for(lines, &frame);
    inward(frame.as_mut_slice(), waiting.seen, current);
    frame
}

/// Takes the oldest frame that waits, if one is wanted, as the guest is given it. It takes no
/// memory.
pub(crate) fn take_frame(wants: bool, lines: &Tracker, inbox: &mut Inbox) -> Option<Given>
    requires { AreAccepted inbox.old }
    ensures given { option_map (λ g. g.frame.items) result
        ≡ option_map (frame_for lines.now) (taken_frame wants inbox.old) }
    ensures index { option_map (λ g. g.index) result
        ≡ option_map (λ w. w.index) (taken_frame wants inbox.old) }
    ensures left { inbox.new ≡ left_frames wants inbox.old }
    ensures still_accepted { AreAccepted inbox.new }
    ensures still_tcp { IfSome result (λ g. IsSome (tcp_in g.frame.items)) }
{
    if !wants {
        return None;
    }
    let waiting = inbox.take()?;
    let index = waiting.index;
    Some(Given {
        index,
        frame: frame_for(lines, waiting),
    })
}

/// The bytes of a given frame, if there is one.
#[tactic(auto, using(crate::proofs::FrameLemmas::frame_fits))]
pub(crate) fn bytes_of(given: &Option<Given>) -> Option<&[u8]>
    requires { IfSome given.now (λ g. IsSome (tcp_in g.frame.items)) }
    ensures bytes { option_copied result ≡ option_map (λ g. g.frame.items) given.now }
    ensures frame { ForSome result (λ bytes. IsFrame bytes.now) }
{
    let given = given.as_ref()?;
    Some(given.frame.as_slice())
}
