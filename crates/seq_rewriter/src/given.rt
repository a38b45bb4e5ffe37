//! A client's segment as a guest is given it.

ghost use Rattle.std.specs.Prelude.{◌≡◌, IsSome, option_map};
ghost use Rattle.std.specs.Option.{option_and_then};
ghost use Rattle.inet_frame.specs.Counted.{tcp_in};
ghost use Rattle.inet_frame.specs.Flags.{has_ack};
ghost use Rattle.seq_rewriter.specs.Given.{raise_of, raise_in, raise_frame, raise_fields};

use inet_build::shift_ack;
use inet_frame::{Seen, parse};
use tcp_track::Opening;

/// Raises the acknowledgement of a client's segment for a guest: by the number of the guest's
/// `current` opening less that of the opening that the client has `seen`, modulo 2^32, where the
/// segment has ACK and both openings are of one client. Then the checksum is recomputed, also where
/// the difference is 0. Any other segment stays as it is. It takes no memory (RFC 9293, 3.4).
#[tactic(auto, unfolding(crate::specs::Given::raise_frame))]
pub fn inward(frame: &mut [u8], seen: Option<Opening>, current: Option<Opening>)
    requires { IsSome (tcp_in frame.old) }
    ensures bytes { frame.new ≡ raise_frame frame.old seen current }
    ensures parsed { tcp_in frame.new ≡ option_map (raise_fields seen current) (tcp_in frame.old) }
    ensures still_tcp { IsSome (tcp_in frame.new) }
{
    if let Some(by) = raise_in(frame, seen, current) {
        shift_ack(frame, by);
    }
}

/// By how much the acknowledgement is raised, if it is.
fn raise_in(frame: &[u8], seen: Option<Opening>, current: Option<Opening>) -> Option<u32>
    ensures { result ≡ option_and_then (raise_in seen current) (tcp_in frame.now) }
{
    match parse(frame) {
        Seen::Tcp(view) => {
            if view.has_ack() {
                raise_of(seen, current)
            } else {
                None
            }
        }
        Seen::Arp(_) | Seen::Udp(_) | Seen::Other(_) => None,
    }
}

/// The difference of the numbers of two openings of one client.
fn raise_of(seen: Option<Opening>, current: Option<Opening>) -> Option<u32>
    ensures { result ≡ raise_of seen current }
{
    let seen = seen?;
    let current = current?;
    if current.client == seen.client {
        Some(current.own.wrapping_sub(seen.own))
    } else {
        None
    }
}
