//! What becomes of a client frame.

ghost use Rattle.std.specs.Prelude.{◌≡◌, IfOk, IsSome};
ghost use Rattle.inet_frame.specs.Counted.{tcp_in};
ghost use Rattle.inet_build.specs.Edit.{clean_syn};
ghost use Rattle.frame_mirror.specs.Accepted.{entry_of, is_accepted, is_to_guest};

use colo_base::{Contents, NoMemory};
use inet_build::clean_syn;
use inet_frame::{GUEST_ADDRESS, GUEST_MAC, Seen, Why, arp_reply, parse};
use std::alloc::Global;

/// The frame is for another MAC or IPv4 address than the guest's; of an ARP request the address
/// alone is asked.
pub const OTHER_DESTINATION: Why = Why { number: 13 };
/// The frame is a UDP datagram to the guest.
pub const UDP_FRAME: Why = Why { number: 14 };

/// What becomes of a client frame.
#[derive(Drop)]
pub enum Entry {
    /// It is accepted: a TCP segment to the guest, with clean options.
    Frame(Contents),
    /// It is an ARP request for the guest's address, which this reply answers.
    Answer([u8; 42]),
    /// It is dropped, with the first reason.
    Drop(Why),
}

/// Says what becomes of a client frame: a TCP segment with the guest's MAC and IPv4 address is
/// accepted, and its options cleaned where it has SYN; an ARP request for the guest's address is
/// answered; any other frame is dropped, with the number of `parse`, or 13 or 14. The only error is
/// that memory runs out.
#[tactic(auto, unfolding(crate::specs::Accepted::entry_of, crate::specs::Accepted::entry_of_seen))]
pub fn accept(alloc: Global, frame: &[u8]) -> Result<Entry, NoMemory>
    ensures { IfOk result (λ entry. entry ≡ entry_of frame.now) }
{
    match parse(frame) {
        Seen::Tcp(segment) => {
            if is_to_guest(segment.dst_mac(), segment.dst()) {
                Ok(Entry::Frame(clean_copy(alloc, frame)?))
            } else {
                Ok(Entry::Drop(OTHER_DESTINATION))
            }
        }
        Seen::Udp(datagram) => {
            if is_to_guest(datagram.dst_mac(), datagram.dst()) {
                Ok(Entry::Drop(UDP_FRAME))
            } else {
                Ok(Entry::Drop(OTHER_DESTINATION))
            }
        }
        Seen::Arp(ask) => {
            if ask.target() == GUEST_ADDRESS {
                Ok(Entry::Answer(arp_reply(&ask, &GUEST_MAC)))
            } else {
                Ok(Entry::Drop(OTHER_DESTINATION))
            }
        }
        Seen::Other(why) => Ok(Entry::Drop(why)),
    }
}

/// Says whether a frame is one that `accept` accepts: a TCP segment with the guest's MAC and IPv4
/// address. It takes no memory.
pub fn is_accepted(frame: &[u8]) -> bool
    ensures { result ≡ is_accepted frame.now }
{
    match parse(frame) {
        Seen::Tcp(segment) => is_to_guest(segment.dst_mac(), segment.dst()),
        Seen::Arp(_) | Seen::Udp(_) | Seen::Other(_) => false,
    }
}

/// Says whether a frame goes to the guest's MAC and IPv4 address.
fn is_to_guest(mac: &[u8], address: u32) -> bool
    ensures { result ≡ is_to_guest mac.now address }
{
    mac == GUEST_MAC.as_slice() && address == GUEST_ADDRESS
}

/// A copy of a segment, with clean options.
fn clean_copy(alloc: Global, frame: &[u8]) -> Result<Contents, NoMemory>
    requires { IsSome (tcp_in frame.now) }
    ensures { IfOk result (λ copy. copy ≡ clean_syn frame.now) }
{
    let mut copy = frame.to_vec(alloc)?;
    clean_syn(copy.as_mut_slice());
    Ok(Contents::from_vec(copy))
}
