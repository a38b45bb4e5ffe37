//! ARP requests and the replies to them (RFC 826).

ghost use Rattle.std.specs.Prelude.{◌≡◌, ◌+◌, ◌≤◌, ◌++◌, length, take};
ghost use Rattle.inet_frame.specs.Arp.{reply_bytes};

use crate::place::be32;
use std::marker::Model;

/// An ARP request for an IPv4 address. Its parts are slices of the frame that was parsed (RFC 826).
#[derive(Drop)]
pub struct ArpView<'a> {
    frame: &'a [u8],
}

impl<'a> Model for ArpView<'a> {
    ghost use Rattle.std.specs.Prelude.{◌≤◌, length};
    ghost use Rattle.inet_frame.specs.Fields.{ArpFields, arp_fields};

    ghost Value = { ArpFields };

    ghost view = { λ v. arp_fields v.frame.now };

    ghost invariant = { λ v. 42 ≤ length v.frame.now };
}

impl<'a> ArpView<'a> {
    ghost use Rattle.inet_frame.specs.Fields.{arp_fields};

    pub(crate) fn new(frame: &'a [u8]) -> ArpView<'a>
        requires { 42 ≤ length frame.now }
        ensures { result ≡ arp_fields frame.now }
    {
        ArpView { frame }
    }

    /// The MAC address of the one that asks, six bytes.
    pub fn sender_mac(&self) -> &'a [u8]
        ensures value { result.now ≡ self.now.sender_mac }
        ensures len { length result.now ≡ 6 }
    {
        &self.frame[22..28]
    }

    /// The IPv4 address of the one that asks.
    pub fn sender(&self) -> u32
        ensures { result ≡ self.now.sender }
    {
        be32(self.frame, 28)
    }

    /// The IPv4 address that is asked for.
    pub fn target(&self) -> u32
        ensures { result ≡ self.now.target }
    {
        be32(self.frame, 38)
    }
}

/// The type of an ARP frame, then Ethernet, IPv4, the lengths of their addresses, and operation 2,
/// a reply.
const REPLY_HEAD: [u8; 10] = [0x08, 0x06, 0x00, 0x01, 0x08, 0x00, 6, 4, 0x00, 2];

/// The frame that answers an ARP request: the asked address is at `mac` (RFC 826).
pub fn arp_reply(ask: &ArpView<'_>, mac: &[u8; 6]) -> [u8; 42]
    ensures { result ≡ reply_bytes ask.now mac.now }
{
    let mut reply = [0; 42];
    let mut at = put(&mut reply, 0, ask.sender_mac());
    at = put(&mut reply, at, mac);
    at = put(&mut reply, at, &REPLY_HEAD);
    at = put(&mut reply, at, mac);
    at = put(&mut reply, at, &ask.target().to_be_bytes());
    at = put(&mut reply, at, ask.sender_mac());
    put(&mut reply, at, &ask.sender().to_be_bytes());
    reply
}

/// Writes `part` at a place, and says where it ends.
fn put(reply: &mut [u8; 42], at: usize, part: &[u8]) -> usize
    requires { at + length part.now ≤ 42 }
    ensures end { result ≡ at + length part.now }
    ensures written { take result reply.new ≡ take at reply.old ++ part.now }
{
    let end = at + part.len();
    reply[at..end].copy_from_slice(part);
    end
}
