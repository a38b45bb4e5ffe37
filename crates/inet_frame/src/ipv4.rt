//! The part that TCP segments and UDP datagrams share: an IPv4 datagram in Ethernet whose payload
//! begins with two ports.

ghost use Rattle.std.specs.Prelude.{◌≡◌, ◌+◌, ◌≤◌, length, slice_range};
ghost use Rattle.inet_frame.specs.Fields.{HoldsDatagram};
ghost use Rattle.inet_frame.specs.Place.{be16_at, be32_at};

use crate::place::{be16, be32};

/// An IPv4 datagram whose payload stands from `header_end` to `data_end` of the frame (IEEE 802.3,
/// 3.1.1; RFC 791, 3.1).
#[derive(Drop)]
pub(crate) struct Ipv4View<'a> {
    pub(crate) frame: &'a [u8],
    pub(crate) header_end: usize,
    pub(crate) data_end: usize,
    ghost holds: { HoldsDatagram frame.now header_end data_end },
}

impl<'a> Ipv4View<'a> {
    /// The frame's source MAC address, six bytes.
    pub(crate) fn src_mac(&self) -> &'a [u8]
        ensures value { result.now ≡ slice_range self.now.frame.now 6 12 }
        ensures len { length result.now ≡ 6 }
    {
        &self.frame[6..12]
    }

    /// The frame's destination MAC address, six bytes.
    pub(crate) fn dst_mac(&self) -> &'a [u8]
        ensures value { result.now ≡ slice_range self.now.frame.now 0 6 }
        ensures len { length result.now ≡ 6 }
    {
        &self.frame[..6]
    }

    /// The source's IPv4 address.
    pub(crate) fn src(&self) -> u32
        ensures { result ≡ be32_at self.now.frame.now 26 }
    {
        be32(self.frame, 26)
    }

    /// The destination's IPv4 address.
    pub(crate) fn dst(&self) -> u32
        ensures { result ≡ be32_at self.now.frame.now 30 }
    {
        be32(self.frame, 30)
    }

    /// The source's port.
    pub(crate) fn sport(&self) -> u16
        ensures { result ≡ be16_at self.now.frame.now self.now.header_end }
    {
        be16(self.frame, self.header_end)
    }

    /// The destination's port.
    pub(crate) fn dport(&self) -> u16
        ensures { result ≡ be16_at self.now.frame.now (self.now.header_end + 2) }
    {
        be16(self.frame, self.header_end + 2)
    }
}
