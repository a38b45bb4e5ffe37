//! A view of a UDP datagram.

ghost use Rattle.std.specs.Prelude.{◌≡◌, ◌≤◌, length};

use crate::ipv4::Ipv4View;
use std::marker::Model;

/// A UDP datagram in IPv4 in Ethernet. Its parts are slices of the frame that was parsed
/// (IEEE 802.3, 3.1.1; RFC 791, 3.1; RFC 768).
#[derive(Drop)]
pub struct UdpView<'a> {
    ipv4: Ipv4View<'a>,
}

impl<'a> Model for UdpView<'a> {
    ghost use Rattle.inet_frame.specs.Fields.{UdpFields, HoldsDatagram, udp_fields};

    ghost Value = { UdpFields };

    ghost view = { λ v. udp_fields v.ipv4.frame.now v.ipv4.header_end v.ipv4.data_end };

    ghost invariant = { λ v. HoldsDatagram v.ipv4.frame.now v.ipv4.header_end v.ipv4.data_end };
}

impl<'a> UdpView<'a> {
    ghost use Rattle.inet_frame.specs.Fields.{HoldsDatagram, udp_fields};

    pub(crate) fn new(frame: &'a [u8], header_end: usize, data_end: usize) -> UdpView<'a>
        requires { HoldsDatagram frame.now header_end data_end }
        ensures { result ≡ udp_fields frame.now header_end data_end }
    {
        UdpView {
            ipv4: Ipv4View {
                frame,
                header_end,
                data_end,
            },
        }
    }

    /// The frame's source MAC address, six bytes.
    pub fn src_mac(&self) -> &'a [u8]
        ensures value { result.now ≡ self.now.src_mac }
        ensures len { length result.now ≡ 6 }
    {
        self.ipv4.src_mac()
    }

    /// The frame's destination MAC address, six bytes.
    pub fn dst_mac(&self) -> &'a [u8]
        ensures value { result.now ≡ self.now.dst_mac }
        ensures len { length result.now ≡ 6 }
    {
        self.ipv4.dst_mac()
    }

    /// The source's IPv4 address.
    pub fn src(&self) -> u32
        ensures { result ≡ self.now.src }
    {
        self.ipv4.src()
    }

    /// The destination's IPv4 address.
    pub fn dst(&self) -> u32
        ensures { result ≡ self.now.dst }
    {
        self.ipv4.dst()
    }

    /// The source's port.
    pub fn sport(&self) -> u16
        ensures { result ≡ self.now.sport }
    {
        self.ipv4.sport()
    }

    /// The destination's port.
    pub fn dport(&self) -> u16
        ensures { result ≡ self.now.dport }
    {
        self.ipv4.dport()
    }

    /// The payload, at most 1,472 bytes, without the frame's padding.
    pub fn payload(&self) -> &'a [u8]
        ensures value { result.now ≡ self.now.payload }
        ensures len { length result.now ≤ 1472 }
    {
        &self.ipv4.frame[self.ipv4.header_end + 8..self.ipv4.data_end]
    }
}
