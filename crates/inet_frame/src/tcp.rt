//! A view of a TCP segment.

ghost use Rattle.std.specs.Prelude.{◌≡◌, ◌≤◌, length};

use crate::flag;
use crate::ipv4::Ipv4View;
use crate::place::{be16, be32, data_offset};
use crate::tuple::Tuple;
use std::marker::Model;

/// A TCP segment in IPv4 in Ethernet. Its parts are slices of the frame that was parsed
/// (IEEE 802.3, 3.1.1; RFC 791, 3.1; RFC 9293, 3.1).
#[derive(Drop)]
pub struct TcpView<'a> {
    ipv4: Ipv4View<'a>,
}

impl<'a> Model for TcpView<'a> {
    ghost use Rattle.inet_frame.specs.Fields.{TcpFields, HoldsTcp, tcp_fields};

    ghost Value = { TcpFields };

    ghost view = { λ v. tcp_fields v.ipv4.frame.now v.ipv4.header_end v.ipv4.data_end };

    ghost invariant = { λ v. HoldsTcp v.ipv4.frame.now v.ipv4.header_end v.ipv4.data_end };
}

impl<'a> TcpView<'a> {
    ghost use Rattle.inet_frame.specs.Counted.{tuple_of, client_tuple_of};
    ghost use Rattle.inet_frame.specs.Fields.{HoldsTcp, tcp_fields};
    ghost use Rattle.inet_frame.specs.Flags.{has_fin, has_syn, has_rst, has_psh, has_ack};

    pub(crate) fn new(frame: &'a [u8], header_end: usize, data_end: usize) -> TcpView<'a>
        requires { HoldsTcp frame.now header_end data_end }
        ensures { result ≡ tcp_fields frame.now header_end data_end }
    {
        TcpView {
            ipv4: Ipv4View {
                frame,
                header_end,
                data_end,
            },
        }
    }

    /// The frame's source MAC address, six bytes.
    pub fn src_mac(&self) -> &'a [u8]
        ensures value { result.now ≡ self.now.src_mac }
        ensures len { length result.now ≡ 6 }
    {
        self.ipv4.src_mac()
    }

    /// The frame's destination MAC address, six bytes.
    pub fn dst_mac(&self) -> &'a [u8]
        ensures value { result.now ≡ self.now.dst_mac }
        ensures len { length result.now ≡ 6 }
    {
        self.ipv4.dst_mac()
    }

    /// The source's IPv4 address.
    pub fn src(&self) -> u32
        ensures { result ≡ self.now.src }
    {
        self.ipv4.src()
    }

    /// The destination's IPv4 address.
    pub fn dst(&self) -> u32
        ensures { result ≡ self.now.dst }
    {
        self.ipv4.dst()
    }

    /// The source's port.
    pub fn sport(&self) -> u16
        ensures { result ≡ self.now.sport }
    {
        self.ipv4.sport()
    }

    /// The destination's port.
    pub fn dport(&self) -> u16
        ensures { result ≡ self.now.dport }
    {
        self.ipv4.dport()
    }

    /// The connection of a segment that the guest sent: the destination is the client.
    pub fn tuple(&self) -> Tuple
        ensures { result ≡ tuple_of self.now }
    {
        Tuple {
            addr: self.dst(),
            port: self.dport(),
            guest: self.sport(),
        }
    }

    /// The connection of a segment that a client sent: the source is the client.
    pub fn client_tuple(&self) -> Tuple
        ensures { result ≡ client_tuple_of self.now }
    {
        Tuple {
            addr: self.src(),
            port: self.sport(),
            guest: self.dport(),
        }
    }

    /// The sequence number.
    pub fn seq(&self) -> u32
        ensures { result ≡ self.now.seq }
    {
        be32(self.ipv4.frame, self.ipv4.header_end + 4)
    }

    /// The acknowledgement number, also where the flag ACK is not set.
    pub fn ack(&self) -> u32
        ensures { result ≡ self.now.ack }
    {
        be32(self.ipv4.frame, self.ipv4.header_end + 8)
    }

    /// The flags, as the constants of [`flag`].
    pub fn flags(&self) -> u8
        ensures { result ≡ self.now.flags }
    {
        self.ipv4.frame[self.ipv4.header_end + 13]
    }

    /// Whether the sender's stream ends after this segment.
    pub fn has_fin(&self) -> bool
        ensures { result ≡ has_fin self.now.flags }
    {
        self.flags() & flag::FIN != 0
    }

    /// Whether the sequence number is the sender's first.
    pub fn has_syn(&self) -> bool
        ensures { result ≡ has_syn self.now.flags }
    {
        self.flags() & flag::SYN != 0
    }

    /// Whether the connection is reset or refused.
    pub fn has_rst(&self) -> bool
        ensures { result ≡ has_rst self.now.flags }
    {
        self.flags() & flag::RST != 0
    }

    /// Whether the receiver is asked to push the bytes to its reader.
    pub fn has_psh(&self) -> bool
        ensures { result ≡ has_psh self.now.flags }
    {
        self.flags() & flag::PSH != 0
    }

    /// Whether the acknowledgement number counts.
    pub fn has_ack(&self) -> bool
        ensures { result ≡ has_ack self.now.flags }
    {
        self.flags() & flag::ACK != 0
    }

    /// The window, in bytes as it stands.
    pub fn window(&self) -> u16
        ensures { result ≡ self.now.window }
    {
        be16(self.ipv4.frame, self.ipv4.header_end + 14)
    }

    /// The options, at most 40 bytes, from byte 20 of the header to the data offset.
    pub fn options(&self) -> &'a [u8]
        ensures value { result.now ≡ self.now.options }
        ensures len { length result.now ≤ 40 }
    {
        let start = self.ipv4.header_end + 20;
        let end = self.ipv4.header_end + data_offset(self.ipv4.frame, self.ipv4.header_end);
        &self.ipv4.frame[start..end]
    }

    /// The payload, at most 1,460 bytes, without the frame's padding.
    pub fn payload(&self) -> &'a [u8]
        ensures value { result.now ≡ self.now.payload }
        ensures len { length result.now ≤ 1460 }
    {
        let start = self.ipv4.header_end + data_offset(self.ipv4.frame, self.ipv4.header_end);
        &self.ipv4.frame[start..self.ipv4.data_end]
    }
}
