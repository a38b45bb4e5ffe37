//! Why a frame is dropped.

/// Why a frame is neither TCP, UDP nor an ARP request: the number of the first reason that holds.
/// Layers above may have reasons of their own, with greater numbers.
#[derive(Clone, Copy, PartialEq, Eq, Debug)]
pub struct Why {
    pub number: u8,
}

impl Why {
    /// Fewer than the 14 bytes of an Ethernet header (IEEE 802.3, 3.1.1).
    pub const SHORT: Why = Why { number: 1 };
    /// More than 1,514 bytes (IEEE 802.3, 3.2.7).
    pub const LONG: Why = Why { number: 2 };
    /// Neither IPv4 nor ARP by its type.
    pub const OTHER_TYPE: Why = Why { number: 3 };
    /// No whole ARP request for an IPv4 address over Ethernet (RFC 826).
    pub const BAD_ARP: Why = Why { number: 4 };
    /// No whole IPv4 header, or lengths that do not fit the frame (RFC 791, 3.1).
    pub const BAD_IPV4: Why = Why { number: 5 };
    /// A wrong IPv4 header checksum (RFC 791, 3.1).
    pub const BAD_HEADER_SUM: Why = Why { number: 6 };
    /// A fragment (RFC 791, 3.2).
    pub const FRAGMENT: Why = Why { number: 7 };
    /// Neither TCP nor UDP in IPv4.
    pub const OTHER_PROTOCOL: Why = Why { number: 8 };
    /// No whole TCP header in the datagram (RFC 9293, 3.1).
    pub const BAD_TCP: Why = Why { number: 9 };
    /// A wrong TCP checksum (RFC 9293, 3.1).
    pub const BAD_TCP_SUM: Why = Why { number: 10 };
    /// No whole UDP header in the datagram, or another length than the datagram's (RFC 768).
    pub const BAD_UDP: Why = Why { number: 11 };
    /// A wrong UDP checksum, where there is one (RFC 768).
    pub const BAD_UDP_SUM: Why = Why { number: 12 };
}
