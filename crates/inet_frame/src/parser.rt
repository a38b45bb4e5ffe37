//! What a frame is, by the first test that drops it or by its type and protocol.

ghost use Rattle.std.specs.Prelude.{◌≡◌, ◌≤◌, length, is_some};
ghost use Rattle.inet_frame.specs.Counted.{tcp_in, counted};
ghost use Rattle.inet_frame.specs.Frame.{seen_of, IsOfType, IsDatagram, transport_sum, is_arp, is_other_arp};

use crate::arp::ArpView;
use crate::place::{ETHERNET_HEADER, be16, data_offset, header_len, total_len};
use crate::protocol;
use crate::sum::{ones_sum, pseudo_sum};
use crate::tcp::TcpView;
use crate::tuple::GUEST_ADDRESS;
use crate::udp::UdpView;
use crate::why::Why;

/// What a frame is.
#[derive(Drop)]
pub enum Seen<'a> {
    /// A TCP segment in IPv4.
    Tcp(TcpView<'a>),
    /// An ARP request for an IPv4 address.
    Arp(ArpView<'a>),
    /// A UDP datagram in IPv4.
    Udp(UdpView<'a>),
    /// None of these, with the first reason.
    Other(Why),
}

/// The type of a frame that holds an IPv4 datagram (RFC 894).
const TYPE_IPV4: u16 = 0x0800;
/// The type of a frame that holds an ARP packet (RFC 826).
const TYPE_ARP: u16 = 0x0806;

/// The longest frame: an Ethernet header and 1,500 bytes (IEEE 802.3, 3.2.7).
const LONGEST: usize = 1514;
/// An ARP packet for IPv4 after its Ethernet header (RFC 826).
const ARP_FRAME: usize = 42;
/// An IPv4 header without options (RFC 791, 3.1).
const IPV4_HEADER: usize = 20;
/// A TCP header without options (RFC 9293, 3.1).
const TCP_HEADER: usize = 20;
/// A UDP header (RFC 768).
const UDP_HEADER: usize = 8;
/// The one's complement sum of words with a right checksum among them (RFC 1071, 1).
const RIGHT_SUM: u16 = 0xFFFF;

/// Says what a frame is: its views are slices of the frame, at the places that IEEE 802.3,
/// RFC 791, RFC 826, RFC 9293 and RFC 768 give, and a dropped frame has the first number of
/// [`Why`] that holds. It copies nothing and takes no memory.
#[tactic(auto, using(std::proofs::lemmas::Bool::Decides::nat_tests), unfolding(crate::specs::Frame::seen_of))]
pub fn parse<'a>(frame: &'a [u8]) -> Seen<'a>
    ensures { result ≡ seen_of frame.now }
{
    if frame.len() < ETHERNET_HEADER {
        return Seen::Other(Why::SHORT);
    }
    if frame.len() > LONGEST {
        return Seen::Other(Why::LONG);
    }
    match be16(frame, 12) {
        TYPE_ARP => arp(frame),
        TYPE_IPV4 => ipv4(frame),
        _ => Seen::Other(Why::OTHER_TYPE),
    }
}

/// Says whether a frame is a TCP segment, for a caller that goes on to change it.
pub fn is_tcp(frame: &[u8]) -> bool
    ensures { result ≡ is_some (tcp_in frame.now) }
{
    match parse(frame) {
        Seen::Tcp(_) => true,
        Seen::Arp(_) | Seen::Udp(_) | Seen::Other(_) => false,
    }
}

/// Says whether a frame counts: a TCP segment from the guest's address. It takes no memory.
pub fn counted<'a>(frame: &'a [u8]) -> Option<TcpView<'a>>
    ensures { result ≡ counted frame.now }
{
    match parse(frame) {
        Seen::Tcp(view) => {
            if view.src() == GUEST_ADDRESS {
                Some(view)
            } else {
                None
            }
        }
        Seen::Arp(_) | Seen::Udp(_) | Seen::Other(_) => None,
    }
}

/// Says whether a frame's type is ARP's, 0x0806, whatever it holds (RFC 826). A frame that is too
/// short for a type has none.
pub fn is_arp(frame: &[u8]) -> bool
    ensures { result ≡ is_arp frame.now }
{
    frame.len() >= ETHERNET_HEADER && be16(frame, 12) == TYPE_ARP
}

/// Says what a frame with the type of ARP is.
#[tactic(auto, using(std::proofs::lemmas::Bool::Decides::nat_tests), unfolding(crate::specs::Frame::seen_of))]
fn arp<'a>(frame: &'a [u8]) -> Seen<'a>
    requires { IsOfType frame.now 0x0806 }
    ensures { result ≡ seen_of frame.now }
{
    if frame.len() < ARP_FRAME || is_other_arp(frame) {
        return Seen::Other(Why::BAD_ARP);
    }
    Seen::Arp(ArpView::new(frame))
}

/// Not Ethernet, not IPv4, other lengths of addresses, or no request (RFC 826).
fn is_other_arp(frame: &[u8]) -> bool
    requires { 42 ≤ length frame.now }
    ensures { result ≡ is_other_arp frame.now }
{
    be16(frame, 14) != 1
        || be16(frame, 16) != TYPE_IPV4
        || frame[18] != 6
        || frame[19] != 4
        || be16(frame, 20) != 1
}

/// Says what a frame with the type of IPv4 is.
#[tactic(auto, using(std::proofs::lemmas::Bool::Decides::nat_tests), unfolding(crate::specs::Frame::seen_of))]
fn ipv4<'a>(frame: &'a [u8]) -> Seen<'a>
    requires { IsOfType frame.now 0x0800 }
    ensures { result ≡ seen_of frame.now }
{
    if frame.len() < ETHERNET_HEADER + IPV4_HEADER || frame[14] / 16 != 4 {
        return Seen::Other(Why::BAD_IPV4);
    }
    let header = header_len(frame);
    let total = total_len(frame);
    if header < IPV4_HEADER || total < header || frame.len() < ETHERNET_HEADER + total {
        return Seen::Other(Why::BAD_IPV4);
    }
    let header_end = ETHERNET_HEADER + header;
    let data_end = ETHERNET_HEADER + total;
    if ones_sum(0, &frame[ETHERNET_HEADER..header_end]) != RIGHT_SUM {
        return Seen::Other(Why::BAD_HEADER_SUM);
    }
    if be16(frame, 20) % 0x4000 != 0 {
        return Seen::Other(Why::FRAGMENT);
    }
    match frame[23] {
        protocol::TCP => tcp(frame, header_end, data_end),
        protocol::UDP => udp(frame, header_end, data_end),
        _ => Seen::Other(Why::OTHER_PROTOCOL),
    }
}

/// Says what a frame with a TCP segment in a whole IPv4 datagram is.
#[tactic(auto, using(std::proofs::lemmas::Bool::Decides::nat_tests), unfolding(crate::specs::Frame::seen_of))]
fn tcp<'a>(frame: &'a [u8], header_end: usize, data_end: usize) -> Seen<'a>
    requires { IsDatagram frame.now header_end data_end 6 }
    ensures { result ≡ seen_of frame.now }
{
    if data_end < header_end + TCP_HEADER {
        return Seen::Other(Why::BAD_TCP);
    }
    let offset = data_offset(frame, header_end);
    if offset < TCP_HEADER || data_end < header_end + offset {
        return Seen::Other(Why::BAD_TCP);
    }
    if transport_sum(frame, protocol::TCP, header_end, data_end) != RIGHT_SUM {
        return Seen::Other(Why::BAD_TCP_SUM);
    }
    Seen::Tcp(TcpView::new(frame, header_end, data_end))
}

/// Says what a frame with a UDP datagram in a whole IPv4 datagram is.
#[tactic(auto, using(std::proofs::lemmas::Bool::Decides::nat_tests), unfolding(crate::specs::Frame::seen_of))]
fn udp<'a>(frame: &'a [u8], header_end: usize, data_end: usize) -> Seen<'a>
    requires { IsDatagram frame.now header_end data_end 17 }
    ensures { result ≡ seen_of frame.now }
{
    let len = data_end - header_end;
    if len < UDP_HEADER || usize::from(be16(frame, header_end + 4)) != len {
        return Seen::Other(Why::BAD_UDP);
    }
    if be16(frame, header_end + 6) != 0
        && transport_sum(frame, protocol::UDP, header_end, data_end) != RIGHT_SUM
    {
        return Seen::Other(Why::BAD_UDP_SUM);
    }
    Seen::Udp(UdpView::new(frame, header_end, data_end))
}

/// The sum of the pseudo header and of all that follows the IPv4 header.
fn transport_sum(frame: &[u8], protocol: u8, header_end: usize, data_end: usize) -> u16
    requires { IsDatagram frame.now header_end data_end protocol }
    ensures { result ≡ transport_sum frame.now }
{
    let len = (data_end - header_end) as u16;
    let start = pseudo_sum(&frame[26..34], protocol, len);
    ones_sum(start, &frame[header_end..data_end])
}
