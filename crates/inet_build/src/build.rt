//! A TCP segment of the guest, put together from its fields and its payload.

ghost use Rattle.std.specs.Prelude.{◌≡◌, ◌+◌, ◌^◌, ◌<◌, ◌≤◌, ◌++◌, length, IfOk, OnOk, Some};
ghost use Rattle.shared_definitions.specs.Bytes.{AreBytes};
ghost use Rattle.inet_frame.specs.Counted.{tcp_in};
ghost use Rattle.inet_frame.specs.Sum.{ones_sum};
ghost use Rattle.inet_build.specs.Segment.{ethernet_header, addresses, ipv4_header, ipv4_checksum, mss_option, header_words, tcp_header, tcp_len, tcp_checksum, segment_bytes, fields_of, MssFits, HeaderFits, IsBuildable};

use crate::fields::Segment;
use inet_frame::{GUEST_MAC, ones_sum, protocol, pseudo_sum};
use std::alloc::{AllocError, Global};

/// The type of IPv4 in an Ethernet frame (IEEE 802.3, 3.1.1).
const IPV4_TYPE: [u8; 2] = [0x08, 0x00];

/// The bytes of a TCP segment from the guest, in IPv4 in Ethernet without padding (IEEE 802.3,
/// 3.1.1; RFC 791, 3.1; RFC 9293, 3.1), with at most 536 bytes of payload. The only error is that
/// memory runs out.
#[tactic(auto, unfolding(crate::specs::Segment::segment_bytes))]
pub fn segment(alloc: Global, fields: &Segment, payload: &[u8]) -> Result<Vec<u8>, AllocError>
    requires { length payload.now ≤ 536 }
    ensures bytes { IfOk result (λ v. v.items ≡ segment_bytes fields.now payload.now) }
    ensures parsed { IfOk result (λ v. tcp_in v.items ≡ Some (fields_of fields.now payload.now)) }
    ensures buildable { OnOk result (IsBuildable fields.now payload.now) }
{
    let len = tcp_len(fields, payload);
    let client = fields.tuple.addr;
    let mut frame = Vec::with_capacity(alloc, 34 + usize::from(len))?;
    put_ethernet_header(&mut frame, &fields.dst_mac)?;
    frame.extend_from_slice(&ipv4_header(client, 20 + len, ipv4_checksum(client, 20 + len)))?;
    frame.extend_from_slice(&tcp_header(fields, tcp_checksum(fields, payload)))?;
    put_option(&mut frame, fields.mss)?;
    frame.extend_from_slice(payload)?;
    Ok(frame)
}

/// Appends the Ethernet header of a frame from the guest (IEEE 802.3, 3.1.1).
fn put_ethernet_header(frame: &mut Vec<u8>, dst_mac: &[u8; 6]) -> Result<(), AllocError>
    ensures bytes { OnOk result (frame.new.items ≡ frame.old.items ++ ethernet_header dst_mac.now) }
    ensures mac { AreBytes dst_mac.now }
{
    frame.extend_from_slice(dst_mac)?;
    frame.extend_from_slice(&GUEST_MAC)?;
    frame.extend_from_slice(&IPV4_TYPE)
}

/// The length of the TCP header, its option and the payload.
fn tcp_len(fields: &Segment, payload: &[u8]) -> u16
    requires { length payload.now ≤ 536 }
    ensures value { result ≡ tcp_len fields.now payload.now }
    ensures at_most { result ≤ 560 }
    ensures fits { MssFits fields.now.mss }
{
    4 * u16::from(header_words(fields.mss)) + payload.len() as u16
}

/// The length of the TCP header in words of four bytes.
fn header_words(mss: Option<u16>) -> u8
    ensures value { result ≡ header_words mss }
    ensures at_most { result ≤ 6 }
    ensures fits { MssFits mss }
{
    match mss {
        Some(_) => 6,
        None => 5,
    }
}

/// The IPv4 header of a datagram to a client, with a checksum (RFC 791, 3.1).
#[tactic(auto, unfolding(crate::specs::Segment::ipv4_header))]
fn ipv4_header(client: u32, total: u16, sum: u16) -> [u8; 20]
    ensures bytes { result ≡ ipv4_header client total sum }
    ensures in_range { client < 2 ^ 32 }
{
    let [total_high, total_low] = total.to_be_bytes();
    let [sum_high, sum_low] = sum.to_be_bytes();
    let [first, second, third, fourth] = client.to_be_bytes();
    [
        0x45,
        0,
        total_high,
        total_low,
        0,
        0,
        0x40,
        0,
        64,
        protocol::TCP,
        sum_high,
        sum_low,
        10,
        0,
        2,
        15,
        first,
        second,
        third,
        fourth,
    ]
}

/// The checksum of the IPv4 header: the complement of the sum with a checksum of 0.
fn ipv4_checksum(client: u32, total: u16) -> u16
    ensures { result ≡ ipv4_checksum client total }
{
    0xFFFF - ones_sum(0, &ipv4_header(client, total, 0))
}

/// The TCP header without its option, with a checksum (RFC 9293, 3.1).
#[tactic(auto, unfolding(crate::specs::Segment::tcp_header))]
fn tcp_header(fields: &Segment, sum: u16) -> [u8; 20]
    ensures bytes { result ≡ tcp_header fields.now sum }
    ensures fits { HeaderFits fields.now }
{
    let [source_high, source_low] = fields.tuple.guest.to_be_bytes();
    let [target_high, target_low] = fields.tuple.port.to_be_bytes();
    let [seq_first, seq_second, seq_third, seq_fourth] = fields.seq.to_be_bytes();
    let [ack_first, ack_second, ack_third, ack_fourth] = fields.ack.to_be_bytes();
    let [window_high, window_low] = fields.window.to_be_bytes();
    let [sum_high, sum_low] = sum.to_be_bytes();
    let offset = 16 * header_words(fields.mss);
    [
        source_high,
        source_low,
        target_high,
        target_low,
        seq_first,
        seq_second,
        seq_third,
        seq_fourth,
        ack_first,
        ack_second,
        ack_third,
        ack_fourth,
        offset,
        fields.flags,
        window_high,
        window_low,
        sum_high,
        sum_low,
        0,
        0,
    ]
}

/// The checksum of the segment: the complement of the sum with a checksum of 0.
fn tcp_checksum(fields: &Segment, payload: &[u8]) -> u16
    requires { length payload.now ≤ 536 }
    ensures { result ≡ tcp_checksum fields.now payload.now }
{
    let pseudo = pseudo_sum(
        &addresses(fields.tuple.addr),
        protocol::TCP,
        tcp_len(fields, payload),
    );
    let header = ones_sum(pseudo, &tcp_header(fields, 0));
    let option = option_sum(header, fields.mss);
    0xFFFF - ones_sum(option, payload)
}

/// The source's and the destination's bytes as they stand in the IPv4 header.
fn addresses(client: u32) -> [u8; 8]
    ensures { result ≡ addresses client }
{
    let [first, second, third, fourth] = client.to_be_bytes();
    [10, 0, 2, 15, first, second, third, fourth]
}

/// The sum with the words of the option for a maximum segment size, if there is one.
fn option_sum(start: u16, mss: Option<u16>) -> u16
    ensures { result ≡ ones_sum start (mss_option mss) }
{
    match mss {
        Some(mss) => ones_sum(start, &mss_option(mss)),
        None => start,
    }
}

/// Appends the option for a maximum segment size, if there is one.
fn put_option(frame: &mut Vec<u8>, mss: Option<u16>) -> Result<(), AllocError>
    ensures { OnOk result (frame.new.items ≡ frame.old.items ++ mss_option mss) }
{
    match mss {
        Some(mss) => frame.extend_from_slice(&mss_option(mss)),
        None => Ok(()),
    }
}

/// The option for a maximum segment size (RFC 9293, 3.7.1).
fn mss_option(mss: u16) -> [u8; 4]
    ensures { result ≡ mss_option (Some mss) }
{
    let [high, low] = mss.to_be_bytes();
    [2, 4, high, low]
}
