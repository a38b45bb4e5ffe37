//! Numbers at their places in a frame.

ghost use Rattle.std.specs.Prelude.{◌≡◌, ◌+◌, ◌<◌, ◌≤◌, length};
ghost use Rattle.inet_frame.specs.Place.{be16_at, be32_at, header_len, total_len, header_end, datagram_end, data_offset};

/// The length of an Ethernet header: two MAC addresses and the type (IEEE 802.3, 3.1.1).
pub const ETHERNET_HEADER: usize = 14;

/// The 16-bit number at a place, in network order.
pub fn be16(bytes: &[u8], at: usize) -> u16
    requires { at + 1 < length bytes.now }
    ensures { result ≡ be16_at bytes.now at }
{
    u16::from_be_bytes([bytes[at], bytes[at + 1]])
}

/// The 32-bit number at a place, in network order.
pub fn be32(bytes: &[u8], at: usize) -> u32
    requires { at + 3 < length bytes.now }
    ensures { result ≡ be32_at bytes.now at }
{
    u32::from_be_bytes([bytes[at], bytes[at + 1], bytes[at + 2], bytes[at + 3]])
}

/// The length of the IPv4 header in bytes (RFC 791, 3.1).
pub fn header_len(frame: &[u8]) -> usize
    requires { 14 < length frame.now }
    ensures value { result ≡ header_len frame.now }
    ensures at_most { result ≤ 60 }
{
    4 * usize::from(frame[14] % 16)
}

/// The length of the IPv4 datagram in bytes, header and payload (RFC 791, 3.1).
pub fn total_len(frame: &[u8]) -> usize
    requires { 17 < length frame.now }
    ensures value { result ≡ total_len frame.now }
    ensures at_most { result < 65536 }
{
    usize::from(be16(frame, 16))
}

/// Where the IPv4 header ends in the frame.
pub fn header_end(frame: &[u8]) -> usize
    requires { 14 < length frame.now }
    ensures value { result ≡ header_end frame.now }
    ensures at_most { result ≤ 74 }
{
    ETHERNET_HEADER + header_len(frame)
}

/// Where the IPv4 datagram ends in the frame; what follows is padding.
pub fn datagram_end(frame: &[u8]) -> usize
    requires { 17 < length frame.now }
    ensures value { result ≡ datagram_end frame.now }
    ensures at_most { result < 65550 }
{
    ETHERNET_HEADER + total_len(frame)
}

/// The length of a TCP header that begins at `header_end`, in bytes (RFC 9293, 3.1).
pub fn data_offset(frame: &[u8], header_end: usize) -> usize
    requires { header_end + 12 < length frame.now }
    ensures value { result ≡ data_offset frame.now header_end }
    ensures at_most { result ≤ 60 }
{
    4 * usize::from(frame[header_end + 12] / 16)
}
