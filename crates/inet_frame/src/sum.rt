//! The Internet checksum (RFC 1071).

ghost use Rattle.std.specs.Prelude.{◌≡◌};
ghost use Rattle.inet_frame.specs.Sum.{ones_add, ones_sum, pseudo_sum};

/// The one's complement sum of two 16-bit words (RFC 1071).
fn ones_add(a: u16, b: u16) -> u16
    ensures { result ≡ ones_add a b }
{
    let sum = u32::from(a) + u32::from(b);
    if sum < 65536 {
        sum as u16
    } else {
        (sum - 65535) as u16
    }
}

/// The one's complement sum of `start` and the 16-bit words of `bytes` in network order, an odd
/// last byte being filled by a zero byte (RFC 1071, 1). It takes no memory.
pub fn ones_sum(start: u16, bytes: &[u8]) -> u16
    ensures { result ≡ ones_sum start bytes.now }
{
    let mut sum = start;
    let mut rest = bytes;
    while let [high, low, others @ ..] = rest {
        sum = ones_add(sum, u16::from_be_bytes([*high, *low]));
        rest = others;
    }
    match rest {
        [last] => ones_add(sum, u16::from_be_bytes([*last, 0])),
        _ => sum,
    }
}

/// The sum of the pseudo header's words: `addresses` are the source's and the destination's bytes
/// as they stand in the IPv4 header, and `len` counts the bytes after that header (RFC 9293, 3.1;
/// RFC 768).
pub fn pseudo_sum(addresses: &[u8], protocol: u8, len: u16) -> u16
    ensures { result ≡ pseudo_sum addresses.now protocol len }
{
    ones_add(ones_add(ones_sum(0, addresses), u16::from(protocol)), len)
}
