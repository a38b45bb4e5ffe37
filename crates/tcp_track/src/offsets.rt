//! Offsets of symbols from the SYN of their connection.

ghost use Rattle.std.specs.Prelude.{◌≡◌};
ghost use Rattle.tcp_track.specs.Offsets.{distance};

/// How many symbols of a connection come before one: SYN is at offset 0.
pub type Offset = u32;

/// Each offset is below this.
pub const OFFSET_BOUND: Offset = 0x8000_0000;

/// How far the sequence number `to` is after `from`, modulo 2^32 (RFC 9293, 3.4).
pub(crate) fn distance(from: u32, to: u32) -> Offset
    ensures { result ≡ distance from to }
{
    to.wrapping_sub(from)
}
