//! The options of a TCP header (RFC 9293, 3.2).

ghost use Rattle.std.specs.Prelude.{◌≡◌, ◌≤◌, [], ◌∷◌, length};
ghost use Rattle.inet_frame.specs.Options.{option_len, stated_len, mss_of};

use crate::place::be16;

/// The kind of the option that ends the options (RFC 9293, 3.2).
const END_OF_OPTIONS: u8 = 0;
/// The kind of the option that is one byte (RFC 9293, 3.2).
pub const NO_OPERATION: u8 = 1;
/// The kind of the maximum segment size (RFC 9293, 3.7.1).
const MAXIMUM_SEGMENT_SIZE: u8 = 2;
/// The maximum segment size where no option gives one (RFC 9293, 3.7.1).
const DEFAULT_MSS: u16 = 536;

/// How many bytes the first of some TCP options takes (RFC 9293, 3.2). It is 0 where a walk over
/// the options ends: at a last byte other than kind 1, at kind 0, and at an option whose length is
/// missing, below 2 or past the end.
pub fn option_len(options: &[u8]) -> usize
    ensures value { result ≡ option_len options.now }
    ensures within { result ≤ length options.now }
{
    match options {
        [NO_OPERATION, ..] => 1,
        [END_OF_OPTIONS, ..] | [] | [_] => 0,
        [_, len, ..] => stated_len(*len, options.len()),
    }
}

/// The length that an option's length byte states, 0 where it is below 2 or passes the `room`.
fn stated_len(len: u8, room: usize) -> usize
    ensures value { result ≡ stated_len room (len ∷ []) }
    ensures within { result ≤ room }
{
    let len = usize::from(len);
    if len < 2 || len > room { 0 } else { len }
}

/// The maximum segment size that some TCP options give: the value of the first option of kind 2
/// and length 4 that a walk meets, 536 where there is none (RFC 9293, 3.7.1).
pub fn mss(options: &[u8]) -> u16
    ensures { result ≡ mss_of options.now }
{
    let mut rest = options;
    loop {
        let len = option_len(rest);
        if len == 0 {
            return DEFAULT_MSS;
        }
        if len == 4 && rest[0] == MAXIMUM_SEGMENT_SIZE {
            return be16(rest, 2);
        }
        rest = &rest[len..];
    }
}
