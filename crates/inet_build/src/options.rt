//! Clean options of a TCP header.

ghost use Rattle.std.specs.Prelude.{◌≡◌, ◌<◌, [], ◌∷◌, length};
ghost use Rattle.inet_build.specs.Options.{is_unwanted, clean_option, has_unwanted, clean_options};

use inet_frame::{NO_OPERATION, option_len};

/// Window scale (RFC 7323, 2.2).
const WINDOW_SCALE: u8 = 3;
/// Selective acknowledgements permitted (RFC 2018, 2).
const SACK_PERMITTED: u8 = 4;
/// Timestamps (RFC 7323, 3.2).
const TIMESTAMPS: u8 = 8;

/// Cleans the options of a TCP header in place, and says whether one was overwritten.
pub(crate) fn clean_options(options: &mut [u8]) -> bool
    ensures cleaned { options.new ≡ clean_options options.old }
    ensures found { result ≡ has_unwanted options.old }
{
    let mut found = false;
    let mut at = 0;
    let mut len = option_len(options);
    while len > 0 {
        if clean_option(&mut options[at..at + len]) {
            found = true;
        }
        at += len;
        len = option_len(&options[at..]);
    }
    found
}

/// Overwrites an unwanted option, and says whether it was one.
fn clean_option(option: &mut [u8]) -> bool
    requires { 0 < length option.old }
    ensures cleaned { option.new ≡ clean_option option.old }
    ensures unwanted { result ≡ is_unwanted option.old }
{
    let unwanted = is_unwanted(option[0]);
    if unwanted {
        option.fill(NO_OPERATION);
    }
    unwanted
}

/// Window scale, selective acknowledgements permitted, or timestamps.
fn is_unwanted(kind: u8) -> bool
    ensures { result ≡ is_unwanted (kind ∷ []) }
{
    kind == WINDOW_SCALE || kind == SACK_PERMITTED || kind == TIMESTAMPS
}
