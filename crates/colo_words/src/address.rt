//! An address as a word.

ghost use Rattle.std.specs.Prelude.{◌≡◌};
ghost use Rattle.std.specs.Option.{option_copied};
ghost use Rattle.colo_words.specs.Addresses.{after_part, dot, dotted, is_address, is_host, is_octet, is_port};

use crate::numbers::number_in;
use ascii_text::cut;

/// Whether the text is a number to 255.
fn is_octet(text: &[u8]) -> bool
    ensures { result ≡ is_octet text.now }
{
    number_in(text, 0, 255).is_some()
}

/// What stands after an octet and a dot, where the text begins with these.
fn after_octet(text: &[u8]) -> Option<&[u8]>
    ensures { option_copied result ≡ after_part dot is_octet text.now }
{
    let (octet, rest) = cut(text, b'.');
    if is_octet(octet) { rest } else { None }
}

/// Whether the text is two octets with a dot.
fn is_pair(text: &[u8]) -> bool
    ensures { result ≡ dotted is_octet text.now }
{
    match after_octet(text) {
        Some(rest) => is_octet(rest),
        None => false,
    }
}

/// Whether the text is four octets with dots.
fn is_host(text: &[u8]) -> bool
    ensures { result ≡ is_host text.now }
{
    match after_octet(text) {
        Some(rest) => match after_octet(rest) {
            Some(rest) => is_pair(rest),
            None => false,
        },
        None => false,
    }
}

/// Whether the word is an address: four numbers to 255 with dots, a colon, and a port from 1 to
/// 65535.
pub fn is_address(word: &str) -> bool
    ensures { result ≡ is_address word.now }
{
    let (host, port) = cut(word.as_bytes(), b':');
    match port {
        Some(port) => is_host(host) && number_in(port, 1, 65535).is_some(),
        None => false,
    }
}
