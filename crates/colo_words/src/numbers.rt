//! Names and numbers as words.

ghost use Rattle.std.specs.Prelude.{◌≡◌, ◌≤◌, IfSome};
ghost use Rattle.colo_words.specs.Words.{is_name, read_number};

use ascii_text::read_decimal;

/// Whether the word is a name: it isn't empty and doesn't begin with `-`.
pub fn is_name(word: &str) -> bool
    ensures { result ≡ is_name word.now }
{
    match word.as_bytes() {
        [] => false,
        [first, ..] => *first != b'-',
    }
}

/// The number in the text; as [`read_number`].
pub(crate) fn number_in(text: &[u8], least: u64, most: u64) -> Option<u64>
    ensures value { result ≡ read_number least most text.now }
    ensures least { IfSome result (λ number. least ≤ number) }
    ensures most { IfSome result (λ number. number ≤ most) }
{
    match read_decimal(text, most) {
        Ok(number) if number >= least => Some(number),
        _ => None,
    }
}

/// The decimal number from `least` to `most` that the word spells, without sign or needless zeros.
/// `None` exactly where it spells none.
pub fn read_number(word: &str, least: u64, most: u64) -> Option<u64>
    ensures value { result ≡ read_number least most word.now }
    ensures least { IfSome result (λ number. least ≤ number) }
    ensures most { IfSome result (λ number. number ≤ most) }
{
    number_in(word.as_bytes(), least, most)
}
