//! The words of an assembly text, read: numbers, registers and labels.

ghost use Rattle.std.specs.Prelude.{◌≡◌, ◌≤◌, max, Ok, IfOk, IfSome};
ghost use Rattle.std.specs.List.{list_all};
ghost use Rattle.std.specs.Result.{result_ok};
ghost use Rattle.ascii_text.specs.Numbers.{decimal_within};
ghost use Rattle.rv_asm.specs.Reading.{number_within, with_sign, register_of, is_label, is_label_byte};

use ascii_text::{NumberFault, read_decimal, read_hexadecimal};

/// A number as it is written: a sign and a magnitude.
#[derive(Clone, Copy)]
pub struct Number {
    pub negative: bool,
    pub magnitude: u64,
}

/// What was read of a magnitude, with its sign.
fn with_sign(negative: bool, read: Result<u64, NumberFault>) -> Result<Number, NumberFault>
    ensures exact { result ≡ with_sign negative read }
    ensures magnitude { IfOk result (λ n. read ≡ Ok n.magnitude) }
{
    let magnitude = read?;
    Ok(Number {
        negative,
        magnitude,
    })
}

/// The number from -`low` to `high` that the text writes: `-` and a decimal number, `0x` and
/// hexadecimal digits, or a decimal number.
#[tactic(auto, unfolding(crate::specs::Reading::number_within))]
pub fn number_within(low: u64, high: u64, text: &[u8]) -> Result<Number, NumberFault>
    ensures exact { result ≡ number_within low high text.now }
    ensures small { IfOk result (λ n. n.magnitude ≤ max low high) }
{
    match text {
        [b'-', digits @ ..] => with_sign(true, read_decimal(digits, low)),
        [b'0', b'x', digits @ ..] => with_sign(false, read_hexadecimal(digits, high)),
        digits => with_sign(false, read_decimal(digits, high)),
    }
}

/// The decimal number of at most `most`.
fn small_decimal(digits: &[u8], most: u8) -> Option<u8>
    ensures exact { result ≡ result_ok (decimal_within most digits.now) }
    ensures small { IfSome result (λ n. n ≤ most) }
{
    match read_decimal(digits, most as u64) {
        Ok(number) => Some(number as u8),
        Err(_) => None,
    }
}

/// The number of the register that the text names: `x0` to `x31`, or `a0` to `a7` for 10 to 17.
#[tactic(auto, unfolding(crate::specs::Reading::register_of))]
pub fn register_of(text: &[u8]) -> Option<u8>
    ensures { result ≡ register_of text.now }
{
    match text {
        [b'x', digits @ ..] => small_decimal(digits, 31),
        [b'a', digits @ ..] => {
            let argument = small_decimal(digits, 7)?;
            Some(10 + argument)
        }
        _ => None,
    }
}

/// Whether the byte may stand in a label's name after its first letter.
fn is_label_byte(byte: u8) -> bool
    ensures { result ≡ is_label_byte byte }
{
    byte.is_ascii_alphanumeric() || byte == b'_'
}

/// Whether each byte is such a one.
fn are_label_bytes(text: &[u8]) -> bool
    ensures { result ≡ list_all is_label_byte text.now }
{
    text.iter().all(|byte| is_label_byte(*byte))
}

/// Whether the text has the form of a label's name: a letter, and then letters, digits and `_`.
pub fn is_label(text: &[u8]) -> bool
    ensures { result ≡ is_label text.now }
{
    match text {
        [] => false,
        [first, rest @ ..] => first.is_ascii_alphabetic() && are_label_bytes(rest),
    }
}
