//! Numbers read from text.

ghost use Rattle.std.specs.Prelude.{◌≡◌, ℕ, List, ◌≤◌, ◌<◌, ◌*◌, ◌+◌, ◌^◌, Ok, Err, IfOk, SomeIff, decimal, length};
ghost use Rattle.std.specs.Char.{digit_value, is_digit};
ghost use Rattle.std.specs.List.{list_all};
ghost use Rattle.std.specs.Str.Parse.{digits_value};
ghost use Rattle.ascii_text.specs.Numbers.{is_numeral, needs_each_digit, within, decimal_within, hexadecimal_within};
ghost use Rattle.ascii_text.specs.Hexadecimal.{hexadecimal, hexadecimal_digits};
ghost use Rattle.ascii_text.specs.declared.numbers.NumberFault.TheVariants.{TooLarge};

/// Why a text gives no number within a bound.
#[derive(Clone, Copy, Debug, PartialEq, Eq)]
pub enum NumberFault {
    /// The text isn't digits, or has a needless zero in front.
    NoNumber,
    /// The number is above the bound.
    TooLarge,
}

/// The value of a digit or a letter, and 36 for any other byte.
fn digit_value(byte: u8) -> u64
    ensures { result ≡ digit_value byte }
{
    match byte {
        b'0'..=b'9' => (byte - b'0') as u64,
        b'A'..=b'Z' => (byte - b'A') as u64 + 10,
        b'a'..=b'z' => (byte - b'a') as u64 + 10,
        _ => 36,
    }
}

/// Whether each byte is a digit in the base.
fn are_digits(base: u64, text: &[u8]) -> bool
    ensures { result ≡ list_all (λ c. is_digit c base) text.now }
{
    text.iter().all(|byte| digit_value(*byte) < base)
}

/// Whether the text is one digit or more in the base.
fn is_numeral(base: u64, text: &[u8]) -> bool
    ensures { result ≡ is_numeral base text.now }
{
    !text.is_empty() && are_digits(base, text)
}

/// Whether no zero stands in front of other digits.
fn needs_each_digit(text: &[u8]) -> bool
    requires { 0 < length text.now }
    ensures { result ≡ needs_each_digit text.now }
{
    text.len() == 1 || text[0] != b'0'
}

/// The number with one digit more, where it is at most `most`.
fn with_digit(value: u64, base: u64, digit: u64, most: u64) -> Option<u64>
    ensures { SomeIff result (value * base + digit ≤ most) (value * base + digit) }
{
    let number = value.checked_mul(base)?.checked_add(digit)?;
    if number <= most { Some(number) } else { None }
}

/// The number that the digits write, where it is at most `most`.
fn value_within(base: u64, digits: &[u8], most: u64) -> Result<u64, NumberFault>
    requires { 1 ≤ base }
    ensures { result ≡ within most (digits_value base digits.now) }
{
    let mut value = 0u64;
    for byte in digits {
        let Some(number) = with_digit(value, base, digit_value(*byte), most) else {
            return Err(NumberFault::TooLarge);
        };
        value = number;
    }
    Ok(value)
}

/// The number that decimal digits without needless zeros write, where it is at most `most`.
fn decimal_within(text: &[u8], most: u64) -> Result<u64, NumberFault>
    ensures { result ≡ decimal_within most text.now }
{
    if is_numeral(10, text) && needs_each_digit(text) {
        value_within(10, text, most)
    } else {
        Err(NumberFault::NoNumber)
    }
}

/// The number of at most `most` that the text writes in decimal, without sign or needless zeros.
/// The text is then std's `decimal` of the number. A text of any length that writes a larger number
/// is
/// `TooLarge`, and any other text is `NoNumber`.
pub fn read_decimal(text: &[u8], most: u64) -> Result<u64, NumberFault>
    ensures exact { result ≡ decimal_within most text.now }
    ensures written { IfOk result (λ n. text.now ≡ decimal n) }
    ensures small { IfOk result (λ n. n ≤ most) }
    ensures each { (n : ℕ) → n ≤ most → text.now ≡ decimal n → result ≡ Ok n }
    ensures large { (n : ℕ) → most < n → n < 2 ^ 64 → text.now ≡ decimal n → result ≡ Err TooLarge }
{
    decimal_within(text, most)
}

/// The number of at most `most` that the text writes in hexadecimal digits, of either case, zeros
/// in front allowed. A text of any length that writes a larger number is `TooLarge`, and any other
/// text is
/// `NoNumber`.
pub fn read_hexadecimal(text: &[u8], most: u64) -> Result<u64, NumberFault>
    ensures { result ≡ hexadecimal_within most text.now }
{
    if is_numeral(16, text) {
        value_within(16, text, most)
    } else {
        Err(NumberFault::NoNumber)
    }
}

/// Reading a decimal text by its digits gives exactly the number whose text std writes so.
pub fn decimal_is_read()
    ensures read { (most n : ℕ) → n ≤ most → n < 2 ^ 64 → decimal_within most (decimal n) ≡ Ok n }
    ensures written { (most : ℕ) (text : List ℕ) (n : ℕ) → n < 2 ^ 64
        → decimal_within most text ≡ Ok n → text ≡ decimal n }
{}

/// A number that is written in hexadecimal digits is read again, without zeros in front or with
/// them.
pub fn hexadecimal_is_read()
    ensures short { (most n : ℕ) → n ≤ most → hexadecimal_within most (hexadecimal n) ≡ Ok n }
    ensures eight { (most n : ℕ) → n ≤ most → n < 2 ^ 32
        → hexadecimal_within most (hexadecimal_digits 8 n) ≡ Ok n }
{}
