//! Numbers written as text.

ghost use Rattle.std.specs.Prelude.{◌≡◌, ◌≤◌, ◌<◌, ◌++◌, OnOk, OnErr, decimal};
ghost use Rattle.std.specs.String.{string_bytes};
ghost use Rattle.ascii_text.specs.Hexadecimal.{glyph, hexadecimal, hexadecimal_digits};
ghost use Rattle.shared_definitions.specs.Begins.{Begins};

use itoa::Buffer;
use std::alloc::AllocError;

/// Appends the number in decimal, as std writes it. After an error the bytes are as they were.
pub fn push_decimal(into: &mut Vec<u8>, number: u64) -> Result<(), AllocError>
    ensures ok { OnOk result (into.new.items ≡ into.old.items ++ decimal number) }
    ensures err { OnErr result (into.new.items ≡ into.old.items) }
{
    let mut buffer = Buffer::new();
    into.extend_from_slice(buffer.format(number).as_bytes())
}

/// The character of a hexadecimal digit, letters in upper case.
fn glyph(digit: u32) -> char
    requires { digit < 16 }
    ensures value { result ≡ glyph digit }
    ensures ascii { result < 128 }
{
    let digit = digit as u8;
    if digit < 10 {
        (b'0' + digit) as char
    } else {
        (b'A' + (digit - 10)) as char
    }
}

/// Appends the number in hexadecimal, letters in upper case, without needless zeros. After an error
/// the string begins with what it held.
#[tactic(auto, using(crate::proofs::WritingLemmas::hexadecimal_more, crate::proofs::WritingLemmas::hexadecimal_one))]
pub fn push_hexadecimal(into: &mut String, number: u32) -> Result<(), AllocError>
    ensures ok { OnOk result (string_bytes into.new ≡ string_bytes into.old ++ hexadecimal number) }
    ensures err { OnErr result (Begins (string_bytes into.old) (string_bytes into.new)) }
{
    if number < 16 {
        into.push(glyph(number))?;
        return Ok(());
    }
    push_hexadecimal(into, number / 16)?;
    into.push(glyph(number % 16))?;
    Ok(())
}

/// Appends the last `count` hexadecimal digits of the number, letters in upper case, zeros among
/// them. After an error the string begins with what it held.
#[tactic(auto, using(crate::proofs::WritingLemmas::hexadecimal_digits_more, crate::proofs::WritingLemmas::hexadecimal_digits_none))]
pub fn push_hexadecimal_digits(into: &mut String, count: u32, number: u32) -> Result<(), AllocError>
    ensures ok { OnOk result (string_bytes into.new
        ≡ string_bytes into.old ++ hexadecimal_digits count number) }
    ensures err { OnErr result (Begins (string_bytes into.old) (string_bytes into.new)) }
{
    if count == 0 {
        return Ok(());
    }
    push_hexadecimal_digits(into, count - 1, number / 16)?;
    into.push(glyph(number % 16))?;
    Ok(())
}
