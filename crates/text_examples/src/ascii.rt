//! Worked examples.

use ascii_text::{
    NumberFault, cut, push_decimal, push_hexadecimal, push_hexadecimal_digits, read_decimal,
    read_hexadecimal,
};
use std::alloc::Global;
use std::test::Fail;

// The calls stand in functions without clauses, so that what the contracts say stands in no goal of
// a test.

fn decimal(text: &[u8]) -> Result<u64, NumberFault> {
    read_decimal(text, u64::MAX)
}

fn hexadecimal(text: &[u8]) -> Result<u64, NumberFault> {
    read_hexadecimal(text, 255)
}

fn spell_decimal(alloc: Global, number: u64) -> Result<Vec<u8>, Fail> {
    let mut bytes = Vec::new(alloc);
    push_decimal(&mut bytes, number)?;
    Ok(bytes)
}

/// A number, and another one with eight digits.
fn spell_hexadecimal(alloc: Global, number: u32, other: u32) -> Result<String, Fail> {
    let mut text = String::new(alloc);
    push_hexadecimal(&mut text, number)?;
    push_hexadecimal_digits(&mut text, 8, other)?;
    Ok(text)
}

fn parts<'a>(text: &'a [u8]) -> (&'a [u8], Option<&'a [u8]>) {
    cut(text, b':')
}

#[test]
fn a_number_is_told_from_no_number_and_from_one_too_large(rt: HostRuntime) {
    assert_eq!(rt; decimal(b"18446744073709551615"), Ok(u64::MAX));
    assert_eq!(rt;
        decimal(b"18446744073709551616"),
        Err(NumberFault::TooLarge)
    );
    assert_eq!(rt; decimal(b"007"), Err(NumberFault::NoNumber));
    assert_eq!(rt; hexadecimal(b"00fF"), Ok(255));
}

#[test]
fn numbers_are_written(rt: HostRuntime) -> Result<(), Fail> {
    let bytes = spell_decimal(rt.alloc(), u64::MAX)?;
    assert_eq!(rt; bytes.as_slice(), b"18446744073709551615".as_slice());
    let text = spell_hexadecimal(rt.alloc(), 0xC0FFEE, 0x6F)?;
    assert_eq!(rt; text.as_str(), "C0FFEE0000006F");
    Ok(())
}

#[test]
fn a_text_is_cut_at_the_first_byte(rt: HostRuntime) {
    let (before, after) = parts(b"a:b:c");
    assert_eq!(rt; before, b"a".as_slice());
    assert_eq!(rt; after, Some(b"b:c".as_slice()));
}
