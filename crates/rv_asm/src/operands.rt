//! The operands of a statement, read from left to right.

ghost use Rattle.std.specs.Prelude.{◌≡◌, ◌<◌, ◌≤◌, ◌^◌, ◌+◌, ◌*◌, Some, Ok, Err, IfOk, option_map, length};
ghost use Rattle.std.specs.Option.{option_copied};
ghost use Rattle.rv_asm.specs.Labels.{words_in};
ghost use Rattle.rv_asm.specs.Operands.{register, value, word, even, near, named_place, distance, address, in_memory, closed, bracketed, target, label_target, signed_number, unsigned_number, word_number, word_value, label_value, base_register, address_parts, operand, after_comma, next_operand, finish, operands, view_by};

use crate::fault::Why;
use crate::lines::Labels;
use crate::reading::{Number, is_label, number_within, register_of};
use ascii_text::{NumberFault, cut};
use rv_forms::{Kind, Operands};

/// Where a statement stands: among which labels, and how many words stand before it.
#[derive(Drop)]
pub struct Context<'a, 't> {
    pub labels: &'a Labels<'t>,
    pub here: u64,
}

/// The register that the text names.
#[tactic(auto, unfolding(crate::specs::Operands::register))]
fn register(text: &[u8]) -> Result<u8, Why>
    ensures { result ≡ register text.now }
{
    match register_of(text) {
        Some(register) => Ok(register),
        None => {
            if is_label(text) {
                Err(Why::Register)
            } else {
                Err(Why::Word)
            }
        }
    }
}

/// The number with its sign.
fn value(number: Number) -> i32
    requires { number.magnitude < 2 ^ 31 }
    ensures { result ≡ value number }
{
    let magnitude = number.magnitude as i32;
    if number.negative {
        -magnitude
    } else {
        magnitude
    }
}

/// The number modulo 2^32.
fn word(number: Number) -> u32
    requires { number.magnitude < 2 ^ 32 }
    ensures { result ≡ word number }
{
    let magnitude = number.magnitude as u32;
    if number.negative {
        magnitude.wrapping_neg()
    } else {
        magnitude
    }
}

/// The number, if it is even.
fn even(number: Number) -> Result<i32, Why>
    requires { number.magnitude < 2 ^ 31 }
    ensures { result ≡ even number }
{
    if number.magnitude % 2 == 0 {
        Ok(value(number))
    } else {
        Err(Why::Range)
    }
}

/// A number from -2048 to 2047.
#[tactic(auto, unfolding(crate::specs::Operands::signed_number))]
fn signed_number(text: &[u8]) -> Result<i32, Why>
    ensures { result ≡ signed_number text.now }
{
    match number_within(2048, 2047, text) {
        Ok(number) => Ok(value(number)),
        Err(NumberFault::TooLarge) => Err(Why::Range),
        Err(NumberFault::NoNumber) => Err(Why::Word),
    }
}

/// A number from 0 to `high`.
#[tactic(auto, unfolding(crate::specs::Operands::unsigned_number))]
fn unsigned_number(high: u32, text: &[u8]) -> Result<u32, Why>
    ensures exact { result ≡ unsigned_number high text.now }
    ensures small { IfOk result (λ n. n ≤ high) }
{
    match number_within(0, high as u64, text) {
        Ok(number) => Ok(number.magnitude as u32),
        Err(NumberFault::TooLarge) => Err(Why::Range),
        Err(NumberFault::NoNumber) => Err(Why::Word),
    }
}

/// A number of a word.
#[tactic(auto, unfolding(crate::specs::Operands::word_number))]
fn word_number(text: &[u8]) -> Result<u32, Why>
    ensures { result ≡ word_number text.now }
{
    match number_within(1 << 31, (1 << 32) - 1, text) {
        Ok(number) => Ok(word(number)),
        Err(NumberFault::TooLarge) => Err(Why::Range),
        Err(NumberFault::NoNumber) => Err(Why::Word),
    }
}

/// How many words stand before the label.
fn named_place<'t>(context: &Context<'_, 't>, text: &'t [u8]) -> Result<u64, Why>
    ensures { result ≡ named_place (words_in context.now.labels.now) text.now }
{
    if !is_label(text) {
        return Err(Why::Word);
    }
    match context.labels.get(&text) {
        Some(place) => Ok(place.words),
        None => Err(Why::Label),
    }
}

/// The bytes from the word at `here` to the word at `place`, if they are from -`low` to `high`.
fn near(low: u32, high: u32, here: u64, place: u64) -> Result<i32, Why>
    requires low { low < 2 ^ 31 }
    requires high { high < 2 ^ 31 }
    ensures { result ≡ near low high (distance here place) }
{
    if here <= place {
        let words = place - here;
        if words <= high as u64 / 4 {
            Ok(4 * words as i32)
        } else {
            Err(Why::Range)
        }
    } else {
        let words = here - place;
        if words <= low as u64 / 4 {
            Ok(-(4 * words as i32))
        } else {
            Err(Why::Range)
        }
    }
}

/// The distance to a label.
#[tactic(auto, unfolding(crate::specs::Operands::label_target))]
fn label_target<'t>(
    context: &Context<'_, 't>,
    low: u32,
    high: u32,
    text: &'t [u8],
) -> Result<i32, Why>
    requires low { low < 2 ^ 31 }
    requires high { high < 2 ^ 31 }
    ensures { result ≡ label_target
        (words_in context.now.labels.now) context.now.here low high text.now }
{
    let place = named_place(context, text)?;
    near(low, high, context.here, place)
}

/// A label, or an even distance.
#[tactic(auto, unfolding(crate::specs::Operands::target))]
fn target<'t>(context: &Context<'_, 't>, low: u32, high: u32, text: &'t [u8]) -> Result<i32, Why>
    requires low { low < 2 ^ 31 }
    requires high { high < 2 ^ 31 }
    ensures { result ≡ target (words_in context.now.labels.now) context.now.here low high text.now }
{
    match number_within(low as u64, high as u64, text) {
        Ok(number) => even(number),
        Err(NumberFault::TooLarge) => Err(Why::Range),
        Err(NumberFault::NoNumber) => label_target(context, low, high, text),
    }
}

/// The address of the word at a place, which stands below 2^32.
fn address(place: u64) -> Result<u32, Why>
    ensures { result ≡ in_memory (address place) }
{
    if place < 1 << 29 {
        Ok((1 << 31) + 4 * place as u32)
    } else {
        Err(Why::Range)
    }
}

/// The address of a label.
#[tactic(auto, unfolding(crate::specs::Operands::label_value))]
fn label_value<'t>(context: &Context<'_, 't>, text: &'t [u8]) -> Result<u32, Why>
    ensures { result ≡ label_value (words_in context.now.labels.now) text.now }
{
    let place = named_place(context, text)?;
    address(place)
}

/// A label, or a number of a word.
#[tactic(auto, unfolding(crate::specs::Operands::word_value))]
fn word_value<'t>(context: &Context<'_, 't>, text: &'t [u8]) -> Result<u32, Why>
    ensures { result ≡ word_value (words_in context.now.labels.now) text.now }
{
    match number_within(1 << 31, (1 << 32) - 1, text) {
        Ok(number) => Ok(word(number)),
        Err(NumberFault::TooLarge) => Err(Why::Range),
        Err(NumberFault::NoNumber) => label_value(context, text),
    }
}

/// The register, if the text ends after it.
fn closed(rest: Option<&[u8]>, register: u8) -> Result<u8, Why>
    ensures { result ≡ closed (option_copied rest.entry) register }
{
    match rest {
        Some([]) => Ok(register),
        _ => Err(Why::Word),
    }
}

/// The register that stands after an opening parenthesis.
fn bracketed(text: Option<&[u8]>) -> Result<u8, Why>
    ensures { result ≡ bracketed (option_copied text.entry) }
{
    match text {
        None => Err(Why::Word),
        Some(text) => {
            let (name, rest) = cut(text, b')');
            let register = register(name)?;
            closed(rest, register)
        }
    }
}

/// A register in parentheses, and nothing before them.
#[tactic(auto, unfolding(crate::specs::Operands::base_register))]
fn base_register(text: &[u8]) -> Result<u8, Why>
    ensures { result ≡ base_register text.now }
{
    let (front, rest) = cut(text, b'(');
    if !front.is_empty() {
        return Err(Why::Word);
    }
    bracketed(rest)
}

/// A number, and a register in parentheses.
#[tactic(auto, unfolding(crate::specs::Operands::address_parts))]
fn address_parts(text: &[u8]) -> Result<(i32, u8), Why>
    ensures { result ≡ address_parts text.now }
{
    let (offset, rest) = cut(text, b'(');
    let offset = signed_number(offset)?;
    let register = bracketed(rest)?;
    Ok((offset, register))
}

/// The values with that of an operand of this kind.
#[tactic(auto, unfolding(crate::specs::Operands::operand))]
fn operand<'t>(
    context: &Context<'_, 't>,
    kind: Kind,
    text: &'t [u8],
    values: Operands,
) -> Result<Operands, Why>
    ensures { result ≡ operand
        (words_in context.now.labels.now) context.now.here kind text.now values }
{
    let mut values = values;
    match kind {
        Kind::Rd => values.rd = register(text)?,
        Kind::Rs1 => values.rs1 = register(text)?,
        Kind::Rs2 => values.rs2 = register(text)?,
        Kind::Immediate => values.imm = signed_number(text)?,
        Kind::Shift => values.rs2 = unsigned_number(31, text)? as u8,
        Kind::Small => values.rs1 = unsigned_number(31, text)? as u8,
        Kind::Csr => values.wide = unsigned_number(4095, text)?,
        Kind::Upper => values.wide = unsigned_number(0xFFFFF, text)?,
        Kind::Branch => values.imm = target(context, 4096, 4094, text)?,
        Kind::Jump => values.imm = target(context, 1048576, 1048574, text)?,
        Kind::Address => (values.imm, values.rs1) = address_parts(text)?,
        Kind::Base => values.rs1 = base_register(text)?,
        Kind::Word => values.wide = word_number(text)?,
        Kind::Value => values.wide = word_value(context, text)?,
    }
    Ok(values)
}

/// What stands after a comma and a space.
fn after_comma(text: Option<&[u8]>) -> Result<Option<&[u8]>, Why>
    ensures { view_by option_copied result ≡ after_comma (option_copied text.entry) }
{
    match text {
        None => Ok(None),
        Some([b' ', rest @ ..]) => Ok(Some(rest)),
        Some(_) => Err(Why::Word),
    }
}

/// The values with that of the next operand, and what stands after the comma that ends it.
#[tactic(auto, unfolding(crate::specs::Operands::next_operand))]
fn next_operand<'t>(
    context: &Context<'_, 't>,
    kind: Kind,
    text: Option<&'t [u8]>,
    values: Operands,
) -> Result<(Operands, Option<&'t [u8]>), Why>
    ensures { view_by (λ next. (next.0, option_copied next.1)) result
        ≡ next_operand (words_in context.now.labels.now) context.now.here kind
        (option_copied text.entry) values }
{
    match text {
        None => Err(Why::Word),
        Some(text) => {
            let (piece, after) = cut(text, b',');
            let values = operand(context, kind, piece, values)?;
            let rest = after_comma(after)?;
            Ok((values, rest))
        }
    }
}

/// The values, if no text is left over.
fn finish(text: Option<&[u8]>, values: Operands) -> Result<Operands, Why>
    ensures { result ≡ finish (option_copied text.entry) values }
{
    match text {
        None => Ok(values),
        Some(_) => Err(Why::Word),
    }
}

/// The values of operands of these kinds, beginning with the values given.
#[tactic(auto, unfolding(crate::specs::Operands::operands))]
pub fn operands<'t>(
    context: &Context<'_, 't>,
    kinds: &[Kind],
    text: Option<&'t [u8]>,
    values: Operands,
) -> Result<Operands, Why>
    ensures { result ≡ operands (words_in context.now.labels.now) context.now.here kinds.now
        (option_copied text.entry) values }
{
    match kinds {
        [] => finish(text, values),
        [kind, more @ ..] => {
            let (values, rest) = next_operand(context, *kind, text, values)?;
            operands(context, more, rest, values)
        }
    }
}
