//! Which words stand at a line's places, and the numbers that they are.

ghost use Rattle.std.specs.Prelude.{◌≡◌, ◌++◌, OnOk, map};
ghost use Rattle.replay_log.specs.Places.{is_number, number_of, is_opening, before_slash, after_slash, fits, is_read, fit_all, are_read, place_numbers, words_numbers};

use crate::keywords::keyword_text;
use crate::places::Place;
use ascii_text::{cut, read_decimal};
use std::alloc::AllocError;

/// Whether the word is a number in the range.
fn is_number(low: u64, high: u64, word: &[u8]) -> bool
    ensures { result ≡ is_number low high word.now }
{
    match read_decimal(word, high) {
        Ok(number) => low <= number,
        Err(_) => false,
    }
}

/// The number of at most `high` that the word is; 0 where it is none.
fn number_of(high: u64, word: &[u8]) -> u64
    ensures { result ≡ number_of high word.now }
{
    match read_decimal(word, high) {
        Ok(number) => number,
        Err(_) => 0,
    }
}

/// What stands before the first slash, and what after it: nothing where there is none.
fn split_slash(word: &[u8]) -> (&[u8], &[u8])
    ensures before { result.0.now ≡ before_slash word.now }
    ensures after { result.1.now ≡ after_slash word.now }
{
    match cut(word, b'/') {
        (before, Some(after)) => (before, after),
        (before, None) => (before, &[]),
    }
}

/// Whether the word is `client/number`.
fn is_opening(word: &[u8]) -> bool
    ensures { result ≡ is_opening word.now }
{
    let (client, number) = split_slash(word);
    is_number(0, u32::MAX as u64, client) && is_number(0, u32::MAX as u64, number)
}

/// Whether the word may stand at the place if its numbers don't matter.
fn fits(place: Place, word: &[u8]) -> bool
    ensures { result ≡ fits place word.now }
{
    match place {
        Place::Word(keyword) => word == keyword_text(keyword),
        Place::Number { .. } | Place::Opening | Place::SeenFrame => true,
    }
}

/// Whether the word may stand at the place.
fn is_read(place: Place, word: &[u8]) -> bool
    ensures { result ≡ is_read place word.now }
{
    match place {
        Place::Word(keyword) => word == keyword_text(keyword),
        Place::Number { low, high } => is_number(low, high, word),
        Place::Opening => is_opening(word),
        Place::SeenFrame => {
            let (index, opening) = split_slash(word);
            is_number(0, u64::MAX, index) && is_opening(opening)
        }
    }
}

/// Whether the words fit, as far as there are words and places.
pub fn fit_all(places: &[Place], words: &[&[u8]]) -> bool
    ensures { result ≡ fit_all places.now (map (λ w. w.now) words.now) }
{
    let [place, places @ ..] = places else {
        return true;
    };
    let [word, words @ ..] = words else {
        return true;
    };
    fits(*place, word) && fit_all(places, words)
}

/// Whether the words are read, as far as there are words and places.
pub fn are_read(places: &[Place], words: &[&[u8]]) -> bool
    ensures { result ≡ are_read places.now (map (λ w. w.now) words.now) }
{
    let [place, places @ ..] = places else {
        return true;
    };
    let [word, words @ ..] = words else {
        return true;
    };
    is_read(*place, word) && are_read(places, words)
}

/// Appends the numbers of one place's word.
fn push_place(place: Place, word: &[u8], numbers: &mut Vec<u64>) -> Result<(), AllocError>
    ensures { OnOk result (numbers.new.items ≡ numbers.old.items ++ place_numbers place word.now) }
{
    match place {
        Place::Word(_) => {}
        Place::Number { high, .. } => numbers.push(number_of(high, word))?,
        Place::Opening => {
            let (client, number) = split_slash(word);
            numbers.push(number_of(u32::MAX as u64, client))?;
            numbers.push(number_of(u32::MAX as u64, number))?;
        }
        Place::SeenFrame => {
            let (index, opening) = split_slash(word);
            let (client, number) = split_slash(opening);
            numbers.push(number_of(u64::MAX, index))?;
            numbers.push(number_of(u32::MAX as u64, client))?;
            numbers.push(number_of(u32::MAX as u64, number))?;
        }
    }
    Ok(())
}

/// Appends the numbers of the words at the places.
pub fn push_numbers(
    places: &[Place],
    words: &[&[u8]],
    numbers: &mut Vec<u64>,
) -> Result<(), AllocError>
    ensures { OnOk result (numbers.new.items ≡ numbers.old.items
        ++ words_numbers places.now (map (λ w. w.now) words.now)) }
{
    let [place, places @ ..] = places else {
        return Ok(());
    };
    let [word, words @ ..] = words else {
        return Ok(());
    };
    push_place(*place, word, numbers)?;
    push_numbers(places, words, numbers)
}
