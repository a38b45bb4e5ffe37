//! The texts, written.

ghost use Rattle.std.specs.Prelude.{◌≡◌, ◌+◌, ◌*◌, ◌≤◌, ◌∷◌, ◌++◌, OnOk, OnErr, decimal, flat_map, length, map, slice_index};
ghost use Rattle.std.specs.Io.{StartsWith};
ghost use Rattle.std.specs.List.{join_with_byte};
ghost use Rattle.shared_definitions.specs.Ascii.{slash, space};
ghost use Rattle.replay_log.specs.Items.{line_words, answer_words, mark_words, turn_words, item_text};
ghost use Rattle.replay_log.specs.Places.{number_count, place_word, places_words};
ghost use Rattle.replay_log.specs.Texts.{line_text, record_text, turn_text};
ghost use Rattle.replay_log.specs.declared.items.Item.TheVariants as variant;

use crate::forms::{answer_places, line_places, mark_places, turn_places};
use crate::keywords::keyword_text;
use crate::lines::Line;
use crate::parts::{answer_parts, line_parts, mark_parts, turn_parts};
use crate::places::Place;
use crate::records::{Answer, Mark, Record};
use crate::turns::Turn;
use ascii_text::push_decimal;
use colo_base::NoMemory;
use std::alloc::AllocError;

/// The number at an index; 0 where there is none.
fn number_at(numbers: &[u64], k: usize) -> u64
    ensures { result ≡ slice_index numbers.now k }
{
    numbers.get(k).copied().unwrap_or(0)
}

/// How many numbers stand at the place.
fn number_count(place: Place) -> usize
    ensures value { result ≡ number_count place }
    ensures small { result ≤ 3 }
{
    match place {
        Place::Word(_) => 0,
        Place::Number { .. } => 1,
        Place::Opening => 2,
        Place::SeenFrame => 3,
    }
}

/// Appends a slash and a number.
fn push_slashed(number: u64, into: &mut Vec<u8>) -> Result<(), AllocError>
    ensures ok { OnOk result (into.new.items ≡ into.old.items ++ (slash ∷ decimal number)) }
    ensures err { OnErr result (StartsWith into.new.items into.old.items) }
{
    into.push(b'/')?;
    push_decimal(into, number)
}

/// Appends a slash and `client/number`.
fn push_slashed_opening(client: u64, number: u64, into: &mut Vec<u8>) -> Result<(), AllocError>
    ensures ok { OnOk result (into.new.items ≡ into.old.items ++ (slash ∷ (decimal client
        ++ (slash ∷ decimal number)))) }
    ensures err { OnErr result (StartsWith into.new.items into.old.items) }
{
    push_slashed(client, into)?;
    push_slashed(number, into)
}

/// Appends the word of a place.
fn push_place(place: Place, k: usize, numbers: &[u64], into: &mut Vec<u8>) -> Result<(), AllocError>
    requires { k ≤ 64 }
    ensures ok { OnOk result (into.new.items ≡ into.old.items ++ place_word place k numbers.now) }
    ensures err { OnErr result (StartsWith into.new.items into.old.items) }
{
    match place {
        Place::Word(keyword) => into.extend_from_slice(keyword_text(keyword)),
        Place::Number { .. } => push_decimal(into, number_at(numbers, k)),
        Place::Opening => {
            push_decimal(into, number_at(numbers, k))?;
            push_slashed(number_at(numbers, k + 1), into)
        }
        Place::SeenFrame => {
            push_decimal(into, number_at(numbers, k))?;
            push_slashed_opening(number_at(numbers, k + 1), number_at(numbers, k + 2), into)
        }
    }
}

/// Appends a space and the word of a place.
fn push_spaced_place(
    place: Place,
    k: usize,
    numbers: &[u64],
    into: &mut Vec<u8>,
) -> Result<(), AllocError>
    requires { k ≤ 64 }
    ensures ok { OnOk result (into.new.items ≡ into.old.items
        ++ (space ∷ place_word place k numbers.now)) }
    ensures err { OnErr result (StartsWith into.new.items into.old.items) }
{
    into.push(b' ')?;
    push_place(place, k, numbers, into)
}

/// Appends the words of the places, a space before each.
pub fn push_spaced(
    places: &[Place],
    k: usize,
    numbers: &[u64],
    into: &mut Vec<u8>,
) -> Result<(), AllocError>
    requires { k + 3 * length places.now ≤ 64 }
    ensures ok { OnOk result (into.new.items ≡ into.old.items
        ++ flat_map (λ w. space ∷ w) (places_words places.now k numbers.now)) }
    ensures err { OnErr result (StartsWith into.new.items into.old.items) }
{
    let [place, places @ ..] = places else {
        return Ok(());
    };
    push_spaced_place(*place, k, numbers, into)?;
    push_spaced(places, k + number_count(*place), numbers, into)
}

/// Appends the word of a place, and those of the places after it with a space before each.
fn push_first(
    place: Place,
    places: &[Place],
    numbers: &[u64],
    into: &mut Vec<u8>,
) -> Result<(), AllocError>
    requires { 3 * length places.now ≤ 60 }
    ensures ok { OnOk result (into.new.items ≡ into.old.items ++ (place_word place 0 numbers.now
        ++ flat_map (λ w. space ∷ w) (places_words places.now
        (0 + number_count place) numbers.now))) }
    ensures err { OnErr result (StartsWith into.new.items into.old.items) }
{
    push_place(place, 0, numbers, into)?;
    push_spaced(places, number_count(place), numbers, into)
}

/// Appends the words of the places, a space between each two.
#[tactic(auto, using(crate::proofs::WritingLemmas::join_cons))]
pub fn push_words(places: &[Place], numbers: &[u64], into: &mut Vec<u8>) -> Result<(), AllocError>
    requires { 3 * length places.now ≤ 60 }
    ensures ok { OnOk result (into.new.items ≡ into.old.items
        ++ join_with_byte space (places_words places.now 0 numbers.now)) }
    ensures err { OnErr result (StartsWith into.new.items into.old.items) }
{
    let [place, places @ ..] = places else {
        return Ok(());
    };
    push_first(*place, places, numbers, into)
}

/// Appends the line's words, a space between each two.
#[tactic(auto, using(crate::proofs::WritingLemmas::length_line))]
fn push_line_words(item: Line, into: &mut Vec<u8>) -> Result<(), AllocError>
    ensures ok { OnOk result (into.new.items ≡ into.old.items
        ++ join_with_byte space (line_words item)) }
    ensures err { OnErr result (StartsWith into.new.items into.old.items) }
{
    let (form, numbers) = line_parts(item);
    push_words(line_places(form), &numbers, into)
}

/// Appends the answer's words, a space before each.
#[tactic(auto, using(crate::proofs::WritingLemmas::length_answer))]
fn push_answer_words(item: Answer, into: &mut Vec<u8>) -> Result<(), AllocError>
    ensures ok { OnOk result (into.new.items ≡ into.old.items
        ++ flat_map (λ w. space ∷ w) (answer_words item)) }
    ensures err { OnErr result (StartsWith into.new.items into.old.items) }
{
    let (form, numbers) = answer_parts(item);
    push_spaced(answer_places(form), 0, &numbers, into)
}

/// Appends the mark's words, a space between each two.
#[tactic(auto, using(crate::proofs::WritingLemmas::length_mark))]
fn push_mark_words(item: Mark, into: &mut Vec<u8>) -> Result<(), AllocError>
    ensures ok { OnOk result (into.new.items ≡ into.old.items
        ++ join_with_byte space (mark_words item)) }
    ensures err { OnErr result (StartsWith into.new.items into.old.items) }
{
    let (form, numbers) = mark_parts(item);
    push_words(mark_places(form), &numbers, into)
}

/// Appends the turn's words, a space between each two.
#[tactic(auto, using(crate::proofs::WritingLemmas::length_turn))]
fn push_turn_words(item: &Turn, into: &mut Vec<u8>) -> Result<(), AllocError>
    ensures ok { OnOk result (into.new.items ≡ into.old.items
        ++ join_with_byte space (turn_words item.now)) }
    ensures err { OnErr result (StartsWith into.new.items into.old.items) }
{
    let (form, numbers) = turn_parts(item);
    push_words(turn_places(form), &numbers, into)
}

/// Appends a schedule's line, with its newline. After `NoMemory` what was there still stands in
/// front.
#[tactic(auto, unfolding(crate::specs::Items::item_text))]
pub fn write_line(item: &Line, into: &mut Vec<u8>) -> Result<(), NoMemory>
    ensures ok { OnOk result (into.new.items ≡ into.old.items ++ line_text item.now) }
    ensures err { OnErr result (StartsWith into.new.items into.old.items) }
{
    push_line_words(*item, into)?;
    into.push(b'\n')?;
    Ok(())
}

/// Appends a single run's turn, with its newline. After `NoMemory` what was there still stands in
/// front.
#[tactic(auto, unfolding(crate::specs::Items::item_text))]
pub fn write_turn(item: &Turn, into: &mut Vec<u8>) -> Result<(), NoMemory>
    ensures ok { OnOk result (into.new.items ≡ into.old.items ++ turn_text item.now) }
    ensures err { OnErr result (StartsWith into.new.items into.old.items) }
{
    push_turn_words(item, into)?;
    into.push(b'\n')?;
    Ok(())
}

/// Appends a mark's line.
#[tactic(auto, unfolding(crate::specs::Items::item_text))]
fn write_mark(item: Mark, into: &mut Vec<u8>) -> Result<(), AllocError>
    ensures ok { OnOk result (into.new.items ≡ into.old.items ++ item_text (variant.Mark item)) }
    ensures err { OnErr result (StartsWith into.new.items into.old.items) }
{
    push_mark_words(item, into)?;
    into.push(b'\n')?;
    Ok(())
}

/// Appends an event's line and its answer, with no newline.
#[tactic(auto, using(crate::proofs::WritingLemmas::join_line))]
fn push_event_words(line: Line, answer: Answer, into: &mut Vec<u8>) -> Result<(), AllocError>
    ensures ok { OnOk result (into.new.items ≡ into.old.items
        ++ join_with_byte space (line_words line ++ answer_words answer)) }
    ensures err { OnErr result (StartsWith into.new.items into.old.items) }
{
    push_line_words(line, into)?;
    push_answer_words(answer, into)
}

/// Appends an event's line with its answer.
#[tactic(auto, unfolding(crate::specs::Items::item_text))]
fn write_event(line: Line, answer: Answer, into: &mut Vec<u8>) -> Result<(), AllocError>
    ensures ok { OnOk result (into.new.items ≡ into.old.items
        ++ item_text (variant.Event line answer)) }
    ensures err { OnErr result (StartsWith into.new.items into.old.items) }
{
    push_event_words(line, answer, into)?;
    into.push(b'\n')?;
    Ok(())
}

/// Appends the lines of the marks.
fn write_marks(marks: &[Mark], into: &mut Vec<u8>) -> Result<(), AllocError>
    ensures ok { OnOk result (into.new.items ≡ into.old.items
        ++ flat_map item_text (map variant.Mark marks.now)) }
    ensures err { OnErr result (StartsWith into.new.items into.old.items) }
{
    let [mark, marks @ ..] = marks else {
        return Ok(());
    };
    write_mark(*mark, into)?;
    write_marks(marks, into)
}

/// Appends a log's event: its line with its answer, and a line for each mark. After `NoMemory` what
/// was there still stands in front.
pub fn write_record(item: &Record, into: &mut Vec<u8>) -> Result<(), NoMemory>
    ensures ok { OnOk result (into.new.items ≡ into.old.items ++ record_text item.now) }
    ensures err { OnErr result (StartsWith into.new.items into.old.items) }
{
    write_event(item.line, item.answer, into)?;
    write_marks(item.marks.as_slice(), into)?;
    Ok(())
}
