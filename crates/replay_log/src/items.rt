//! A line of any of the texts.

ghost use Rattle.std.specs.Prelude.{◌≡◌, true, IfOk, map};
ghost use Rattle.replay_log.specs.Cases.{form_reads};
ghost use Rattle.replay_log.specs.Forms.{front_places, back_places};
ghost use Rattle.replay_log.specs.Making.{item_from, item_of};
ghost use Rattle.replay_log.specs.Places.{are_in_range, words_numbers};

use crate::forms::{Form, back_places, front_places};
use crate::judging::back_words;
use crate::lines::Line;
use crate::making::{answer_from, line_from, mark_from, turn_from};
use crate::places::Place;
use crate::reading::push_numbers;
use crate::records::{Answer, Mark};
use crate::turns::Turn;
use std::alloc::{AllocError, Global};

/// What one line of a text says.
#[derive(Clone, Copy)]
pub enum Item {
    /// A line of a schedule.
    Line(Line),
    /// An event of a log, with its answer.
    Event(Line, Answer),
    /// A mark of a log.
    Mark(Mark),
    /// A turn of a single run.
    Turn(Turn),
}

/// The numbers of the words at the places.
fn numbers_of(alloc: Global, places: &[Place], words: &[&[u8]]) -> Result<Vec<u64>, AllocError>
    ensures { IfOk result (λ numbers. numbers.items
        ≡ words_numbers places.now (map (λ w. w.now) words.now)) }
{
    let mut numbers = Vec::new(alloc);
    push_numbers(places, words, &mut numbers)?;
    Ok(numbers)
}

/// What a line of this form says with these numbers, those of an event's answer apart.
fn item_from(form: Form, front: &[u64], back: &[u64]) -> Item
    requires front { are_in_range (front_places form) 0 front.now ≡ true }
    requires back { are_in_range (back_places form) 0 back.now ≡ true }
    ensures { result ≡ item_from form front.now back.now }
{
    match form {
        Form::Line(line) => Item::Line(line_from(line, front)),
        Form::Event(line, answer) => {
            Item::Event(line_from(line, front), answer_from(answer, back))
        }
        Form::Mark(mark) => Item::Mark(mark_from(mark, front)),
        Form::Turn(turn) => Item::Turn(turn_from(turn, front)),
    }
}

/// What a line of this form says.
#[tactic(auto, unfolding(crate::specs::Making::item_of))]
pub fn item_of(alloc: Global, form: Form, words: &[&[u8]]) -> Result<Item, AllocError>
    requires { form_reads (map (λ w. w.now) words.now) form ≡ true }
    ensures { IfOk result (λ x. x ≡ item_of form (map (λ w. w.now) words.now)) }
{
    let front = numbers_of(alloc, front_places(form), words)?;
    let back = numbers_of(alloc, back_places(form), back_words(form, words))?;
    Ok(item_from(form, &front, &back))
}
