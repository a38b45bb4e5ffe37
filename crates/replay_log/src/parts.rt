//! The form of each item, and the numbers that stand in it.

ghost use Rattle.std.specs.Prelude.{◌≡◌, ◌∷◌, []};
ghost use Rattle.replay_log.specs.Forms.{line_places, answer_places, turn_places};
ghost use Rattle.replay_log.specs.Items.{flag_number, line_form, line_words, answer_form, answer_words, mark_form, mark_numbers, frame_form, turn_words};
ghost use Rattle.replay_log.specs.Places.{places_words};

use crate::forms::{AnswerForm, LineForm, MarkForm, TurnForm};
use crate::lines::Line;
use crate::records::{Answer, Mark};
use crate::turns::{Turn, TurnFrame};
use colo_base::Cause;

/// 0 or 1.
fn flag_number(flag: bool) -> u64
    ensures { result ≡ flag_number flag }
{
    if flag { 1 } else { 0 }
}

/// The form of a schedule's line, and its numbers.
pub fn line_parts(item: Line) -> (LineForm, [u64; 4])
    ensures form { result.0 ≡ line_form item }
    ensures words { places_words (line_places (line_form item)) 0 result.1 ≡ line_words item }
{
    match item {
        Line::Primary { d, i, b, n } => {
            (
                LineForm::Primary,
                [d as u64, flag_number(i), b as u64, n as u64],
            )
        }
        Line::Secondary { d, i, b, n } => {
            (
                LineForm::Secondary,
                [d as u64, flag_number(i), b as u64, n as u64],
            )
        }
        Line::Client => (LineForm::Client, [0; 4]),
        Line::ToSecondary => (LineForm::ToSecondary, [0; 4]),
        Line::ToPrimary => (LineForm::ToPrimary, [0; 4]),
        Line::StopPrimary => (LineForm::StopPrimary, [0; 4]),
        Line::StopSecondary => (LineForm::StopSecondary, [0; 4]),
        Line::Report => (LineForm::Report, [0; 4]),
        Line::Ask => (LineForm::Ask, [0; 4]),
    }
}

/// The form of an answer, and its numbers.
pub fn answer_parts(item: Answer) -> (AnswerForm, [u64; 5])
    ensures form { result.0 ≡ answer_form item }
    ensures words { places_words (answer_places (answer_form item)) 0 result.1 ≡ answer_words item }
{
    match item {
        Answer::Nothing => (AnswerForm::Nothing, [0; 5]),
        Answer::Made {
            frame: None,
            released,
        } => (AnswerForm::MadeWithout, [released, 0, 0, 0, 0]),
        Answer::Made {
            frame: Some(frame),
            released,
        } => (AnswerForm::MadeWith, [frame, released, 0, 0, 0]),
        Answer::Accepted {
            index,
            seen: None,
            trim,
            released,
        } => (
            AnswerForm::AcceptedUnseen,
            [index, trim as u64, released, 0, 0],
        ),
        Answer::Accepted {
            index,
            seen: Some(seen),
            trim,
            released,
        } => (
            AnswerForm::AcceptedSeen,
            [
                index,
                seen.client as u64,
                seen.own as u64,
                trim as u64,
                released,
            ],
        ),
        Answer::Arp { index } => (AnswerForm::Arp, [index, 1, 0, 0, 0]),
        Answer::Dropped { index, why } => (AnswerForm::Dropped, [index, why as u64, 0, 0, 0]),
        Answer::Full { index } => (AnswerForm::Full, [index, 0, 0, 0, 0]),
        Answer::Lost { index } => (AnswerForm::Lost, [index, 0, 0, 0, 0]),
        Answer::Heard { kind, full: true } => (AnswerForm::HeardFull, [kind as u64, 0, 0, 0, 0]),
        Answer::Heard { kind, full: false } => (AnswerForm::Heard, [kind as u64, 0, 0, 0, 0]),
        Answer::HeardBack {
            kind,
            sent,
            released,
        } => (AnswerForm::HeardBack, [kind as u64, sent, released, 0, 0]),
        Answer::Zero => (AnswerForm::Zero, [0; 5]),
        Answer::Reported { released } => (AnswerForm::Reported, [released, 0, 0, 0, 0]),
    }
}

/// The form of a mark, and its number.
pub fn mark_parts(item: Mark) -> (MarkForm, [u64; 1])
    ensures form { result.0 ≡ mark_form item }
    ensures number { result.1 ≡ mark_numbers item }
{
    match item {
        Mark::Captured { e, why } => {
            let form = match why {
                Cause::Differ => MarkForm::Differ,
                Cause::Restart => MarkForm::Restart,
                Cause::Wait => MarkForm::Wait,
                Cause::Asked => MarkForm::Asked,
            };
            (form, [e as u64])
        }
        Mark::Committed { e } => (MarkForm::Committed, [e as u64]),
        Mark::Acknowledged { e } => (MarkForm::Acknowledged, [e as u64]),
    }
}

/// The form of a turn, and its numbers.
pub fn turn_parts(item: &Turn) -> (TurnForm, [u64; 6])
    ensures form { result.0 ≡ frame_form item.now.frame }
    ensures words { places_words (turn_places (frame_form item.now.frame)) 0 result.1
        ≡ turn_words item.now }
{
    let d = item.d as u64;
    let b = item.b as u64;
    let n = item.n as u64;
    match item.frame {
        TurnFrame::Absent => (TurnForm::Absent, [d, b, n, 0, 0, 0]),
        TurnFrame::Plain { index } => (TurnForm::Plain, [d, index, b, n, 0, 0]),
        TurnFrame::Seen { index, opening } => (
            TurnForm::Seen,
            [d, index, opening.client as u64, opening.own as u64, b, n],
        ),
    }
}
