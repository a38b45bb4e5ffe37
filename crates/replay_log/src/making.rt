//! What a form says with its numbers.

ghost use Rattle.std.specs.Prelude.{◌≡◌, ◌<◌, ◌^◌, true, slice_index};
ghost use Rattle.replay_log.specs.Forms.{line_places, answer_places, mark_places, turn_places};
ghost use Rattle.replay_log.specs.Places.{are_in_range};
ghost use Rattle.replay_log.specs.Making.{line_from, answer_from, mark_from, turn_from};

use crate::forms::{AnswerForm, LineForm, MarkForm, TurnForm};
use crate::lines::Line;
use crate::records::{Answer, Mark};
use crate::turns::{Turn, TurnFrame};
use colo_base::Cause;
use tcp_track::Opening;

/// The number at the place; 0 where there is none.
fn number_at(numbers: &[u64], k: usize) -> u64
    ensures { result ≡ slice_index numbers.now k }
{
    numbers.get(k).copied().unwrap_or(0)
}

/// The number at the place, of 32 bits.
fn word_at(numbers: &[u64], k: usize) -> u32
    requires { slice_index numbers.now k < 2 ^ 32 }
    ensures { result ≡ slice_index numbers.now k }
{
    number_at(numbers, k) as u32
}

/// The number at the place, of 8 bits.
fn byte_at(numbers: &[u64], k: usize) -> u8
    requires { slice_index numbers.now k < 2 ^ 8 }
    ensures { result ≡ slice_index numbers.now k }
{
    number_at(numbers, k) as u8
}

/// The line of this form.
pub fn line_from(form: LineForm, numbers: &[u64]) -> Line
    requires { are_in_range (line_places form) 0 numbers.now ≡ true }
    ensures { result ≡ line_from form numbers.now }
{
    match form {
        LineForm::Primary => Line::Primary {
            d: word_at(numbers, 0),
            i: number_at(numbers, 1) == 1,
            b: word_at(numbers, 2),
            n: word_at(numbers, 3),
        },
        LineForm::Secondary => Line::Secondary {
            d: word_at(numbers, 0),
            i: number_at(numbers, 1) == 1,
            b: word_at(numbers, 2),
            n: word_at(numbers, 3),
        },
        LineForm::Client => Line::Client,
        LineForm::ToSecondary => Line::ToSecondary,
        LineForm::ToPrimary => Line::ToPrimary,
        LineForm::StopPrimary => Line::StopPrimary,
        LineForm::StopSecondary => Line::StopSecondary,
        LineForm::Report => Line::Report,
        LineForm::Ask => Line::Ask,
    }
}

/// The answer of this form.
pub fn answer_from(form: AnswerForm, numbers: &[u64]) -> Answer
    requires { are_in_range (answer_places form) 0 numbers.now ≡ true }
    ensures { result ≡ answer_from form numbers.now }
{
    match form {
        AnswerForm::Nothing => Answer::Nothing,
        AnswerForm::MadeWithout => Answer::Made {
            frame: None,
            released: number_at(numbers, 0),
        },
        AnswerForm::MadeWith => Answer::Made {
            frame: Some(number_at(numbers, 0)),
            released: number_at(numbers, 1),
        },
        AnswerForm::AcceptedUnseen => Answer::Accepted {
            index: number_at(numbers, 0),
            seen: None,
            trim: word_at(numbers, 1),
            released: number_at(numbers, 2),
        },
        AnswerForm::AcceptedSeen => Answer::Accepted {
            index: number_at(numbers, 0),
            seen: Some(Opening {
                client: word_at(numbers, 1),
                own: word_at(numbers, 2),
            }),
            trim: word_at(numbers, 3),
            released: number_at(numbers, 4),
        },
        AnswerForm::Arp => Answer::Arp {
            index: number_at(numbers, 0),
        },
        AnswerForm::Dropped => Answer::Dropped {
            index: number_at(numbers, 0),
            why: byte_at(numbers, 1),
        },
        AnswerForm::Full => Answer::Full {
            index: number_at(numbers, 0),
        },
        AnswerForm::Lost => Answer::Lost {
            index: number_at(numbers, 0),
        },
        AnswerForm::Heard => Answer::Heard {
            kind: byte_at(numbers, 0),
            full: false,
        },
        AnswerForm::HeardFull => Answer::Heard {
            kind: byte_at(numbers, 0),
            full: true,
        },
        AnswerForm::HeardBack => Answer::HeardBack {
            kind: byte_at(numbers, 0),
            sent: number_at(numbers, 1),
            released: number_at(numbers, 2),
        },
        AnswerForm::Zero => Answer::Zero,
        AnswerForm::Reported => Answer::Reported {
            released: number_at(numbers, 0),
        },
    }
}

/// The mark of this form.
pub fn mark_from(form: MarkForm, numbers: &[u64]) -> Mark
    requires { are_in_range (mark_places form) 0 numbers.now ≡ true }
    ensures { result ≡ mark_from form numbers.now }
{
    let e = word_at(numbers, 0);
    match form {
        MarkForm::Differ => Mark::Captured {
            e,
            why: Cause::Differ,
        },
        MarkForm::Restart => Mark::Captured {
            e,
            why: Cause::Restart,
        },
        MarkForm::Wait => Mark::Captured {
            e,
            why: Cause::Wait,
        },
        MarkForm::Asked => Mark::Captured {
            e,
            why: Cause::Asked,
        },
        MarkForm::Committed => Mark::Committed { e },
        MarkForm::Acknowledged => Mark::Acknowledged { e },
    }
}

/// The turn of this form.
pub fn turn_from(form: TurnForm, numbers: &[u64]) -> Turn
    requires { are_in_range (turn_places form) 0 numbers.now ≡ true }
    ensures { result ≡ turn_from form numbers.now }
{
    match form {
        TurnForm::Absent => Turn {
            d: word_at(numbers, 0),
            frame: TurnFrame::Absent,
            b: word_at(numbers, 1),
            n: word_at(numbers, 2),
        },
        TurnForm::Plain => Turn {
            d: word_at(numbers, 0),
            frame: TurnFrame::Plain {
                index: number_at(numbers, 1),
            },
            b: word_at(numbers, 2),
            n: word_at(numbers, 3),
        },
        TurnForm::Seen => Turn {
            d: word_at(numbers, 0),
            frame: TurnFrame::Seen {
                index: number_at(numbers, 1),
                opening: Opening {
                    client: word_at(numbers, 2),
                    own: word_at(numbers, 3),
                },
            },
            b: word_at(numbers, 4),
            n: word_at(numbers, 5),
        },
    }
}
