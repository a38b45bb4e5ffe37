//! The tables of the three texts.

ghost use Rattle.std.specs.Prelude.{◌≡◌};
ghost use Rattle.replay_log.specs.Forms.{schedule_forms, log_forms, single_forms};

use crate::forms::{AnswerForm, Form, LineForm, MarkForm, TurnForm};

/// The forms of a schedule's lines.
pub fn schedule_forms() -> &'static [Form]
    ensures { result.now ≡ schedule_forms }
{
    &[
        Form::Line(LineForm::Primary),
        Form::Line(LineForm::Secondary),
        Form::Line(LineForm::Client),
        Form::Line(LineForm::ToSecondary),
        Form::Line(LineForm::ToPrimary),
        Form::Line(LineForm::StopPrimary),
        Form::Line(LineForm::StopSecondary),
        Form::Line(LineForm::Report),
        Form::Line(LineForm::Ask),
    ]
}

/// The forms of a log's lines.
pub fn log_forms() -> &'static [Form]
    ensures { result.now ≡ log_forms }
{
    &[
        Form::Event(LineForm::Primary, AnswerForm::Nothing),
        Form::Event(LineForm::Primary, AnswerForm::MadeWithout),
        Form::Event(LineForm::Primary, AnswerForm::MadeWith),
        Form::Event(LineForm::Secondary, AnswerForm::Nothing),
        Form::Event(LineForm::Secondary, AnswerForm::MadeWithout),
        Form::Event(LineForm::Secondary, AnswerForm::MadeWith),
        Form::Event(LineForm::Client, AnswerForm::Nothing),
        Form::Event(LineForm::Client, AnswerForm::AcceptedUnseen),
        Form::Event(LineForm::Client, AnswerForm::AcceptedSeen),
        Form::Event(LineForm::Client, AnswerForm::Arp),
        Form::Event(LineForm::Client, AnswerForm::Dropped),
        Form::Event(LineForm::Client, AnswerForm::Full),
        Form::Event(LineForm::Client, AnswerForm::Lost),
        Form::Event(LineForm::ToSecondary, AnswerForm::Nothing),
        Form::Event(LineForm::ToSecondary, AnswerForm::Heard),
        Form::Event(LineForm::ToSecondary, AnswerForm::HeardFull),
        Form::Event(LineForm::ToPrimary, AnswerForm::Nothing),
        Form::Event(LineForm::ToPrimary, AnswerForm::HeardBack),
        Form::Event(LineForm::StopPrimary, AnswerForm::Zero),
        Form::Event(LineForm::StopSecondary, AnswerForm::Zero),
        Form::Event(LineForm::Report, AnswerForm::Reported),
        Form::Event(LineForm::Ask, AnswerForm::Nothing),
        Form::Event(LineForm::Ask, AnswerForm::Zero),
        Form::Mark(MarkForm::Differ),
        Form::Mark(MarkForm::Restart),
        Form::Mark(MarkForm::Wait),
        Form::Mark(MarkForm::Asked),
        Form::Mark(MarkForm::Committed),
        Form::Mark(MarkForm::Acknowledged),
    ]
}

/// The forms of a single run's lines.
pub fn single_forms() -> &'static [Form]
    ensures { result.now ≡ single_forms }
{
    &[
        Form::Turn(TurnForm::Absent),
        Form::Turn(TurnForm::Plain),
        Form::Turn(TurnForm::Seen),
    ]
}
