//! The forms that a line may have: the table of each text.

ghost use Rattle.std.specs.Prelude.{◌≡◌};
ghost use Rattle.replay_log.specs.Forms.{line_places, answer_places, mark_places, turn_places, front_places, back_places};

use crate::keywords::Keyword;
use crate::places::Place;

/// The forms of a schedule's line.
#[derive(Clone, Copy)]
pub enum LineForm {
    Primary,
    Secondary,
    Client,
    ToSecondary,
    ToPrimary,
    StopPrimary,
    StopSecondary,
    Report,
    Ask,
}

/// The forms of an event's answer.
#[derive(Clone, Copy)]
pub enum AnswerForm {
    Nothing,
    MadeWithout,
    MadeWith,
    AcceptedUnseen,
    AcceptedSeen,
    Arp,
    Dropped,
    Full,
    Lost,
    Heard,
    HeardFull,
    HeardBack,
    Zero,
    Reported,
}

/// The forms of a mark.
#[derive(Clone, Copy)]
pub enum MarkForm {
    Differ,
    Restart,
    Wait,
    Asked,
    Committed,
    Acknowledged,
}

/// The forms of a single run's turn.
#[derive(Clone, Copy)]
pub enum TurnForm {
    Absent,
    Plain,
    Seen,
}

/// The form of a line of any of the texts.
#[derive(Clone, Copy)]
pub enum Form {
    Line(LineForm),
    Event(LineForm, AnswerForm),
    Mark(MarkForm),
    Turn(TurnForm),
}

const WORD32: Place = Place::Number {
    low: 0,
    high: 0xFFFF_FFFF,
};

const WORD64: Place = Place::Number {
    low: 0,
    high: 0xFFFF_FFFF_FFFF_FFFF,
};

const FLAG: Place = Place::Number { low: 0, high: 1 };

const REQUESTS: Place = Place::Number { low: 0, high: 256 };

const STEPS: Place = Place::Number {
    low: 0,
    high: 100_000,
};

const ZERO: Place = Place::Number { low: 0, high: 0 };

const ONE: Place = Place::Number { low: 1, high: 1 };

const KIND: Place = Place::Number { low: 1, high: 14 };

/// The places of a schedule's line.
pub fn line_places(form: LineForm) -> &'static [Place]
    ensures { result.now ≡ line_places form }
{
    match form {
        LineForm::Primary => &[Place::Word(Keyword::Primary), WORD32, FLAG, REQUESTS, STEPS],
        LineForm::Secondary => &[
            Place::Word(Keyword::Secondary),
            WORD32,
            FLAG,
            REQUESTS,
            STEPS,
        ],
        LineForm::Client => &[Place::Word(Keyword::Client)],
        LineForm::ToSecondary => &[Place::Word(Keyword::ToSecondary)],
        LineForm::ToPrimary => &[Place::Word(Keyword::ToPrimary)],
        LineForm::StopPrimary => &[Place::Word(Keyword::Stop), Place::Word(Keyword::OfPrimary)],
        LineForm::StopSecondary => &[
            Place::Word(Keyword::Stop),
            Place::Word(Keyword::OfSecondary),
        ],
        LineForm::Report => &[Place::Word(Keyword::Report)],
        LineForm::Ask => &[Place::Word(Keyword::Ask)],
    }
}

/// The places of an answer, with the colon before it.
pub fn answer_places(form: AnswerForm) -> &'static [Place]
    ensures { result.now ≡ answer_places form }
{
    match form {
        AnswerForm::Nothing => &[Place::Word(Keyword::Answered), Place::Word(Keyword::Absent)],
        AnswerForm::MadeWithout => &[
            Place::Word(Keyword::Answered),
            Place::Word(Keyword::Absent),
            WORD64,
        ],
        AnswerForm::MadeWith => &[Place::Word(Keyword::Answered), WORD64, WORD64],
        AnswerForm::AcceptedUnseen => &[
            Place::Word(Keyword::Answered),
            WORD64,
            Place::Word(Keyword::Absent),
            WORD32,
            WORD64,
        ],
        AnswerForm::AcceptedSeen => &[
            Place::Word(Keyword::Answered),
            WORD64,
            Place::Opening,
            WORD32,
            WORD64,
        ],
        AnswerForm::Arp => &[
            Place::Word(Keyword::Answered),
            WORD64,
            Place::Word(Keyword::Arp),
            ONE,
        ],
        AnswerForm::Dropped => &[
            Place::Word(Keyword::Answered),
            WORD64,
            Place::Word(Keyword::Drop),
            KIND,
        ],
        AnswerForm::Full => &[
            Place::Word(Keyword::Answered),
            WORD64,
            Place::Word(Keyword::Full),
        ],
        AnswerForm::Lost => &[
            Place::Word(Keyword::Answered),
            WORD64,
            Place::Word(Keyword::Lost),
        ],
        AnswerForm::Heard => &[Place::Word(Keyword::Answered), KIND],
        AnswerForm::HeardFull => &[
            Place::Word(Keyword::Answered),
            ONE,
            Place::Word(Keyword::Full),
        ],
        AnswerForm::HeardBack => &[Place::Word(Keyword::Answered), KIND, WORD64, WORD64],
        AnswerForm::Zero => &[Place::Word(Keyword::Answered), ZERO],
        AnswerForm::Reported => &[Place::Word(Keyword::Answered), WORD64],
    }
}

/// The places of a mark.
pub fn mark_places(form: MarkForm) -> &'static [Place]
    ensures { result.now ≡ mark_places form }
{
    match form {
        MarkForm::Differ => &[
            Place::Word(Keyword::Mark),
            Place::Word(Keyword::Captured),
            WORD32,
            Place::Word(Keyword::Differ),
        ],
        MarkForm::Restart => &[
            Place::Word(Keyword::Mark),
            Place::Word(Keyword::Captured),
            WORD32,
            Place::Word(Keyword::Restart),
        ],
        MarkForm::Wait => &[
            Place::Word(Keyword::Mark),
            Place::Word(Keyword::Captured),
            WORD32,
            Place::Word(Keyword::Wait),
        ],
        MarkForm::Asked => &[
            Place::Word(Keyword::Mark),
            Place::Word(Keyword::Captured),
            WORD32,
            Place::Word(Keyword::Asked),
        ],
        MarkForm::Committed => &[
            Place::Word(Keyword::Mark),
            Place::Word(Keyword::Committed),
            WORD32,
        ],
        MarkForm::Acknowledged => &[
            Place::Word(Keyword::Mark),
            Place::Word(Keyword::Acknowledged),
            WORD32,
        ],
    }
}

/// The places of a turn.
pub fn turn_places(form: TurnForm) -> &'static [Place]
    ensures { result.now ≡ turn_places form }
{
    match form {
        TurnForm::Absent => &[
            Place::Word(Keyword::Turn),
            WORD32,
            Place::Word(Keyword::Absent),
            REQUESTS,
            STEPS,
        ],
        TurnForm::Plain => &[Place::Word(Keyword::Turn), WORD32, WORD64, REQUESTS, STEPS],
        TurnForm::Seen => &[
            Place::Word(Keyword::Turn),
            WORD32,
            Place::SeenFrame,
            REQUESTS,
            STEPS,
        ],
    }
}

/// The places of a line, without those of an event's answer.
pub fn front_places(form: Form) -> &'static [Place]
    ensures { result.now ≡ front_places form }
{
    match form {
        Form::Line(line) | Form::Event(line, _) => line_places(line),
        Form::Mark(mark) => mark_places(mark),
        Form::Turn(turn) => turn_places(turn),
    }
}

/// The places of an event's answer; none for other lines.
pub fn back_places(form: Form) -> &'static [Place]
    ensures { result.now ≡ back_places form }
{
    match form {
        Form::Event(_, answer) => answer_places(answer),
        Form::Line(_) | Form::Mark(_) | Form::Turn(_) => &[],
    }
}
