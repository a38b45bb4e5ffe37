//! What the releasing node keeps of a connection beside its lines.

ghost use Rattle.std.specs.Prelude.{◌≡◌, ◌&&◌, false, true, length, is_some, if◌then◌else◌};
ghost use Rattle.line_release.specs.Both.{both_of};
ghost use Rattle.line_release.specs.Whole.{whole_of};
ghost use Rattle.settle_rules.specs.Survive.{survivor_progress};
ghost use Rattle.settle_rules.specs.Progress.{AckWindow, AgeKey, grow_age, no_progress};
ghost use Rattle.settle_rules.specs.Settle.{same_ack_window, same_age_key, age_after};
ghost use Rattle.line_settle.specs.ProgressFields.{ack_window_of, age_key_in};

use line_release::Both;
use std::marker::Model;
use tcp_track::{Line, Offset, Opening};

/// An age past which none is counted: one more than a connection may stay unmatched.
const LONGEST_AGE: u16 = 257;

/// The acknowledgement and the window that were last released.
#[derive(Clone, Copy)]
pub struct LastAck {
    pub ack: u32,
    pub window: u16,
}

/// What has to stay the same for a connection to grow older.
#[derive(Clone, Copy)]
pub struct AgeBasis {
    pub client: u32,
    pub matched: Offset,
    pub acked: Offset,
}

/// How far a connection was released, what was last released and is due, which SYN its client was
/// shown, and for how many turns of the primary it is unmatched.
#[derive(Drop)]
pub struct Progress {
    pub(crate) edge: Offset,
    pub(crate) last: Option<LastAck>,
    pub(crate) reset_due: bool,
    pub(crate) refusal_due: bool,
    pub(crate) shown: Option<Opening>,
    pub(crate) age: u16,
    pub(crate) basis: AgeBasis,
}

impl Model for Progress {
    ghost use Rattle.settle_rules.specs.Progress.{Progress};

    ghost Value = { Progress };

    ghost use Rattle.line_settle.specs.ProgressFields.{progress_fields};

    ghost view = { progress_fields };
}

impl Progress {
    ghost use Rattle.settle_rules.specs.Progress.{no_progress};

    /// Nothing was released and nothing is due.
    pub fn new() -> Progress
        ensures { result ≡ no_progress }
    {
        Progress {
            edge: 0,
            last: None,
            reset_due: false,
            refusal_due: false,
            shown: None,
            age: 0,
            basis: AgeBasis {
                client: 0,
                matched: 0,
                acked: 0,
            },
        }
    }

    /// The progress of a connection with this opening that a survivor released up to its end.
    pub fn at_end(both: &Both, opening: Opening) -> Progress
        requires { is_some both.now.mine.now.opening ≡ true }
        ensures { result ≡ survivor_progress (both_of both.now) opening }
    {
        Progress {
            edge: end_of(both.mine),
            last: Some(LastAck {
                ack: both.agreed_ack(),
                window: both.agreed_window(),
            }),
            reset_due: false,
            refusal_due: false,
            shown: Some(Opening {
                client: opening.client,
                own: both.number,
            }),
            age: 0,
            basis: AgeBasis {
                client: 0,
                matched: 0,
                acked: 0,
            },
        }
    }

    /// How many symbols were released.
    pub fn edge(&self) -> Offset
        ensures { result ≡ self.now.edge }
    {
        self.edge
    }

    /// The SYN last released.
    pub fn shown(&self) -> Option<Opening>
        ensures { result ≡ self.now.shown }
    {
        self.shown
    }

    /// For how many turns the connection is unmatched.
    pub fn age(&self) -> u16
        ensures { result ≡ self.now.age }
    {
        self.age
    }

    /// A new opening sets the edge to 0 and ends a due reset.
    pub fn open(&mut self)
        ensures { self.new ≡ record self.old { edge = 0; reset_due = false } }
    {
        self.edge = 0;
        self.reset_due = false;
    }

    /// A reset becomes due.
    pub fn note_reset(&mut self)
        ensures { self.new ≡ record self.old { reset_due = true } }
    {
        self.reset_due = true;
    }

    /// A refusal becomes due.
    pub fn note_refusal(&mut self)
        ensures { self.new ≡ record self.old { refusal_due = true } }
    {
        self.refusal_due = true;
    }

    /// Ages are counted anew.
    pub fn clear_age(&mut self)
        ensures { self.new ≡ record self.old { age = 0 } }
    {
        self.age = 0;
    }
}

fn end_of(line: &Line) -> Offset
    requires { is_some line.now.opening ≡ true }
    ensures { result ≡ length (whole_of line.now).symbols }
{
    line.end()
}

/// Says whether these were released last.
pub(crate) fn same_ack_window(last: Option<LastAck>, now: LastAck) -> bool
    ensures { result ≡ same_ack_window (ack_window_of last)
        (record { ack = now.ack; window = now.window }) }
{
    match last {
        None => false,
        Some(last) => last.ack == now.ack && last.window == now.window,
    }
}

/// The age after one turn more.
fn grow_age(age: u16) -> u16
    ensures { result ≡ grow_age age }
{
    if age >= LONGEST_AGE {
        LONGEST_AGE
    } else {
        age + 1
    }
}

fn same_basis(old: AgeBasis, new: AgeBasis) -> bool
    ensures { result ≡ same_age_key (age_key_in old) (age_key_in new) }
{
    old.client == new.client && (old.matched == new.matched && old.acked == new.acked)
}

/// The age at the end of a turn.
pub(crate) fn age_after(age: u16, old: AgeBasis, new: AgeBasis, unmatched: bool) -> u16
    ensures { result ≡ (if unmatched
        then (if same_age_key (age_key_in old) (age_key_in new) then grow_age age else 1) else 0) }
{
    if !unmatched {
        return 0;
    }
    if same_basis(old, new) {
        grow_age(age)
    } else {
        1
    }
}
