//! The parts of a log that is read from its end.

ghost use Rattle.std.specs.Prelude.{◌≡◌, map};
ghost use Rattle.std.specs.Option.{option_to_list};
ghost use Rattle.std.specs.BTreeMap.{get};
ghost use Rattle.std.specs.Ordering.{nat_cmp};
ghost use Rattle.splice_run.specs.Backwards.{part_before, part_before_all, takes_primary, takes_secondary, all_counted};
ghost use Rattle.splice_run.specs.Frames.{turn_with};
ghost use Rattle.splice_run.specs.Log.{stops_primary};
ghost use Rattle.splice_run.specs.Tokens.{made_frame, turn_tokens};

use crate::seen::{Seen, taken_frame};
use replay_log::{Answer, Line, Mark, Record, Turn};

/// Which turns of a log count, where it is read from its end.
#[derive(Clone, Copy)]
pub enum Part {
    /// After the last commit: the secondary's.
    AfterCommit,
    /// Between the capture of this checkpoint and its commit: none.
    Between(u32),
    /// Before the capture: the primary's.
    BeforeCapture,
}

/// The part before a mark.
fn part_before(part: Part, mark: Mark) -> Part
    ensures { result ≡ part_before part mark }
{
    match (part, mark) {
        (Part::AfterCommit, Mark::Committed { e }) => Part::Between(e),
        (Part::Between(awaited), Mark::Captured { e, .. }) if e == awaited => Part::BeforeCapture,
        (part, _) => part,
    }
}

/// The part before an event's marks.
pub fn part_before_all(part: Part, marks: &[Mark]) -> Part
    ensures { result ≡ part_before_all part marks.now }
{
    let [mark, marks @ ..] = marks else {
        return part;
    };
    part_before(part_before_all(part, marks), *mark)
}

fn takes_primary(part: Part) -> bool
    ensures { result ≡ takes_primary part }
{
    match part {
        Part::AfterCommit | Part::Between(_) => false,
        Part::BeforeCapture => true,
    }
}

fn takes_secondary(part: Part) -> bool
    ensures { result ≡ takes_secondary part }
{
    match part {
        Part::AfterCommit => true,
        Part::Between(_) | Part::BeforeCapture => false,
    }
}

/// The index of the frame taken, of a turn that was made.
fn made_frame(answer: Answer) -> Option<Option<u64>>
    ensures { result ≡ made_frame answer }
{
    match answer {
        Answer::Made { frame, .. } => Some(frame),
        _ => None,
    }
}

/// The turn of an event of this part, where it was made and counts.
pub fn counted_turn(part: Part, seen: &Seen, record: &Record) -> Option<Turn>
    ensures { option_to_list result ≡ map (turn_with (get nat_cmp seen.now))
        (all_counted part (turn_tokens record.now.line (made_frame record.now.answer))) }
{
    let taken = made_frame(record.answer)?;
    match record.line {
        Line::Primary { d, b, n, .. } if takes_primary(part) => Some(Turn {
            d,
            frame: taken_frame(seen, taken),
            b,
            n,
        }),
        Line::Secondary { d, b, n, .. } if takes_secondary(part) => Some(Turn {
            d,
            frame: taken_frame(seen, taken),
            b,
            n,
        }),
        _ => None,
    }
}

/// Whether the line stops the primary.
pub fn stops_primary(line: Line) -> bool
    ensures { result ≡ stops_primary line }
{
    match line {
        Line::StopPrimary => true,
        _ => false,
    }
}
