//! The lines of a text, as what it is a list of.

ghost use Rattle.std.specs.Prelude.{◌≡◌, ◌<◌, ◌∷◌, ◌++◌, [], true, false, IfOk, OnOk, length};
ghost use Rattle.std.specs.List.{filter_map, list_all};
ghost use Rattle.replay_log.specs.Gathering.{line_in, turn_in, is_of_log, begins_with_mark};
ghost use Rattle.replay_log.specs.Texts.{log_items};
ghost use Rattle.replay_log.specs.declared.items.Item.TheVariants as variant;

use crate::items::Item;
use crate::lines::Line;
use crate::records::{Mark, Marks, Record};
use crate::turns::Turn;
use colo_base::NoMemory;
use std::alloc::{AllocError, Global};

/// The lines of a schedule.
pub fn lines_in(alloc: Global, items: &[Item]) -> Result<Vec<Line>, AllocError>
    ensures { IfOk result (λ lines. lines.items ≡ filter_map line_in items.now) }
{
    items
        .iter()
        .filter_map(|item| match item {
            Item::Line(line) => Some(*line),
            _ => None,
        })
        .collect(alloc)
}

/// The turns of a single run.
pub fn turns_in(alloc: Global, items: &[Item]) -> Result<Vec<Turn>, AllocError>
    ensures { IfOk result (λ turns. turns.items ≡ filter_map turn_in items.now) }
{
    items
        .iter()
        .filter_map(|item| match item {
            Item::Turn(turn) => Some(*turn),
            _ => None,
        })
        .collect(alloc)
}

/// Adds a mark to the last event.
fn add_mark(records: &mut Vec<Record>, mark: Mark) -> Result<(), NoMemory>
    ensures { OnOk result (0 < length records.old.items →
        log_items records.new.items ≡ log_items records.old.items ++ variant.Mark mark ∷ []) }
{
    if let Some(last) = records.last_mut() {
        last.marks.push(mark)?;
    }
    Ok(())
}

/// The events of a log, each with the marks that follow it.
pub fn records_in(alloc: Global, items: &[Item]) -> Result<Vec<Record>, NoMemory>
    requires kinds { list_all is_of_log items.now ≡ true }
    requires first { begins_with_mark items.now ≡ false }
    ensures { IfOk result (λ records. log_items records.items ≡ items.now) }
{
    let mut records = Vec::new(alloc);
    for item in items {
        match item {
            Item::Event(line, answer) => records.push(Record {
                line: *line,
                answer: *answer,
                marks: Marks::new(alloc),
            })?,
            Item::Mark(mark) => add_mark(&mut records, *mark)?,
            Item::Line(_) => {}
            Item::Turn(_) => {}
        }
    }
    Ok(records)
}
