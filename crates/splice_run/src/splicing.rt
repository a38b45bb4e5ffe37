//! The single run of a log.

ghost use Rattle.std.specs.Prelude.{◌≡◌, IfOk};
ghost use Rattle.std.specs.List.{list_any};
ghost use Rattle.splice_run.specs.Single.{single_run};
ghost use Rattle.splice_run.specs.Log.{has_primary_stop};

use crate::parts::{Part, counted_turn, part_before_all, stops_primary};
use crate::seen::seen_in;
use colo_base::NoMemory;
use replay_log::{Record, Turn};
use std::alloc::Global;

/// Whether the primary stops.
fn has_primary_stop(log: &[Record]) -> bool
    ensures { result ≡ has_primary_stop log.now }
{
    log.iter().any(|record| stops_primary(record.line))
}

/// The turns of the one run that the log names. Where the primary doesn't stop these are its turns
/// that were made. Where it does, they are its turns before the last capture of the checkpoint that
/// was committed last, and then the secondary's turns after that commit; all of the secondary's
/// where none was committed. A turn's frame has the opening that the first client event of its
/// index tells.
pub fn splice(alloc: Global, log: &[Record]) -> Result<Vec<Turn>, NoMemory>
    ensures { IfOk result (λ turns. turns.items ≡ single_run log.now) }
{
    let seen = seen_in(alloc, log)?;
    let mut part = if has_primary_stop(log) {
        Part::AfterCommit
    } else {
        Part::BeforeCapture
    };
    let mut turns = Vec::new(alloc);
    let mut end = log.len();
    while end > 0 {
        end -= 1;
        let record = &log[end];
        part = part_before_all(part, record.marks.as_slice());
        if let Some(turn) = counted_turn(part, &seen, record) {
            turns.push(turn)?;
        }
    }
    turns.reverse();
    Ok(turns)
}
