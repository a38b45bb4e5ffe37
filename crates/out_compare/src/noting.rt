//! What one segment of the node's own guest changes beside its line.

ghost use Rattle.std.specs.Prelude.{◌≡◌, ◌++◌, is_some, if◌then◌else◌, unwrap_or, OnOk, IfOk};
ghost use Rattle.settle_rules.specs.OwnFrames.{is_ignored, note_took, restarts_of, progress_with};
ghost use Rattle.seq_rewriter.specs.Kept.{keep_number, number_of};
ghost use Rattle.tcp_track.specs.Tracking.{insert_incarnation};
ghost use Rattle.settle_table.specs.Table.{progress_at, set_progress};
ghost use Rattle.out_compare.specs.Noting.{opening_made, number_with, number_if_new, unknown_with, new_number, note_number, note_unknown, is_noted, note_progress};

use colo_base::NoMemory;
use indexmap::{IndexMap, IndexSet};
use inet_frame::Tuple;
use line_settle::Progress;
use seq_rewriter::Numbers;
use settle_table::add_progress;
use tcp_track::{Incarnation, Opening, Took, What};

fn is_ignored(what: What) -> bool
    ensures { result ≡ is_ignored what }
{
    match what {
        What::Ignored => true,
        What::Opened(_) => false,
        What::Restarted(_) => false,
        What::Symbols { from: _, to: _ } => false,
        What::Reset => false,
        What::Refused(_) => false,
    }
}

/// Notes what a segment of the event is, where it isn't ignored.
pub(crate) fn note_took(tooks: &mut Vec<Took>, took: Took) -> Result<(), NoMemory>
    ensures { OnOk result (tooks.new.items ≡ note_took tooks.old.items took) }
{
    if is_ignored(took.what) {
        return Ok(());
    }
    tooks.push(took)?;
    Ok(())
}

/// Notes a restart.
pub(crate) fn note_restart(restarts: &mut Vec<Tuple>, took: Took) -> Result<(), NoMemory>
    ensures { OnOk result (restarts.new.items
        ≡ restarts.old.items ++ restarts_of took.tuple took.what) }
{
    match took.what {
        What::Restarted(_) => {
            restarts.push(took.tuple)?;
            Ok(())
        }
        What::Ignored => Ok(()),
        What::Opened(_) => Ok(()),
        What::Symbols { from: _, to: _ } => Ok(()),
        What::Reset => Ok(()),
        What::Refused(_) => Ok(()),
    }
}

/// The opening that a segment makes.
fn opening_made(what: What) -> Option<Opening>
    ensures { result ≡ opening_made what }
{
    match what {
        What::Opened(opening) => Some(opening),
        What::Restarted(opening) => Some(opening),
        What::Ignored => None,
        What::Symbols { from: _, to: _ } => None,
        What::Reset => None,
        What::Refused(_) => None,
    }
}

/// Notes an incarnation.
fn insert(unknown: &mut IndexSet<Incarnation>, incarnation: Incarnation) -> Result<(), NoMemory>
    ensures { OnOk result (unknown.new.keys ≡ insert_incarnation unknown.old.keys incarnation) }
{
    let added = unknown.insert(incarnation)?;
    let _ = added;
    Ok(())
}

/// Keeps the number of an opening where none is kept for its client, and answers it then; the other
/// node isn't known to have it.
fn keep_number(
    numbers: &mut Numbers,
    unknown: &mut IndexSet<Incarnation>,
    tuple: Tuple,
    opening: Opening,
) -> Result<Option<u32>, NoMemory>
    ensures new { IfOk result (λ new. new
        ≡ number_if_new (number_of numbers.old tuple opening.client) opening) }
    ensures numbers { OnOk result (numbers.new
        ≡ keep_number numbers.old tuple opening.client opening.own) }
    ensures unknown { OnOk result (unknown.new.keys
        ≡ (if is_some (number_of numbers.old tuple opening.client) then unknown.old.keys
        else insert_incarnation unknown.old.keys
        (record { tuple = tuple; client = opening.client }))) }
{
    let mut new = None;
    if numbers.number(&tuple, opening.client).is_none() {
        let incarnation = Incarnation {
            tuple,
            client: opening.client,
        };
        insert(unknown, incarnation)?;
        new = Some(opening.own);
    }
    let kept = numbers.opened(&tuple, opening.client, opening.own)?;
    let _ = kept;
    Ok(new)
}

/// Keeps the number of an opening that a segment makes, and answers it where it is newly kept.
pub(crate) fn note_number(
    numbers: &mut Numbers,
    unknown: &mut IndexSet<Incarnation>,
    took: Took,
) -> Result<Option<u32>, NoMemory>
    ensures new { IfOk result (λ new. new ≡ new_number numbers.old took) }
    ensures numbers { OnOk result (numbers.new ≡ note_number numbers.old took) }
    ensures unknown { OnOk result (unknown.new.keys
        ≡ note_unknown numbers.old unknown.old.keys took) }
{
    match opening_made(took.what) {
        None => Ok(None),
        Some(opening) => keep_number(numbers, unknown, took.tuple, opening),
    }
}

/// What a segment changes of its connection's progress.
fn change(progress: &mut Progress, what: What)
    ensures { progress.new ≡ progress_with what progress.old }
{
    match what {
        What::Opened(_) => progress.open(),
        What::Restarted(_) => progress.open(),
        What::Reset => progress.note_reset(),
        What::Refused(_) => progress.note_refusal(),
        What::Ignored => {}
        What::Symbols { from: _, to: _ } => {}
    }
}

/// Says whether a segment changes the progress of its connection.
fn is_noted(what: What) -> bool
    ensures { result ≡ is_noted what }
{
    match what {
        What::Opened(_) => true,
        What::Restarted(_) => true,
        What::Reset => true,
        What::Refused(_) => true,
        What::Ignored => false,
        What::Symbols { from: _, to: _ } => false,
    }
}

/// Changes the progress of a connection by a segment.
#[tactic(auto, using(std::proofs::lemmas::Map::Steps::set_value_same))]
fn change_entry(
    table: &mut IndexMap<Tuple, Progress>,
    tuple: Tuple,
    what: What,
) -> Result<(), NoMemory>
    ensures { OnOk result (table.new.entries ≡ set_progress table.old.entries tuple
        (progress_with what (progress_at table.old.entries tuple))) }
{
    match table.get_mut(&tuple) {
        Some(progress) => {
            change(progress, what);
            Ok(())
        }
        None => {
            let mut progress = Progress::new();
            change(&mut progress, what);
            add_progress(table, tuple, progress)
        }
    }
}

/// Notes what a segment changes of its connection's progress.
pub(crate) fn note_progress(
    table: &mut IndexMap<Tuple, Progress>,
    took: Took,
) -> Result<(), NoMemory>
    ensures { OnOk result (table.new.entries ≡ note_progress table.old.entries took) }
{
    if is_noted(took.what) {
        change_entry(table, took.tuple, took.what)
    } else {
        Ok(())
    }
}
