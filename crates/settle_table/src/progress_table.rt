//! The table of progress.

ghost use Rattle.std.specs.Prelude.{◌≡◌, ◌++◌, ◌∷◌, [], None, Some, map, unwrap_or, OnOk, OnErr};
ghost use Rattle.std.specs.Option.{option_copied};
ghost use Rattle.std.specs.Map.{lookup};
ghost use Rattle.tcp_track.specs.Segments.{same_tuple};
ghost use Rattle.settle_rules.specs.Progress.{clear_ages, no_progress};
ghost use Rattle.settle_table.specs.Table.{progress_at, set_progress};

use colo_base::NoMemory;
use indexmap::IndexMap;
use inet_frame::Tuple;
use line_settle::Progress;
use tcp_track::Offset;

/// Sets the progress of a connection, last where it has none.
pub fn set_progress(
    table: &mut IndexMap<Tuple, Progress>,
    tuple: Tuple,
    progress: Progress,
) -> Result<(), NoMemory>
    ensures { OnOk result (table.new.entries ≡ set_progress table.old.entries tuple progress) }
{
    match table.get_mut(&tuple) {
        Some(entry) => {
            *entry = progress;
            Ok(())
        }
        None => add_progress(table, tuple, progress),
    }
}

/// Adds the progress of a connection that has none, last.
pub fn add_progress(
    table: &mut IndexMap<Tuple, Progress>,
    tuple: Tuple,
    progress: Progress,
) -> Result<(), NoMemory>
    requires { lookup (same_tuple tuple) table.old.entries ≡ None }
    ensures ok { OnOk result (table.new.entries ≡ table.old.entries ++ (tuple, progress) ∷ []) }
    ensures err { OnErr result (table.new.entries ≡ table.old.entries) }
{
    table.insert(tuple, progress)?;
    Ok(())
}

/// Counts all ages anew. It takes no memory.
pub fn clear_ages(table: &mut IndexMap<Tuple, Progress>)
    ensures { table.new.entries ≡ clear_ages table.old.entries }
{
    for k in 0..table.len() {
        let progress = &mut table[k];
        progress.clear_age();
    }
}

/// How many symbols of a connection were released.
pub(crate) fn edge_at(table: &IndexMap<Tuple, Progress>, tuple: &Tuple) -> Offset
    ensures { result ≡ (progress_at table.now.entries tuple.now).edge }
{
    match table.get(tuple) {
        None => 0,
        Some(progress) => progress.edge(),
    }
}

/// For how many turns a connection is unmatched.
pub(crate) fn age_at(table: &IndexMap<Tuple, Progress>, tuple: &Tuple) -> u16
    ensures { result ≡ (progress_at table.now.entries tuple.now).age }
{
    match table.get(tuple) {
        None => 0,
        Some(progress) => progress.age(),
    }
}
