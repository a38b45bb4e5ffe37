//! What is stored of a connection.

ghost use Rattle.std.specs.Prelude.{◌≡◌, ◌&&◌, ◌==◌, ◌++◌, ◌∷◌, [], None, if◌then◌else◌, OnOk};
ghost use Rattle.std.specs.Map.{lookup};
ghost use Rattle.tcp_track.specs.Segments.{same_tuple};
ghost use Rattle.settle_touched.specs.Places.{nothing_stored};

use colo_base::NoMemory;
use indexmap::IndexMap;
use inet_frame::Tuple;
use line_settle::Progress;

/// A connection's progress; the turn since which it waits, where its age is above 0; its place in
/// the table of the node's own lines.
#[derive(Drop)]
pub struct Stored {
    pub progress: Progress,
    pub since: u64,
    pub place: usize,
}

impl Stored {
    /// Nothing was released of the connection at a place, and nothing is due.
    pub fn new(place: usize) -> Stored
        ensures { result ≡ nothing_stored place }
    {
        Stored {
            progress: Progress::new(),
            since: 0,
            place,
        }
    }

    /// Notes the turn from which on a connection waits, where its age begins anew in it.
    pub(crate) fn note_age(&mut self, is_turn: bool, turns: u64)
        ensures { self.new ≡ record self.old {
          since =
              if is_turn && self.old.progress.age == 1 then turns else self.old.since;
        } }
    {
        if is_turn && self.progress.age() == 1 {
            self.since = turns;
        }
    }
}

/// Adds what is stored of a connection of which nothing is, last.
pub(crate) fn add_stored(
    table: &mut IndexMap<Tuple, Stored>,
    tuple: Tuple,
    stored: Stored,
) -> Result<(), NoMemory>
    requires { lookup (same_tuple tuple) table.old.entries ≡ None }
    ensures { OnOk result (table.new.entries ≡ table.old.entries ++ (tuple, stored) ∷ []) }
{
    table.insert(tuple, stored)?;
    Ok(())
}
