//! What is kept of all connections, and its settling by what an event touched.

ghost use Rattle.std.specs.Prelude.{◌≡◌, ℕ, ◌+◌, ◌<◌, ◌^◌, ◌++◌, true, map, slice_get, Some, OnOk, OnErr};
ghost use Rattle.inet_frame.specs.declared.tuple.Tuple.{Tuple};
ghost use Rattle.tcp_track.specs.declared.table.Entry.{Entry};
ghost use Rattle.shared_definitions.specs.Begins.{Begins};
ghost use Rattle.settle_rules.specs.Release.{released_frame};
ghost use Rattle.settle_table.specs.Kept.{is_restarted, settle_kept};
ghost use Rattle.settle_table.specs.Scenes.{kept_scene};
ghost use Rattle.settle_touched.specs.Ages.{table_now, turns_after};
ghost use Rattle.settle_touched.specs.Places.{is_among};
ghost use Rattle.settle_touched.specs.Keep.{AreNotOfEvent, IsKept};
ghost use Rattle.settle_touched.specs.TouchedPlaces.{is_touched};

use crate::lines::is_restarted;
use crate::settling::Settling;
use crate::stored::Stored;
use crate::touched::{Stale, Touched};
use colo_base::{Frames, NoMemory};
use indexmap::IndexMap;
use inet_frame::Tuple;
use settle_table::Scene;
use std::alloc::Global;

/// What is kept of all connections beside their lines: what is stored of each, how many turns there
/// were, which places the next event settles, and which the next turn settles too.
#[derive(Drop)]
pub struct Keeping {
    pub table: IndexMap<Tuple, Stored>,
    pub turns: u64,
    pub touched: Touched,
    pub stale: Stale,
}

/// Whether the connection at a place was restarted in the event.
fn is_restarted_at(scene: &Scene, place: usize) -> bool
    ensures { (x : Tuple × Entry) → slice_get scene.now.mine.now.entries place ≡ Some x →
        result ≡ is_restarted (kept_scene scene.now) x.0 }
{
    match scene.mine.tuple(place) {
        None => false,
        Some(tuple) => is_restarted(scene, &tuple),
    }
}

/// Those of some places whose connections were restarted in the event are to be settled.
fn touch_restarted(touched: &mut Touched, scene: &Scene, places: &[usize])
    ensures { (k : ℕ) (x : Tuple × Entry) → slice_get scene.now.mine.now.entries k ≡ Some x →
        is_among k places.now ≡ true → is_restarted (kept_scene scene.now) x.0 ≡ true →
        is_touched touched.new k ≡ true }
{
    for place in places {
        if is_restarted_at(scene, *place) {
            touched.touch(*place);
        }
    }
}

fn turns_after(is_turn: bool, turns: u64) -> u64
    requires { turns + 1 < 2 ^ 64 }
    ensures { result ≡ turns_after is_turn turns }
{
    if is_turn { turns + 1 } else { turns }
}

/// Settles the places that the event touched, and in a turn those settled since the last one: that
/// is settling of the whole table, since no other place needs it. After `NoMemory` the list begins
/// with what it held.
pub fn settle_touched(
    alloc: Global,
    scene: &Scene,
    kept: &mut Keeping,
    out: &mut Frames,
) -> Result<(), NoMemory>
    requires kept { IsKept (kept_scene scene.now) kept.old }
    requires event { AreNotOfEvent (kept_scene scene.now) kept.old }
    requires turns { kept.old.turns + 1 < 2 ^ 64 }
    ensures progress { OnOk result (table_now kept.new.turns kept.new.table.entries
        ≡ (settle_kept (kept_scene scene.now)
        (table_now kept.old.turns kept.old.table.entries)).progress) }
    ensures out { OnOk result (out.new ≡ out.old ++ map released_frame (settle_kept
        (kept_scene scene.now) (table_now kept.old.turns kept.old.table.entries)).out) }
    ensures err { OnErr result (Begins out.old out.new) }
    ensures kept { OnOk result (IsKept (kept_scene scene.now) kept.new) }
{
    let turns = kept.turns;
    let is_turn = scene.is_turn;
    let bound = scene.mine.len();
    let places = kept.touched.take_for(alloc, &kept.stale, is_turn, bound)?;
    let settling = Settling {
        alloc,
        scene,
        turns,
    };
    settling.settle_places(places.as_slice(), &mut kept.table, out)?;
    kept.touched.clear();
    touch_restarted(&mut kept.touched, scene, places.as_slice());
    kept.stale.note(is_turn, places.as_slice())?;
    kept.turns = turns_after(is_turn, turns);
    Ok(())
}
