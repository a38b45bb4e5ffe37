//! Settling of all connections.

ghost use Rattle.std.specs.Prelude.{◌≡◌, ◌≤◌, ◌++◌, map, OnOk, OnErr};
ghost use Rattle.line_release.specs.Both.{both_of};
ghost use Rattle.shared_definitions.specs.Begins.{Begins};
ghost use Rattle.line_match.specs.Untrimmed.{IsUntrimmed};
ghost use Rattle.settle_rules.specs.Release.{released_frame};
ghost use Rattle.settle_rules.specs.Settle.{settle_or_rest};
ghost use Rattle.settle_table.specs.Table.{AreUntrimmed, progress_at, set_progress};
ghost use Rattle.settle_table.specs.Kept.{settle_kept, settle_kept_tuple};
ghost use Rattle.settle_table.specs.Scenes.{kept_scene};

use crate::progress_table::add_progress;
use crate::scene::{Scene, both_lines, is_restarted, tuple_at};
use colo_base::{Frames, NoMemory};
use indexmap::IndexMap;
use inet_frame::Tuple;
use line_release::Both;
use line_settle::{Progress, settle_or_rest};
use std::alloc::Global;
use tcp_track::Took;

/// Settles one connection, unless it was restarted in the event, and notes its progress.
#[tactic(auto, using(std::proofs::lemmas::Map::Steps::set_value_same))]
fn settle_entry(
    alloc: Global,
    both: &Both,
    table: &mut IndexMap<Tuple, Progress>,
    is_restarted: bool,
    is_turn: bool,
    tooks: &[Took],
    out: &mut Frames,
) -> Result<(), NoMemory>
    requires { IsUntrimmed both.now.mine.now
        (progress_at table.old.entries both.now.tuple).edge }
    ensures progress { OnOk result (table.new.entries ≡ set_progress table.old.entries
        both.now.tuple (settle_or_rest is_restarted (both_of both.now)
        (progress_at table.old.entries both.now.tuple) is_turn tooks.now).progress) }
    ensures out { OnOk result (out.new ≡ out.old ++ map released_frame
        (settle_or_rest is_restarted (both_of both.now)
        (progress_at table.old.entries both.now.tuple) is_turn tooks.now).out) }
    ensures err { OnErr result (Begins out.old out.new) }
    ensures after { OnOk result ((progress_at table.old.entries both.now.tuple).edge
        ≤ (settle_or_rest is_restarted (both_of both.now)
        (progress_at table.old.entries both.now.tuple) is_turn tooks.now).progress.edge) }
{
    match table.get_mut(&both.tuple) {
        Some(progress) => {
            settle_or_rest(alloc, both, progress, is_restarted, is_turn, tooks, out)
        }
        None => {
            let mut progress = Progress::new();
            settle_or_rest(
                alloc,
                both,
                &mut progress,
                is_restarted,
                is_turn,
                tooks,
                out,
            )?;
            add_progress(table, both.tuple, progress)
        }
    }
}

/// Settles one tuple, where it has a line.
#[tactic(auto, unfolding(crate::specs::Kept::settle_kept_tuple, crate::specs::Kept::settle_line, crate::specs::Kept::line_settled))]
fn settle_tuple(
    alloc: Global,
    scene: &Scene,
    tuple: Tuple,
    table: &mut IndexMap<Tuple, Progress>,
    out: &mut Frames,
) -> Result<(), NoMemory>
    requires { AreUntrimmed scene.now.mine.now table.old.entries }
    ensures progress { OnOk result (table.new.entries
        ≡ (settle_kept_tuple (kept_scene scene.now) table.old.entries tuple).progress) }
    ensures out { OnOk result (out.new ≡ out.old ++ map released_frame
        (settle_kept_tuple (kept_scene scene.now) table.old.entries tuple).out) }
    ensures err { OnErr result (Begins out.old out.new) }
    ensures untrimmed { OnOk result (AreUntrimmed scene.now.mine.now table.new.entries) }
{
    match scene.mine.line(&tuple) {
        None => Ok(()),
        Some(line) => {
            let both = both_lines(scene, tuple, line);
            let restarted = is_restarted(scene, &tuple);
            settle_entry(
                alloc,
                &both,
                table,
                restarted,
                scene.is_turn,
                scene.tooks,
                out,
            )?;
            Ok(())
        }
    }
}

/// Settles each connection in the order of the table. Nothing goes out of those restarted in the
/// event. No line is trimmed past its edge. After `NoMemory` the list begins with what it held.
#[tactic(auto, unfolding(crate::specs::Kept::settle_kept))]
pub fn settle_all(
    alloc: Global,
    scene: &Scene,
    table: &mut IndexMap<Tuple, Progress>,
    out: &mut Frames,
) -> Result<(), NoMemory>
    requires { AreUntrimmed scene.now.mine.now table.old.entries }
    ensures progress { OnOk result (table.new.entries
        ≡ (settle_kept (kept_scene scene.now) table.old.entries).progress) }
    ensures out { OnOk result (out.new ≡ out.old ++ map released_frame
        (settle_kept (kept_scene scene.now) table.old.entries).out) }
    ensures err { OnErr result (Begins out.old out.new) }
    ensures untrimmed { OnOk result (AreUntrimmed scene.now.mine.now table.new.entries) }
{
    for k in 0..scene.mine.len() {
        let tuple = tuple_at(scene.mine, k);
        settle_tuple(alloc, scene, tuple, table, out)?;
    }
    Ok(())
}
