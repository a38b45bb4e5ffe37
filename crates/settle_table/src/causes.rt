//! When a checkpoint starts.

ghost use Rattle.std.specs.Prelude.{◌≡◌, ◌==◌, find, Some, None, if◌then◌else◌};
ghost use Rattle.line_release.specs.Both.{both_of};
ghost use Rattle.line_match.specs.Untrimmed.{IsUntrimmed};
ghost use Rattle.settle_rules.specs.Matching.{differs_at, matched_end};
ghost use Rattle.std.specs.Option.{option_copied};
ghost use Rattle.settle_table.specs.Kept.{tuples_of, is_restarted};
ghost use Rattle.tcp_track.specs.Tracking.{line_at};
ghost use Rattle.settle_table.specs.Needs.{need_of, difference_in, first_differ, first_restart, first_wait, has_waited};
ghost use Rattle.settle_table.specs.Scenes.{kept_scene};
ghost use Rattle.settle_table.specs.Table.{AreUntrimmed, progress_at};

use crate::progress_table::{age_at, edge_at};
use crate::scene::{Scene, both_lines, is_restarted, tuple_at};
use indexmap::IndexMap;
use inet_frame::Tuple;
use line_match::{differs_at, matched_end};
use line_release::Both;
use line_settle::Progress;
use tcp_track::Offset;

/// For how many turns of the primary a connection may stay unmatched.
const LONGEST_WAIT: u16 = 256;

/// Why a checkpoint is to start: the first cause that holds, and the first tuple in table order
/// that has it.
#[derive(Clone, Copy, PartialEq, Eq, Debug)]
pub enum Need {
    /// None holds.
    Nothing,
    /// Both nodes sent different symbols at this offset.
    Differ { tuple: Tuple, offset: Offset },
    /// A guest opened a connection again that it had opened already.
    Restart { tuple: Tuple },
    /// The connection was unmatched for 256 turns of the primary.
    Wait { tuple: Tuple },
}

/// The matched end of both lines, where they differ there.
fn difference_in(both: &Both, edge: Offset) -> Option<Offset>
    requires { IsUntrimmed both.now.mine.now edge }
    ensures { result ≡ (if differs_at (both_of both.now) (matched_end (both_of both.now) edge)
        then Some (matched_end (both_of both.now) edge) else None) }
{
    let end = matched_end(both, edge);
    if differs_at(both, end) {
        Some(end)
    } else {
        None
    }
}

/// The offset at which the lines of a tuple differ.
#[tactic(auto, unfolding(crate::specs::Needs::line_differs, crate::specs::Needs::matched_at))]
fn difference_of(scene: &Scene, table: &IndexMap<Tuple, Progress>, tuple: Tuple) -> Option<Offset>
    requires { AreUntrimmed scene.now.mine.now table.now.entries }
    ensures { result ≡ difference_in (kept_scene scene.now) table.now.entries tuple
        (line_at scene.now.mine.now tuple) }
{
    match scene.mine.line(&tuple) {
        None => None,
        Some(line) => {
            let both = both_lines(scene, tuple, line);
            difference_in(&both, edge_at(table, &tuple))
        }
    }
}

/// The first difference in table order.
fn first_differ(scene: &Scene, table: &IndexMap<Tuple, Progress>) -> Option<Need>
    requires { AreUntrimmed scene.now.mine.now table.now.entries }
    ensures { result ≡ first_differ (kept_scene scene.now) table.now.entries
        (tuples_of scene.now.mine.now) }
{
    for k in 0..scene.mine.len() {
        let tuple = tuple_at(scene.mine, k);
        match difference_of(scene, table, tuple) {
            None => {}
            Some(offset) => return Some(Need::Differ { tuple, offset }),
        }
    }
    None
}

/// The first restarted tuple in table order.
fn restarted_in_table(scene: &Scene) -> Option<Tuple>
    ensures { result
        ≡ find (is_restarted (kept_scene scene.now)) (tuples_of scene.now.mine.now) }
{
    for k in 0..scene.mine.len() {
        let tuple = tuple_at(scene.mine, k);
        if is_restarted(scene, &tuple) {
            return Some(tuple);
        }
    }
    None
}

/// The first restarted tuple; where none of them is in the table, the one that was heard first.
fn first_restart(scene: &Scene) -> Option<Need>
    ensures { result ≡ first_restart (kept_scene scene.now) }
{
    let first = *scene.restarts.first()?;
    match restarted_in_table(scene) {
        Some(tuple) => Some(Need::Restart { tuple }),
        None => Some(Need::Restart { tuple: first }),
    }
}

/// The first tuple in table order that has been unmatched for as long as it may be.
fn first_wait(scene: &Scene, table: &IndexMap<Tuple, Progress>) -> Need
    ensures { result ≡ first_wait (kept_scene scene.now) table.now.entries }
{
    for k in 0..scene.mine.len() {
        let tuple = tuple_at(scene.mine, k);
        if age_at(table, &tuple) == LONGEST_WAIT {
            return Need::Wait { tuple };
        }
    }
    Need::Nothing
}

/// Why a checkpoint is to start after a settling. No line is trimmed past its edge.
#[tactic(auto, unfolding(crate::specs::Needs::need_of))]
pub fn need_of(scene: &Scene, table: &IndexMap<Tuple, Progress>) -> Need
    requires { AreUntrimmed scene.now.mine.now table.now.entries }
    ensures { result ≡ need_of (kept_scene scene.now) table.now.entries }
{
    if scene.is_alone {
        return Need::Nothing;
    }
    if let Some(differ) = first_differ(scene, table) {
        return differ;
    }
    if let Some(restart) = first_restart(scene) {
        return restart;
    }
    first_wait(scene, table)
}
