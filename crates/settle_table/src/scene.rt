//! What an event that settles reads.

ghost use Rattle.std.specs.Prelude.{◌≡◌, ◌<◌, length, slice_get, Some, None};
ghost use Rattle.std.specs.List.{list_any};
ghost use Rattle.std.specs.Option.{option_copied};
ghost use Rattle.settle_rules.specs.Matching.{client_or_zero};
ghost use Rattle.line_release.specs.Both.{both_of};
ghost use Rattle.settle_table.specs.Kept.{tuples_of, is_restarted, is_number_known, both_kept};
ghost use Rattle.settle_table.specs.Scenes.{kept_scene};

use indexmap::IndexSet;
use inet_frame::Tuple;
use line_release::Both;
use seq_rewriter::Numbers;
use tcp_track::{Incarnation, Line, Took, Tracker};

/// An event that settles: the tables of the node's own lines and of the other's known ones, the
/// kept numbers and which of them wait to be known, whether the node is alone, whether this is a
/// turn, what the event's own segments were, and the tuples restarted in it.
#[derive(Drop)]
pub struct Scene<'a> {
    pub mine: &'a Tracker,
    pub theirs: &'a Tracker,
    pub numbers: &'a Numbers,
    pub unknown: &'a IndexSet<Incarnation>,
    pub is_alone: bool,
    pub is_turn: bool,
    pub tooks: &'a [Took],
    pub restarts: &'a [Tuple],
}

/// The tuple of entry `k` in table order.
pub fn tuple_at(mine: &Tracker, k: usize) -> Tuple
    requires { k < length mine.now.entries }
    ensures { slice_get (tuples_of mine.now) k ≡ Some result }
{
    match mine.tuple(k) {
        Some(tuple) => tuple,
        None => Tuple {
            addr: 0,
            port: 0,
            guest: 0,
        },
    }
}

/// Says whether a tuple was restarted in the event.
pub(crate) fn is_restarted(scene: &Scene, tuple: &Tuple) -> bool
    ensures { result ≡ is_restarted (kept_scene scene.now) tuple.now }
{
    let restarts = scene.restarts;
    for restarted in restarts {
        if *tuple == *restarted {
            return true;
        }
    }
    false
}

fn client_or_zero(line: &Line) -> u32
    ensures { result ≡ client_or_zero line.now.opening }
{
    match line.opening {
        None => 0,
        Some(opening) => opening.client,
    }
}

/// Says whether the other node is known to have a client's number.
fn is_number_known(scene: &Scene, tuple: Tuple, client: u32) -> bool
    ensures { result ≡ is_number_known (kept_scene scene.now) tuple client }
{
    let incarnation = Incarnation { tuple, client };
    scene.numbers.number(&tuple, client).is_some() && !scene.unknown.contains(&incarnation)
}

/// Both lines of a tuple.
#[tactic(auto, unfolding(crate::specs::Kept::both_kept))]
pub(crate) fn both_lines<'a>(scene: &'a Scene<'a>, tuple: Tuple, mine: &'a Line) -> Both<'a>
    ensures both { both_of result ≡ both_kept (kept_scene scene.now) tuple mine.now }
    ensures mine { result.mine.now ≡ mine.now }
    ensures tuple { result.tuple ≡ tuple }
{
    let client = client_or_zero(mine);
    let number = match scene.numbers.number(&tuple, client) {
        None => 0,
        Some(number) => number,
    };
    let theirs = if scene.is_alone {
        Some(mine)
    } else {
        scene.theirs.line(&tuple)
    };
    let number_known = scene.is_alone || is_number_known(scene, tuple, client);
    Both {
        tuple,
        mine,
        theirs,
        number,
        number_known,
    }
}
