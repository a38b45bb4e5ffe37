//! Both lines of a connection of a scene.

ghost use Rattle.std.specs.Prelude.{◌≡◌, ◌||◌, unwrap_or, Some, None};
ghost use Rattle.std.specs.List.{list_any};
ghost use Rattle.std.specs.Option.{option_copied};
ghost use Rattle.settle_rules.specs.Matching.{client_or_zero};
ghost use Rattle.seq_rewriter.specs.Kept.{number_of};
ghost use Rattle.line_release.specs.Both.{both_of};
ghost use Rattle.settle_table.specs.Kept.{is_restarted, is_number_known, both_kept};
ghost use Rattle.settle_table.specs.Scenes.{kept_scene};

use inet_frame::Tuple;
use line_release::Both;
use settle_table::Scene;
use tcp_track::{Incarnation, Line};

/// Whether a tuple was restarted in the event.
pub(crate) fn is_restarted(scene: &Scene, tuple: &Tuple) -> bool
    ensures { result ≡ is_restarted (kept_scene scene.now) tuple.now }
{
    let restarts = scene.restarts;
    for restarted in restarts {
        if *tuple == *restarted {
            return true;
        }
    }
    false
}

fn client_or_zero(line: &Line) -> u32
    ensures { result ≡ client_or_zero line.now.opening }
{
    match line.opening {
        None => 0,
        Some(opening) => opening.client,
    }
}

/// The number of a client's connection, or 0, and whether the other node is known to have it.
fn kept_number(scene: &Scene, tuple: Tuple, client: u32) -> (u32, bool)
    ensures number { result.0 ≡ unwrap_or (number_of scene.now.numbers.now tuple client) 0 }
    ensures known { result.1 ≡ (scene.now.is_alone
        || is_number_known (kept_scene scene.now) tuple client) }
{
    match scene.numbers.number(&tuple, client) {
        None => (0, scene.is_alone),
        Some(number) => {
            let waits = scene.unknown.contains(&Incarnation { tuple, client });
            (number, scene.is_alone || !waits)
        }
    }
}

/// Both lines of a tuple.
#[tactic(auto, unfolding(settle_table::specs::Kept::both_kept))]
pub(crate) fn both_lines<'a>(scene: &'a Scene<'a>, tuple: Tuple, mine: &'a Line) -> Both<'a>
    ensures both { both_of result ≡ both_kept (kept_scene scene.now) tuple mine.now }
    ensures mine { result.mine.now ≡ mine.now }
    ensures tuple { result.tuple ≡ tuple }
{
    let (number, number_known) = kept_number(scene, tuple, client_or_zero(mine));
    let theirs = if scene.is_alone {
        Some(mine)
    } else {
        scene.theirs.line(&tuple)
    };
    Both {
        tuple,
        mine,
        theirs,
        number,
        number_known,
    }
}
