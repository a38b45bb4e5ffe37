//! What a node's own guest sends, followed.

ghost use Rattle.std.specs.Prelude.{◌≡◌, ◌++◌, [], false, fold, OnOk, OnErr};
ghost use Rattle.tcp_track.specs.Tracking.{took_of};
ghost use Rattle.out_compare.specs.Comparing.{take_own};
ghost use Rattle.out_compare.specs.Held.{holds};
ghost use Rattle.out_compare.specs.Noting.{opening_made};
ghost use Rattle.node_release.specs.Following.{new_numbers, number_message, told_of_frame};

use colo_base::{Frames, NoMemory};
use colo_wire::Message;
use inet_frame::Tuple;
use node_parts::{Outbox, put_message};
use out_compare::Compare;
use std::alloc::Global;
use tcp_track::{Opening, What};

/// Follows the frames that the node's own guest sent.
pub fn follow(compare: &mut Compare, sent: &Frames) -> Result<(), NoMemory>
    requires { compare.old.spent ≡ false }
    ensures after { OnOk result (compare.new
        ≡ holds (fold take_own compare.old.comparing sent.now)) }
{
    for k in 0..sent.len() {
        let Some(frame) = sent.get(k) else {
            return Ok(());
        };
        let took = compare.primary(frame)?;
        let _ = took;
    }
    Ok(())
}

/// The opening that a segment makes.
fn opening_made(what: What) -> Option<Opening>
    ensures { result ≡ opening_made what }
{
    match what {
        What::Opened(opening) | What::Restarted(opening) => Some(opening),
        What::Ignored | What::Reset => None,
        What::Symbols { from: _, to: _ } => None,
        What::Refused(_) => None,
    }
}

/// Puts a message about the number of an opening, where there are both.
#[tactic(auto, using(colo_wire::proofs::SpellingLemmas::number_spells))]
fn tell(
    alloc: Global,
    tuple: Tuple,
    opening: Option<Opening>,
    number: Option<u32>,
    waits: &mut Outbox,
) -> Result<(), NoMemory>
    ensures { OnOk result (waits.new ≡ waits.old ++ number_message tuple opening number) }
{
    let Some(opening) = opening else {
        return Ok(());
    };
    let Some(number) = number else {
        return Ok(());
    };
    let message = Message::Number {
        tuple,
        client: opening.client,
        number,
    };
    put_message(alloc, &message, waits)
}

/// Follows one frame, and puts a message about the number that is newly kept.
fn follow_one(
    alloc: Global,
    compare: &mut Compare,
    frame: &[u8],
    waits: &mut Outbox,
) -> Result<(), NoMemory>
    ensures after { OnOk result (compare.new ≡ holds (take_own compare.old.comparing frame.now)) }
    ensures waits { OnOk result (waits.new
        ≡ waits.old ++ told_of_frame compare.old.comparing frame.now) }
{
    let (took, number) = compare.own(frame)?;
    tell(alloc, took.tuple, opening_made(took.what), number, waits)
}

/// Follows the frames that the node's own guest sent, and puts a message about each number that is
/// newly kept.
pub fn follow_telling(
    alloc: Global,
    compare: &mut Compare,
    sent: &Frames,
    waits: &mut Outbox,
) -> Result<(), NoMemory>
    requires { compare.old.spent ≡ false }
    ensures after { OnOk result (compare.new
        ≡ holds (fold take_own compare.old.comparing sent.now)) }
    ensures waits { OnOk result (waits.new
        ≡ waits.old ++ new_numbers compare.old.comparing sent.now) }
{
    for k in 0..sent.len() {
        let Some(frame) = sent.get(k) else {
            return Ok(());
        };
        follow_one(alloc, compare, frame, waits)?;
    }
    Ok(())
}
