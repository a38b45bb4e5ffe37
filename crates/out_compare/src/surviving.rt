//! What a surviving secondary releases at the report of the primary's stop.

ghost use Rattle.std.specs.Prelude.{◌≡◌, ◌++◌, [], length, is_some, true, map, unwrap_or, Some, OnOk, OnErr, IfOk};
ghost use Rattle.line_release.specs.Both.{both_of};
ghost use Rattle.shared_definitions.specs.Begins.{Begins};
ghost use Rattle.line_release.specs.Whole.{whole_of};
ghost use Rattle.settle_rules.specs.Release.{released_frame, release_refusal};
ghost use Rattle.settle_rules.specs.Survive.{lone_lines, survivor_out, survivor_progress};
ghost use Rattle.settle_table.specs.Table.{set_progress};
ghost use Rattle.out_compare.specs.Comparing.{Comparing};
ghost use Rattle.out_compare.specs.Surviving.{Surviving, survive_with, survive_tuple, survive, survivor};
ghost use Rattle.out_compare.specs.Held.{comparing, IsInOrder};

use crate::tables::Tables;
use colo_base::{Frames, NoMemory};
use indexmap::{IndexMap, IndexSet};
use inet_frame::Tuple;
use line_release::Both;
use line_settle::Progress;
use seq_rewriter::Numbers;
use settle_table::{set_progress, tuple_at};
use std::alloc::Global;
use tcp_track::{Line, Offset, Opening, Tracker};

/// Releases the refusal that a line holds.
fn release_refusal(alloc: Global, both: &Both, out: &mut Frames) -> Result<(), NoMemory>
    ensures ok { OnOk result (out.new ≡ out.old ++ map released_frame (release_refusal
        (both_of both.now) both.now.mine.now.refused (is_some both.now.mine.now.refused))) }
    ensures err { OnErr result (out.new ≡ out.old) }
{
    let mine = both.mine;
    match mine.refused {
        None => Ok(()),
        Some(client) => both.release_refusal(alloc, client, out),
    }
}

/// Releases all that a line with an opening holds: SYN, the untrimmed symbols up to the line's end,
/// a reset and a refusal.
#[tactic(auto, unfolding(settle_rules::specs::Survive::survivor_out))]
fn release_line(alloc: Global, both: &Both, out: &mut Frames) -> Result<(), NoMemory>
    requires { is_some both.now.mine.now.opening ≡ true }
    ensures ok { OnOk result
        (out.new ≡ out.old ++ map released_frame (survivor_out (both_of both.now))) }
    ensures err { OnErr result (Begins out.old out.new) }
{
    let mine = both.mine;
    let end = end_of(mine);
    let first: Offset = 1;
    let from = first.max(mine.base);
    let reset = mine.reset;
    both.release_syn(alloc, true, out)?;
    both.release_symbols(alloc, from, end, out)?;
    both.release_reset(alloc, end, reset, out)?;
    release_refusal(alloc, both, out)?;
    Ok(())
}

/// The offset after the last symbol of a line with an opening.
fn end_of(line: &Line) -> Offset
    requires { is_some line.now.opening ≡ true }
    ensures { result ≡ length (whole_of line.now).symbols }
{
    line.end()
}

/// A node's own line in the place of both.
fn lone_lines<'a>(tuple: Tuple, line: &'a Line, number: u32) -> Both<'a>
    ensures both { both_of result ≡ lone_lines tuple (whole_of line.now) number }
    ensures mine { result.mine.now ≡ line.now }
    ensures tuple { result.tuple ≡ tuple }
{
    Both {
        tuple,
        mine: line,
        theirs: Some(line),
        number,
        number_known: true,
    }
}

/// Releases a line with an opening under its number, and notes that it was released up to its end.
fn survive_opened(
    alloc: Global,
    both: &Both,
    opening: Opening,
    progress: &mut IndexMap<Tuple, Progress>,
    out: &mut Frames,
) -> Result<(), NoMemory>
    requires { both.now.mine.now.opening ≡ Some opening }
    ensures progress { OnOk result (progress.new.entries ≡ set_progress progress.old.entries
        both.now.tuple (survivor_progress (both_of both.now) opening)) }
    ensures out { OnOk result (out.new ≡ out.old
        ++ map released_frame (survivor_out (both_of both.now))) }
    ensures err { OnErr result (Begins out.old out.new) }
{
    release_line(alloc, both, out)?;
    let released = Progress::at_end(both, opening);
    set_progress(progress, both.tuple, released)
}

/// Releases one tuple's line, and keeps its number and its progress.
fn survive_line(
    alloc: Global,
    tuple: Tuple,
    line: &Line,
    numbers: &mut Numbers,
    progress: &mut IndexMap<Tuple, Progress>,
    out: &mut Frames,
) -> Result<(), NoMemory>
    ensures numbers { OnOk result (numbers.new ≡ (survive_with
        (record { numbers = numbers.old; progress = progress.old.entries; out = [] }) tuple
        line.now line.now.opening).numbers) }
    ensures progress { OnOk result (progress.new.entries ≡ (survive_with
        (record { numbers = numbers.old; progress = progress.old.entries; out = [] }) tuple
        line.now line.now.opening).progress) }
    ensures out { OnOk result (out.new ≡ out.old ++ map released_frame (survive_with
        (record { numbers = numbers.old; progress = progress.old.entries; out = [] }) tuple
        line.now line.now.opening).out) }
    ensures err { OnErr result (Begins out.old out.new) }
{
    match line.opening {
        None => release_refusal(alloc, &lone_lines(tuple, line, 0), out),
        Some(opening) => {
            let number = numbers.opened(&tuple, opening.client, opening.own)?;
            let both = lone_lines(tuple, line, number);
            survive_opened(alloc, &both, opening, progress, out)
        }
    }
}

/// Releases one tuple's line, where it has one.
#[tactic(auto, unfolding(crate::specs::Surviving::survive_tuple))]
fn survive_tuple(
    alloc: Global,
    lines: &Tracker,
    tuple: Tuple,
    numbers: &mut Numbers,
    progress: &mut IndexMap<Tuple, Progress>,
    out: &mut Frames,
) -> Result<(), NoMemory>
    ensures numbers { OnOk result (numbers.new ≡ (survive_tuple lines.now
        (record { numbers = numbers.old; progress = progress.old.entries; out = [] })
        tuple).numbers) }
    ensures progress { OnOk result (progress.new.entries ≡ (survive_tuple lines.now
        (record { numbers = numbers.old; progress = progress.old.entries; out = [] })
        tuple).progress) }
    ensures out { OnOk result (out.new ≡ out.old ++ map released_frame (survive_tuple lines.now
        (record { numbers = numbers.old; progress = progress.old.entries; out = [] })
        tuple).out) }
    ensures err { OnErr result (Begins out.old out.new) }
{
    match lines.line(&tuple) {
        None => Ok(()),
        Some(line) => survive_line(alloc, tuple, line, numbers, progress, out),
    }
}

/// Releases each line in table order.
#[tactic(auto, unfolding(crate::specs::Surviving::survive))]
fn survive_lines(
    alloc: Global,
    lines: &Tracker,
    numbers: &mut Numbers,
    progress: &mut IndexMap<Tuple, Progress>,
    out: &mut Frames,
) -> Result<(), NoMemory>
    requires { progress.old.entries ≡ [] }
    ensures numbers { OnOk result (numbers.new ≡ (survive lines.now numbers.old).numbers) }
    ensures progress { OnOk result (progress.new.entries
        ≡ (survive lines.now numbers.old).progress) }
    ensures out { OnOk result (out.new ≡ out.old
        ++ map released_frame (survive lines.now numbers.old).out) }
    ensures err { OnErr result (Begins out.old out.new) }
{
    for k in 0..lines.len() {
        let tuple = tuple_at(lines, k);
        survive_tuple(alloc, lines, tuple, numbers, progress, out)?;
    }
    Ok(())
}

/// The tables of a survivor, alone, with its release.
pub(crate) fn survive(
    alloc: Global,
    lines: Tracker,
    mut numbers: Numbers,
    out: &mut Frames,
) -> Result<Tables, NoMemory>
    ensures after { IfOk result (λ t. comparing t ≡ survivor lines (survive lines numbers)) }
    ensures out { OnOk result (out.new ≡ out.old
        ++ map released_frame (survive lines numbers).out) }
    ensures err { OnErr result (Begins out.old out.new) }
    ensures order { IfOk result (λ t. IsInOrder (comparing t)) }
{
    let mut progress = IndexMap::new(alloc);
    survive_lines(alloc, &lines, &mut numbers, &mut progress, out)?;
    Ok(Tables {
        mine: lines,
        theirs: Tracker::new(alloc),
        numbers,
        unknown: IndexSet::new(alloc),
        progress,
        tooks: Vec::new(alloc),
        restarts: Vec::new(alloc),
        is_alone: true,
    })
}
