//! The tables of a comparer, and what each call does to them.

ghost use Rattle.std.specs.Prelude.{◌≡◌, ◌≤◌, ◌==◌, ◌&&◌, not, nat_le, filter, map, unwrap_or, if◌then◌else◌, OnOk, OnErr, IfOk, ◌++◌};
ghost use Rattle.std.specs.Option.{option_copied};
ghost use Rattle.inet_frame.specs.Flags.{has_ack};
ghost use Rattle.tcp_track.specs.LineFields.{no_fields};
ghost use Rattle.tcp_track.specs.Offsets.{distance};
ghost use Rattle.settle_table.specs.Table.{progress_at};
ghost use Rattle.tcp_track.specs.Stands.{is_of_client};
ghost use Rattle.tcp_track.specs.Tracking.{same_incarnation, took_of};
ghost use Rattle.seq_rewriter.specs.Kept.{is_current};
ghost use Rattle.shared_definitions.specs.Begins.{Begins};
ghost use Rattle.settle_rules.specs.Release.{released_frame};
ghost use Rattle.out_compare.specs.Comparing.{nothing_compared, take_own, take_heard, learn, is_kept, settlement_of, need_after, settle, capture, acknowledge};
ghost use Rattle.out_compare.specs.Look.{look, look_after};
ghost use Rattle.settle_rules.specs.Look.{trim_of};
ghost use Rattle.out_compare.specs.Noting.{new_number};
ghost use Rattle.out_compare.specs.Held.{comparing, IsInOrder};

use crate::noting::{note_number, note_progress, note_restart, note_took};
use colo_base::{Frames, NoMemory};
use indexmap::{IndexMap, IndexSet};
use inet_frame::{TcpView, Tuple};
use line_settle::Progress;
use seq_rewriter::Numbers;
use settle_table::{Need, Scene, clear_ages, need_of, settle_all};
use std::alloc::Global;
use tcp_track::{Incarnation, Line, Offset, Opening, Took, Tracker};

/// Both nodes' lines, the kept numbers and those of them that the other node isn't known to have,
/// the progress of each connection, what the event's own segments are so far that aren't ignored,
/// the tuples restarted in it, and whether the node is alone.
#[derive(Drop)]
pub(crate) struct Tables {
    pub(crate) mine: Tracker,
    pub(crate) theirs: Tracker,
    pub(crate) numbers: Numbers,
    pub(crate) unknown: IndexSet<Incarnation>,
    pub(crate) progress: IndexMap<Tuple, Progress>,
    pub(crate) tooks: Vec<Took>,
    pub(crate) restarts: Vec<Tuple>,
    pub(crate) is_alone: bool,
}

/// Nothing taken yet.
pub(crate) fn no_tables(alloc: Global) -> Tables
    ensures { comparing result ≡ nothing_compared }
{
    Tables {
        mine: Tracker::new(alloc),
        theirs: Tracker::new(alloc),
        numbers: Numbers::new(alloc),
        unknown: IndexSet::new(alloc),
        progress: IndexMap::new(alloc),
        tooks: Vec::new(alloc),
        restarts: Vec::new(alloc),
        is_alone: false,
    }
}

/// Takes a frame of the node's own guest, and says what it was, and the number that is newly kept.
#[tactic(auto, unfolding(crate::specs::Comparing::take_own))]
pub(crate) fn take_own(tables: &mut Tables, frame: &[u8]) -> Result<(Took, Option<u32>), NoMemory>
    requires { IsInOrder (comparing tables.old) }
    ensures answer { IfOk result (λ own. own.0 ≡ took_of tables.old.mine frame.now) }
    ensures number { IfOk result (λ own. own.1
        ≡ new_number tables.old.numbers (took_of tables.old.mine frame.now)) }
    ensures after { OnOk result (comparing tables.new
        ≡ take_own (comparing tables.old) frame.now) }
    ensures order { OnOk result (IsInOrder (comparing tables.new)) }
{
    let took = tables.mine.take(frame)?;
    note_took(&mut tables.tooks, took)?;
    note_restart(&mut tables.restarts, took)?;
    let number = note_number(&mut tables.numbers, &mut tables.unknown, took)?;
    note_progress(&mut tables.progress, took)?;
    Ok((took, number))
}

/// Takes a frame that the other node's guest sent.
#[tactic(auto, unfolding(crate::specs::Comparing::take_heard))]
pub(crate) fn take_heard(tables: &mut Tables, frame: &[u8]) -> Result<Took, NoMemory>
    requires { IsInOrder (comparing tables.old) }
    ensures answer { IfOk result (λ took. took ≡ took_of tables.old.theirs frame.now) }
    ensures after { OnOk result (comparing tables.new
        ≡ take_heard (comparing tables.old) frame.now) }
    ensures order { OnOk result (IsInOrder (comparing tables.new)) }
{
    let took = tables.theirs.take(frame)?;
    note_restart(&mut tables.restarts, took)?;
    Ok(took)
}

/// Takes an incarnation out.
fn forget(unknown: &mut IndexSet<Incarnation>, gone: Incarnation)
    ensures { unknown.new.keys ≡ filter (λ i. not (same_incarnation i gone)) unknown.old.keys }
{
    unknown.retain(
        |incarnation: &Incarnation| -> bool
            ensures { result ≡ not (same_incarnation incarnation.now gone) }
        { *incarnation != gone },
    );
}

fn is_kept(kept: Option<u32>, number: u32) -> bool
    ensures { result ≡ is_kept kept number }
{
    match kept {
        None => false,
        Some(kept) => kept == number,
    }
}

/// The other node is known to have a number, where it is the kept one.
#[tactic(auto, unfolding(crate::specs::Comparing::learn))]
pub(crate) fn learn(tables: &mut Tables, tuple: Tuple, client: u32, number: u32)
    ensures { comparing tables.new ≡ learn (comparing tables.old) tuple client number }
{
    let kept = tables.numbers.number(&tuple, client);
    if is_kept(kept, number) {
        forget(&mut tables.unknown, Incarnation { tuple, client });
    }
}

/// Settles all connections, and ends the event.
#[tactic(auto, unfolding(crate::specs::Comparing::settle, crate::specs::Comparing::settlement_of, crate::specs::Comparing::need_after))]
pub(crate) fn settle(tables: &mut Tables, is_turn: bool, out: &mut Frames) -> Result<Need, NoMemory>
    requires { IsInOrder (comparing tables.old) }
    ensures after { OnOk result (comparing tables.new ≡ settle (comparing tables.old) is_turn) }
    ensures out { OnOk result (out.new ≡ out.old
        ++ map released_frame (settlement_of (comparing tables.old) is_turn).out) }
    ensures need { IfOk result (λ need. need ≡ need_after (comparing tables.old) is_turn) }
    ensures err { OnErr result (Begins out.old out.new) }
    ensures order { OnOk result (IsInOrder (comparing tables.new)) }
{
    let alloc = *tables.tooks.allocator();
    let scene = Scene {
        mine: &tables.mine,
        theirs: &tables.theirs,
        numbers: &tables.numbers,
        unknown: &tables.unknown,
        is_alone: tables.is_alone,
        is_turn,
        tooks: tables.tooks.as_slice(),
        restarts: tables.restarts.as_slice(),
    };
    settle_all(alloc, &scene, &mut tables.progress, out)?;
    let need = need_of(&scene, &tables.progress);
    tables.tooks.clear();
    tables.restarts.clear();
    Ok(need)
}

/// Keeps the incarnations of current openings.
fn keep_current(unknown: &mut IndexSet<Incarnation>, mine: &Tracker)
    ensures { unknown.new.keys ≡ filter (is_current mine.now) unknown.old.keys }
{
    unknown.retain(
        |incarnation: &Incarnation| -> bool
            ensures { result ≡ is_current mine.entry.now incarnation.now }
        { is_current(mine, incarnation) },
    );
}

fn is_current(mine: &Tracker, incarnation: &Incarnation) -> bool
    ensures { result ≡ is_current mine.now incarnation.now }
{
    is_of_client(mine.line(&incarnation.tuple), incarnation.client)
}

/// A capture keeps the numbers of the current openings alone.
#[tactic(auto, unfolding(crate::specs::Comparing::capture))]
pub(crate) fn capture(tables: &mut Tables)
    ensures { comparing tables.new ≡ capture (comparing tables.old) }
{
    tables.numbers.thin(&tables.mine);
    keep_current(&mut tables.unknown, &tables.mine);
}

/// At an acknowledgement the current openings are a new restart record, the other node's lines are
/// a copy of the own, all numbers are known, and ages are counted anew.
#[tactic(auto, unfolding(crate::specs::Comparing::acknowledge))]
pub(crate) fn acknowledge(tables: &mut Tables) -> Result<(), NoMemory>
    requires { IsInOrder (comparing tables.old) }
    ensures after { OnOk result (comparing tables.new ≡ acknowledge (comparing tables.old)) }
    ensures order { OnOk result (IsInOrder (comparing tables.new)) }
{
    tables.mine.commit();
    tables.theirs = tables.mine.copy()?;
    tables.unknown.clear();
    clear_ages(&mut tables.progress);
    Ok(())
}

/// How far a client's segment trims its connection: from 1 to the edge, where it has ACK and the
/// node's current opening has the shown client.
fn trim_of(view: &TcpView, edge: Offset, shown: Opening, is_current: bool) -> Offset
    ensures value { let acked = distance shown.own view.now.ack in
        result ≡ (if has_ack view.now.flags && (nat_le 1 acked && (nat_le acked edge && is_current))
        then acked else 0) }
    ensures within { result ≤ edge }
{
    let acked = view.ack().wrapping_sub(shown.own);
    if view.has_ack() && (1 <= acked && (acked <= edge && is_current)) {
        acked
    } else {
        0
    }
}

fn is_of_client(line: Option<&Line>, client: u32) -> bool
    ensures { let entry = unwrap_or (option_copied line.entry) no_fields in
        result ≡ is_of_client entry.opening client }
{
    match line {
        None => false,
        Some(line) => line.is_of_client(client),
    }
}

/// How much of a connection was released, and which SYN its client was shown last.
fn progress_of(table: &IndexMap<Tuple, Progress>, tuple: &Tuple) -> (Offset, Option<Opening>)
    ensures edge { result.0 ≡ (progress_at table.now.entries tuple.now).edge }
    ensures shown { result.1 ≡ (progress_at table.now.entries tuple.now).shown }
{
    match table.get(tuple) {
        None => (0, None),
        Some(progress) => (progress.edge(), progress.shown()),
    }
}

/// What a client has seen of its connection, and how far its segment trims; both guests' lines are
/// trimmed so.
#[tactic(auto, unfolding(crate::specs::Look::look))]
pub(crate) fn look(tables: &mut Tables, view: &TcpView) -> (Option<Opening>, Offset)
    ensures seen { result.0 ≡ (look (comparing tables.old) view.now).seen }
    ensures trim { result.1 ≡ (look (comparing tables.old) view.now).trim }
    ensures after { comparing tables.new ≡ look_after (comparing tables.old) view.now }
    ensures order { IsInOrder (comparing tables.old) → IsInOrder (comparing tables.new) }
{
    let tuple = view.client_tuple();
    let (edge, shown) = progress_of(&tables.progress, &tuple);
    match shown {
        None => (None, 0),
        Some(shown) => {
            let is_current = is_of_client(tables.mine.line(&tuple), shown.client);
            let trim = trim_of(view, edge, shown, is_current);
            tables.mine.trim(&tuple, shown.client, trim);
            tables.theirs.trim(&tuple, shown.client, trim);
            (Some(shown), trim)
        }
    }
}
