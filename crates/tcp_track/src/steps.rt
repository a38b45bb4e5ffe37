//! What one segment does to the parts of a tracker.

ghost use Rattle.std.specs.Prelude.{◌≡◌, ◌==◌, ◌<◌, ◌++◌, ◌∷◌, [], false, Some, None, map, unwrap_or, OnOk, OnErr};
ghost use Rattle.std.specs.Option.{option_copied};
ghost use Rattle.indexmap.specs.IndexSet.{spare};
ghost use Rattle.inet_frame.specs.Flags.{has_rst};
ghost use Rattle.tcp_track.specs.Offsets.{distance};
ghost use Rattle.tcp_track.specs.Segments.{start_of, symbols_in, syn_if};
ghost use Rattle.tcp_track.specs.Stands.{is_of_client};
ghost use Rattle.tcp_track.specs.LineFields.{no_fields};
ghost use Rattle.tcp_track.specs.Tracking.{no_entry, entry_of, entries_after, trim_entry, commit_entry, insert_incarnation, span_of, what_of};

use crate::answers::What;
use crate::lines::{Line, is_near, is_refusal, may_open, opening_in, opens_anew, symbol_count};
use crate::offsets::{Offset, distance};
use crate::openings::{Incarnation, Opening};
use crate::table::Entry;
use colo_base::NoMemory;
use indexmap::{IndexMap, IndexSet};
use inet_frame::{TcpView, Tuple};

pub(crate) fn is_at_commit(entry: Option<&Entry>, client: u32) -> bool
    ensures { result
        ≡ is_of_client (unwrap_or (option_copied entry.entry) no_entry).at_commit client }
{
    match entry {
        None => false,
        Some(entry) => match entry.at_commit {
            None => false,
            Some(opening) => opening.client == client,
        },
    }
}

pub(crate) fn current_of(line: Option<&Line>) -> Option<Opening>
    ensures { result ≡ (unwrap_or (option_copied line.entry) no_fields).opening }
{
    line?.opening
}

/// Takes a segment into its tuple's entry, and makes that where there is none and the segment opens
/// or refuses.
#[tactic(auto, using(std::proofs::lemmas::Map::Steps::set_value_same))]
pub(crate) fn take_entry(
    table: &mut IndexMap<Tuple, Entry>,
    tuple: Tuple,
    segment: &TcpView,
) -> Result<(), NoMemory>
    ensures ok { OnOk result (table.new.entries
        ≡ entries_after table.old.entries tuple segment.now) }
    ensures err { OnErr result (table.new.entries ≡ table.old.entries) }
{
    match table.get_mut(&tuple) {
        Some(entry) => entry.line.take(segment),
        None => {
            if may_open(segment) || is_refusal(segment) {
                let alloc = *table.allocator();
                let mut line = Line::new(alloc);
                line.take(segment)?;
                add_entry(table, tuple, line)?;
            }
            Ok(())
        }
    }
}

/// Adds an entry last.
pub(crate) fn add_entry(
    table: &mut IndexMap<Tuple, Entry>,
    tuple: Tuple,
    line: Line,
) -> Result<(), NoMemory>
    requires { entry_of table.old.entries tuple ≡ None }
    ensures ok { OnOk result (table.new.entries
        ≡ table.old.entries ++ (tuple, record { line = line; at_commit = None }) ∷ []) }
    ensures err { OnErr result (table.new.entries ≡ table.old.entries) }
{
    let entry = Entry {
        line,
        at_commit: None,
    };
    table.insert(tuple, entry)?;
    Ok(())
}

/// Trims a tuple's line, where there is one.
pub(crate) fn trim_entry(table: &mut IndexMap<Tuple, Entry>, tuple: &Tuple, client: u32, to: Offset)
    ensures { table.new.entries
        ≡ trim_entry (entry_of table.old.entries tuple.now) table.old.entries tuple.now client to }
{
    let Some(entry) = table.get_mut(tuple) else {
        return;
    };
    entry.line.trim(client, to);
}

/// Makes each tuple's current opening that of the commit.
pub(crate) fn commit_entries(table: &mut IndexMap<Tuple, Entry>)
    ensures { table.new.entries ≡ map commit_entry table.old.entries }
{
    for k in 0..table.len() {
        let entry = &mut table[k];
        note_commit(entry);
    }
}

fn note_commit(entry: &mut Entry)
    ensures { entry.new ≡ record entry.old { at_commit = entry.old.line.opening } }
{
    entry.at_commit = entry.line.opening;
}

/// Notes an opening, for which there is room.
pub(crate) fn note(since: &mut IndexSet<Incarnation>, incarnation: Incarnation)
    requires { 0 < spare since.old }
    ensures { since.new.keys ≡ insert_incarnation since.old.keys incarnation }
{
    let added = since.insert(incarnation).unwrap();
    let _ = added;
}

/// What a segment is on a tuple with this opening, where `known` says that an opening of its client
/// would be a restart.
#[tactic(auto, unfolding(crate::specs::Tracking::what_of))]
pub(crate) fn what_of(current: Option<Opening>, known: bool, segment: &TcpView) -> What
    ensures { result ≡ what_of current known segment.now }
{
    if is_refusal(segment) {
        return What::Refused(distance(1, segment.ack()));
    }
    if segment.has_rst() {
        return if current.is_some() {
            What::Reset
        } else {
            What::Ignored
        };
    }
    if opens_anew(current, segment) {
        let opening = opening_in(segment);
        return if known {
            What::Restarted(opening)
        } else {
            What::Opened(opening)
        };
    }
    match current {
        None => What::Ignored,
        Some(opening) => span_of(opening.own, segment),
    }
}

/// The symbols that a segment without RST carries on a connection whose guest's number is `own`.
#[tactic(auto, unfolding(crate::specs::Segments::symbols_in))]
fn span_of(own: u32, segment: &TcpView) -> What
    requires { has_rst segment.now.flags ≡ false }
    ensures { result ≡ span_of (start_of own segment.now) (symbols_in own segment.now) }
{
    if segment.has_syn() {
        return span_of_syn(own, segment.seq());
    }
    if !is_near(own, segment) {
        return What::Symbols { from: 0, to: 0 };
    }
    let from = distance(own, segment.seq());
    let count = symbol_count(segment);
    if count == 0 {
        return What::Symbols { from: 0, to: 0 };
    }
    What::Symbols {
        from,
        to: from + count,
    }
}

fn span_of_syn(own: u32, seq: u32) -> What
    ensures { result ≡ span_of (distance own seq) (syn_if (seq == own)) }
{
    if seq == own {
        What::Symbols { from: 0, to: 1 }
    } else {
        What::Symbols { from: 0, to: 0 }
    }
}
