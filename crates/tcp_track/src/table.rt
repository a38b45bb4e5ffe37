//! The lines of all tuples.

ghost use Rattle.std.specs.Prelude.{◌≡◌, ◌==◌, ◌<◌, ◌++◌, ◌∷◌, [], ℕ, false, length, Some, None, unwrap_or, IfOk, OnOk, OnErr, slice_get};
ghost use Rattle.std.specs.Map.Iter.{deref_pair};
ghost use Rattle.std.specs.Option.{option_copied, option_map};
ghost use Rattle.indexmap.specs.IndexSet.{spare};
ghost use Rattle.inet_frame.specs.Flags.{has_rst};

use crate::answers::{Took, What};
use crate::lines::{Line, opening_in, opens_anew};
use crate::offsets::Offset;
use crate::openings::{Incarnation, Opening};
use crate::steps::{
    add_entry, commit_entries, current_of, is_at_commit, note, take_entry, trim_entry, what_of,
};
use colo_base::NoMemory;
use indexmap::{IndexMap, IndexSet};
use inet_frame::{TcpView, Tuple, counted};
use std::alloc::{AllocError, Global};
use std::marker::Model;

/// A tuple's line, and its opening that was current at the last commit.
#[derive(Drop)]
pub struct Entry {
    pub line: Line,
    pub at_commit: Option<Opening>,
}

impl Clone for Entry {
    ghost is_clone = { λ entry copy. copy ≡ entry };

    fn clone(&self) -> Result<Entry, AllocError> {
        Ok(Entry {
            line: self.line.clone()?,
            at_commit: self.at_commit,
        })
    }
}

/// What a guest has sent: a line for each tuple that it opened or refused, in the order of the
/// first opening or refusal, and the connections that it opened since the last commit. It keeps no
/// frame, and forgets the bytes that are trimmed.
#[derive(Drop)]
pub struct Tracker {
    table: IndexMap<Tuple, Entry>,
    since: IndexSet<Incarnation>,
}

impl Model for Tracker {
    ghost use Rattle.tcp_track.specs.Tracking.{Tracking};

    ghost Value = { Tracking };

    ghost view = { λ t. record { entries = t.table.entries; since = t.since.keys } };
}

impl Tracker {
    ghost use Rattle.tcp_track.specs.Tracking.{nothing_tracked, line_at, entry_at, took_of, taken, tracking_after, what_in, is_known_client, trim_tracking, with_line, commit_tracking, took_in};

    /// Nothing taken yet. It takes no memory.
    pub fn new(alloc: Global) -> Tracker
        ensures { result ≡ nothing_tracked }
    {
        Tracker {
            table: IndexMap::new(alloc),
            since: IndexSet::new(alloc),
        }
    }

    /// Takes a frame that the guest sent, and says what it was. A frame counts where it is a TCP
    /// segment from the guest's address. After `NoMemory` the tracker is as it was.
    pub fn take(&mut self, frame: &[u8]) -> Result<Took, NoMemory>
        ensures answer { IfOk result (λ took. took ≡ took_of self.old frame.now) }
        ensures after { OnOk result (self.new ≡ taken self.old frame.now) }
        ensures err { OnErr result (self.new ≡ self.old) }
    {
        match counted(frame) {
            Some(segment) => self.take_segment(&segment),
            None => Ok(Took {
                tuple: Tuple {
                    addr: 0,
                    port: 0,
                    guest: 0,
                },
                what: What::Ignored,
            }),
        }
    }

    /// The line of a tuple: `None` exactly where the tuple has no entry. It takes no memory.
    pub fn line(&self, tuple: &Tuple) -> Option<&Line>
        ensures { option_copied result ≡ line_at self.now tuple.now }
    {
        let entry = self.table.get(tuple)?;
        Some(&entry.line)
    }

    /// How many tuples have an entry.
    pub fn len(&self) -> usize
        ensures { result ≡ length self.now.entries }
    {
        self.table.len()
    }

    /// Says whether no tuple has an entry.
    pub fn is_empty(&self) -> bool
        ensures { result ≡ (length self.now.entries == 0) }
    {
        self.table.is_empty()
    }

    /// The tuple of entry `k` in table order: `None` exactly where `k` is no entry. It takes no
    /// memory.
    pub fn tuple(&self, k: usize) -> Option<Tuple>
        ensures { result ≡ option_map (λ e. e.0) (slice_get self.now.entries k) }
    {
        let (tuple, _) = self.table.get_index(k)?;
        Some(*tuple)
    }

    /// The tuple and the line of entry `k` in table order: `None` exactly where `k` is no entry. It
    /// takes no memory.
    pub fn entry(&self, k: usize) -> Option<(&Tuple, &Line)>
        ensures { option_map deref_pair result ≡ entry_at self.now k }
    {
        let (tuple, entry) = self.table.get_index(k)?;
        Some((tuple, &entry.line))
    }

    /// Forgets the symbols of a tuple below `to`, but none past the line's end and never FIN, where
    /// the tuple's current opening is one of this client. It takes no memory.
    #[tactic(auto, unfolding(crate::specs::Tracking::trim_tracking))]
    pub fn trim(&mut self, tuple: &Tuple, client: u32, to: Offset)
        ensures { self.new ≡ trim_tracking self.old tuple.now client to }
    {
        trim_entry(&mut self.table, tuple, client, to);
    }

    /// A copy, with the restart record.
    pub fn copy(&self) -> Result<Tracker, NoMemory>
        ensures { IfOk result (λ copy. copy ≡ self.now) }
    {
        Ok(Tracker {
            table: self.table.clone()?,
            since: self.since.clone()?,
        })
    }

    /// Sets the line of a tuple, and adds its entry last where there is none. After `NoMemory` the
    /// tracker is as it was.
    pub fn put(&mut self, tuple: &Tuple, line: Line) -> Result<(), NoMemory>
        ensures ok { OnOk result (self.new ≡ with_line self.old tuple.now line) }
        ensures err { OnErr result (self.new ≡ self.old) }
    {
        match self.table.get_mut(tuple) {
            Some(entry) => {
                entry.line = line;
                Ok(())
            }
            None => add_entry(&mut self.table, *tuple, line),
        }
    }

    /// Begins a new restart record: the current openings. It takes no memory.
    pub fn commit(&mut self)
        ensures { self.new ≡ commit_tracking self.old }
    {
        commit_entries(&mut self.table);
        self.since.clear();
    }

    #[tactic(auto, unfolding(crate::specs::Tracking::tracking_after, crate::specs::Tracking::what_in))]
    fn take_segment(&mut self, segment: &TcpView) -> Result<Took, NoMemory>
        ensures answer { IfOk result (λ took. took ≡ took_in self.old (Some segment.now)) }
        ensures after { OnOk result (self.new ≡ tracking_after self.old segment.now) }
        ensures err { OnErr result (self.new ≡ self.old) }
    {
        let tuple = segment.tuple();
        let opening = opening_in(segment);
        let known = self.is_known_client(&tuple, opening.client);
        let current = current_of(self.line(&tuple));
        let what = what_of(current, known, segment);
        self.since.reserve(1)?;
        take_entry(&mut self.table, tuple, segment)?;
        if opens_anew(current, segment) {
            note(
                &mut self.since,
                Incarnation {
                    tuple,
                    client: opening.client,
                },
            );
        }
        Ok(Took { tuple, what })
    }

    /// Says whether an opening of this client would be a restart.
    fn is_known_client(&self, tuple: &Tuple, client: u32) -> bool
        ensures { result ≡ is_known_client self.now tuple.now client }
    {
        let incarnation = Incarnation {
            tuple: *tuple,
            client,
        };
        self.since.contains(&incarnation) || is_at_commit(self.table.get(tuple), client)
    }
}
