//! The numbers under which clients know their connections.

ghost use Rattle.std.specs.Prelude.{◌≡◌, [], ◌∷◌, ◌++◌, None, Some, OnOk, OnErr, IfOk};

use colo_base::NoMemory;
use indexmap::IndexMap;
use inet_frame::Tuple;
use std::alloc::Global;
use std::marker::Model;
use tcp_track::{Incarnation, Tracker};

/// For each connection of a client the sequence number of the guest's SYN that the client was sent:
/// the first that an opening gave (RFC 9293, 3.4.1).
#[derive(Drop)]
pub struct Numbers {
    table: IndexMap<Incarnation, u32>,
}

impl Model for Numbers {
    ghost use Rattle.seq_rewriter.specs.Kept.{KeptNumbers};

    ghost Value = { KeptNumbers };

    ghost view = { λ n. n.table.entries };
}

impl Numbers {
    ghost use Rattle.seq_rewriter.specs.Kept.{number_of, keep_number, thin};

    /// No numbers. It takes no memory.
    pub fn new(alloc: Global) -> Numbers
        ensures { result ≡ [] }
    {
        Numbers {
            table: IndexMap::new(alloc),
        }
    }

    /// Keeps the number of an opening where none is kept for this client of the tuple, and gives
    /// the kept one. After `NoMemory` the numbers are as they were.
    pub fn opened(&mut self, tuple: &Tuple, client: u32, number: u32) -> Result<u32, NoMemory>
        ensures ok { OnOk result (self.new ≡ keep_number self.old tuple.now client number) }
        ensures kept { IfOk result (λ kept. number_of self.new tuple.now client ≡ Some kept) }
        ensures err { OnErr result (self.new ≡ self.old) }
    {
        match self.number(tuple, client) {
            Some(kept) => Ok(kept),
            None => {
                let incarnation = Incarnation {
                    tuple: *tuple,
                    client,
                };
                add_number(&mut self.table, incarnation, number)?;
                Ok(number)
            }
        }
    }

    /// The kept number: `None` exactly where none is kept. It takes no memory.
    pub fn number(&self, tuple: &Tuple, client: u32) -> Option<u32>
        ensures { result ≡ number_of self.now tuple.now client }
    {
        let incarnation = Incarnation {
            tuple: *tuple,
            client,
        };
        self.table.get(&incarnation).copied()
    }

    /// Keeps the numbers of the tracker's current openings alone. It takes no memory.
    pub fn thin(&mut self, tracker: &Tracker)
        ensures { self.new ≡ thin self.old tracker.now }
    {
        thin_table(&mut self.table, tracker);
    }
}

ghost use Rattle.std.specs.Prelude.{filter};
ghost use Rattle.tcp_track.specs.Tracking.{same_incarnation};
ghost use Rattle.seq_rewriter.specs.Kept.{is_current, lookup_number};

/// Adds a number last.
fn add_number(
    table: &mut IndexMap<Incarnation, u32>,
    incarnation: Incarnation,
    number: u32,
) -> Result<(), NoMemory>
    requires { lookup_number table.old.entries incarnation ≡ None }
    ensures ok { OnOk result (table.new.entries ≡ table.old.entries ++ (incarnation, number) ∷ []) }
    ensures err { OnErr result (table.new.entries ≡ table.old.entries) }
{
    table.insert(incarnation, number)?;
    Ok(())
}

/// Keeps the entries of current openings.
fn thin_table(table: &mut IndexMap<Incarnation, u32>, tracker: &Tracker)
    ensures { table.new.entries ≡ filter (λ n. is_current tracker.now n.0) table.old.entries }
{
    table.retain(
        |incarnation: &Incarnation, number: &mut u32| -> bool
            ensures { (result ≡ is_current tracker.entry.now incarnation.now)
                × (number.new ≡ number.old) }
        { is_current(tracker, incarnation) },
    );
}

/// Says whether an incarnation is the tracker's current one of its tuple.
fn is_current(tracker: &Tracker, incarnation: &Incarnation) -> bool
    ensures { result ≡ is_current tracker.now incarnation.now }
{
    match tracker.line(&incarnation.tuple) {
        Some(line) => line.is_of_client(incarnation.client),
        None => false,
    }
}
