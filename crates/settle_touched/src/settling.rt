//! Settling of some places of the table.

ghost use Rattle.std.specs.Prelude.{◌≡◌, ◌≤◌, ◌++◌, map, OnOk, OnErr};
ghost use Rattle.line_release.specs.Both.{both_of};
ghost use Rattle.shared_definitions.specs.Begins.{Begins};
ghost use Rattle.line_match.specs.Untrimmed.{IsUntrimmed};
ghost use Rattle.settle_rules.specs.Release.{released_frame};
ghost use Rattle.settle_rules.specs.Settle.{settle_or_rest};
ghost use Rattle.settle_table.specs.Kept.{is_restarted, both_kept};
ghost use Rattle.settle_table.specs.Scenes.{kept_scene};
ghost use Rattle.settle_touched.specs.Ages.{stored_after};
ghost use Rattle.settle_touched.specs.Places.{AreStoredUntrimmed, settle_entry, settle_place, settle_places, stored_of, set_stored};

use crate::lines::{both_lines, is_restarted};
use crate::stored::{Stored, add_stored};
use colo_base::{Frames, NoMemory};
use indexmap::IndexMap;
use inet_frame::Tuple;
use line_release::Both;
use line_settle::settle_or_rest;
use settle_table::Scene;
use std::alloc::Global;

/// An event that settles, and how many turns there were before it.
#[derive(Drop)]
pub struct Settling<'a> {
    pub alloc: Global,
    pub scene: &'a Scene<'a>,
    pub turns: u64,
}

impl<'a> Settling<'a> {
    /// Settles one connection from what is stored of it, unless it was restarted in the event.
    fn settle_stored(
        &self,
        both: &Both,
        stored: &mut Stored,
        out: &mut Frames,
    ) -> Result<(), NoMemory>
        requires { IsUntrimmed both.now.mine.now stored.old.progress.edge }
        ensures stored { OnOk result (stored.new ≡ stored_after self.now.scene.now.is_turn
            self.now.turns stored.old (settle_or_rest
            (is_restarted (kept_scene self.now.scene.now) both.now.tuple) (both_of both.now)
            stored.old.progress self.now.scene.now.is_turn self.now.scene.now.tooks.now).progress) }
        ensures out { OnOk result (out.new ≡ out.old ++ map released_frame (settle_or_rest
            (is_restarted (kept_scene self.now.scene.now) both.now.tuple) (both_of both.now)
            stored.old.progress self.now.scene.now.is_turn self.now.scene.now.tooks.now).out) }
        ensures err { OnErr result (Begins out.old out.new) }
        ensures after { OnOk result (stored.old.progress.edge ≤ stored.new.progress.edge) }
    {
        let is_turn = self.scene.is_turn;
        let restarted = is_restarted(self.scene, &both.tuple);
        let progress = &mut stored.progress;
        let tooks = self.scene.tooks;
        settle_or_rest(self.alloc, both, progress, restarted, is_turn, tooks, out)?;
        stored.note_age(is_turn, self.turns);
        Ok(())
    }

    /// Settles the line of a place, and stores its progress.
    #[tactic(auto, unfolding(crate::specs::Places::settle_entry, settle_table::specs::Kept::line_settled), using(std::proofs::lemmas::Map::Steps::set_value_same))]
    fn settle_entry(
        &self,
        k: usize,
        both: &Both,
        table: &mut IndexMap<Tuple, Stored>,
        out: &mut Frames,
    ) -> Result<(), NoMemory>
        requires { IsUntrimmed both.now.mine.now
            (stored_of table.old.entries both.now.tuple k).progress.edge }
        ensures table { OnOk result (table.new.entries ≡ set_stored table.old.entries
            both.now.tuple (stored_after self.now.scene.now.is_turn self.now.turns
            (stored_of table.old.entries both.now.tuple k) (settle_or_rest
            (is_restarted (kept_scene self.now.scene.now) both.now.tuple) (both_of both.now)
            (stored_of table.old.entries both.now.tuple k).progress self.now.scene.now.is_turn
            self.now.scene.now.tooks.now).progress)) }
        ensures out { OnOk result (out.new ≡ out.old ++ map released_frame (settle_or_rest
            (is_restarted (kept_scene self.now.scene.now) both.now.tuple) (both_of both.now)
            (stored_of table.old.entries both.now.tuple k).progress self.now.scene.now.is_turn
            self.now.scene.now.tooks.now).out) }
        ensures err { OnErr result (Begins out.old out.new) }
        ensures after { OnOk result ((stored_of table.old.entries both.now.tuple k).progress.edge
            ≤ (settle_or_rest (is_restarted (kept_scene self.now.scene.now) both.now.tuple)
            (both_of both.now) (stored_of table.old.entries both.now.tuple k).progress
            self.now.scene.now.is_turn self.now.scene.now.tooks.now).progress.edge) }
    {
        match table.get_mut(&both.tuple) {
            Some(stored) => self.settle_stored(both, stored, out),
            None => {
                let mut stored = Stored::new(k);
                self.settle_stored(both, &mut stored, out)?;
                add_stored(table, both.tuple, stored)
            }
        }
    }

    /// Settles one place of the table, where it has an entry.
    #[tactic(auto, unfolding(crate::specs::Places::settle_entry, settle_table::specs::Kept::line_settled))]
    pub fn settle_place(
        &self,
        k: usize,
        table: &mut IndexMap<Tuple, Stored>,
        out: &mut Frames,
    ) -> Result<(), NoMemory>
        requires { AreStoredUntrimmed self.now.scene.now.mine.now table.old.entries }
        ensures table { OnOk result (table.new.entries ≡ (settle_place
            (kept_scene self.now.scene.now) self.now.turns table.old.entries k).table) }
        ensures out { OnOk result (out.new ≡ out.old ++ map released_frame (settle_place
            (kept_scene self.now.scene.now) self.now.turns table.old.entries k).out) }
        ensures err { OnErr result (Begins out.old out.new) }
        ensures untrimmed { OnOk result
            (AreStoredUntrimmed self.now.scene.now.mine.now table.new.entries) }
    {
        match self.scene.mine.entry(k) {
            None => Ok(()),
            Some((tuple, line)) => {
                let both = both_lines(self.scene, *tuple, line);
                self.settle_entry(k, &both, table, out)
            }
        }
    }

    /// Settles some places, one after the other. No line is trimmed past its edge. After `NoMemory`
    /// the list begins with what it held.
    pub fn settle_places(
        &self,
        places: &[usize],
        table: &mut IndexMap<Tuple, Stored>,
        out: &mut Frames,
    ) -> Result<(), NoMemory>
        requires { AreStoredUntrimmed self.now.scene.now.mine.now table.old.entries }
        ensures table { OnOk result (table.new.entries ≡ (settle_places
            (kept_scene self.now.scene.now) self.now.turns table.old.entries places.now).table) }
        ensures out { OnOk result (out.new ≡ out.old ++ map released_frame (settle_places
            (kept_scene self.now.scene.now) self.now.turns table.old.entries places.now).out) }
        ensures err { OnErr result (Begins out.old out.new) }
        ensures untrimmed { OnOk result
            (AreStoredUntrimmed self.now.scene.now.mine.now table.new.entries) }
    {
        for place in places {
            self.settle_place(*place, table, out)?;
        }
        Ok(())
    }
}
