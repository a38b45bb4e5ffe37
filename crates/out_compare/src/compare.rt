//! The comparer.

ghost use Rattle.std.specs.Prelude.{◌≡◌, ◌++◌, true, false, map, OnOk, OnErr, IfOk, IsErr, length, take};
ghost use Rattle.settle_rules.specs.Release.{released_frame};
ghost use Rattle.tcp_track.specs.Tracking.{took_of};

use crate::surviving::survive;
use crate::tables::{
    Tables, acknowledge, capture, learn, look, no_tables, settle, take_heard, take_own,
};
use colo_base::{Frames, NoMemory};
use inet_frame::{TcpView, Tuple};
use seq_rewriter::Numbers;
use settle_table::Need;
use std::alloc::Global;
use std::marker::Model;
use tcp_track::{Offset, Opening, Took, Tracker};

/// What the releasing node knows of both guests: its own guest's lines, the other's as far as it
/// heard, the numbers under which clients know their connections, and how far each was released.
/// After a call that answered `NoMemory` it answers that from then on.
#[derive(Drop)]
pub struct Compare {
    tables: Tables,
    spent: bool,
}

impl Model for Compare {
    ghost use Rattle.out_compare.specs.Held.{Held, IsSound, comparing};

    ghost Value = { Held };

    ghost view = { λ c. record { comparing = comparing c.tables; spent = c.spent } };

    ghost invariant = { λ c. IsSound (record { comparing = comparing c.tables; spent = c.spent }) };
}

impl Compare {
    ghost use Rattle.out_compare.specs.Held.{holds};
    ghost use Rattle.out_compare.specs.Comparing.{nothing_compared, take_own, take_heard, learn, settlement_of, need_after, settle, capture, acknowledge, leave_alone};
    ghost use Rattle.out_compare.specs.Look.{look, look_after};
    ghost use Rattle.out_compare.specs.Noting.{new_number};
    ghost use Rattle.out_compare.specs.Surviving.{survive, survivor};

    /// Nothing sent yet. It takes no memory.
    pub fn new(alloc: Global) -> Compare
        ensures { result ≡ holds nothing_compared }
    {
        Compare {
            tables: no_tables(alloc),
            spent: false,
        }
    }

    /// Takes a frame that the node's own guest sent, and says what it was.
    pub fn primary(&mut self, frame: &[u8]) -> Result<Took, NoMemory>
        ensures answer { IfOk result (λ took. took ≡ took_of self.old.comparing.mine frame.now) }
        ensures after { OnOk result (self.new ≡ holds (take_own self.old.comparing frame.now)) }
        ensures err { OnErr result (self.new.spent ≡ true) }
        ensures spent { self.old.spent ≡ true → IsErr result }
    {
        let (took, number) = self.own(frame)?;
        let _ = number;
        Ok(took)
    }

    /// As `primary`, and says the number of the frame's opening where that is newly kept: it is to
    /// be told to the other node, which answers by `known`.
    pub fn own(&mut self, frame: &[u8]) -> Result<(Took, Option<u32>), NoMemory>
        ensures answer { IfOk result (λ own. own.0
            ≡ took_of self.old.comparing.mine frame.now) }
        ensures number { IfOk result (λ own. own.1 ≡ new_number self.old.comparing.numbers
            (took_of self.old.comparing.mine frame.now)) }
        ensures after { OnOk result (self.new ≡ holds (take_own self.old.comparing frame.now)) }
        ensures err { OnErr result (self.new.spent ≡ true) }
        ensures spent { self.old.spent ≡ true → IsErr result }
    {
        if self.spent {
            return Err(NoMemory);
        }
        match take_own(&mut self.tables, frame) {
            Ok(own) => Ok(own),
            Err(NoMemory) => {
                self.spent = true;
                Err(NoMemory)
            }
        }
    }

    /// Takes a frame that the other node's guest sent, and says what it was.
    pub fn secondary(&mut self, frame: &[u8]) -> Result<Took, NoMemory>
        ensures answer { IfOk result (λ took. took ≡ took_of self.old.comparing.theirs frame.now) }
        ensures after { OnOk result (self.new ≡ holds (take_heard self.old.comparing frame.now)) }
        ensures err { OnErr result (self.new.spent ≡ true) }
        ensures spent { self.old.spent ≡ true → IsErr result }
    {
        if self.spent {
            return Err(NoMemory);
        }
        match take_heard(&mut self.tables, frame) {
            Ok(took) => Ok(took),
            Err(NoMemory) => {
                self.spent = true;
                Err(NoMemory)
            }
        }
    }

    /// The other node is known to have a client's number. A number other than the kept one is
    /// ignored. It takes no memory.
    pub fn known(&mut self, tuple: &Tuple, client: u32, number: u32)
        ensures after { self.new.comparing ≡ learn self.old.comparing tuple.now client number }
        ensures spent { self.new.spent ≡ self.old.spent }
    {
        learn(&mut self.tables, *tuple, client, number);
    }

    /// Ends an event: adds what it releases to `out`, and says whether a checkpoint is to start;
    /// `turn` says that the event is a turn of the node's guest. After `NoMemory` the list is as it
    /// was.
    #[tactic(auto, using(crate::proofs::CutLemmas::cut_again))]
    pub fn settle(&mut self, turn: bool, out: &mut Frames) -> Result<Need, NoMemory>
        ensures after { OnOk result (self.new ≡ holds (settle self.old.comparing turn)) }
        ensures out { OnOk result (out.new ≡ out.old
            ++ map released_frame (settlement_of self.old.comparing turn).out) }
        ensures need { IfOk result (λ need. need ≡ need_after self.old.comparing turn) }
        ensures same { OnErr result (out.new ≡ out.old) }
        ensures err { OnErr result (self.new.spent ≡ true) }
        ensures spent { self.old.spent ≡ true → IsErr result }
    {
        if self.spent {
            return Err(NoMemory);
        }
        let count = out.len();
        match settle(&mut self.tables, turn, out) {
            Ok(need) => Ok(need),
            Err(NoMemory) => {
                out.truncate(count);
                self.spent = true;
                Err(NoMemory)
            }
        }
    }

    /// What a client has seen of its connection, and how far its segment trims: both guests' lines
    /// are trimmed so, since neither is asked for what the client has. It takes no memory.
    pub fn client(&mut self, view: &TcpView) -> (Option<Opening>, Offset)
        ensures seen { result.0 ≡ (look self.old.comparing view.now).seen }
        ensures trim { result.1 ≡ (look self.old.comparing view.now).trim }
        ensures after { self.new.comparing ≡ look_after self.old.comparing view.now }
        ensures spent { self.new.spent ≡ self.old.spent }
    {
        look(&mut self.tables, view)
    }

    /// A checkpoint was captured: the numbers of the current openings alone are kept. It takes no
    /// memory.
    pub fn captured(&mut self)
        ensures after { self.new.comparing ≡ capture self.old.comparing }
        ensures spent { self.new.spent ≡ self.old.spent }
    {
        capture(&mut self.tables);
    }

    /// A checkpoint was acknowledged: the current openings are a new restart record, the other
    /// node's known lines are a copy of the node's own, all numbers are known, and ages are counted
    /// anew.
    pub fn acknowledged(&mut self) -> Result<(), NoMemory>
        ensures after { OnOk result (self.new ≡ holds (acknowledge self.old.comparing)) }
        ensures err { OnErr result (self.new.spent ≡ true) }
        ensures spent { self.old.spent ≡ true → IsErr result }
    {
        if self.spent {
            return Err(NoMemory);
        }
        match acknowledge(&mut self.tables) {
            Ok(()) => Ok(()),
            Err(NoMemory) => {
                self.spent = true;
                Err(NoMemory)
            }
        }
    }

    /// The node's own lines.
    pub fn lines(&self) -> &Tracker
        ensures { result.now ≡ self.now.comparing.mine }
    {
        &self.tables.mine
    }

    /// The kept numbers.
    pub fn numbers(&self) -> &Numbers
        ensures { result.now ≡ self.now.comparing.numbers }
    {
        &self.tables.numbers
    }

    /// The comparer of a surviving secondary, alone, which adds its release at the report of the
    /// primary's stop to `out`. After `NoMemory` the list is as it was.
    #[tactic(auto, using(crate::proofs::CutLemmas::cut_again))]
    pub fn survive(
        alloc: Global,
        lines: Tracker,
        numbers: Numbers,
        out: &mut Frames,
    ) -> Result<Compare, NoMemory>
        ensures after { IfOk result (λ c. c ≡ holds (survivor lines (survive lines numbers))) }
        ensures out { OnOk result (out.new ≡ out.old
            ++ map released_frame (survive lines numbers).out) }
        ensures err { OnErr result (out.new ≡ out.old) }
    {
        let held = out.len();
        match survive(alloc, lines, numbers, out) {
            Ok(tables) => Ok(Compare {
                tables,
                spent: false,
            }),
            Err(NoMemory) => {
                out.truncate(held);
                Err(NoMemory)
            }
        }
    }

    /// Says whether the node is alone.
    pub fn is_alone(&self) -> bool
        ensures { result ≡ self.now.comparing.is_alone }
    {
        self.tables.is_alone
    }

    /// The other node stopped: from now on the node is alone. It takes no memory.
    pub fn alone(&mut self)
        ensures after { self.new.comparing ≡ leave_alone self.old.comparing }
        ensures spent { self.new.spent ≡ self.old.spent }
    {
        self.tables.is_alone = true;
    }
}
