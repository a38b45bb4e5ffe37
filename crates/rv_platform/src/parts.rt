//! The parts of a platform, and its steps.

ghost use Rattle.std.specs.Prelude.{◌≡◌, ◌≢◌, ℕ, false, [], OnOk, OnErr};
ghost use Rattle.rv_isa.specs.Table.{IsEncodable, decode};
ghost use Rattle.rv_core.specs.Effect.{IsWordOf};
ghost use Rattle.rv_traps.specs.Trap.{pending_interrupt};
ghost use Rattle.shared_definitions.specs.Begins.{Begins};
ghost use Rattle.rv_platform.specs.Settled.{IsSettled, KeepsKinds, Leaves, platform_of};
ghost use Rattle.rv_platform.specs.Step.{csrs_of, decode_step, enter_by, execute_step, platform_with, quiet, run_steps, send_frames, serve_notify, step, step_from, take_trap};

use crate::board::Board;
use crate::memo::Memo;
use colo_base::{Frames, NoMemory};
use rv_core::{Bus, Hart, Outcome};
use rv_isa::Instr;
use rv_traps::Csrs;
use rv_traps::cause::{ILLEGAL_INSTRUCTION, INSTRUCTION_ACCESS_FAULT};
use virtio_mmio::Served;

/// The hart, the CSRs and the bus, beside words that were decoded. Between two steps the parts are
/// settled: the CSRs have the devices' line, and the bus has the lines and the timer of the CSRs.
#[derive(Drop)]
pub struct Parts {
    pub hart: Hart,
    pub csrs: Csrs,
    pub board: Board,
    pub memo: Memo,
}

impl Parts {
    /// Makes so many steps.
    #[tactic(auto, using(crate::proofs::StepLemmas::no_steps, crate::proofs::StepLemmas::one_more))]
    pub fn run(&mut self, steps: u32, out: &mut Frames) -> Result<(), NoMemory>
        requires settled { IsSettled self.old }
        ensures ok { OnOk result (Leaves (run_steps steps (platform_of self.old))
            (platform_of self.new) out.old out.new) }
        ensures front { OnErr result (Begins out.old out.new) }
        ensures cause { OnErr result ((run_steps steps (platform_of self.old)).frames ≢ []) }
        ensures settled { IsSettled self.new }
        ensures kinds { KeepsKinds (platform_of self.old) (platform_of self.new) }
    {
        for _done in 0..steps {
            self.step(out)?;
        }
        Ok(())
    }

    /// Makes one step, and counts it.
    #[tactic(auto, unfolding(crate::specs::Step::step))]
    #[inline(always)]
    fn step(&mut self, out: &mut Frames) -> Result<(), NoMemory>
        requires settled { IsSettled self.old }
        ensures ok { OnOk result (Leaves (step (platform_of self.old))
            (platform_of self.new) out.old out.new) }
        ensures front { OnErr result (Begins out.old out.new) }
        ensures cause { OnErr result ((step (platform_of self.old)).frames ≢ []) }
        ensures settled { IsSettled self.new }
        ensures kinds { KeepsKinds (platform_of self.old) (platform_of self.new) }
    {
        self.fetch_and_execute(out)?;
        self.csrs.count();
        Ok(())
    }

    /// Enters the interrupt that is due, or else executes the word at pc.
    #[inline(always)]
    fn fetch_and_execute(&mut self, out: &mut Frames) -> Result<(), NoMemory>
        requires settled { IsSettled self.old }
        ensures ok { OnOk result (Leaves
            (step_from (platform_of self.old) (pending_interrupt (csrs_of (platform_of self.old))))
            (platform_of self.new) out.old out.new) }
        ensures front { OnErr result (Begins out.old out.new) }
        ensures cause { OnErr result ((step_from (platform_of self.old)
            (pending_interrupt (csrs_of (platform_of self.old)))).frames ≢ []) }
        ensures settled { IsSettled self.new }
        ensures kinds { KeepsKinds (platform_of self.old) (platform_of self.new) }
    {
        if let Some(cause) = self.csrs.pending() {
            self.enter(cause, 0);
            return Ok(());
        }
        let pc = self.hart.pc();
        match self.board.fetch(pc) {
            Some(word) => self.decode_and_execute(word, out),
            None => {
                self.enter(INSTRUCTION_ACCESS_FAULT, pc);
                Ok(())
            }
        }
    }

    /// Executes the instruction of a word.
    #[inline(always)]
    fn decode_and_execute(&mut self, word: u32, out: &mut Frames) -> Result<(), NoMemory>
        requires settled { IsSettled self.old }
        ensures ok { OnOk result (Leaves (decode_step (platform_of self.old) word (decode word))
            (platform_of self.new) out.old out.new) }
        ensures front { OnErr result (Begins out.old out.new) }
        ensures cause { OnErr result
            ((decode_step (platform_of self.old) word (decode word)).frames ≢ []) }
        ensures settled { IsSettled self.new }
        ensures kinds { KeepsKinds (platform_of self.old) (platform_of self.new) }
    {
        let pc = self.hart.pc();
        let Some(instr) = self.memo.decode(pc, word) else {
            self.enter(ILLEGAL_INSTRUCTION, word);
            return Ok(());
        };
        self.execute(&instr, out)
    }

    /// Executes an instruction over the bus, takes over what it did to registers outside the hart,
    /// and enters its trap.
    #[inline(always)]
    fn execute(&mut self, instr: &Instr, out: &mut Frames) -> Result<(), NoMemory>
        requires settled { IsSettled self.old }
        requires encodable { IsEncodable instr.now }
        ensures ok { (word : ℕ) → IsWordOf word instr.now
            → OnOk result (Leaves (execute_step (platform_of self.old) word instr.now)
            (platform_of self.new) out.old out.new) }
        ensures front { OnErr result (Begins out.old out.new) }
        ensures cause { (word : ℕ) → IsWordOf word instr.now
            → OnErr result ((execute_step (platform_of self.old) word instr.now).frames ≢ []) }
        ensures settled { IsSettled self.new }
        ensures kinds { KeepsKinds (platform_of self.old) (platform_of self.new) }
    {
        let outcome = self.hart.execute(instr, &mut self.csrs, &mut self.board)?;
        self.catch_up(out)?;
        self.enter_by(outcome);
        Ok(())
    }

    /// Takes over what a store to a register did, if there was one.
    #[inline(always)]
    fn catch_up(&mut self, out: &mut Frames) -> Result<(), NoMemory>
        requires time { self.old.board.clint.mtime ≡ self.old.csrs.mtime }
        requires untouched { self.old.board.touched ≡ false → IsSettled self.old }
        ensures ok { OnOk result (Leaves (serve_notify self.old.board.notified
            (platform_with self.old.hart self.old.csrs self.old.board))
            (platform_of self.new) out.old out.new) }
        ensures front { OnErr result (Begins out.old out.new) }
        ensures cause { OnErr result ((serve_notify self.old.board.notified
            (platform_with self.old.hart self.old.csrs self.old.board)).frames ≢ []) }
        ensures settled { IsSettled self.new }
        ensures kinds { KeepsKinds (platform_of self.old) (platform_of self.new) }
    {
        if self.board.touched {
            self.settle(out)
        } else {
            Ok(())
        }
    }

    /// Takes over what a store to a register did: the line and the timer of the interruptor, a
    /// notify of the network card's send queue, and the devices' line.
    #[inline(never)]
    fn settle(&mut self, out: &mut Frames) -> Result<(), NoMemory>
        requires time { self.old.board.clint.mtime ≡ self.old.csrs.mtime }
        ensures ok { OnOk result (Leaves (serve_notify self.old.board.notified
            (platform_with self.old.hart self.old.csrs self.old.board))
            (platform_of self.new) out.old out.new) }
        ensures front { OnErr result (Begins out.old out.new) }
        ensures cause { OnErr result ((serve_notify self.old.board.notified
            (platform_with self.old.hart self.old.csrs self.old.board)).frames ≢ []) }
        ensures settled { IsSettled self.new }
        ensures kinds { KeepsKinds (platform_of self.old) (platform_of self.new) }
    {
        self.board.touched = false;
        self.csrs.set_msip(self.board.clint.msip);
        self.csrs.set_mtimecmp(self.board.clint.mtimecmp);
        let sent = self.serve_notify(out);
        self.csrs.external(self.board.is_raised());
        sent
    }

    /// Sends what the driver of the network card put into its send queue, where it notified that
    /// queue.
    #[tactic(auto, unfolding(crate::specs::Step::send_frames))]
    fn serve_notify(&mut self, out: &mut Frames) -> Result<(), NoMemory>
        ensures ok { OnOk result (Leaves (serve_notify self.old.board.notified
            (platform_of self.old)) (platform_of self.new) out.old out.new) }
        ensures front { OnErr result (Begins out.old out.new) }
        ensures cause { OnErr result
            ((serve_notify self.old.board.notified (platform_of self.old)).frames ≢ []) }
        ensures kinds { KeepsKinds (platform_of self.old) (platform_of self.new) }
        ensures csrs { self.new.csrs ≡ self.old.csrs }
        ensures clint { self.new.board.clint ≡ self.old.board.clint }
        ensures touched { self.new.board.touched ≡ self.old.board.touched }
        ensures notified { self.new.board.notified ≡ false }
    {
        if !self.board.notified {
            return Ok(());
        }
        self.board.notified = false;
        match self.board.net.sent(&mut self.board.ram, out)? {
            Served::Idle => {}
            Served::Done | Served::Broken(_) => self.hart.unreserve(),
        }
        Ok(())
    }

    /// Enters the trap of an instruction, if it trapped.
    #[inline(always)]
    fn enter_by(&mut self, outcome: Outcome)
        requires settled { IsSettled self.old }
        ensures after { platform_of self.new ≡ enter_by outcome (platform_of self.old) }
        ensures settled { IsSettled self.new }
        ensures kinds { KeepsKinds (platform_of self.old) (platform_of self.new) }
    {
        if let Outcome::Trap { cause, value } = outcome {
            self.enter(cause, value);
        }
    }

    /// Enters a trap or an interrupt.
    #[tactic(auto, unfolding(rv_traps::specs::Trap::enter_trap))]
    #[inline(never)]
    fn enter(&mut self, cause: u32, value: u32)
        requires settled { IsSettled self.old }
        ensures after { platform_of self.new ≡ take_trap (platform_of self.old) cause value }
        ensures settled { IsSettled self.new }
        ensures kinds { KeepsKinds (platform_of self.old) (platform_of self.new) }
    {
        let pc = self.hart.pc();
        let target = self.csrs.enter(cause, value, pc);
        self.hart.enter(target);
    }
}
