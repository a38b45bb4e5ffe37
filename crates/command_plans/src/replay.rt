//! The events of a pair by the lines of a schedule, and what they leave.

ghost use Rattle.std.specs.Prelude.{◌≡◌, ◌+◌, ◌<◌, ◌≤◌, ◌^◌, ◌++◌, [], None, IfOk, IfErr, OnOk, codes, get_or, length, string_bytes, sum_by};
ghost use Rattle.replay_log.specs.Texts.{record_text};
ghost use Rattle.sock_link.specs.Stream.{record_of, stream_of};
ghost use Rattle.file_steps.specs.Steps.{FailsToWrite, Writes, append_step};
ghost use Rattle.pair_core.specs.Events.{event_of};
ghost use Rattle.pair_core.specs.Pair.{pair_of};
ghost use Rattle.pair_core.specs.Steps.{HasLimits, IsStep, refusal};
ghost use Rattle.command_plans.specs.Replay.{captures_by, count, event_at, page_steps, sector_steps, state_steps, writes_of};
ghost use Rattle.command_plans.specs.Steps.{counts_line, writes_by};

use colo_base::{Frames, NoMemory, Shelf};
use file_steps::{Fault, append, write_event};
use pair_core::{Pair, Step, StepFault};
use replay_log::{Line, Mark, Marks, Record, write_record};
use state_wire::Guest;
use std::alloc::{AllocError, Global};

/// The files of a replay, in the order in which they are created.
pub const REPLAY_FILES: [&str; 5] = [".log", ".released", ".wire", ".ram", ".disk"];

/// Adds a frame, after its length in four bytes.
#[tactic(auto, unfolding(sock_link::specs::Stream::record_of))]
fn add_record(frame: &[u8], into: &mut Vec<u8>) -> Result<(), AllocError>
    ensures { OnOk result (into.new.items ≡ into.old.items ++ record_of frame.now) }
{
    let length = frame.len() as u64;
    into.extend_from_slice(&length.to_be_bytes()[4..])?;
    into.extend_from_slice(frame)
}

/// The frames, each after its length.
pub fn stream(alloc: Global, frames: &Frames) -> Result<Vec<u8>, NoMemory>
    ensures { IfOk result (λ text. text.items ≡ stream_of frames.now) }
{
    let mut text = Vec::new(alloc);
    for k in 0..frames.len() {
        match frames.get(k) {
            Some(frame) => add_record(frame, &mut text)?,
            None => unreachable!(),
        }
    }
    Ok(text)
}

/// The text of an event in the log.
fn log_text(alloc: Global, entry: &Record) -> Result<Vec<u8>, NoMemory>
    ensures { IfOk result (λ text. text.items ≡ record_text entry.now) }
{
    let mut text = Vec::new(alloc);
    write_record(entry, &mut text)?;
    Ok(text)
}

/// Writes what an event leaves.
pub fn write_step<S: Shelf>(
    alloc: Global,
    shelf: &mut S,
    out: &str,
    step: &Step,
) -> Result<(), Fault>
    ensures done { OnOk result (Writes out.now (writes_by step.now) (S.state shelf.old)
        (S.state shelf.new)) }
    ensures fails { IfErr result (FailsToWrite out.now (writes_by step.now) (S.state shelf.old)
        (S.state shelf.new)) }
{
    let log = log_text(alloc, &step.entry)?;
    let released = stream(alloc, &step.released)?;
    write_event(alloc, shelf, out, &log, &released, &step.wire)
}

/// What a run is counted by: its events, the frames released, and the checkpoints begun.
#[derive(Clone, Copy)]
pub struct Counts {
    /// How many events were made.
    pub lines: u64,
    /// How many frames they released, 2^64 - 1 at most.
    pub released: u64,
    /// How many checkpoints they began, 2^64 - 1 at most.
    pub captured: u64,
}

/// How many of the marks begin a checkpoint.
fn captures_in(marks: &Marks) -> u64
    ensures { result ≡ count (sum_by captures_by marks.now) }
{
    let mut captured: u64 = 0;
    for mark in marks.as_slice() {
        if matches!(*mark, Mark::Captured { .. }) {
            captured = captured.saturating_add(1);
        }
    }
    captured
}

/// Counts one event more.
pub fn count_step(counts: Counts, step: &Step) -> Counts
    requires { counts.lines < 2 ^ 63 }
    ensures lines { result.lines ≡ counts.lines + 1 }
    ensures released { result.released ≡ count (counts.released + length step.now.released) }
    ensures captured { result.captured
        ≡ count (counts.captured + count (sum_by captures_by step.now.entry.marks)) }
{
    Counts {
        lines: counts.lines + 1,
        released: counts.released.saturating_add(step.released.len() as u64),
        captured: counts
            .captured
            .saturating_add(captures_in(&step.entry.marks)),
    }
}

/// Makes the event of a line, and writes what it leaves.
pub fn run_line<S: Shelf, G: Guest + Drop>(
    alloc: Global,
    shelf: &mut S,
    out: &str,
    pair: &mut Pair<G>,
    line: &Line,
) -> Result<Step, Fault>
    requires limits { HasLimits line.now }
    requires counted { pair.old.steps < 2 ^ 63 }
    requires good { refusal (pair_of G.meaning pair.old) line.now ≡ None }
    ensures after { OnOk result (pair_of G.meaning pair.new
        ≡ (event_of (pair_of G.meaning pair.old) line.now).after) }
    ensures step { IfOk result (IsStep (pair_of G.meaning pair.old) line.now) }
    ensures steps { OnOk result (pair.new.steps ≡ pair.old.steps + 1) }
    ensures done { OnOk result (Writes out.now
        (writes_of (event_at (pair_of G.meaning pair.old) line.now)) (S.state shelf.old)
        (S.state shelf.new)) }
    ensures fails { IfErr result (FailsToWrite out.now
        (writes_of (event_at (pair_of G.meaning pair.old) line.now)) (S.state shelf.old)
        (S.state shelf.new)) }
{
    let step = match pair.step(line) {
        Ok(step) => step,
        Err(StepFault::NoMemory) => return Err(Fault::NoMemory),
        Err(StepFault::SecondStop | StepFault::FalseReport) => unreachable!(),
    };
    write_step(alloc, shelf, out, &step)?;
    Ok(step)
}

/// Writes a page of memory.
fn write_page<S: Shelf, G: Guest>(
    alloc: Global,
    shelf: &mut S,
    out: &str,
    guest: &G,
    k: u32,
) -> Result<(), Fault>
    requires { k < length (G.meaning guest.now).state.pages }
    ensures done { OnOk result (Writes out.now (append_step (codes ".ram")
        (get_or (G.meaning guest.now).state.pages k [])) (S.state shelf.old)
        (S.state shelf.new)) }
    ensures fails { IfErr result (FailsToWrite out.now (append_step (codes ".ram")
        (get_or (G.meaning guest.now).state.pages k [])) (S.state shelf.old)
        (S.state shelf.new)) }
{
    match guest.page(k) {
        Some(page) => append(alloc, shelf, out, ".ram", page),
        None => unreachable!(),
    }
}

/// Writes a sector of the disk.
fn write_sector<S: Shelf, G: Guest>(
    alloc: Global,
    shelf: &mut S,
    out: &str,
    guest: &G,
    k: u32,
) -> Result<(), Fault>
    requires { k < length (G.meaning guest.now).state.sectors }
    ensures done { OnOk result (Writes out.now (append_step (codes ".disk")
        (get_or (G.meaning guest.now).state.sectors k [])) (S.state shelf.old)
        (S.state shelf.new)) }
    ensures fails { IfErr result (FailsToWrite out.now (append_step (codes ".disk")
        (get_or (G.meaning guest.now).state.sectors k [])) (S.state shelf.old)
        (S.state shelf.new)) }
{
    match guest.sector(k) {
        Some(sector) => append(alloc, shelf, out, ".disk", sector),
        None => unreachable!(),
    }
}

/// Writes memory, a page at a time.
fn write_memory<S: Shelf, G: Guest>(
    alloc: Global,
    shelf: &mut S,
    out: &str,
    guest: &G,
) -> Result<(), Fault>
    ensures done { OnOk result (Writes out.now
        (page_steps (G.meaning guest.now).state.pages) (S.state shelf.old) (S.state shelf.new)) }
    ensures fails { IfErr result (FailsToWrite out.now
        (page_steps (G.meaning guest.now).state.pages) (S.state shelf.old) (S.state shelf.new)) }
{
    for k in 0..guest.pages() {
        write_page(alloc, shelf, out, guest, k)?;
    }
    Ok(())
}

/// Writes the disk, a sector at a time.
fn write_disk<S: Shelf, G: Guest>(
    alloc: Global,
    shelf: &mut S,
    out: &str,
    guest: &G,
) -> Result<(), Fault>
    ensures done { OnOk result (Writes out.now
        (sector_steps (G.meaning guest.now).state.sectors) (S.state shelf.old)
        (S.state shelf.new)) }
    ensures fails { IfErr result (FailsToWrite out.now
        (sector_steps (G.meaning guest.now).state.sectors) (S.state shelf.old)
        (S.state shelf.new)) }
{
    for k in 0..guest.sectors() {
        write_sector(alloc, shelf, out, guest, k)?;
    }
    Ok(())
}

/// Writes memory and disk of a guest.
pub fn write_state<S: Shelf, G: Guest>(
    alloc: Global,
    shelf: &mut S,
    out: &str,
    guest: &G,
) -> Result<(), Fault>
    ensures done { OnOk result (Writes out.now
        (state_steps (G.meaning guest.now).state) (S.state shelf.old) (S.state shelf.new)) }
    ensures fails { IfErr result (FailsToWrite out.now
        (state_steps (G.meaning guest.now).state) (S.state shelf.old) (S.state shelf.new)) }
{
    write_memory(alloc, shelf, out, guest)?;
    write_disk(alloc, shelf, out, guest)
}

/// The line that a replay ends with.
pub fn summary(alloc: Global, counts: Counts) -> Result<String, AllocError>
    ensures { IfOk result (λ text. string_bytes text ≡ counts_line counts) }
{
    let Counts {
        lines,
        released,
        captured,
    } = counts;
    format!(in alloc; "lines {lines} released {released} captured {captured}\n")
}
