//! `solo`: a single run made again on one machine, and what it leaves.

ghost use Rattle.std.specs.Prelude.{◌≡◌, ◌≤◌, ◌++◌, All, IfOk, IfErr, None, OnOk, codes, length, string_bytes};
ghost use Rattle.file_steps.specs.ReadBytes.{texts_of};
ghost use Rattle.file_steps.specs.Steps.{FailsToWrite, Writes, append_step};
ghost use Rattle.guest_machine.specs.Guest.{machine_meaning};
ghost use Rattle.splice_run.specs.Solo.{IsInLimits};
ghost use Rattle.state_wire.specs.Guest.{GuestState};
ghost use Rattle.command_plans.specs.Planning.{IsRefusal, PlanCompletes, PlanFails};
ghost use Rattle.command_plans.specs.Replay.{state_steps};
ghost use Rattle.command_plans.specs.Solo.{end_plan, made_line, run_plan, solo_plan, solo_texts};
ghost use Rattle.command_plans.specs.SoloEnds.{IsOwnEnd, ended_plan};

use crate::replay::{stream, write_state};
use colo_base::{Frames, Shelf};
use command_inputs::{Started, line_refusal, read_single, read_start};
use disk_buffers::WholeDisk;
use file_steps::{Fault, Refusal, append, create_all};
use guest_machine::Machine;
use replay_log::Turn;
use splice_run::{SoloFault, solo};
use state_wire::Guest;
use std::alloc::{AllocError, Global};

/// The files of a single run, in the order in which they are created.
const SOLO_FILES: [&str; 3] = [".sent", ".ram", ".disk"];

/// How a single run ends.
#[derive(Drop)]
pub enum RunEnd {
    /// All turns were made.
    Made {
        /// The frames sent, each after its length.
        sent: Vec<u8>,
        /// The line to print.
        line: String,
    },
    /// A turn can't be made.
    Stopped(Refusal),
}

/// The line of so many turns and so many frames sent.
fn made_line(alloc: Global, turns: usize, sent: usize) -> Result<String, AllocError>
    ensures { IfOk result (λ text. string_bytes text ≡ made_line turns sent) }
{
    format!(in alloc; "turns {turns} sent {sent}\n")
}

/// What is said of a run whose turns were all made.
fn made_end(alloc: Global, turns: &[Turn], sent: &Frames) -> Result<RunEnd, Fault>
    ensures plan { IfOk result (λ end. (state : GuestState)
        → ended_plan state end
        ≡ end_plan None turns.now (record { state = state; sent = sent.now })) }
    ensures own { IfOk result IsOwnEnd }
    ensures memory { IfErr result (λ fault. fault ≡ Fault.NoMemory) }
{
    let line = made_line(alloc, turns.len(), sent.len())?;
    let sent = stream(alloc, sent)?;
    Ok(RunEnd::Made { sent, line })
}

/// Makes the turns of a single run on a machine that has made none, and says how the run ends. The
/// machine then stands at the run's last state, unless it stopped.
pub fn make_run<G: Guest>(
    alloc: Global,
    machine: &mut G,
    frames: &Frames,
    turns: &[Turn],
) -> Result<RunEnd, Fault>
    requires { All IsInLimits turns.now }
    ensures plan { IfOk result (λ end. run_plan (G.meaning machine.old) frames.now turns.now
        ≡ ended_plan (G.meaning machine.new).state end) }
    ensures own { IfOk result IsOwnEnd }
    ensures memory { IfErr result (λ fault. fault ≡ Fault.NoMemory) }
{
    let mut sent = Frames::new(alloc);
    match solo(alloc, machine, frames, turns, &mut sent) {
        Ok(()) => made_end(alloc, turns, &sent),
        Err(SoloFault::NoFrame { turn }) => Ok(RunEnd::Stopped(line_refusal(turn))),
        Err(SoloFault::NoMemory) => Err(Fault::NoMemory),
    }
}

/// A machine after a single run, and how the run ended.
#[derive(Drop)]
pub struct SoloRun {
    /// The machine.
    pub machine: Machine<WholeDisk>,
    /// How the run ended.
    pub end: RunEnd,
}

/// The plan of `solo`, of the bytes of an image, a disk, a client stream and a single run, with so
/// many MiB of memory, 1 to 64. It is refused before any file is created by the first of these that
/// is bad.
pub fn plan_solo(
    alloc: Global,
    mib: u32,
    image: &[u8],
    disk: &[u8],
    client: &[u8],
    lines: &[u8],
) -> Result<SoloRun, Fault>
    requires least { 1 ≤ mib }
    requires most { mib ≤ 64 }
    ensures plan { IfOk result (λ run. solo_plan mib image.now disk.now client.now lines.now
        ≡ ended_plan (machine_meaning run.machine).state run.end) }
    ensures own { IfOk result (λ run. IsOwnEnd run.end) }
    ensures refused { IfErr result
        (IsRefusal (solo_plan mib image.now disk.now client.now lines.now)) }
{
    let started = read_start(alloc, mib, image, disk, client)?;
    let turns = read_single(alloc, lines)?;
    let Started {
        mut machine,
        frames,
    } = started;
    let end = make_run(alloc, &mut machine, &frames, &turns)?;
    Ok(SoloRun { machine, end })
}

/// Writes the frames sent, and then memory and disk.
fn write_left<S: Shelf, G: Guest>(
    alloc: Global,
    shelf: &mut S,
    out: &str,
    guest: &G,
    sent: &[u8],
) -> Result<(), Fault>
    ensures done { OnOk result (Writes out.now (append_step (codes ".sent") sent.now
        ++ state_steps (G.meaning guest.now).state) (S.state shelf.old) (S.state shelf.new)) }
    ensures fails { IfErr result (FailsToWrite out.now (append_step (codes ".sent") sent.now
        ++ state_steps (G.meaning guest.now).state) (S.state shelf.old) (S.state shelf.new)) }
{
    append(alloc, shelf, out, ".sent", sent)?;
    write_state(alloc, shelf, out, guest)
}

/// Writes the files of a single run that ended so, with the guest in this state. Gives the line to
/// print. Where the run stopped the files are empty.
fn end_run<S: Shelf, G: Guest>(
    alloc: Global,
    shelf: &mut S,
    out: &str,
    guest: &G,
    end: RunEnd,
) -> Result<String, Fault>
    requires { IsOwnEnd end }
    ensures done { IfOk result (λ line. PlanCompletes out.now
        (ended_plan (G.meaning guest.now).state end) (S.state shelf.old) (S.state shelf.new)
        (string_bytes line)) }
    ensures fails { IfErr result (PlanFails out.now (ended_plan (G.meaning guest.now).state end)
        (S.state shelf.old) (S.state shelf.new)) }
{
    create_all(alloc, shelf, out, &SOLO_FILES)?;
    match end {
        RunEnd::Made { sent, line } => {
            write_left(alloc, shelf, out, guest, &sent)?;
            Ok(line)
        }
        RunEnd::Stopped(refusal) => Err(Fault::Refused(refusal)),
    }
}

/// Carries the plan of `solo` out, of the four files that it reads: an image, a disk, a client
/// stream and a single run, with so many MiB of memory, 1 to 64. Gives the line to print.
pub fn run_solo<S: Shelf>(
    alloc: Global,
    shelf: &mut S,
    out: &str,
    mib: u32,
    files: &[Vec<u8>],
) -> Result<String, Fault>
    requires least { 1 ≤ mib }
    requires most { mib ≤ 64 }
    requires all { length files.now ≡ 4 }
    ensures done { IfOk result (λ line. PlanCompletes out.now (solo_texts mib (texts_of files.now))
        (S.state shelf.old) (S.state shelf.new) (string_bytes line)) }
    ensures fails { IfErr result (PlanFails out.now (solo_texts mib (texts_of files.now))
        (S.state shelf.old) (S.state shelf.new)) }
{
    let [image, disk, client, lines] = files else {
        unreachable!()
    };
    let run = plan_solo(alloc, mib, image, disk, client, lines)?;
    let SoloRun { machine, end } = run;
    end_run(alloc, shelf, out, &machine, end)
}
