//! `replay`: two machines from an image's boot state on, run as a pair by the lines of a schedule.

ghost use Rattle.std.specs.Prelude.{◌≡◌, ◌≤◌, All, IfErr, IfOk, Ok, length, string_bytes};
ghost use Rattle.command_inputs.specs.Reading.{IsRefused};
ghost use Rattle.command_inputs.specs.Start.{read_start};
ghost use Rattle.command_plans.specs.Planning.{PlanCompletes, PlanFails};
ghost use Rattle.command_plans.specs.Replay.{AreEvents};
ghost use Rattle.file_steps.specs.ReadBytes.{texts_of};
ghost use Rattle.guest_machine.specs.Guest.{machine_meaning};
ghost use Rattle.pair_core.specs.Steps.{HasLimits};
ghost use Rattle.pair_theorem.specs.Starts.{IsStart};
ghost use Rattle.pair_world.specs.Running.{start_of};
ghost use Rattle.shared_definitions.specs.Bytes.{AreBytes};
ghost use Rattle.replay_plan.specs.LogPlan.{log_plan};
ghost use Rattle.replay_plan.specs.ReplayPlan.{pair_with, replay_texts, start_with};

use crate::log::run_log;
use colo_base::{Frames, NoMemory, Shelf};
use command_inputs::{
    Started, read_machine, read_schedule, read_start, reads_clients, reads_machines,
};
use file_steps::Fault;
use guest_starts::machines_start;
use pair_core::Pair;
use replay_log::Line;
use state_wire::Guest;
use std::alloc::Global;

/// Runs two guests of one state as a pair, to which clients send these frames, by lines none of
/// which is refused, and writes the files of the run. Gives the line to print.
fn run_both<S: Shelf, G: Guest + Drop>(
    alloc: Global,
    shelf: &mut S,
    out: &str,
    first: G,
    second: G,
    frames: Frames,
    lines: &[Line],
) -> Result<String, Fault>
    requires same { G.meaning second ≡ G.meaning first }
    requires start { IsStart (start_of (G.meaning first) (G.meaning first) frames) }
    requires limits { All HasLimits lines.now }
    requires good { AreEvents (pair_with (G.meaning first) frames) lines.now }
    ensures done { IfOk result (λ line. PlanCompletes out.now
        (log_plan (start_of (G.meaning first) (G.meaning first) frames) lines.now)
        (S.state shelf.old) (S.state shelf.new) (string_bytes line)) }
    ensures fails { IfErr result (PlanFails out.now
        (log_plan (start_of (G.meaning first) (G.meaning first) frames) lines.now)
        (S.state shelf.old) (S.state shelf.new)) }
{
    match Pair::with_frames(alloc, first, second, frames) {
        Ok(mut pair) => run_log(alloc, shelf, out, &mut pair, lines),
        Err(NoMemory) => Err(Fault::NoMemory),
    }
}

/// What a slice holds are bytes.
fn are_bytes(bytes: &[u8])
    ensures { AreBytes bytes.now }
{}

/// The machine that the image boots over the disk, and the frames of the client stream: two such
/// machines are a start of the theorem.
fn read_boot(
    alloc: Global,
    mib: u32,
    image: &[u8],
    disk: &[u8],
    client: &[u8],
) -> Result<Started, Fault>
    requires least { 1 ≤ mib }
    requires most { mib ≤ 64 }
    ensures read { IfOk result (λ started. read_start mib image.now disk.now client.now
        ≡ Ok (record { machine = machine_meaning started.machine; frames = started.frames })) }
    ensures starts { IfOk result (λ started. IsStart (start_with (record {
      machine = machine_meaning started.machine;
      frames = started.frames;
    }))) }
    ensures refused { IfErr result (IsRefused (read_start mib image.now disk.now client.now)) }
{
    machines_start();
    reads_machines();
    reads_clients();
    read_start(alloc, mib, image, disk, client)
}

/// Carries the plan of `replay` out, of the four files that it reads: an image, a disk, a client
/// stream and a schedule, with so many MiB of memory, 1 to 64. Gives the line to print.
pub fn run_replay<S: Shelf>(
    alloc: Global,
    shelf: &mut S,
    out: &str,
    mib: u32,
    files: &[Vec<u8>],
) -> Result<String, Fault>
    requires least { 1 ≤ mib }
    requires most { mib ≤ 64 }
    requires all { length files.now ≡ 4 }
    ensures done { IfOk result (λ line. PlanCompletes out.now
        (replay_texts mib (texts_of files.now)) (S.state shelf.old) (S.state shelf.new)
        (string_bytes line)) }
    ensures fails { IfErr result (PlanFails out.now (replay_texts mib (texts_of files.now))
        (S.state shelf.old) (S.state shelf.new)) }
{
    let [image, disk, client, schedule] = files else {
        unreachable!()
    };
    are_bytes(image);
    are_bytes(disk);
    are_bytes(client);
    are_bytes(schedule);
    let started = read_boot(alloc, mib, image, disk, client)?;
    let lines = read_schedule(alloc, schedule)?;
    let second = read_machine(alloc, mib, image, disk)?;
    let Started { machine, frames } = started;
    run_both(alloc, shelf, out, machine, second, frames, &lines)
}
