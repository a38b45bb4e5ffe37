//! `serve`: two machines from an image's boot state on, run as a pair on a live link.

ghost use Rattle.std.specs.Prelude.{◌≡◌, ◌≤◌, IfOk, IfErr, length, string_bytes};
ghost use Rattle.file_steps.specs.Plans.{done};
ghost use Rattle.file_steps.specs.ReadBytes.{texts_of};
ghost use Rattle.file_steps.specs.Steps.{outside};
ghost use Rattle.pair_core.specs.Pair.{new_pair};
ghost use Rattle.serve_rounds.specs.Rounds.{serve};
ghost use Rattle.serve_rounds.specs.Work.{EndsWith, IsStopped};
ghost use Rattle.serve_plan.specs.ServePlan.{serve_texts};

use colo_base::{Clock, Link, Shelf};
use colo_words::Options;
use command_inputs::read_machine;
use file_steps::Fault;
use pair_core::Pair;
use serve_rounds::run_rounds;
use state_wire::Guest;
use std::alloc::Global;

/// Runs two guests of one state as a pair on a live link, and writes the files of the run. Gives
/// the line to print.
fn run_both<S: Shelf, L: Link, K: Clock, G: Guest + Drop>(
    alloc: Global,
    shelf: &mut S,
    link: &mut L,
    clock: &mut K,
    out: &str,
    address: &str,
    options: &Options,
    first: G,
    second: G,
) -> Result<String, Fault>
    requires same { G.meaning second ≡ G.meaning first }
    requires limits { options.now.steps ≤ 100000 }
    ensures line { IfOk result (λ line. EndsWith out.now
        (serve options.now (new_pair (G.meaning first) (G.meaning first)) address.now)
        (done (string_bytes line))
        (outside (S.state shelf.old) (L.state link.old) (K.state clock.old))
        (outside (S.state shelf.new) (L.state link.new) (K.state clock.new))) }
    ensures stops { IfErr result (IsStopped out.now
        (serve options.now (new_pair (G.meaning first) (G.meaning first)) address.now)
        (outside (S.state shelf.old) (L.state link.old) (K.state clock.old))
        (outside (S.state shelf.new) (L.state link.new) (K.state clock.new))) }
{
    let mut pair = Pair::new(alloc, first, second)?;
    run_rounds(alloc, shelf, link, clock, out, address, &mut pair, options)
}

/// Carries the plan of `serve` out, of the two files that it reads: an image and a disk. The pair
/// runs over the link to the address, and the files of the run are named after `out`. Gives the
/// line to print.
pub fn run_serve<S: Shelf, L: Link, K: Clock>(
    alloc: Global,
    shelf: &mut S,
    link: &mut L,
    clock: &mut K,
    out: &str,
    address: &str,
    options: &Options,
    files: &[Vec<u8>],
) -> Result<String, Fault>
    requires least { 1 ≤ options.now.ram }
    requires most { options.now.ram ≤ 64 }
    requires limits { options.now.steps ≤ 100000 }
    requires all { length files.now ≡ 2 }
    ensures line { IfOk result (λ line. EndsWith out.now
        (serve_texts options.now address.now (texts_of files.now)) (done (string_bytes line))
        (outside (S.state shelf.old) (L.state link.old) (K.state clock.old))
        (outside (S.state shelf.new) (L.state link.new) (K.state clock.new))) }
    ensures stops { IfErr result (IsStopped out.now
        (serve_texts options.now address.now (texts_of files.now))
        (outside (S.state shelf.old) (L.state link.old) (K.state clock.old))
        (outside (S.state shelf.new) (L.state link.new) (K.state clock.new))) }
{
    let [image, disk] = files else { unreachable!() };
    let first = read_machine(alloc, options.ram, image, disk)?;
    let second = read_machine(alloc, options.ram, image, disk)?;
    run_both(
        alloc, shelf, link, clock, out, address, options, first, second,
    )
}
