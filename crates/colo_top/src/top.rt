//! The top call.

ghost use Rattle.std.specs.Prelude.{◌≡◌};
ghost use Rattle.colo_base.specs.Clock.{ClockState};
ghost use Rattle.colo_base.specs.Link.{LinkState};
ghost use Rattle.colo_words.specs.Words.{texts};
ghost use Rattle.command_tasks.specs.Tasks.{read_task};
ghost use Rattle.file_steps.specs.Ending.{Ends, HasEnded};
ghost use Rattle.file_steps.specs.Steps.{outside};
ghost use Rattle.replay_laws.specs.Headline.{IsOnePair};

use colo_base::{Clock, Link, Shelf, Sink};
use command_tasks::{carry_out, read_words};
use file_steps::{Fault, end_call};
use replay_laws::each_replay_is_one_pair;
use std::alloc::Global;

/// The top call: carries out the command that the words spell, and gives the status to end with.
///
/// `words` are those after the program's name.
///
/// - `replay IMAGE DISK CLIENT SCHEDULE OUT` boots two machines from the ELF file IMAGE with the
///   disk DISK, runs them as a pair by the lines of SCHEDULE with the frames of CLIENT, and writes
///   `OUT.log`, `OUT.released`, `OUT.wire`, and the survivor's `OUT.ram` and `OUT.disk`.
/// - `solo IMAGE DISK CLIENT SINGLE OUT` boots the same machine, makes the turns of the single run
///   SINGLE with the frames of CLIENT that they name, and writes `OUT.sent`, `OUT.ram` and
///   `OUT.disk`.
/// - `splice LOG SINGLE` writes the single run that LOG names to the file SINGLE.
/// - `image NAME OUT` writes a demo image to the file OUT; NAME is `mute`, `echo`, `clocked` or
///   `disk_log`.
///
/// | Status | Comes | Printed |
/// |---|---|---|
/// | 0 | else | `lines L released R captured C`; of `solo` `turns T sent F`; of `splice` `turns T`; of `image` `bytes B` |
/// | 1 | exactly where the words spell no command | `usage` |
/// | 2 | where a case of the loader holds of the image, the first | `image: K` |
/// | 3 | where no disk has the length of DISK | `disk: LENGTH` |
/// | 4 | where the schedule, the single run or the log has a bad line, the first; or where a turn of `solo` names a frame that isn't there, isn't accepted or can't be received | `line N` |
/// | 5 | where the client stream has a length above 69,632 or ends within a record | `client: BYTE`, where that record begins |
/// | 6 | only where fetching a file failed | `read failed` |
/// | 7 | only where creating or appending to a file failed, or putting the summary | `write failed` |
/// | 8 | where an allocation was refused | `no memory` |
///
/// Options follow the other words: `--ram N` for N MiB of memory, 1 to 64, in the place of 16.
///
/// The tests stand in the order 1, 6, 2, 3, 5, 4. Before the files are created nothing changes.
/// A turn of `solo` without its frame comes afterwards, and leaves them empty.
/// A put that fails is the last. No command uses the link or the clock yet.
pub fn colo<S: Shelf, L: Link, K: Clock, O: Sink>(
    alloc: Global,
    words: &[String],
    shelf: &mut S,
    link: &mut L,
    clock: &mut K,
    out: &mut O,
) -> u8
    ensures ends { Ends (record {
      task = read_task (texts words.now);
      before = outside (S.state shelf.old) (L.state link.old) (K.state clock.old);
      after = outside (S.state shelf.new) (L.state link.new) (K.state clock.new);
      sink_before = O.state out.old;
      sink_after = O.state out.new;
      status = result;
    }) }
    ensures theorem { IsOnePair (texts words.now) (record {
      task = read_task (texts words.now);
      before = outside (S.state shelf.old) (L.state link.old) (K.state clock.old);
      after = outside (S.state shelf.new) (L.state link.new) (K.state clock.new);
      sink_before = O.state out.old;
      sink_after = O.state out.new;
      status = result;
    }) }
    ensures link { link.new ≡ link.old }
    ensures clock { clock.new ≡ clock.old }
{
    each_replay_is_one_pair();
    let work = carry_words(alloc, words, shelf);
    end_call(out, work)
}

/// Carries out the task that the words name. Gives the line to print.
fn carry_words<S: Shelf>(alloc: Global, words: &[String], shelf: &mut S) -> Result<String, Fault>
    ensures { (l : LinkState) (k : ClockState) → HasEnded (read_task (texts words.now))
        (outside (S.state shelf.old) l k) (outside (S.state shelf.new) l k) result }
{
    match read_words(words) {
        None => Err(Fault::Usage),
        Some(command) => carry_out(alloc, shelf, &command),
    }
}
