//! What an event tells: its answer and marks in the log, what goes out, and what was delivered.

ghost use Rattle.std.specs.Prelude.{◌≡◌, [], ◌∷◌, ◌++◌, IfOk, OnOk};
ghost use Rattle.pair_core.specs.Events.{ask_marks, capture_marks, gate_answer, told_marks, turn_answer};
ghost use Rattle.pair_core.specs.Inside.{Makes};
ghost use Rattle.pair_core.specs.Events.{nothing};
ghost use Rattle.pair_core.specs.Pair.{Pair};

use colo_base::{Cause, Frames, NoMemory};
use colo_wire::{Gate, Told, Turned};
use replay_log::{Answer, Mark, Marks};
use std::alloc::Global;

/// What an event tells.
#[derive(Drop)]
pub(crate) struct Event {
    pub answer: Answer,
    pub marks: Marks,
    pub released: Frames,
    pub wire: Vec<u8>,
}

/// Nothing but an answer and the frames that go out. It takes no memory.
pub(crate) fn quiet(alloc: Global, answer: Answer, released: Frames) -> Event
    ensures answer { result.answer ≡ answer }
    ensures marks { result.marks ≡ [] }
    ensures released { result.released ≡ released }
    ensures wire { result.wire.items ≡ [] }
{
    Event {
        answer,
        marks: Marks::new(alloc),
        released,
        wire: Vec::new(alloc),
    }
}

/// What is told where nothing happens. It takes no memory.
pub(crate) fn nothing(alloc: Global) -> Event
    ensures { (w : Pair) → Makes result (nothing w) }
{
    quiet(alloc, Answer::Nothing, Frames::new(alloc))
}

/// The answer to a turn.
pub(crate) fn turn_answer(turned: Turned, released: u64) -> Answer
    ensures { result ≡ turn_answer turned released }
{
    match turned {
        Turned::Paused => Answer::Nothing,
        Turned::Made(frame) => Answer::Made { frame, released },
    }
}

/// The answer to a client's frame.
pub(crate) fn gate_answer(index: u64, gate: Gate) -> Answer
    ensures { result ≡ gate_answer index gate }
{
    match gate {
        Gate::Taken { seen, trim } => Answer::Accepted {
            index,
            seen,
            trim,
            released: 0,
        },
        Gate::Answered => Answer::Arp { index },
        Gate::Dropped(why) => Answer::Dropped {
            index,
            why: why.number,
        },
        Gate::Full => Answer::Full { index },
    }
}

/// Adds the mark of a capture, where there was one.
pub(crate) fn mark_capture(capture: Option<(u32, Cause)>, marks: &mut Marks) -> Result<(), NoMemory>
    ensures { OnOk result (marks.new ≡ marks.old ++ capture_marks capture) }
{
    if let Some((e, why)) = capture {
        marks.push(Mark::Captured { e, why })?;
    }
    Ok(())
}

/// The marks of a capture, where there was one.
pub(crate) fn capture_marks(alloc: Global, capture: Option<(u32, Cause)>) -> Result<Marks, NoMemory>
    ensures { IfOk result (λ marks. marks ≡ capture_marks capture) }
{
    let mut marks = Marks::new(alloc);
    mark_capture(capture, &mut marks)?;
    Ok(marks)
}

/// The mark of a checkpoint that was asked for.
pub(crate) fn ask_marks(alloc: Global, asked: Option<u32>) -> Result<Marks, NoMemory>
    ensures { IfOk result (λ marks. marks ≡ ask_marks asked) }
{
    let mut marks = Marks::new(alloc);
    if let Some(e) = asked {
        marks.push(Mark::Captured {
            e,
            why: Cause::Asked,
        })?;
    }
    Ok(marks)
}

/// The marks of a message: the commit, the acknowledgement and the capture that it made.
pub(crate) fn told_marks(alloc: Global, told: &Told) -> Result<Marks, NoMemory>
    ensures { IfOk result (λ marks. marks ≡ told_marks told.now) }
{
    let mut marks = Marks::new(alloc);
    if let Some(e) = told.commit {
        marks.push(Mark::Committed { e })?;
    }
    if let Some(e) = told.ack {
        marks.push(Mark::Acknowledged { e })?;
    }
    mark_capture(told.capture, &mut marks)?;
    Ok(marks)
}

/// The bytes of a delivered message, behind an arrow.
pub(crate) fn wire_of(alloc: Global, arrow: u8, message: &[u8]) -> Result<Vec<u8>, NoMemory>
    ensures { IfOk result (λ wire. wire.items ≡ arrow ∷ message.now) }
{
    let mut wire = Vec::with_capacity(alloc, message.len().saturating_add(1))?;
    wire.push(arrow)?;
    wire.extend_from_slice(message)?;
    Ok(wire)
}
