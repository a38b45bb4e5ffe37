//! The end of a call: its line is put, and its status given.

ghost use Rattle.std.specs.Prelude.{◌≡◌, ◌⊎◌, Option};
ghost use Rattle.colo_base.specs.Count.{Increased};
ghost use Rattle.colo_base.specs.Sink.{SinkGoesOn, Puts, PutsPart};
ghost use Rattle.file_steps.specs.Ending.{Ends, HasEnded, Prints};
ghost use Rattle.file_steps.specs.Plans.{Task};
ghost use Rattle.file_steps.specs.Status.{fault_line, fault_status};
ghost use Rattle.file_steps.specs.Steps.{Outside};

use crate::fault::Fault;
use colo_base::Sink;

/// Puts the line of work that is done.
fn put_line<O: Sink>(out: &mut O, line: &[u8]) -> u8
    ensures either { ((result ≡ 0) × Puts (O.state out.old) (O.state out.new) line.now
        × ((O.state out.new).faults ≡ (O.state out.old).faults))
        ⊎ ((result ≡ 7) × PutsPart (O.state out.old) (O.state out.new) line.now
        × Increased (O.state out.old).faults (O.state out.new).faults) }
    ensures goes_on { SinkGoesOn (O.state out.old) (O.state out.new) }
{
    match out.put(line) {
        Ok(()) => 0,
        Err(_) => Fault::Write.status(),
    }
}

/// Puts the line of a fault. Its status stays where that fails.
fn put_fault<O: Sink>(out: &mut O, fault: Fault) -> u8
    ensures status { result ≡ fault_status fault }
    ensures line { Prints (O.state out.old) (O.state out.new) (fault_line fault) }
    ensures goes_on { SinkGoesOn (O.state out.old) (O.state out.new) }
{
    let _ = fault.put(out);
    fault.status()
}

/// Ends a call: puts the line of its work, or that of its fault, and gives the status. Whatever the
/// task and the outside, from how the work ended follows what is promised of the call.
pub fn end_call<O: Sink>(out: &mut O, work: Result<String, Fault>) -> u8
    ensures { (task : Option Task) (before after : Outside) → HasEnded task before after work
        → Ends (record {
          task = task;
          before = before;
          after = after;
          sink_before = O.state out.old;
          sink_after = O.state out.new;
          status = result;
        }) }
{
    match work {
        Ok(line) => put_line(out, line.as_bytes()),
        Err(fault) => put_fault(out, fault),
    }
}
