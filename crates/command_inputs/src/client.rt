//! The client stream as frames.

ghost use Rattle.std.specs.Prelude.{◌≡◌, [], Ok, IfOk, IfErr};
ghost use Rattle.sock_link.specs.Unframed.{Stands};
ghost use Rattle.command_inputs.specs.Client.{read_client};
ghost use Rattle.command_inputs.specs.Reading.{IsRefused};

use crate::refusals::client_refusal;
use colo_base::{Frames, NoMemory};
use file_steps::Fault;
use sock_link::{LinkFault, Unframer};
use std::alloc::Global;

/// Takes the whole stream in.
fn feed(alloc: Global, client: &[u8]) -> Result<Unframer, Fault>
    ensures stands { IfOk result (λ unframer. Stands unframer client.now []) }
    ensures refused { IfErr result (IsRefused (read_client client.now)) }
{
    let mut unframer = Unframer::new(alloc);
    match unframer.feed(client) {
        Ok(()) => Ok(unframer),
        Err(LinkFault::TooLong { at }) => Err(Fault::Refused(client_refusal(at))),
        Err(LinkFault::NoMemory) => Err(Fault::NoMemory),
    }
}

/// Takes the frames that wait out, in order.
fn take_frames(alloc: Global, unframer: &mut Unframer) -> Result<Frames, NoMemory>
    ensures given { IfOk result (λ frames. unframer.old.frames ≡ frames) }
    ensures left { IfOk result (λ frames. unframer.new ≡ record unframer.old { frames = [] }) }
{
    let mut frames = Frames::new(alloc);
    while let Some(frame) = unframer.next_frame()? {
        frames.add(frame)?;
    }
    Ok(frames)
}

/// The frames of a client stream, each of which stands after its length. It is refused exactly
/// where a length is above 69,632 or the stream ends within a record, with the byte where that
/// record begins.
pub fn read_client(alloc: Global, client: &[u8]) -> Result<Frames, Fault>
    ensures read { IfOk result (λ frames. read_client client.now ≡ Ok frames) }
    ensures refused { IfErr result (IsRefused (read_client client.now)) }
{
    let mut unframer = feed(alloc, client)?;
    let frames = take_frames(alloc, &mut unframer)?;
    if unframer.at_boundary() {
        Ok(frames)
    } else {
        Err(Fault::Refused(client_refusal(unframer.place())))
    }
}
