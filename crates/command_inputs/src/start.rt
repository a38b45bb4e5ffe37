//! What a run begins with.

ghost use Rattle.std.specs.Prelude.{◌≡◌, ◌≤◌, Ok, IfOk, IfErr};
ghost use Rattle.guest_machine.specs.Guest.{machine_meaning};
ghost use Rattle.command_inputs.specs.Reading.{IsRefused};
ghost use Rattle.command_inputs.specs.Start.{read_start};

use crate::client::read_client;
use crate::machine::read_machine;
use colo_base::Frames;
use disk_buffers::WholeDisk;
use file_steps::Fault;
use guest_machine::Machine;
use std::alloc::Global;

/// A machine that stands at an image's boot state, and the client's frames.
#[derive(Drop)]
pub struct Started {
    /// The machine.
    pub machine: Machine<WholeDisk>,
    /// The client's frames, in order.
    pub frames: Frames,
}

/// What the files of a run make it begin with. They are tested in this order: the image, the disk,
/// the client stream.
pub fn read_start(
    alloc: Global,
    mib: u32,
    image: &[u8],
    disk: &[u8],
    client: &[u8],
) -> Result<Started, Fault>
    requires least { 1 ≤ mib }
    requires most { mib ≤ 64 }
    ensures read { IfOk result (λ started. read_start mib image.now disk.now client.now
        ≡ Ok (record { machine = machine_meaning started.machine; frames = started.frames })) }
    ensures refused { IfErr result (IsRefused (read_start mib image.now disk.now client.now)) }
{
    let machine = read_machine(alloc, mib, image, disk)?;
    let frames = read_client(alloc, client)?;
    Ok(Started { machine, frames })
}
