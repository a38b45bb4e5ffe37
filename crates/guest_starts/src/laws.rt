//! Whatever the theorem of the pair says of a start, it says of these guests.

ghost use Rattle.guest_starts.specs.Laws.{MachinesStart, ScriptsStart};

use machine_laws::{boots_are_bytes, machines_are_regular, states_are_of_their_kind};
use state_wire::scripts_are_regular;

/// Two machines that boot from one image over equal disks are a start: the image, the disk's
/// sectors of 512 and the client's frames are bytes, and nothing else is asked. By the laws of the
/// machine.
pub fn machines_start()
    ensures { MachinesStart }
{
    boots_are_bytes();
    machines_are_regular();
    states_are_of_their_kind();
}

/// So are two test guests with one table of frames of bytes, in one state. By the law of the test
/// guest.
pub fn scripts_start()
    ensures { ScriptsStart }
{
    scripts_are_regular();
}
