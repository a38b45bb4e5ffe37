//! What a driver reads of a device after a reset, and queues that are set up.

use crate::calls::registers;
use crate::scene::play;
use virtio_mmio::{Kind, Regs};
use worked_steps::{Answer, Scene, nothing, number, number_or_none, word, yes_or_no};

/// The registers of a device alone.
#[derive(Drop)]
struct Device(Regs);

impl Scene for Device {
    /// `queue` tells whether there is a queue with this number; `desc`, `driver` and `device` are
    /// where the parts of one stand, and `features` those that the driver accepts.
    fn call(&mut self, name: &str, n: &[u32; 6]) -> Answer {
        match name {
            "raise" => raised(&mut self.0),
            "queue" => yes_or_no(self.0.queue(n[0]).is_some()),
            "features" => number(self.0.fields().driver_features),
            "desc" | "driver" | "device" => part_of(&self.0, name, n[0]),
            _ => registers(&mut self.0, name, n),
        }
    }
}

/// The interrupt of a used buffer.
fn raised(regs: &mut Regs) -> Answer {
    regs.raise();
    nothing()
}

/// Where a part of a queue stands.
fn part_of(regs: &Regs, name: &str, k: u32) -> Answer {
    match regs.fields().queues.get(k as usize) {
        Some(queue) => match name {
            "desc" => number(queue.desc),
            "driver" => number(queue.driver),
            _ => number(queue.device),
        },
        None => word("none"),
    }
}

/// The registers that tell what the device is (VIRTIO 1.1, 4.2.2), and its MAC address.
const AFTER_RESET: &str = "\
read 000 : 74726976
read 004 : 2
read 008 : 1
read 00C : 4F4C4F43
read 010 : 20
read 034 : 100
read 044 : 0
read 060 : 0
read 070 : 0
read 0FC : 0
read 100 : 12005452
read 104 : 00005634
read 108 : 0
config 105 1 : 56
config FFE 2 : 0
config 101 2 : none
config 0FC 4 : none
";

/// The steps of a driver (VIRTIO 1.1, 3.1.1) at a block device of 0x12345 sectors: features, queue,
/// DRIVER_OK.
const SET_UP: &str = "\
read 100 : 12345
write 070 3
write 024 1
write 020 1
write 070 B
write 030 0
write 038 8
write 080 80001000
write 044 1
write 070 F
read 070 : F
read 044 : 1
live : yes
desc 0 : 80001000
write 050 0 : notify 0
raise
interrupt : 1
write 064 1 : ack
interrupt : 0
write 070 0 : reset
read 044 : 0
";

/// A queue of 3 entries can't be made ready: the device asks for a reset, and tells it once the
/// driver runs.
const BAD_SIZE: &str = "\
write 038 3
write 044 1
read 070 : 40
interrupt : 0
write 070 4
write 044 1
read 070 : 44
interrupt : 2
queue 1 : yes
queue 2 : no
";

/// A driver's odd steps (VIRTIO 1.1, 4.2.2 and 2.1). Features are written in two halves, and there
/// is no third one. Of QueueReady bit 0 counts. A queue's addresses have two halves each, and one
/// leaves the other. A driver that runs is served, whether or not it agreed on features. A used
/// buffer and a change of the configuration are two bits, and the driver clears those that it
/// writes.
const ODD_STEPS: &str = "\
write 024 0
write 020 20
write 024 1
write 020 1
features : 100000020
write 024 2
write 020 FFFFFFFF
features : 100000020
write 030 1
write 038 8
write 080 80001000
write 084 12
write 080 80002000
write 090 80003000
write 094 34
write 0A0 80004000
write 0A4 56
desc 1 : 1280002000
driver 1 : 3480003000
device 1 : 5680004000
desc 0 : 0
write 044 3
read 044 : 1
write 044 2
read 044 : 0
write 044 FFFFFFFF
read 044 : 1
write 070 4
read 070 : 4
live : yes
write 030 0
write 044 1
interrupt : 2
raise
interrupt : 3
write 064 1 : ack
interrupt : 2
raise
write 064 2 : ack
interrupt : 1
write 064 FFFFFFFE : ack
interrupt : 1
live : no
write 070 0 : reset
interrupt : 0
features : 0
desc 1 : 0
";

#[test]
fn network_after_reset(rt: HostRuntime) {
    play(&rt, &mut Device(Regs::new(Kind::Network)), &[AFTER_RESET]);
}

#[test]
fn block_set_up(rt: HostRuntime) {
    let regs = Regs::new(Kind::Block { sectors: 0x12345 });
    play(&rt, &mut Device(regs), &[SET_UP]);
}

#[test]
fn queue_of_a_bad_size(rt: HostRuntime) {
    play(&rt, &mut Device(Regs::new(Kind::Network)), &[BAD_SIZE]);
}

#[test]
fn odd_steps_of_a_driver(rt: HostRuntime) {
    play(&rt, &mut Device(Regs::new(Kind::Network)), &[ODD_STEPS]);
}
