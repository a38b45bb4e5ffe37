//! A worked state, whose bytes were laid out outside the program by the description of the format,
//! and what is no state.

ghost use Rattle.std.specs.Prelude.{◌<◌};

use machine_bytes::{STATE_LEN, StateFields, accepts};
use rv_core::HartFields;
use rv_traps::CsrFields;
use std::process::Abort;
use virt_queue::{Queue, QueueFields};
use virtio_mmio::DeviceFields;

/// The bytes of the worked state.
const WORKED: [u8; 359] = [
    0x80, 0x00, 0x00, 0x10, 0x01, 0xA0, 0xB0, 0xC0, 0x02, 0xA0, 0xB0, 0xC0, 0x03, 0xA0, 0xB0, 0xC0,
    0x04, 0xA0, 0xB0, 0xC0, 0x05, 0xA0, 0xB0, 0xC0, 0x06, 0xA0, 0xB0, 0xC0, 0x07, 0xA0, 0xB0, 0xC0,
    0x08, 0xA0, 0xB0, 0xC0, 0x09, 0xA0, 0xB0, 0xC0, 0x0A, 0xA0, 0xB0, 0xC0, 0x0B, 0xA0, 0xB0, 0xC0,
    0x0C, 0xA0, 0xB0, 0xC0, 0x0D, 0xA0, 0xB0, 0xC0, 0x0E, 0xA0, 0xB0, 0xC0, 0x0F, 0xA0, 0xB0, 0xC0,
    0x10, 0xA0, 0xB0, 0xC0, 0x11, 0xA0, 0xB0, 0xC0, 0x12, 0xA0, 0xB0, 0xC0, 0x13, 0xA0, 0xB0, 0xC0,
    0x14, 0xA0, 0xB0, 0xC0, 0x15, 0xA0, 0xB0, 0xC0, 0x16, 0xA0, 0xB0, 0xC0, 0x17, 0xA0, 0xB0, 0xC0,
    0x18, 0xA0, 0xB0, 0xC0, 0x19, 0xA0, 0xB0, 0xC0, 0x1A, 0xA0, 0xB0, 0xC0, 0x1B, 0xA0, 0xB0, 0xC0,
    0x1C, 0xA0, 0xB0, 0xC0, 0x1D, 0xA0, 0xB0, 0xC0, 0x1E, 0xA0, 0xB0, 0xC0, 0x1F, 0xA0, 0xB0, 0xC0,
    0x00, 0x00, 0x18, 0x88, 0x00, 0x00, 0x08, 0x80, 0x80, 0x00, 0x02, 0x01, 0x11, 0x22, 0x33, 0x44,
    0x80, 0x00, 0x04, 0x24, 0x80, 0x00, 0x00, 0x0B, 0xDE, 0xAD, 0xBE, 0xEF, 0x00, 0x00, 0x00, 0x01,
    0x01, 0x02, 0x03, 0x04, 0x05, 0x06, 0x07, 0x08, 0x11, 0x12, 0x13, 0x14, 0x15, 0x16, 0x17, 0x18,
    0x21, 0x22, 0x23, 0x24, 0x25, 0x26, 0x27, 0x28, 0x01, 0x80, 0x00, 0x12, 0x34, 0x00, 0x00, 0x01,
    0x0F, 0x00, 0x00, 0x01, 0x01, 0x00, 0x01, 0x00, 0x01, 0x00, 0x00, 0x00, 0x20, 0x00, 0x00, 0x01,
    0x02, 0x00, 0x00, 0x01, 0x03, 0x00, 0x00, 0x01, 0x04, 0x00, 0x00, 0x00, 0x10, 0x00, 0x00, 0x00,
    0x01, 0x00, 0x00, 0x03, 0x10, 0x00, 0x00, 0x00, 0x01, 0x00, 0x00, 0x03, 0x10, 0x00, 0x00, 0x00,
    0x02, 0x00, 0x00, 0x03, 0x10, 0x00, 0x00, 0x00, 0x03, 0x03, 0x14, 0x03, 0x15, 0x00, 0x00, 0x00,
    0x03, 0x00, 0x00, 0x00, 0x00, 0x00, 0x00, 0x03, 0x20, 0x00, 0x00, 0x00, 0x01, 0x00, 0x00, 0x03,
    0x20, 0x00, 0x00, 0x00, 0x02, 0x00, 0x00, 0x03, 0x20, 0x00, 0x00, 0x00, 0x03, 0x03, 0x24, 0x03,
    0x25, 0x02, 0x11, 0x22, 0x33, 0x44, 0x55, 0x00, 0x00, 0x02, 0x0F, 0x00, 0x00, 0x02, 0x01, 0x00,
    0x02, 0x00, 0x01, 0x00, 0x00, 0x00, 0x20, 0x00, 0x00, 0x02, 0x02, 0x00, 0x00, 0x02, 0x03, 0x00,
    0x00, 0x02, 0x04, 0x00, 0x00, 0x01, 0x00, 0x00, 0x00, 0x00, 0x01, 0x00, 0x00, 0x03, 0x30, 0x00,
    0x00, 0x00, 0x01, 0x00, 0x00, 0x03, 0x30, 0x00, 0x00, 0x00, 0x02, 0x00, 0x00, 0x03, 0x30, 0x00,
    0x00, 0x00, 0x03, 0x03, 0x34, 0x03, 0x35,
];

/// The queue with this number, whose other fields are all different.
fn queue(num: u32, ready: bool, n: u16) -> QueueFields
    requires { n < 1000 }
{
    let base = (n as u64) << 32;
    QueueFields {
        num,
        ready,
        desc: base | 1,
        driver: base | 2,
        device: base | 3,
        next: n + 4,
        used: n + 5,
    }
}

/// The device whose registers are all different, with these queues.
fn device(n: u16, first: QueueFields, second: QueueFields) -> DeviceFields
    requires { n < 1000 }
{
    let number = n as u32;
    DeviceFields {
        status: number + 15,
        device_features_sel: number + 1,
        driver_features: ((n as u64) << 40) + 0x1_0000_0020,
        driver_features_sel: number + 2,
        queue_sel: number + 3,
        interrupt_status: number + 4,
        queues: [first, second],
    }
}

/// The worked state.
fn worked() -> StateFields {
    let mut x = [0; 31];
    for k in 0..31 {
        x[k] = 0x0100_0000 * (k as u32 + 1) + 0x00A0_B0C0;
    }
    StateFields {
        hart: HartFields {
            pc: 0x8000_0010,
            x,
            reserved: true,
            address: 0x8000_1234,
        },
        csrs: CsrFields {
            mstatus: 0x1888,
            mie: 0x880,
            mtvec: 0x8000_0201,
            mscratch: 0x1122_3344,
            mepc: 0x8000_0424,
            mcause: 0x8000_000B,
            mtval: 0xDEAD_BEEF,
            msip: true,
            mtime: 0x0102_0304_0506_0708,
            mtimecmp: 0x1112_1314_1516_1718,
            steps: 0x2122_2324_2526_2728,
        },
        net: device(0x100, queue(16, true, 0x310), queue(3, false, 0x320)),
        neighbour: [0x02, 0x11, 0x22, 0x33, 0x44, 0x55],
        block: device(0x200, queue(256, true, 0x330), Queue::new().fields()),
    }
}

/// What is tested. No call has a clause, so that what the contracts say stands in no goal of the
/// tests.
trait StateBytes {
    /// Whether the worked state is accepted.
    fn accepts_worked(&self) -> bool;

    /// Whether its first bytes are.
    fn accepts_first(&self, count: usize) -> bool;

    /// Whether it is with another byte at a place.
    fn accepts_with(&self, at: usize, byte: u8) -> bool;

    /// Whether so many zeros are.
    fn accepts_zeros(&self) -> bool;

    /// Whether the worked state is read as it is meant.
    fn reads_worked(&self) -> bool;

    /// Whether what is read of it is written as it was.
    fn writes_back(&self) -> bool;
}

/// The bytes of a machine's state.
#[derive(Drop)]
struct Format;

impl StateBytes for Format {
    fn accepts_worked(&self) -> bool {
        accepts(&WORKED)
    }

    fn accepts_first(&self, count: usize) -> bool {
        WORKED.get(..count).is_some_and(|bytes| accepts(bytes))
    }

    fn accepts_with(&self, at: usize, byte: u8) -> bool {
        let mut bytes = WORKED;
        if let Some(place) = bytes.get_mut(at) {
            *place = byte;
        }
        accepts(&bytes)
    }

    fn accepts_zeros(&self) -> bool {
        accepts(&[0; 360])
    }

    fn reads_worked(&self) -> bool {
        StateFields::read(&WORKED) == Some(worked())
    }

    fn writes_back(&self) -> bool {
        match StateFields::read(&WORKED) {
            Some(read) => read.to_bytes() == WORKED,
            None => false,
        }
    }
}

#[test]
fn the_worked_state_is_written_and_read(rt: HostRuntime) {
    assert!(rt; Format.reads_worked());
    assert!(rt; Format.writes_back());
}

fn check_lengths<R: Abort, S: StateBytes>(rt: &R, format: &S) {
    assert!(rt; format.accepts_worked());
    assert!(rt; format.accepts_first(359));
    assert!(rt; !format.accepts_first(358));
    assert!(rt; !format.accepts_zeros());
    assert!(rt; !format.accepts_first(0));
}

#[test]
fn only_359_bytes_are_a_state(rt: HostRuntime) {
    assert_eq!(rt; STATE_LEN, 359);
    check_lengths(&rt, &Format);
}

fn check_bad_bytes<R: Abort, S: StateBytes>(rt: &R, format: &S) {
    // pc and mepc no multiples of 4, bits outside mstatus and mie, bit 1 of mtvec
    for (at, byte) in [
        (3, 0x12),
        (147, 0x26),
        (131, 0x89),
        (130, 0x10),
        (135, 0x81),
        (139, 0x03),
    ] {
        assert!(rt; !format.accepts_with(at, byte), "{at}");
    }
    // msip, the reservation and the ready words are 0 or 1, in every byte
    for at in [156, 159, 184, 221, 224, 257, 260, 327, 330] {
        assert!(rt; !format.accepts_with(at, 2), "{at}");
    }
    for at in [156, 221, 257, 327] {
        assert!(rt; !format.accepts_with(at, 1), "{at}");
    }
    // a ready queue's number is a power of two from 1 to 256
    for (at, byte) in [(220, 0), (220, 3), (219, 2), (326, 1), (324, 1), (260, 1)] {
        assert!(rt; !format.accepts_with(at, byte), "{at}");
    }
}

#[test]
fn a_bad_byte_is_refused(rt: HostRuntime) {
    check_bad_bytes(&rt, &Format);
}

fn check_other_bytes<R: Abort, S: StateBytes>(rt: &R, format: &S) {
    // a pc outside memory, x1, mscratch, the timer, the reserved address, Status, InterruptStatus,
    // the number of a queue that isn't ready, a ring's address and position, the neighbour
    for at in [
        0, 4, 127, 140, 160, 183, 185, 188, 192, 193, 216, 256, 261, 252, 289, 294, 295, 322, 358,
    ] {
        assert!(rt; format.accepts_with(at, 0xFF), "{at}");
    }
}

#[test]
fn any_byte_may_stand_elsewhere(rt: HostRuntime) {
    check_other_bytes(&rt, &Format);
}
