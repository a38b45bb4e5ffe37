//! The kinds of devices, what a write asks of a device, and what it answers that serves a queue.

ghost use Rattle.std.specs.Prelude.{◌≡◌};
ghost use Rattle.virtio_mmio.specs.Device.{device_id, has_second_queue, offered_features};

use virt_queue::RingFault;

/// A kind of device (VIRTIO 1.1, 5).
#[derive(Clone, Copy, Debug, PartialEq, Eq)]
pub enum Kind {
    /// A network card, with the MAC address 52:54:00:12:34:56. Its queue 0 receives, its queue 1
    /// sends.
    Network,
    /// A block device of so many sectors of 512 bytes, with one queue.
    Block { sectors: u32 },
}

/// What a write of a register asks of the device.
#[derive(Clone, Copy, Debug, PartialEq, Eq)]
pub enum Event {
    /// Nothing more.
    Nothing,
    /// The driver put chains into the queue with this number, if there is one.
    Notify(u32),
    /// The device was reset.
    Reset,
    /// The driver has seen an interrupt.
    Ack,
}

/// What a device answers that was asked to serve a queue.
#[derive(Clone, Copy, Debug, PartialEq, Eq)]
pub enum Served {
    /// What waited was served: one request of a block device, the available chains of a network
    /// card that sends.
    Done,
    /// There was nothing to serve: no chain was available, or the device isn't live.
    Idle,
    /// The ring is at fault, and the device needs a reset.
    Broken(RingFault),
}

impl Kind {
    /// The device's number.
    pub(crate) fn device_id(self) -> u32
        ensures { result ≡ device_id self }
    {
        match self {
            Kind::Network => 1,
            Kind::Block { .. } => 2,
        }
    }

    /// Whether there is a second queue.
    pub(crate) fn has_second_queue(self) -> bool
        ensures { result ≡ has_second_queue self }
    {
        match self {
            Kind::Network => true,
            Kind::Block { .. } => false,
        }
    }

    /// The features that the device offers.
    pub(crate) fn offered_features(self) -> u64
        ensures { result ≡ offered_features self }
    {
        match self {
            Kind::Network => 0x1_0000_0020,
            Kind::Block { .. } => 0x1_0000_0200,
        }
    }
}
