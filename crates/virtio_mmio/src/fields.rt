//! The values of a device, as a machine's state holds them.

use virt_queue::QueueFields;

/// What a device holds, but for its kind: the registers that a driver writes (VIRTIO 1.1, 4.2.2),
/// and its two queues. The second queue of a block device is all 0.
#[derive(Clone, Copy, Debug, PartialEq, Eq)]
pub struct DeviceFields {
    pub status: u32,
    pub device_features_sel: u32,
    pub driver_features: u64,
    pub driver_features_sel: u32,
    pub queue_sel: u32,
    pub interrupt_status: u32,
    pub queues: [QueueFields; 2],
}
