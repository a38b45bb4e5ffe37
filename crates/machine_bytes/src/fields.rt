//! The values of a machine's state.

use rv_core::HartFields;
use rv_traps::CsrFields;
use virtio_mmio::DeviceFields;

/// How many bytes a state has.
pub const STATE_LEN: usize = 359;

/// What a machine holds beside its memory and its disk: the registers and the reservation, the CSRs
/// with the timer, the network card and the MAC address of its neighbour, and the block device,
/// whose second queue is all 0.
#[derive(Clone, Copy, Debug, PartialEq, Eq)]
pub struct StateFields {
    pub hart: HartFields,
    pub csrs: CsrFields,
    pub net: DeviceFields,
    pub neighbour: [u8; 6],
    pub block: DeviceFields,
}
