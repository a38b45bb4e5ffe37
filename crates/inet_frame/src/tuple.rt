//! The guest's addresses, and the names of its connections.

ghost use Rattle.std.specs.Prelude.{◌≡◌};
ghost use Rattle.inet_frame.specs.Counted.{guest_address, guest_mac};

/// The guest's IPv4 address, 10.0.2.15.
pub const GUEST_ADDRESS: u32 = 0x0A00_020F;

/// The guest's MAC address, 52:54:00:12:34:56.
pub const GUEST_MAC: [u8; 6] = [0x52, 0x54, 0x00, 0x12, 0x34, 0x56];

/// A connection's name: the client's address and port, and the guest's port.
#[derive(Clone, Copy, PartialEq, Eq, Hash, Debug)]
pub struct Tuple {
    pub addr: u32,
    pub port: u16,
    pub guest: u16,
}

/// A law: both constants are the guest's addresses.
pub fn guest_is_known()
    ensures address { GUEST_ADDRESS ≡ guest_address }
    ensures mac { GUEST_MAC ≡ guest_mac }
{}
