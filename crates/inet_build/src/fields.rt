//! The fields of a segment of the guest.

use inet_frame::Tuple;

/// The fields of a TCP segment of the guest to a client.
#[derive(Clone, Copy, PartialEq, Eq, Debug)]
pub struct Segment {
    /// The MAC address that the frame goes to.
    pub dst_mac: [u8; 6],
    /// The connection: the client's address and port, to which the segment goes, and the guest's
    /// port.
    pub tuple: Tuple,
    /// The sequence number.
    pub seq: u32,
    /// The acknowledgement number.
    pub ack: u32,
    /// The flags, as in `inet_frame::flag`.
    pub flags: u8,
    /// The window in bytes.
    pub window: u16,
    /// The maximum segment size, for an option that states it.
    pub mss: Option<u16>,
}
