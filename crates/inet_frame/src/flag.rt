//! The flags of a TCP header, by their bits (RFC 9293, 3.1). `TcpView` has a test for each.

/// The sender's stream ends after this segment.
pub const FIN: u8 = 1;
/// The sequence number is the sender's first.
pub const SYN: u8 = 2;
/// The connection is reset or refused.
pub const RST: u8 = 4;
/// The receiver is asked to push the bytes to its reader.
pub const PSH: u8 = 8;
/// The acknowledgement number counts.
pub const ACK: u8 = 16;
