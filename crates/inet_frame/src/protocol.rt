//! The protocols above IPv4 (RFC 791, 3.1).

/// TCP (RFC 9293).
pub const TCP: u8 = 6;
/// UDP (RFC 768).
pub const UDP: u8 = 17;
