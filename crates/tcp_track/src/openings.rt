//! Openings of connections.

/// The opening of a connection: the sequence numbers of the client's SYN and of the guest's (RFC
/// 9293, 3.5).
#[derive(Clone, Copy, PartialEq, Eq, Debug)]
pub struct Opening {
    /// The client's number.
    pub client: u32,
    /// The guest's own number.
    pub own: u32,
}

use inet_frame::Tuple;

/// An incarnation of a connection, which its client's number tells from others of the tuple (RFC
/// 9293, 3.4.1).
#[derive(Clone, Copy, PartialEq, Eq, Hash, Debug)]
pub struct Incarnation {
    /// The connection's name.
    pub tuple: Tuple,
    /// The client's number.
    pub client: u32,
}
