//! The parts of a pair.

use crate::node::Node;
use colo_base::Frames;
use node_parts::Outbox;
use node_primary::Primary;
use node_secondary::Secondary;
use state_wire::Guest;

/// The parts of a pair: both nodes, the messages on their way down to the secondary and up to the
/// primary, the client's frames with the index of the one that comes next, the node that stopped,
/// whether that was reported, and how many frames of its guest the secondary told of since the last
/// acknowledgement.
#[derive(Drop)]
pub(crate) struct Parts<G: Guest + Drop> {
    pub first: Primary<G>,
    pub second: Secondary<G>,
    pub down: Outbox,
    pub up: Outbox,
    pub frames: Frames,
    pub next: usize,
    pub stopped: Option<Node>,
    pub is_reported: bool,
    pub sent_heard: u64,
}
