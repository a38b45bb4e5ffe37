//! The two nodes of a pair, by name.

ghost use Rattle.std.specs.Prelude.{◌≡◌};
ghost use Rattle.pair_core.specs.Pair.{is_primary, is_secondary};

/// A node of a pair.
#[derive(Clone, Copy, Debug, PartialEq, Eq)]
pub enum Node {
    /// The one whose guest's frames are compared and released, and that captures checkpoints.
    Primary,
    /// The one that tells what its guest sends, and loads checkpoints.
    Secondary,
}

/// Whether the node that stopped is the primary.
pub(crate) fn is_primary(stopped: Option<Node>) -> bool
    ensures { result ≡ is_primary stopped }
{
    matches!(stopped, Some(Node::Primary))
}

/// Whether the node that stopped is the secondary.
pub(crate) fn is_secondary(stopped: Option<Node>) -> bool
    ensures { result ≡ is_secondary stopped }
{
    matches!(stopped, Some(Node::Secondary))
}
