//! How many pages and sectors a guest has.

ghost use Rattle.node_parts.specs.Counts.{HasCounts};

use state_wire::Guest;

/// A guest has as many pages and sectors as its kind says. A call makes it a fact that its caller
/// may use.
pub fn count_parts<G: Guest>(guest: &G)
    ensures { HasCounts (G.meaning guest.now) }
{
    let pages = guest.pages();
    let sectors = guest.sectors();
    let _ = pages;
    let _ = sectors;
}
