//! The links between the nodes: what a node has put goes on its link.

ghost use Rattle.std.specs.Prelude.{◌≡◌, ◌++◌, [], None, OnOk, IsSome, length};
ghost use Rattle.pair_core.specs.Inside.{plain};
ghost use Rattle.pair_core.specs.Pair.{emptied, sent_down, sent_up};

use crate::parts::Parts;
use colo_base::NoMemory;
use node_parts::Outbox;
use node_primary::Primary;
use node_secondary::Secondary;
use state_wire::Guest;

/// Puts all that waits at the primary on the link. A message is handed over as it is.
fn pull_primary<G: Guest + Drop>(from: &mut Primary<G>, into: &mut Outbox) -> Result<(), NoMemory>
    ensures into { OnOk result (into.new ≡ into.old ++ from.old.waits) }
    ensures from { OnOk result (from.new ≡ record from.old { waits = [] }) }
{
    while let Some(message) = from.outgoing() {
        into.put(message)?;
    }
    Ok(())
}

/// Puts all that waits at the secondary on the link.
fn pull_secondary<G: Guest + Drop>(
    from: &mut Secondary<G>,
    into: &mut Outbox,
) -> Result<(), NoMemory>
    ensures into { OnOk result (into.new ≡ into.old ++ from.old.waits) }
    ensures from { OnOk result (from.new ≡ record from.old { waits = [] }) }
{
    while let Some(message) = from.outgoing() {
        into.put(message)?;
    }
    Ok(())
}

impl<G: Guest + Drop> Parts<G> {
    /// What the primary has put goes on the link to the secondary.
    pub fn send_down(&mut self) -> Result<(), NoMemory>
        ensures { OnOk result (plain G.meaning self.new ≡ sent_down (plain G.meaning self.old)) }
    {
        pull_primary(&mut self.first, &mut self.down)
    }

    /// What the secondary has put goes on the link to the primary; alone it puts nothing.
    pub fn send_up(&mut self) -> Result<(), NoMemory>
        ensures { OnOk result (plain G.meaning self.new ≡ sent_up (plain G.meaning self.old)) }
    {
        if self.second.is_alone() {
            return Ok(());
        }
        pull_secondary(&mut self.second, &mut self.up)
    }
}
