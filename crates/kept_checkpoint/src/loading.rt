//! A kept checkpoint, loaded.

ghost use Rattle.std.specs.Prelude.{◌≡◌, IsTrue, OnOk, OnErr};
ghost use Rattle.state_wire.specs.Guest.{KeepsKind};
ghost use Rattle.kept_checkpoint.specs.Kept.{load_kept};
ghost use Rattle.kept_checkpoint.specs.Slots.{AreOfSize, page_size, part_at, sector_size, with_page_heard, with_pages, with_sector_heard, with_sectors};

use crate::kept::KeptCheckpoint;
use crate::slots::Slots;
use colo_base::NoMemory;
use state_wire::Guest;

/// Loads what was heard of one page.
#[tactic(auto, using(crate::proofs::SlotLemmas::heard_sized))]
fn load_page<G: Guest>(pages: &Slots, k: u32, guest: &mut G)
    requires { AreOfSize page_size pages.now }
    ensures { G.meaning guest.new
        ≡ with_page_heard (G.meaning guest.old) k (part_at pages.now k) }
{
    match pages.part(k as usize) {
        Some(page) => guest.load_page(k, page),
        None => {}
    }
}

/// Loads the pages that were heard.
fn load_pages<G: Guest>(pages: &Slots, guest: &mut G)
    requires { AreOfSize page_size pages.now }
    ensures { G.meaning guest.new ≡ with_pages (G.meaning guest.old) pages.now }
{
    for k in 0..guest.pages() {
        load_page(pages, k, guest);
    }
}

/// Loads what was heard of one sector.
#[tactic(auto, using(crate::proofs::SlotLemmas::heard_sized))]
fn load_sector<G: Guest>(sectors: &Slots, k: u32, guest: &mut G)
    requires { AreOfSize sector_size sectors.now }
    ensures { G.meaning guest.new
        ≡ with_sector_heard (G.meaning guest.old) k (part_at sectors.now k) }
{
    match sectors.part(k as usize) {
        Some(sector) => guest.load_sector(k, sector),
        None => {}
    }
}

/// Loads the sectors that were heard.
fn load_sectors<G: Guest>(sectors: &Slots, guest: &mut G)
    requires { AreOfSize sector_size sectors.now }
    ensures { G.meaning guest.new ≡ with_sectors (G.meaning guest.old) sectors.now }
{
    for k in 0..guest.sectors() {
        load_sector(sectors, k, guest);
    }
}

impl KeptCheckpoint {
    /// Loads the guest's state: its bytes, and the pages and sectors that were heard. All else of
    /// the guest stays. After `NoMemory` nothing is said of its state.
    ///
    /// The guest must accept the state's bytes.
    #[tactic(auto, unfolding(crate::specs::Kept::load_kept))]
    pub fn load<G: Guest>(&self, guest: &mut G) -> Result<(), NoMemory>
        requires { IsTrue ((G.meaning guest.old).kind.accepts self.now.state) }
        ensures ok { OnOk result (G.meaning guest.new
            ≡ load_kept (G.meaning guest.old) self.now) }
        ensures failed { OnErr result (KeepsKind (G.meaning guest.old) (G.meaning guest.new)) }
    {
        guest.load_state(self.state.as_slice())?;
        load_pages(&self.pages, guest);
        load_sectors(&self.sectors, guest);
        Ok(())
    }
}
