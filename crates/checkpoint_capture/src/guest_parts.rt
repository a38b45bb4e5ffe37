//! The messages of a guest's state: its bytes, its pages, and its sectors.

ghost use Rattle.std.specs.Prelude.{◌≡◌, ◌+◌, ◌*◌, ◌<◌, ◌≤◌, ◌^◌, [], ◌∷◌, ◌++◌, IfOk, IsTrue, OnOk, length, take, drop, slice_index_or};
ghost use Rattle.std.specs.List.{concat};
ghost use Rattle.colo_wire.specs.declared.messages.Message.TheVariants as message;
ghost use Rattle.settle_rules.specs.Pieces.{piece_at};
ghost use Rattle.checkpoint_form.specs.State.{disk_message, disk_messages, page_messages};
ghost use Rattle.checkpoint_capture.specs.Sizes.{HaveSize, IsDiskLength};

use crate::messages::{put_disk, put_page, put_state};
use colo_base::NoMemory;
use node_parts::Outbox;
use state_wire::Guest;
use std::alloc::Global;

/// Puts the guest's state without its pages and sectors.
pub fn put_guest_state<G: Guest>(
    alloc: Global,
    guest: &G,
    waits: &mut Outbox,
) -> Result<(), NoMemory>
    ensures put { OnOk result (waits.new
        ≡ waits.old ++ message.State (G.meaning guest.now).state.bytes ∷ []) }
    ensures accepted { OnOk result (IsTrue
        ((G.meaning guest.now).kind.accepts (G.meaning guest.now).state.bytes)) }
{
    let mut bytes = Vec::new(alloc);
    guest.state(&mut bytes)?;
    put_state(alloc, &bytes, waits)
}

/// Puts the page with number `k`.
fn put_page_of<G: Guest>(
    alloc: Global,
    guest: &G,
    k: u32,
    waits: &mut Outbox,
) -> Result<(), NoMemory>
    requires { k < length (G.meaning guest.now).state.pages }
    ensures put { OnOk result (waits.new ≡ waits.old
        ++ message.Page k (slice_index_or (G.meaning guest.now).state.pages k []) ∷ []) }
    ensures size { OnOk result
        (length (slice_index_or (G.meaning guest.now).state.pages k []) ≡ 4096) }
{
    match guest.page(k) {
        Some(page) => put_page(alloc, k, page, waits),
        None => Ok(()),
    }
}

/// Puts all pages, rising.
pub fn put_pages<G: Guest>(alloc: Global, guest: &G, waits: &mut Outbox) -> Result<(), NoMemory>
    ensures put { OnOk result (waits.new
        ≡ waits.old ++ page_messages (G.meaning guest.now).state.pages) }
    ensures sizes { OnOk result (HaveSize 4096 (G.meaning guest.now).state.pages) }
{
    for k in 0..guest.pages() {
        put_page_of(alloc, guest, k, waits)?;
    }
    Ok(())
}

/// How many bytes a sector has.
const SECTOR: usize = 512;

/// How many sectors go into one message.
const SECTORS_TOGETHER: u32 = 128;

/// Appends so many sectors, from number `first` on.
fn gather<G: Guest>(guest: &G, first: u32, count: u32, bytes: &mut Vec<u8>) -> Result<(), NoMemory>
    requires within { first + count ≤ length (G.meaning guest.now).state.sectors }
    requires fits { first + count < 2 ^ 32 }
    ensures bytes { OnOk result (bytes.new.items ≡ bytes.old.items
        ++ concat (take count (drop first (G.meaning guest.now).state.sectors))) }
    ensures sizes { OnOk result
        (HaveSize 512 (take count (drop first (G.meaning guest.now).state.sectors))) }
{
    for i in 0..count {
        append_sector(guest, first + i, bytes)?;
    }
    Ok(())
}

/// Appends the sector with number `k`.
fn append_sector<G: Guest>(guest: &G, k: u32, bytes: &mut Vec<u8>) -> Result<(), NoMemory>
    requires { k < length (G.meaning guest.now).state.sectors }
    ensures bytes { OnOk result (bytes.new.items ≡ bytes.old.items
        ++ slice_index_or (G.meaning guest.now).state.sectors k []) }
    ensures size { OnOk result
        (length (slice_index_or (G.meaning guest.now).state.sectors k []) ≡ 512) }
{
    match guest.sector(k) {
        Some(sector) => Ok(bytes.extend_from_slice(sector)?),
        None => Ok(()),
    }
}

/// The sectors from number `128 * k` on that go into one message, joined.
fn piece_of<G: Guest>(alloc: Global, guest: &G, k: u32) -> Result<Vec<u8>, NoMemory>
    requires { 128 * k < length (G.meaning guest.now).state.sectors }
    ensures bytes { IfOk result (λ bytes. bytes.items
        ≡ concat (piece_at 128 (G.meaning guest.now).state.sectors k)) }
    ensures length { IfOk result (λ bytes. IsDiskLength (length bytes.items)) }
    ensures sizes { OnOk result
        (HaveSize 512 (piece_at 128 (G.meaning guest.now).state.sectors k)) }
{
    let all = guest.sectors();
    let first = SECTORS_TOGETHER * k;
    let count = SECTORS_TOGETHER.min(all - first);
    let mut bytes = Vec::with_capacity(alloc, SECTOR * count as usize)?;
    gather(guest, first, count, &mut bytes)?;
    Ok(bytes)
}

/// Puts the sectors from number `128 * k` on that go into one message.
fn put_sectors_of<G: Guest>(
    alloc: Global,
    guest: &G,
    k: u32,
    waits: &mut Outbox,
) -> Result<(), NoMemory>
    requires { 128 * k < length (G.meaning guest.now).state.sectors }
    ensures put { OnOk result (waits.new ≡ waits.old
        ++ disk_message (k, piece_at 128 (G.meaning guest.now).state.sectors k) ∷ []) }
    ensures sizes { OnOk result
        (HaveSize 512 (piece_at 128 (G.meaning guest.now).state.sectors k)) }
{
    let sectors = guest.sectors();
    let _ = sectors;
    let bytes = piece_of(alloc, guest, k)?;
    put_disk(alloc, SECTORS_TOGETHER * k, &bytes, waits)
}

/// Puts all sectors, rising, at most 128 in a message.
pub fn put_sectors<G: Guest>(alloc: Global, guest: &G, waits: &mut Outbox) -> Result<(), NoMemory>
    ensures put { OnOk result (waits.new
        ≡ waits.old ++ disk_messages (G.meaning guest.now).state.sectors) }
    ensures sizes { OnOk result (HaveSize 512 (G.meaning guest.now).state.sectors) }
{
    for k in 0..guest.sectors().div_ceil(SECTORS_TOGETHER) {
        put_sectors_of(alloc, guest, k, waits)?;
    }
    Ok(())
}
