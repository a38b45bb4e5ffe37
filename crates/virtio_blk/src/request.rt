//! One request: what it does to memory and the disk.

ghost use Rattle.std.specs.Prelude.{◌≡◌, ◌<◌, ◌≤◌, ◌+◌, ◌*◌, ◌/◌, ◌%◌, ◌^◌, ℕ, drop, length, true, IsTrue};
ghost use Rattle.shared_definitions.specs.Memory.{little_endian};
ghost use Rattle.page_track.specs.Memory.{Memory};
ghost use Rattle.virt_queue.specs.Parts.{parts_inside, join_parts, readable, writable, skip, total_len, write_joined};
ghost use Rattle.virtio_blk.specs.Request.{request_bytes, request_len, answer_len, type_of, sector_of, are_sectors, read_sectors, write_sectors, with_status, status_count, serve_in, serve_out, serve_request};

use crate::disk::Disk;
use page_track::Ram;
use virt_queue::Chain;

/// The bytes of a request's header.
pub(crate) const HEADER_SIZE: u64 = 16;
/// The bytes of a sector.
const SECTOR_SIZE: u64 = 512;

/// The types of requests (VIRTIO 1.1, 5.2.6).
const TYPE_IN: u32 = 0;

const TYPE_OUT: u32 = 1;

const TYPE_FLUSH: u32 = 4;

/// The statuses (VIRTIO 1.1, 5.2.6).
const STATUS_OK: u8 = 0;

const STATUS_IOERR: u8 = 1;

const STATUS_UNSUPPORTED: u8 = 2;

/// Serves the request of a chain, which has a header and a place for the status, and answers how
/// many bytes were written.
#[tactic(auto, unfolding(crate::specs::Request::serve_request))]
pub(crate) fn serve_request<D: Disk>(chain: &Chain, ram: &mut Ram, disk: &mut D) -> u32
    requires inside { IsTrue (parts_inside (length ram.old.bytes) chain.now.parts) }
    requires header { 16 ≤ request_len chain.now }
    requires status { 0 < answer_len chain.now }
    ensures written { result ≡ (serve_request ram.old (D.state disk.old) chain.now).written }
    ensures memory { ram.new ≡ (serve_request ram.old (D.state disk.old) chain.now).memory }
    ensures disk { D.state disk.new ≡ (serve_request ram.old (D.state disk.old) chain.now).disk }
    ensures size { length ram.new.bytes ≡ length ram.old.bytes }
{
    let header = Header::read(chain, ram);
    match header.kind {
        TYPE_IN => serve_in(chain, header.sector, ram, &*disk),
        TYPE_OUT => serve_out(chain, header.sector, ram, disk),
        TYPE_FLUSH => write_status_alone(chain, STATUS_OK, ram),
        _ => write_status_alone(chain, STATUS_UNSUPPORTED, ram),
    }
}

/// The header of a request.
#[derive(Drop)]
struct Header {
    kind: u32,
    sector: u64,
}

impl Header {
    /// The header of a chain's request.
    fn read(chain: &Chain, ram: &Ram) -> Header
        requires inside { IsTrue (parts_inside (length ram.now.bytes) chain.now.parts) }
        requires header { 16 ≤ request_len chain.now }
        ensures kind { result.kind ≡ type_of (request_bytes ram.now chain.now) }
        ensures sector { result.sector ≡ sector_of (request_bytes ram.now chain.now) }
    {
        let mut kind = [0; 4];
        chain.read(ram, 0, &mut kind);
        let mut sector = [0; 8];
        chain.read(ram, 8, &mut sector);
        Header {
            kind: u32::from_le_bytes(kind),
            sector: u64::from_le_bytes(sector),
        }
    }
}

/// Whether so many bytes from a sector on are whole sectors of the disk.
fn are_sectors<D: Disk>(disk: &D, sector: u64, bytes: u64) -> bool
    ensures value { result ≡ are_sectors (D.state disk.now) sector bytes }
    ensures range { IsTrue result → sector + bytes / 512 ≤ length (D.state disk.now).mine }
    ensures small { IsTrue result → sector + bytes / 512 < 2 ^ 32 }
{
    let size = u64::from(disk.sectors()) * SECTOR_SIZE;
    bytes % SECTOR_SIZE == 0 && bytes <= size && sector <= (size - bytes) / SECTOR_SIZE
}

/// Writes the status into the last byte of the answer.
fn write_status(chain: &Chain, status: u8, ram: &mut Ram)
    requires inside { IsTrue (parts_inside (length ram.old.bytes) chain.now.parts) }
    requires place { 0 < answer_len chain.now }
    ensures memory { ram.new ≡ with_status ram.old chain.now status }
    ensures size { length ram.new.bytes ≡ length ram.old.bytes }
{
    chain.write(ram, chain.writable_len() - 1, &[status]);
}

/// Writes the status alone.
fn write_status_alone(chain: &Chain, status: u8, ram: &mut Ram) -> u32
    requires inside { IsTrue (parts_inside (length ram.old.bytes) chain.now.parts) }
    requires place { 0 < answer_len chain.now }
    ensures written { result ≡ status_count chain.now }
    ensures memory { ram.new ≡ with_status ram.old chain.now status }
    ensures size { length ram.new.bytes ≡ length ram.old.bytes }
{
    write_status(chain, status, ram);
    if chain.writable_len() == 1 { 1 } else { 0 }
}

/// IN: reads sectors into all of the answer but the status.
fn serve_in<D: Disk>(chain: &Chain, sector: u64, ram: &mut Ram, disk: &D) -> u32
    requires inside { IsTrue (parts_inside (length ram.old.bytes) chain.now.parts) }
    requires status { 0 < answer_len chain.now }
    ensures written { result ≡ (serve_in ram.old (D.state disk.now) chain.now sector).written }
    ensures memory { ram.new ≡ (serve_in ram.old (D.state disk.now) chain.now sector).memory }
    ensures size { length ram.new.bytes ≡ length ram.old.bytes }
{
    let answer = chain.writable_len();
    if !are_sectors(disk, sector, answer - 1) {
        return write_status_alone(chain, STATUS_IOERR, ram);
    }
    read_sectors(
        chain,
        sector as u32,
        ((answer - 1) / SECTOR_SIZE) as u32,
        ram,
        disk,
    );
    write_status(chain, STATUS_OK, ram);
    (answer % 0x1_0000_0000) as u32
}

/// Reads so many sectors into the answer.

fn read_sectors<D: Disk>(chain: &Chain, sector: u32, count: u32, ram: &mut Ram, disk: &D)
    requires inside { IsTrue (parts_inside (length ram.old.bytes) chain.now.parts) }
    requires range { sector + count ≤ length (D.state disk.now).mine }
    requires room { 512 * count ≤ answer_len chain.now }
    ensures memory { ram.new
        ≡ write_joined ram.old (writable chain.now.parts)
        (read_sectors (D.state disk.now) sector count) }
    ensures size { length ram.new.bytes ≡ length ram.old.bytes }
{
    let _sectors = disk.sectors();
    let mut bytes = [0; 512];
    for k in 0..count {
        disk.read_sector(sector + k, &mut bytes);
        chain.write(ram, u64::from(k) * SECTOR_SIZE, &bytes);
    }
}

/// OUT: writes sectors from all of the request but its header.
fn serve_out<D: Disk>(chain: &Chain, sector: u64, ram: &mut Ram, disk: &mut D) -> u32
    requires inside { IsTrue (parts_inside (length ram.old.bytes) chain.now.parts) }
    requires header { 16 ≤ request_len chain.now }
    requires status { 0 < answer_len chain.now }
    ensures written { result
        ≡ (serve_out ram.old (D.state disk.old) chain.now sector).written }
    ensures memory { ram.new
        ≡ (serve_out ram.old (D.state disk.old) chain.now sector).memory }
    ensures disk { D.state disk.new
        ≡ (serve_out ram.old (D.state disk.old) chain.now sector).disk }
    ensures size { length ram.new.bytes ≡ length ram.old.bytes }
{
    let bytes = chain.readable_len() - HEADER_SIZE;
    if !are_sectors(disk, sector, bytes) {
        return write_status_alone(chain, STATUS_IOERR, ram);
    }
    write_sectors(
        chain,
        sector as u32,
        (bytes / SECTOR_SIZE) as u32,
        ram,
        disk,
    );
    write_status_alone(chain, STATUS_OK, ram)
}

/// Writes so many sectors from the request's bytes after its header.

fn write_sectors<D: Disk>(chain: &Chain, sector: u32, count: u32, ram: &Ram, disk: &mut D)
    requires inside { IsTrue (parts_inside (length ram.now.bytes) chain.now.parts) }
    requires range { sector + count ≤ length (D.state disk.old).mine }
    requires room { 16 + 512 * count ≤ request_len chain.now }
    ensures { D.state disk.new
        ≡ write_sectors (D.state disk.old) sector count
        (drop 16 (request_bytes ram.now chain.now)) }
{
    let _sectors = disk.sectors();
    let mut bytes = [0; 512];
    for k in 0..count {
        chain.read(ram, HEADER_SIZE + u64::from(k) * SECTOR_SIZE, &mut bytes);
        disk.write_sector(sector + k, &bytes);
    }
}
