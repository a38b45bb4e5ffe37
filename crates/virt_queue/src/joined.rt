//! The bytes of a chain's parts, joined.

ghost use Rattle.std.specs.Prelude.{◌≡◌, ◌++◌, length, take, drop, IsTrue};
ghost use Rattle.virt_queue.specs.Parts.{parts_inside, of_kind, readable, writable, total_len, join_parts, skip, write_joined};

use crate::chain::Chain;
use page_track::Ram;

impl Chain {
    /// The number of bytes of the parts that the device writes, or of those that it reads.
    fn total_len(&self, writable: bool) -> u64
        ensures { result ≡ total_len (of_kind writable self.now.parts) }
    {
        let mut total = 0;
        for k in 0..self.len() {
            let part = self.at(k);
            if part.writable != writable {
                continue;
            }
            total += u64::from(part.len);
        }
        total
    }

    /// The number of bytes of the readable parts.
    pub fn readable_len(&self) -> u64
        ensures { result ≡ total_len (readable self.now.parts) }
    {
        self.total_len(false)
    }

    /// The number of bytes of the writable parts.
    pub fn writable_len(&self) -> u64
        ensures { result ≡ total_len (writable self.now.parts) }
    {
        self.total_len(true)
    }

    /// Copies the bytes of the readable parts, joined, from the byte `from` on, until they end or
    /// `into` is full. It answers how many it copied; the rest of `into` stays.
    ///
    /// It asks that all parts are in memory, as those of a chain that was taken from it are.
    pub fn read(&self, ram: &Ram, from: u64, into: &mut [u8]) -> usize
        requires { IsTrue (parts_inside (length ram.now.bytes) self.now.parts) }
        ensures count { let bytes = join_parts ram.now.bytes (readable self.now.parts) in
            result ≡ length (take (length into.old) (drop from bytes)) }
        ensures bytes { let bytes = join_parts ram.now.bytes (readable self.now.parts) in
            into.new ≡ take (length into.old) (drop from bytes) ++ drop result into.old }
    {
        let _size = ram.size();
        let mut skip = from;
        let mut filled = 0;
        for k in 0..self.len() {
            let part = self.at(k);
            if part.writable {
                continue;
            }
            let len = u64::from(part.len);
            if len <= skip {
                skip -= len;
                continue;
            }
            let count = (len - skip).min((into.len() - filled) as u64) as usize;
            let bytes = ram.part(part.addr + skip, count as u64).unwrap();
            into[filled..filled + count].copy_from_slice(bytes);
            filled += count;
            skip = 0;
        }
        filled
    }

    /// Writes bytes over the writable parts, joined, from the byte `from` on, until either ends.
    ///
    /// It asks that all parts are in memory, as those of a chain that was taken from it are.
    pub fn write(&self, ram: &mut Ram, from: u64, bytes: &[u8])
        requires { IsTrue (parts_inside (length ram.old.bytes) self.now.parts) }
        ensures after { ram.new
            ≡ write_joined ram.old (skip from (writable self.now.parts)) bytes.now }
        ensures size { length ram.new.bytes ≡ length ram.old.bytes }
    {
        let _size = ram.size();
        let mut skip = from;
        let mut rest = bytes;
        for k in 0..self.len() {
            let part = self.at(k);
            if !part.writable {
                continue;
            }
            let len = u64::from(part.len);
            if len <= skip {
                skip -= len;
                continue;
            }
            let count = (len - skip).min(rest.len() as u64) as usize;
            let (here, later) = rest.split_at(count);
            ram.write(part.addr + skip, here);
            rest = later;
            skip = 0;
        }
    }
}
