//! Bytes that grow at the end and are forgotten from the front.

ghost use Rattle.std.specs.Prelude.{◌≡◌, ◌≤◌, ◌++◌, [], length, drop, IfOk, OnOk, OnErr, vec_len};

use colo_base::NoMemory;
use std::alloc::Global;
use std::marker::Model;

/// A list of bytes. Forgetting bytes of the front moves the others only when at least half of what
/// is stored is forgotten, so that any list of calls costs as much as the bytes that it adds.
#[derive(Drop)]
pub struct KeptBytes {
    stored: Vec<u8>,
    forgotten: usize,
}

impl Model for KeptBytes {
    ghost use Rattle.std.specs.Prelude.{List, ℕ, ◌≤◌, length, drop};

    ghost Value = { List ℕ };

    ghost view = { λ k. drop k.forgotten k.stored.items };

    ghost invariant = { λ k. k.forgotten ≤ length k.stored.items };
}

impl KeptBytes {
    /// No bytes. It takes no memory.
    pub fn new(alloc: Global) -> KeptBytes
        ensures { result ≡ [] }
    {
        KeptBytes {
            stored: Vec::new(alloc),
            forgotten: 0,
        }
    }

    /// The bytes of a vector. It takes no memory.
    pub fn from_vec(bytes: Vec<u8>) -> KeptBytes
        ensures { result ≡ bytes.items }
    {
        KeptBytes {
            stored: bytes,
            forgotten: 0,
        }
    }

    /// The bytes as a vector. It takes no memory.
    pub fn into_vec(self) -> Vec<u8>
        ensures { result.items ≡ self }
    {
        let KeptBytes {
            mut stored,
            forgotten,
        } = self;
        drop_front(&mut stored, forgotten);
        stored
    }

    /// The bytes as a slice.
    pub fn as_slice(&self) -> &[u8]
        ensures { result.now ≡ self.now }
    {
        &self.stored[self.forgotten..]
    }

    /// How many bytes there are.
    pub fn len(&self) -> usize
        ensures { result ≡ length self.now }
    {
        self.stored.len() - self.forgotten
    }

    /// Adds bytes at the end. After `NoMemory` the list is as it was.
    pub fn extend(&mut self, more: &[u8]) -> Result<(), NoMemory>
        ensures ok { OnOk result (self.new ≡ self.old ++ more.now) }
        ensures err { OnErr result (self.new ≡ self.old) }
    {
        self.stored.extend_from_slice(more)?;
        Ok(())
    }

    /// Forgets the first `count` bytes. It takes no memory.
    pub fn forget(&mut self, count: usize)
        requires { count ≤ length self.old }
        ensures { self.new ≡ drop count self.old }
    {
        self.forgotten += count;
        if self.forgotten >= self.stored.len() - self.forgotten {
            drop_front(&mut self.stored, self.forgotten);
            self.forgotten = 0;
        }
    }

    /// Forgets all bytes. It takes no memory.
    pub fn clear(&mut self)
        ensures { self.new ≡ [] }
    {
        self.stored.clear();
        self.forgotten = 0;
    }

    /// A copy.
    pub fn copy(&self) -> Result<KeptBytes, NoMemory>
        ensures { IfOk result (λ copy. copy ≡ self.now) }
    {
        let alloc = *self.stored.allocator();
        let stored = self.as_slice().to_vec(alloc)?;
        Ok(KeptBytes {
            stored,
            forgotten: 0,
        })
    }
}

/// Moves the bytes after the first `count` to the front.
fn drop_front(bytes: &mut Vec<u8>, count: usize)
    requires { count ≤ vec_len bytes.old }
    ensures { bytes.new.items ≡ drop count bytes.old.items }
{
    let left = bytes.len() - count;
    bytes.copy_within(count.., 0);
    bytes.truncate(left);
}
