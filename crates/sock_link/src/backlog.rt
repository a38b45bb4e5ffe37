//! Bytes that wait to be read.

ghost use Rattle.std.specs.Prelude.{◌≡◌, ◌+◌, ◌-◌, ◌^◌, ◌<◌, ◌≤◌, [], ◌++◌, OnOk, OnErr, length, take, drop};

use colo_base::NoMemory;
use std::alloc::Global;
use std::marker::Model;

/// Bytes that wait to be read. A contract sees those that are left.
///
/// Reading moves nothing. What was read is thrown away only when bytes are added and it is at least
/// as much as what is left, so that no byte costs more than one move for each byte that was read.
#[derive(Drop)]
pub struct Backlog {
    bytes: Vec<u8>,
    read: usize,
}

impl Model for Backlog {
    ghost use Rattle.std.specs.Prelude.{List, ℕ, ◌≤◌, length, drop};

    ghost Value = { List ℕ };

    ghost view = { λ b. drop b.read b.bytes.items };

    ghost invariant = { λ b. b.read ≤ length b.bytes.items };
}

impl Backlog {
    /// No byte waits.
    pub fn new(alloc: Global) -> Backlog
        ensures { result ≡ [] }
    {
        Backlog {
            bytes: Vec::new(alloc),
            read: 0,
        }
    }

    /// The bytes that wait.
    pub fn as_slice(&self) -> &[u8]
        ensures { result.now ≡ self.now }
    {
        &self.bytes[self.read..]
    }

    /// The bytes that wait after the first `at`.
    pub fn after(&self, at: usize) -> &[u8]
        requires { at ≤ length self.now }
        ensures value { result.now ≡ drop at self.now }
        ensures bound { at + length result.now < 2 ^ 64 }
    {
        let start = self.read + at;
        &self.bytes[start..]
    }

    /// The allocator of the bytes.
    pub fn allocator(&self) -> Global {
        *self.bytes.allocator()
    }

    /// Adds bytes at the end. After `NoMemory` those that wait are as they were.
    pub fn add(&mut self, piece: &[u8]) -> Result<(), NoMemory>
        ensures ok { OnOk result (self.new ≡ self.old ++ piece.now) }
        ensures err { OnErr result (self.new ≡ self.old) }
    {
        self.compact();
        self.bytes.extend_from_slice(piece)?;
        Ok(())
    }

    /// Throws away what was read, where it is at least as much as what is left.
    fn compact(&mut self)
        ensures { self.new ≡ self.old }
    {
        let left = self.bytes.len() - self.read;
        if left <= self.read {
            to_front(self.bytes.as_mut_slice(), self.read);
            self.bytes.truncate(left);
            self.read = 0;
        }
    }

    /// Reads over the first `n` bytes.
    pub fn skip(&mut self, n: usize)
        requires { n ≤ length self.old }
        ensures { self.new ≡ drop n self.old }
    {
        self.read += n;
    }

    /// Forgets all but the first `n` bytes.
    pub fn keep(&mut self, n: usize)
        requires { n ≤ length self.old }
        ensures { self.new ≡ take n self.old }
    {
        self.bytes.truncate(self.read + n);
    }
}

/// Copies the bytes from `read` on to the front.
fn to_front(bytes: &mut [u8], read: usize)
    requires within { read ≤ length bytes.old }
    requires room { length bytes.old ≤ read + read }
    ensures { take (length bytes.old - read) bytes.new ≡ drop read bytes.old }
{
    let left = bytes.len() - read;
    let (front, back) = bytes.split_at_mut(read);
    front[..left].copy_from_slice(back);
}
