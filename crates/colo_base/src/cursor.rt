//! A cursor over bytes that are borrowed.

ghost use Rattle.std.specs.Prelude.{◌≡◌, slice_index, take, IfOk, OnOk, OnErr};
ghost use Rattle.std.specs.Int.{from_be_bytes, w16, w32, w64};
ghost use Rattle.colo_base.specs.Bytes.{Passes, IsShort};

use crate::Short;
use std::marker::Model;

/// A cursor over borrowed bytes. A contract sees the bytes that are left.
#[derive(Drop)]
pub struct Fields<'a> {
    left: &'a [u8],
}

impl<'a> Model for Fields<'a> {
    ghost use Rattle.std.specs.Prelude.{List, ℕ};

    ghost Value = { List ℕ };

    ghost view = { λ f. f.left.now };
}

impl<'a> Fields<'a> {
    /// A cursor before the first of `bytes`.
    pub fn over(bytes: &'a [u8]) -> Fields<'a>
        ensures { result ≡ bytes.now }
    {
        Fields { left: bytes }
    }

    /// The next byte. `Short` exactly where none remains, and then the cursor stays.
    pub fn u8(&mut self) -> Result<u8, Short>
        ensures value { IfOk result (λ byte. byte ≡ slice_index self.old 0) }
        ensures passes { OnOk result (Passes 1 self.old self.new) }
        ensures short { OnErr result (IsShort 1 self.old self.new) }
    {
        let part = self.part(1)?;
        Ok(part[0])
    }

    /// The number of the next two bytes, big-endian. `Short` exactly where fewer remain, and then
    /// the cursor stays.
    pub fn u16(&mut self) -> Result<u16, Short>
        ensures value { IfOk result (λ number. number ≡ from_be_bytes w16 (take 2 self.old)) }
        ensures passes { OnOk result (Passes 2 self.old self.new) }
        ensures short { OnErr result (IsShort 2 self.old self.new) }
    {
        let part = self.part(2)?;
        Ok(u16::from_be_bytes([part[0], part[1]]))
    }

    /// The number of the next four bytes, big-endian. `Short` exactly where fewer remain, and then
    /// the cursor stays.
    pub fn u32(&mut self) -> Result<u32, Short>
        ensures value { IfOk result (λ number. number ≡ from_be_bytes w32 (take 4 self.old)) }
        ensures passes { OnOk result (Passes 4 self.old self.new) }
        ensures short { OnErr result (IsShort 4 self.old self.new) }
    {
        let part = self.part(4)?;
        Ok(u32::from_be_bytes([part[0], part[1], part[2], part[3]]))
    }

    /// The number of the next eight bytes, big-endian. `Short` exactly where fewer remain, and then
    /// the cursor stays.
    pub fn u64(&mut self) -> Result<u64, Short>
        ensures value { IfOk result (λ number. number ≡ from_be_bytes w64 (take 8 self.old)) }
        ensures passes { OnOk result (Passes 8 self.old self.new) }
        ensures short { OnErr result (IsShort 8 self.old self.new) }
    {
        let part = self.part(8)?;
        Ok(u64::from_be_bytes([
            part[0], part[1], part[2], part[3], part[4], part[5], part[6], part[7],
        ]))
    }

    /// The next `n` bytes. `Short` exactly where fewer remain, and then the cursor stays.
    pub fn part(&mut self, n: usize) -> Result<&'a [u8], Short>
        ensures value { IfOk result (λ part. part.now ≡ take n self.old) }
        ensures passes { OnOk result (Passes n self.old self.new) }
        ensures short { OnErr result (IsShort n self.old self.new) }
    {
        if self.left.len() < n {
            return Err(Short);
        }
        let (part, left) = self.left.split_at(n);
        self.left = left;
        Ok(part)
    }

    /// All the bytes that are left.
    pub fn rest(self) -> &'a [u8]
        ensures { result.now ≡ self.entry }
    {
        self.left
    }
}
