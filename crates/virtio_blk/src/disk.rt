//! A disk as the device sees it.

ghost use Rattle.std.specs.Prelude.{◌≡◌, ◌<◌, Some, length, slice_get};

/// Sectors of 512 bytes, counted from 0.
///
/// Contracts see its ghost member `state`, whose `mine` is the list of the sectors. No call changes
/// how many there are.
pub trait Disk {
    ghost use Rattle.virtio_blk.specs.Disk.{DiskState, with_sector};

    ghost state: { Self → DiskState };

    /// How many sectors there are.
    fn sectors(&self) -> u32
        ensures { result ≡ length (state self.now).mine };

    /// The sector with number `k`, which must exist: 512 bytes.
    fn sector(&self, k: u32) -> &[u8]
        requires { k < length (state self.now).mine }
        ensures sector { slice_get (state self.now).mine k ≡ Some result.now }
        ensures size { length result.now ≡ 512 };

    /// Copies the sector with number `k`, which must exist, into `into`.
    fn read_sector(&self, k: u32, into: &mut [u8; 512])
        requires { k < length (state self.now).mine }
        ensures { slice_get (state self.now).mine k ≡ Some into.new };

    /// Makes these bytes the sector with number `k`, which must exist. No other sector changes.
    fn write_sector(&mut self, k: u32, from: &[u8; 512])
        requires { k < length (state self.old).mine }
        ensures { state self.new ≡ with_sector (state self.old) k from.now };
}
