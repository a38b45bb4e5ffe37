//! The whole records at the front of bytes.

ghost use Rattle.std.specs.Prelude.{◌≡◌, ◌≤◌, length, drop};
ghost use Rattle.sock_link.specs.Stream.{stream_of, frames_in, IsSplit};

use crate::frame::whole_record;

/// Whole records one after another.
#[derive(Clone, Copy)]
pub struct Records {
    /// How many bytes they take.
    pub size: usize,
    /// How many they are.
    pub count: usize,
}

/// The whole records at the front of bytes: after them none with an allowed length begins.
pub fn whole_records(bytes: &[u8]) -> Records
    ensures split { IsSplit bytes.now (frames_in result.count bytes.now)
        (drop result.size bytes.now) }
    ensures size { result.size ≡ length (stream_of (frames_in result.count bytes.now)) }
    ensures within { result.size ≤ length bytes.now }
    ensures few { result.count ≤ result.size }
{
    let mut size = 0;
    let mut count = 0;
    while let Some(record) = whole_record(&bytes[size..]) {
        size += record;
        count += 1;
    }
    Records { size, count }
}
