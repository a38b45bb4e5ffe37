//! A record of a stream: a frame with its length before it.

ghost use Rattle.std.specs.Prelude.{◌≡◌, ◌^◌, ◌<◌, ◌++◌, OnOk, IfSome, IfNone, length};
ghost use Rattle.std.specs.Io.{StartsWith};
ghost use Rattle.sock_link.specs.Stream.{record_of, is_too_long, StatesLength, BeginsRecord, IsUnfinished};

use colo_base::{Fields, NoMemory};

/// The greatest length of a frame that is taken, in bytes.
pub const FRAME_LIMIT: usize = 69_632;

/// Appends a frame to `into`, its length in four bytes before it, big-endian, as QEMU's stream
/// sockets carry it.
///
/// The frame must be shorter than 2^32 bytes. After `NoMemory` `into` begins with what it held.
#[tactic(auto, unfolding(crate::specs::Stream::record_of))]
pub fn frame_into(frame: &[u8], into: &mut Vec<u8>) -> Result<(), NoMemory>
    requires { length frame.now < 2 ^ 32 }
    ensures ok { OnOk result (into.new.items ≡ into.old.items ++ record_of frame.now) }
    ensures front { StartsWith into.new.items into.old.items }
{
    let length = frame.len() as u32;
    into.extend_from_slice(&length.to_be_bytes())?;
    into.extend_from_slice(frame)?;
    Ok(())
}

/// The length that the first four bytes state, where there are four.
#[tactic(auto, unfolding(crate::specs::Stream::length_of))]
pub fn stated_length(bytes: &[u8]) -> Option<usize>
    ensures some { IfSome result (StatesLength bytes.now) }
    ensures none { IfNone result (length bytes.now < 4) }
{
    let stated = Fields::over(bytes).u32().ok()?;
    Some(stated as usize)
}

/// The length of the whole record that begins these bytes: `None` where none with an allowed length
/// does.
pub fn whole_record(bytes: &[u8]) -> Option<usize>
    ensures some { IfSome result (BeginsRecord bytes.now) }
    ensures none { IfNone result (IsUnfinished bytes.now) }
{
    let stated = stated_length(bytes)?;
    if stated > FRAME_LIMIT || bytes.len() - 4 < stated {
        return None;
    }
    Some(4 + stated)
}

/// Whether a whole length above the limit begins these bytes.
#[tactic(auto, using(std::proofs::lemmas::Bool::Decides::nat_tests))]
pub fn is_too_long(bytes: &[u8]) -> bool
    ensures { result ≡ is_too_long bytes.now }
{
    match stated_length(bytes) {
        Some(stated) => stated > FRAME_LIMIT,
        None => false,
    }
}
