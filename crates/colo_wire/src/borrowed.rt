//! Messages, written from bytes that are borrowed: none is copied but into what is written.

ghost use Rattle.std.specs.Prelude.{◌≡◌, ◌+◌, ◌++◌, ◌≤◌, ◌%◌, length, None, OnOk, OnErr};
ghost use Rattle.std.specs.Io.{StartsWith};
ghost use Rattle.shared_definitions.specs.Bytes.{AreBytes};
ghost use Rattle.colo_wire.specs.Spelling.{IsMessage, IsPart, IsWaiting, message_bytes, waiting_body};
ghost use Rattle.colo_wire.specs.declared.messages.Message.TheVariants as message;

use crate::kinds::Kind;
use crate::writing::{put_kind, put_part, put_waiting};
use colo_base::NoMemory;
use tcp_track::{Offset, Opening};

/// Bytes are bytes, as a fact that a caller may use.
fn are_bytes(bytes: &[u8])
    ensures { AreBytes bytes.now }
{
    let _ = bytes.len();
}

/// The ranges of a numbered part.
fn is_part(k: u32, bytes: &[u8])
    ensures { IsPart k bytes.now }
{
    are_bytes(bytes);
}

/// The ranges of a waiting frame.
fn is_waiting(index: u64, seen: Option<Opening>, trim: Offset, frame: &[u8])
    ensures { IsWaiting index seen trim frame.now }
{
    are_bytes(frame);
}

/// A client's frame makes a message, and its body has 21 bytes more.
fn is_frame(index: u64, seen: Option<Opening>, trim: Offset, frame: &[u8])
    requires at_least { 14 ≤ length frame.now }
    requires at_most { length frame.now ≤ 1514 }
    requires untrimmed { seen ≡ None → trim ≡ 0 }
    ensures message { IsMessage (message.Frame index seen trim frame.now) }
    ensures size { length (waiting_body index seen trim frame.now) ≡ 21 + length frame.now }
{
    is_waiting(index, seen, trim, frame);
}

/// The same of a frame that waits.
fn is_held(index: u64, seen: Option<Opening>, trim: Offset, frame: &[u8])
    requires at_least { 14 ≤ length frame.now }
    requires at_most { length frame.now ≤ 1514 }
    requires untrimmed { seen ≡ None → trim ≡ 0 }
    ensures message { IsMessage (message.Held index seen trim frame.now) }
    ensures size { length (waiting_body index seen trim frame.now) ≡ 21 + length frame.now }
{
    is_waiting(index, seen, trim, frame);
}

/// Appends the spelling of a `State`: the bytes of a guest's state, at most 2^24.
///
/// After `NoMemory`, here and below, what was there still stands in front.
#[tactic(auto, using(crate::proofs::BorrowedLemmas::state_is_message), unfolding(crate::specs::Spelling::message_bytes))]
pub fn encode_state(bytes: &[u8], into: &mut Vec<u8>) -> Result<(), NoMemory>
    requires { length bytes.now ≤ 16777216 }
    ensures ok { OnOk result (into.new.items
        ≡ into.old.items ++ message_bytes (message.State bytes.now)) }
    ensures err { OnErr result (StartsWith into.new.items into.old.items) }
    ensures message { IsMessage (message.State bytes.now) }
{
    are_bytes(bytes);
    put_kind(Kind::State, bytes.len(), into)?;
    into.extend_from_slice(bytes)?;
    Ok(())
}

/// Appends the spelling of a `Page`: the page with number `k`, 4,096 bytes.
#[tactic(auto, using(crate::proofs::BorrowedLemmas::page_is_message), unfolding(crate::specs::Spelling::message_bytes))]
pub fn encode_page(k: u32, bytes: &[u8], into: &mut Vec<u8>) -> Result<(), NoMemory>
    requires { length bytes.now ≡ 4096 }
    ensures ok { OnOk result (into.new.items
        ≡ into.old.items ++ message_bytes (message.Page k bytes.now)) }
    ensures err { OnErr result (StartsWith into.new.items into.old.items) }
    ensures message { IsMessage (message.Page k bytes.now) }
{
    is_part(k, bytes);
    put_kind(Kind::Page, 4 + bytes.len(), into)?;
    put_part(k, bytes, into)?;
    Ok(())
}

/// Appends the spelling of a `Disk`: 1 to 128 whole sectors of 512 bytes, from number `first` on.
#[tactic(auto, using(crate::proofs::BorrowedLemmas::disk_is_message), unfolding(crate::specs::Spelling::message_bytes))]
pub fn encode_disk(first: u32, bytes: &[u8], into: &mut Vec<u8>) -> Result<(), NoMemory>
    requires at_least { 512 ≤ length bytes.now }
    requires at_most { length bytes.now ≤ 65536 }
    requires whole { length bytes.now % 512 ≡ 0 }
    ensures ok { OnOk result (into.new.items
        ≡ into.old.items ++ message_bytes (message.Disk first bytes.now)) }
    ensures err { OnErr result (StartsWith into.new.items into.old.items) }
    ensures message { IsMessage (message.Disk first bytes.now) }
{
    is_part(first, bytes);
    put_kind(Kind::Disk, 4 + bytes.len(), into)?;
    put_part(first, bytes, into)?;
    Ok(())
}

/// Appends the spelling of a `Bytes`: 1 to 65,536 more bytes of a line.
#[tactic(auto, using(crate::proofs::BorrowedLemmas::bytes_is_message), unfolding(crate::specs::Spelling::message_bytes))]
pub fn encode_bytes(bytes: &[u8], into: &mut Vec<u8>) -> Result<(), NoMemory>
    requires at_least { 1 ≤ length bytes.now }
    requires at_most { length bytes.now ≤ 65536 }
    ensures ok { OnOk result (into.new.items
        ≡ into.old.items ++ message_bytes (message.Bytes bytes.now)) }
    ensures err { OnErr result (StartsWith into.new.items into.old.items) }
    ensures message { IsMessage (message.Bytes bytes.now) }
{
    are_bytes(bytes);
    put_kind(Kind::Bytes, bytes.len(), into)?;
    into.extend_from_slice(bytes)?;
    Ok(())
}

/// Appends the spelling of a `Sent`: a frame of 14 to 1,514 bytes.
#[tactic(auto, using(crate::proofs::BorrowedLemmas::sent_is_message), unfolding(crate::specs::Spelling::message_bytes))]
pub fn encode_sent(frame: &[u8], into: &mut Vec<u8>) -> Result<(), NoMemory>
    requires at_least { 14 ≤ length frame.now }
    requires at_most { length frame.now ≤ 1514 }
    ensures ok { OnOk result (into.new.items
        ≡ into.old.items ++ message_bytes (message.Sent frame.now)) }
    ensures err { OnErr result (StartsWith into.new.items into.old.items) }
    ensures message { IsMessage (message.Sent frame.now) }
{
    are_bytes(frame);
    put_kind(Kind::Sent, frame.len(), into)?;
    into.extend_from_slice(frame)?;
    Ok(())
}

/// Appends the spelling of a `Frame`: a client's frame of 14 to 1,514 bytes. There is no trim where
/// no opening was seen.
#[tactic(auto, unfolding(crate::specs::Spelling::message_bytes))]
pub fn encode_frame(
    index: u64,
    seen: Option<Opening>,
    trim: Offset,
    frame: &[u8],
    into: &mut Vec<u8>,
) -> Result<(), NoMemory>
    requires at_least { 14 ≤ length frame.now }
    requires at_most { length frame.now ≤ 1514 }
    requires untrimmed { seen ≡ None → trim ≡ 0 }
    ensures ok { OnOk result (into.new.items
        ≡ into.old.items ++ message_bytes (message.Frame index seen trim frame.now)) }
    ensures err { OnErr result (StartsWith into.new.items into.old.items) }
    ensures message { IsMessage (message.Frame index seen trim frame.now) }
{
    is_frame(index, seen, trim, frame);
    put_kind(Kind::Frame, 21 + frame.len(), into)?;
    put_waiting(index, seen, trim, frame, into)?;
    Ok(())
}

/// Appends the spelling of a `Held`, as `encode_frame` does that of a `Frame`.
#[tactic(auto, unfolding(crate::specs::Spelling::message_bytes))]
pub fn encode_held(
    index: u64,
    seen: Option<Opening>,
    trim: Offset,
    frame: &[u8],
    into: &mut Vec<u8>,
) -> Result<(), NoMemory>
    requires at_least { 14 ≤ length frame.now }
    requires at_most { length frame.now ≤ 1514 }
    requires untrimmed { seen ≡ None → trim ≡ 0 }
    ensures ok { OnOk result (into.new.items
        ≡ into.old.items ++ message_bytes (message.Held index seen trim frame.now)) }
    ensures err { OnErr result (StartsWith into.new.items into.old.items) }
    ensures message { IsMessage (message.Held index seen trim frame.now) }
{
    is_held(index, seen, trim, frame);
    put_kind(Kind::Held, 21 + frame.len(), into)?;
    put_waiting(index, seen, trim, frame, into)?;
    Ok(())
}
