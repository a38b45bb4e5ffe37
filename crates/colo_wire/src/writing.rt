//! Messages, written.

ghost use Rattle.std.specs.Prelude.{◌≡◌, ◌∷◌, ◌++◌, ◌<◌, ◌^◌, length, OnOk, OnErr};
ghost use Rattle.std.specs.Int.{w16, w32, to_be_bytes};
ghost use Rattle.std.specs.Io.{StartsWith};
ghost use Rattle.colo_wire.specs.Kinds.{number_of_kind};
ghost use Rattle.colo_wire.specs.Spelling.{HasSpelling, body_of, kind_of, line_front, line_numbers, line_rest, message_bytes, number_body, seen_bytes, tuple_bytes, waiting_body};
ghost use Rattle.colo_wire.specs.declared.kinds.Kind.TheVariants as kind;

use crate::kinds::{Kind, number_of_kind};
use crate::messages::{Message, kind_of};
use colo_base::NoMemory;
use inet_frame::Tuple;
use std::alloc::AllocError;
use tcp_track::{Offset, Opening};

/// Appends a number in two bytes.
fn put_u16(number: u16, into: &mut Vec<u8>) -> Result<(), AllocError>
    ensures ok { OnOk result (into.new.items ≡ into.old.items ++ to_be_bytes w16 number) }
    ensures err { OnErr result (into.new.items ≡ into.old.items) }
{
    into.extend_from_slice(&number.to_be_bytes())
}

/// Appends a number in four bytes.
fn put_u32(number: u32, into: &mut Vec<u8>) -> Result<(), AllocError>
    ensures ok { OnOk result (into.new.items ≡ into.old.items ++ to_be_bytes w32 number) }
    ensures err { OnErr result (into.new.items ≡ into.old.items) }
{
    into.extend_from_slice(&number.to_be_bytes())
}

/// Appends a tuple.
fn put_tuple(tuple: Tuple, into: &mut Vec<u8>) -> Result<(), AllocError>
    ensures ok { OnOk result (into.new.items ≡ into.old.items ++ tuple_bytes tuple) }
    ensures err { OnErr result (StartsWith into.new.items into.old.items) }
{
    put_u32(tuple.addr, into)?;
    put_u16(tuple.port, into)?;
    put_u16(tuple.guest, into)
}

/// Appends whether an opening was seen, and its numbers.
fn put_seen(seen: Option<Opening>, into: &mut Vec<u8>) -> Result<(), AllocError>
    ensures ok { OnOk result (into.new.items ≡ into.old.items ++ seen_bytes seen) }
    ensures err { OnErr result (StartsWith into.new.items into.old.items) }
{
    let (flag, client, own) = match seen {
        None => (0, 0, 0),
        Some(opening) => (1, opening.client, opening.own),
    };
    into.push(flag)?;
    put_u32(client, into)?;
    put_u32(own, into)
}

/// Appends the body of a waiting frame.
#[tactic(auto, unfolding(crate::specs::Spelling::waiting_body))]
pub(crate) fn put_waiting(
    index: u64,
    seen: Option<Opening>,
    trim: Offset,
    frame: &[u8],
    into: &mut Vec<u8>,
) -> Result<(), AllocError>
    ensures ok { OnOk result (into.new.items ≡ into.old.items
        ++ waiting_body index seen trim frame.now) }
    ensures err { OnErr result (StartsWith into.new.items into.old.items) }
{
    into.extend_from_slice(&index.to_be_bytes())?;
    put_seen(seen, into)?;
    put_u32(trim, into)?;
    into.extend_from_slice(frame)
}

/// Appends the body of a number.
#[tactic(auto, unfolding(crate::specs::Spelling::number_body))]
fn put_number(tuple: Tuple, client: u32, number: u32, into: &mut Vec<u8>) -> Result<(), AllocError>
    ensures ok { OnOk result (into.new.items ≡ into.old.items ++ number_body tuple client number) }
    ensures err { OnErr result (StartsWith into.new.items into.old.items) }
{
    put_tuple(tuple, into)?;
    put_u32(client, into)?;
    put_u32(number, into)
}

/// Appends the number of a page or a sector, and bytes.
pub(crate) fn put_part(k: u32, bytes: &[u8], into: &mut Vec<u8>) -> Result<(), AllocError>
    ensures ok { OnOk result (into.new.items ≡ into.old.items ++ (to_be_bytes w32 k ++ bytes.now)) }
    ensures err { OnErr result (StartsWith into.new.items into.old.items) }
{
    put_u32(k, into)?;
    into.extend_from_slice(bytes)
}

/// Appends a line's tuple, MAC and flags.
#[tactic(auto, unfolding(crate::specs::Spelling::line_front))]
fn put_line_front(
    tuple: Tuple,
    mac: &[u8; 6],
    flags: u8,
    into: &mut Vec<u8>,
) -> Result<(), AllocError>
    ensures ok { OnOk result (into.new.items ≡ into.old.items ++ line_front tuple mac.now flags) }
    ensures err { OnErr result (StartsWith into.new.items into.old.items) }
{
    put_tuple(tuple, into)?;
    into.extend_from_slice(mac)?;
    into.push(flags)?;
    Ok(())
}

/// Appends a line's sequence numbers.
#[tactic(auto, unfolding(crate::specs::Spelling::line_numbers))]
fn put_line_numbers(
    client: u32,
    own: u32,
    number: u32,
    refused: u32,
    into: &mut Vec<u8>,
) -> Result<(), AllocError>
    ensures ok { OnOk result (into.new.items
        ≡ into.old.items ++ line_numbers client own number refused) }
    ensures err { OnErr result (StartsWith into.new.items into.old.items) }
{
    put_u32(client, into)?;
    put_u32(own, into)?;
    put_u32(number, into)?;
    put_u32(refused, into)
}

/// Appends what a line ends with.
#[tactic(auto, unfolding(crate::specs::Spelling::line_rest))]
fn put_line_rest(
    acked: Offset,
    window: u16,
    mss: u16,
    base: Offset,
    into: &mut Vec<u8>,
) -> Result<(), AllocError>
    ensures ok { OnOk result (into.new.items ≡ into.old.items ++ line_rest acked window mss base) }
    ensures err { OnErr result (StartsWith into.new.items into.old.items) }
{
    put_u32(acked, into)?;
    put_u16(window, into)?;
    put_u16(mss, into)?;
    put_u32(base, into)
}

/// Appends the body of a line.
fn put_line(message: &Message, into: &mut Vec<u8>) -> Result<(), AllocError>
    requires { kind_of message.now ≡ kind.Line }
    ensures ok { OnOk result (into.new.items ≡ into.old.items ++ body_of message.now) }
    ensures err { OnErr result (StartsWith into.new.items into.old.items) }
{
    let Message::Line {
        tuple,
        mac,
        flags,
        client,
        own,
        number,
        refused,
        acked,
        window,
        mss,
        base,
    } = message
    else {
        return Ok(());
    };
    put_line_front(*tuple, mac, *flags, into)?;
    put_line_numbers(*client, *own, *number, *refused, into)?;
    put_line_rest(*acked, *window, *mss, *base, into)
}

/// Appends the body of a message.
fn put_body(message: &Message, into: &mut Vec<u8>) -> Result<(), AllocError>
    ensures ok { OnOk result (into.new.items ≡ into.old.items ++ body_of message.now) }
    ensures err { OnErr result (StartsWith into.new.items into.old.items) }
{
    match message {
        Message::Frame {
            index,
            seen,
            trim,
            frame,
        } => { put_waiting(*index, *seen, *trim, frame.as_slice(), into) }
        Message::Held {
            index,
            seen,
            trim,
            frame,
        } => { put_waiting(*index, *seen, *trim, frame.as_slice(), into) }
        Message::Number {
            tuple,
            client,
            number,
        } => put_number(*tuple, *client, *number, into),
        Message::Known {
            tuple,
            client,
            number,
        } => put_number(*tuple, *client, *number, into),
        Message::Begin { e } | Message::End { e } | Message::Ack { e } => put_u32(*e, into),
        Message::State { bytes } | Message::Bytes { bytes } => {
            into.extend_from_slice(bytes.as_slice())
        }
        Message::Sent { frame } => into.extend_from_slice(frame.as_slice()),
        Message::Page { k, bytes } | Message::Write { k, bytes } => {
            put_part(*k, bytes.as_slice(), into)
        }
        Message::Disk { first, bytes } => put_part(*first, bytes.as_slice(), into),
        Message::Line { .. } => put_line(message, into),
    }
}

/// How long the body of a message is.
#[tactic(auto, unfolding(crate::specs::Spelling::line_front, crate::specs::Spelling::line_numbers, crate::specs::Spelling::line_rest, crate::specs::Spelling::waiting_body, crate::specs::Spelling::number_body))]
fn body_len(message: &Message) -> usize
    ensures { result ≡ length (body_of message.now) }
{
    match message {
        Message::Frame { frame, .. } | Message::Held { frame, .. } => 21 + frame.as_slice().len(),
        Message::Number { .. } | Message::Known { .. } => 16,
        Message::Begin { .. } | Message::End { .. } | Message::Ack { .. } => 4,
        Message::State { bytes } | Message::Bytes { bytes } => bytes.as_slice().len(),
        Message::Page { bytes, .. } | Message::Write { bytes, .. } => 4 + bytes.as_slice().len(),
        Message::Disk { bytes, .. } => 4 + bytes.as_slice().len(),
        Message::Sent { frame } => frame.as_slice().len(),
        Message::Line { mac, .. } => 37 + mac.as_slice().len(),
    }
}

/// Appends a kind and the length of a body.
pub(crate) fn put_kind(kind: Kind, len: usize, into: &mut Vec<u8>) -> Result<(), AllocError>
    requires { len < 2 ^ 32 }
    ensures ok { OnOk result (into.new.items ≡ into.old.items
        ++ (number_of_kind kind ∷ to_be_bytes w32 len)) }
    ensures err { OnErr result (StartsWith into.new.items into.old.items) }
{
    into.push(number_of_kind(kind))?;
    put_u32(len as u32, into)
}

/// Appends the kind of a message and the length of its body.
fn put_head(message: &Message, into: &mut Vec<u8>) -> Result<(), AllocError>
    requires { length (body_of message.now) < 2 ^ 32 }
    ensures ok { OnOk result (into.new.items ≡ into.old.items
        ++ (number_of_kind (kind_of message.now)
        ∷ to_be_bytes w32 (length (body_of message.now)))) }
    ensures err { OnErr result (StartsWith into.new.items into.old.items) }
{
    put_kind(kind_of(message), body_len(message), into)
}

/// Appends the spelling of a message. After `NoMemory` what was there still stands in front.
///
/// The message must have a spelling: its body is as long as its kind allows, and what doesn't apply
/// is 0. `decode` reads it again, whatever follows.
#[tactic(auto, using(crate::proofs::KindLemmas::body_small), unfolding(crate::specs::Spelling::message_bytes))]
pub fn encode(message: &Message, into: &mut Vec<u8>) -> Result<(), NoMemory>
    requires { HasSpelling message.now }
    ensures ok { OnOk result (into.new.items ≡ into.old.items ++ message_bytes message.now) }
    ensures err { OnErr result (StartsWith into.new.items into.old.items) }
{
    put_head(message, into)?;
    put_body(message, into)?;
    Ok(())
}
