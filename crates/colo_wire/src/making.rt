//! The message that a body spells.

ghost use Rattle.std.specs.Prelude.{◌≡◌, ◌+◌, ◌≤◌, drop, length, IfOk};
ghost use Rattle.std.specs.Int.{w16, w32, w64};
ghost use Rattle.colo_wire.specs.Forms.{lengths_of};
ghost use Rattle.colo_wire.specs.Lengths.{AllowsLength};
ghost use Rattle.colo_wire.specs.Making.{message_in, number_at, seen_in, tuple_in};
ghost use Rattle.colo_wire.specs.declared.kinds.Kind.TheVariants as kind;

use crate::kinds::Kind;
use crate::messages::Message;
use colo_base::Contents;
use inet_frame::Tuple;
use std::alloc::{AllocError, Global};
use tcp_track::Opening;

/// The number of the two bytes at a place.
#[tactic(auto, unfolding(crate::specs::Making::number_at))]
fn u16_at(at: usize, body: &[u8]) -> u16
    requires { at + 2 ≤ length body.now }
    ensures { result ≡ number_at w16 at body.now }
{
    let part = &body[at..at + 2];
    u16::from_be_bytes([part[0], part[1]])
}

/// The number of the four bytes at a place.
#[tactic(auto, unfolding(crate::specs::Making::number_at))]
fn u32_at(at: usize, body: &[u8]) -> u32
    requires { at + 4 ≤ length body.now }
    ensures { result ≡ number_at w32 at body.now }
{
    let part = &body[at..at + 4];
    u32::from_be_bytes([part[0], part[1], part[2], part[3]])
}

/// The number of the eight bytes in front.
#[tactic(auto, unfolding(crate::specs::Making::number_at))]
fn u64_at(at: usize, body: &[u8]) -> u64
    requires { at + 8 ≤ length body.now }
    ensures { result ≡ number_at w64 at body.now }
{
    let part = &body[at..at + 8];
    u64::from_be_bytes([
        part[0], part[1], part[2], part[3], part[4], part[5], part[6], part[7],
    ])
}

/// The tuple in front.
#[tactic(auto, unfolding(crate::specs::Making::tuple_in))]
fn tuple_in(body: &[u8]) -> Tuple
    requires { 8 ≤ length body.now }
    ensures { result ≡ tuple_in body.now }
{
    Tuple {
        addr: u32_at(0, body),
        port: u16_at(4, body),
        guest: u16_at(6, body),
    }
}

/// The opening that was seen, if one was, from the byte on that says so.
#[tactic(auto, unfolding(crate::specs::Making::seen_in))]
fn seen_in(part: &[u8]) -> Option<Opening>
    requires { 9 ≤ length part.now }
    ensures { result ≡ seen_in part.now }
{
    if part[0] == 0 {
        return None;
    }
    Some(Opening {
        client: u32_at(1, part),
        own: u32_at(5, part),
    })
}

/// A copy of the bytes from a place on.
fn copy_from(alloc: Global, at: usize, body: &[u8]) -> Result<Contents, AllocError>
    requires { at ≤ length body.now }
    ensures { IfOk result (λ copy. copy ≡ drop at body.now) }
{
    Ok(Contents::from_vec(body[at..].to_vec(alloc)?))
}

/// The line whose body this is.
#[tactic(auto, unfolding(crate::specs::Making::line_in))]
fn line_in(body: &[u8]) -> Message
    requires { length body.now ≡ 43 }
    ensures { result ≡ message_in kind.Line body.now }
{
    Message::Line {
        tuple: tuple_in(body),
        mac: [body[8], body[9], body[10], body[11], body[12], body[13]],
        flags: body[14],
        client: u32_at(15, body),
        own: u32_at(19, body),
        number: u32_at(23, body),
        refused: u32_at(27, body),
        acked: u32_at(31, body),
        window: u16_at(35, body),
        mss: u16_at(37, body),
        base: u32_at(39, body),
    }
}

/// The frame whose body this is.
fn frame_in(alloc: Global, body: &[u8]) -> Result<Message, AllocError>
    requires { 21 ≤ length body.now }
    ensures { IfOk result (λ m. m ≡ message_in kind.Frame body.now) }
{
    Ok(Message::Frame {
        index: u64_at(0, body),
        seen: seen_in(&body[8..]),
        trim: u32_at(17, body),
        frame: copy_from(alloc, 21, body)?,
    })
}

/// The held frame whose body this is.
fn held_in(alloc: Global, body: &[u8]) -> Result<Message, AllocError>
    requires { 21 ≤ length body.now }
    ensures { IfOk result (λ m. m ≡ message_in kind.Held body.now) }
{
    Ok(Message::Held {
        index: u64_at(0, body),
        seen: seen_in(&body[8..]),
        trim: u32_at(17, body),
        frame: copy_from(alloc, 21, body)?,
    })
}

/// The number whose body this is.
fn number_in(body: &[u8]) -> Message
    requires { 16 ≤ length body.now }
    ensures { result ≡ message_in kind.Number body.now }
{
    Message::Number {
        tuple: tuple_in(body),
        client: u32_at(8, body),
        number: u32_at(12, body),
    }
}

/// The known number whose body this is.
fn known_in(body: &[u8]) -> Message
    requires { 16 ≤ length body.now }
    ensures { result ≡ message_in kind.Known body.now }
{
    Message::Known {
        tuple: tuple_in(body),
        client: u32_at(8, body),
        number: u32_at(12, body),
    }
}

/// The page whose body this is.
fn page_in(alloc: Global, body: &[u8]) -> Result<Message, AllocError>
    requires { 4 ≤ length body.now }
    ensures { IfOk result (λ m. m ≡ message_in kind.Page body.now) }
{
    Ok(Message::Page {
        k: u32_at(0, body),
        bytes: copy_from(alloc, 4, body)?,
    })
}

/// The sectors whose body this is.
fn disk_in(alloc: Global, body: &[u8]) -> Result<Message, AllocError>
    requires { 4 ≤ length body.now }
    ensures { IfOk result (λ m. m ≡ message_in kind.Disk body.now) }
{
    Ok(Message::Disk {
        first: u32_at(0, body),
        bytes: copy_from(alloc, 4, body)?,
    })
}

/// The written sector whose body this is.
fn write_in(alloc: Global, body: &[u8]) -> Result<Message, AllocError>
    requires { 4 ≤ length body.now }
    ensures { IfOk result (λ m. m ≡ message_in kind.Write body.now) }
{
    Ok(Message::Write {
        k: u32_at(0, body),
        bytes: copy_from(alloc, 4, body)?,
    })
}

/// The message that a body of the kind spells.
pub fn message_in(alloc: Global, kind: Kind, body: &[u8]) -> Result<Message, AllocError>
    requires { AllowsLength (lengths_of kind) (length body.now) }
    ensures { IfOk result (λ m. m ≡ message_in kind body.now) }
{
    match kind {
        Kind::Frame => frame_in(alloc, body),
        Kind::Number => Ok(number_in(body)),
        Kind::Begin => Ok(Message::Begin { e: u32_at(0, body) }),
        Kind::State => Ok(Message::State {
            bytes: copy_from(alloc, 0, body)?,
        }),
        Kind::Page => page_in(alloc, body),
        Kind::Disk => disk_in(alloc, body),
        Kind::Write => write_in(alloc, body),
        Kind::Held => held_in(alloc, body),
        Kind::Line => Ok(line_in(body)),
        Kind::Bytes => Ok(Message::Bytes {
            bytes: copy_from(alloc, 0, body)?,
        }),
        Kind::End => Ok(Message::End { e: u32_at(0, body) }),
        Kind::Known => Ok(known_in(body)),
        Kind::Sent => Ok(Message::Sent {
            frame: copy_from(alloc, 0, body)?,
        }),
        Kind::Ack => Ok(Message::Ack { e: u32_at(0, body) }),
    }
}
