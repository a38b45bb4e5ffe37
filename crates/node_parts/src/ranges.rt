//! Numbers of messages are in the ranges of their types. A call makes it a fact that its caller may
//! use.

ghost use Rattle.std.specs.Prelude.{◌≡◌, ◌<◌, ◌^◌, length};
ghost use Rattle.shared_definitions.specs.Bytes.{AreBytes};
ghost use Rattle.colo_wire.specs.Spelling.{AreLineNumbers, HasSpelling, IsInRange, IsLineFront, IsLineRest, IsMessage, IsNumber, IsPart, IsTuple, IsWaiting};

use colo_base::Contents;
use colo_wire::Message;
use inet_frame::Tuple;
use tcp_track::{Offset, Opening};

/// Contents are bytes.
fn are_bytes(contents: &Contents)
    ensures { AreBytes contents.now }
{
    let bytes = contents.as_slice();
    let _ = bytes.len();
}

fn is_waiting(index: u64, seen: Option<Opening>, trim: Offset, frame: &Contents)
    ensures { IsWaiting index seen trim frame.now }
{
    are_bytes(frame);
}

fn is_number(tuple: Tuple, client: u32, number: u32)
    ensures { IsNumber tuple client number }
{}

fn is_part(k: u32, bytes: &Contents)
    ensures { IsPart k bytes.now }
{
    are_bytes(bytes);
}

fn is_mac(mac: &[u8; 6])
    ensures bytes { AreBytes mac.now }
    ensures len { length mac.now ≡ 6 }
{
    let bytes = mac.as_slice();
    let _ = bytes.len();
}

fn are_flags(flags: u8)
    ensures { flags < 2 ^ 8 }
{}

fn is_count(e: u32)
    ensures { e < 2 ^ 32 }
{}

fn is_tuple(tuple: Tuple)
    ensures { IsTuple tuple }
{}

fn is_line_front(tuple: Tuple, mac: &[u8; 6], flags: u8)
    ensures { IsLineFront tuple mac.now flags }
{
    is_tuple(tuple);
    is_mac(mac);
    are_flags(flags);
}

fn are_line_numbers(client: u32, own: u32, number: u32, refused: u32)
    ensures { AreLineNumbers client own number refused }
{}

fn is_line_rest(acked: Offset, window: u16, mss: u16, base: Offset)
    ensures { IsLineRest acked window mss base }
{}

/// A message's numbers are in range. It takes no memory.
pub fn is_in_range(message: &Message)
    ensures { IsInRange message.now }
{
    match message {
        Message::Frame {
            index,
            seen,
            trim,
            frame,
        } => is_waiting(*index, *seen, *trim, frame),
        Message::Number {
            tuple,
            client,
            number,
        } => is_number(*tuple, *client, *number),
        Message::Begin { e } => is_count(*e),
        Message::State { bytes } => are_bytes(bytes),
        Message::Page { k, bytes } => is_part(*k, bytes),
        Message::Disk { first, bytes } => is_part(*first, bytes),
        Message::Write { k, bytes } => is_part(*k, bytes),
        Message::Held {
            index,
            seen,
            trim,
            frame,
        } => is_waiting(*index, *seen, *trim, frame),
        Message::Line {
            tuple,
            mac,
            flags,
            client,
            own,
            number,
            refused,
            acked,
            window,
            mss,
            base,
        } => {
            is_line_front(*tuple, mac, *flags);
            are_line_numbers(*client, *own, *number, *refused);
            is_line_rest(*acked, *window, *mss, *base);
        }
        Message::Bytes { bytes } => are_bytes(bytes),
        Message::End { e } => is_count(*e),
        Message::Known {
            tuple,
            client,
            number,
        } => is_number(*tuple, *client, *number),
        Message::Sent { frame } => are_bytes(frame),
        Message::Ack { e } => is_count(*e),
    }
}

/// A message that has a spelling can come. It takes no memory.
pub fn is_message(message: &Message)
    requires { HasSpelling message.now }
    ensures { IsMessage message.now }
{
    is_in_range(message);
}
