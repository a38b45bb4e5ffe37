//! The messages of a line: one without its bytes, and then the bytes in pieces.

ghost use Rattle.std.specs.Prelude.{◌≡◌, ◌*◌, ◌<◌, ◌≤◌, [], ◌∷◌, ◌++◌, OnOk, drop, length, take};
ghost use Rattle.std.specs.List.{flat_map};
ghost use Rattle.settle_rules.specs.Pieces.{piece_at};
ghost use Rattle.colo_wire.specs.declared.messages.Message.TheVariants as message;
ghost use Rattle.checkpoint_form.specs.Captured.{lines_of};
ghost use Rattle.colo_wire.specs.Spelling.{HasSpelling};
ghost use Rattle.checkpoint_form.specs.Rows.{bytes_messages, flag_if, line_message, line_messages, number_for};

use crate::messages::put_bytes;
use colo_base::NoMemory;
use colo_wire::{FIN, Message, OPENED, REFUSED, RESET};
use inet_frame::Tuple;
use node_parts::{Outbox, put_message};
use seq_rewriter::Numbers;
use std::alloc::Global;
use tcp_track::{Line, Opening, Tracker};

/// A flag where it is to be set.
fn flag_if(flag: u8, set: bool) -> u8
    ensures { result ≡ flag_if flag set }
{
    if set { flag } else { 0 }
}

/// The number that is kept for the line's client, 0 where none is.
fn number_for(numbers: &Numbers, tuple: &Tuple, opening: Option<Opening>) -> u32
    ensures { result ≡ number_for numbers.now tuple.now opening }
{
    let client = match opening {
        Some(opening) => opening.client,
        None => 0,
    };
    numbers.number(tuple, client).unwrap_or(0)
}

/// A MAC has six bytes.
fn is_mac(mac: &[u8; 6])
    ensures { length mac.now ≡ 6 }
{
    let bytes = mac.as_slice();
    let _ = bytes.len();
}

/// The message of a line, without its bytes, under this number.
fn line_message(tuple: &Tuple, line: &Line, number: u32) -> Message
    ensures value { result ≡ line_message tuple.now line.now number }
    ensures spelled { HasSpelling result }
{
    let acked = line.acked;
    is_mac(&line.mac);
    let refused = flag_if(REFUSED, line.refused.is_some());
    match line.opening {
        None => Message::Line {
            tuple: *tuple,
            mac: line.mac,
            flags: refused,
            client: 0,
            own: 0,
            number: 0,
            refused: line.refused.unwrap_or(0),
            acked: 0,
            window: 0,
            mss: 0,
            base: 0,
        },
        Some(opening) => Message::Line {
            tuple: *tuple,
            mac: line.mac,
            flags: OPENED + flag_if(RESET, line.reset) + refused + flag_if(FIN, line.fin),
            client: opening.client,
            own: opening.own,
            number,
            refused: line.refused.unwrap_or(0),
            acked,
            window: line.window,
            mss: line.mss,
            base: line.base,
        },
    }
}

/// Puts a line: its message, and its bytes.
fn put_line(
    alloc: Global,
    tuple: &Tuple,
    line: &Line,
    numbers: &Numbers,
    waits: &mut Outbox,
) -> Result<(), NoMemory>
    ensures { OnOk result (waits.new
        ≡ waits.old ++ line_messages numbers.now (tuple.now, line.now)) }
{
    let number = number_for(numbers, tuple, line.opening);
    let message = line_message(tuple, line, number);
    put_message(alloc, &message, waits)?;
    put_pieces(alloc, line.bytes.as_slice(), waits)
}

/// How many bytes of a line go into one message at most.
const BYTES_TOGETHER: usize = 65_536;

/// The bytes from number `65,536 * k` on that go into one message.
fn piece_of(bytes: &[u8], k: usize) -> &[u8]
    requires { 65536 * k < length bytes.now }
    ensures piece { result.now ≡ piece_at 65536 bytes.now k }
    ensures at_least { 1 ≤ length result.now }
    ensures at_most { length result.now ≤ 65536 }
{
    let rest = &bytes[BYTES_TOGETHER * k..];
    &rest[..BYTES_TOGETHER.min(rest.len())]
}

/// Puts the bytes from number `65,536 * k` on that go into one message.
fn put_piece(alloc: Global, bytes: &[u8], k: usize, waits: &mut Outbox) -> Result<(), NoMemory>
    requires { 65536 * k < length bytes.now }
    ensures { OnOk result (waits.new
        ≡ waits.old ++ message.Bytes (piece_at 65536 bytes.now k) ∷ []) }
{
    put_bytes(alloc, piece_of(bytes, k), waits)
}

/// Puts the bytes of a line in pieces.
fn put_pieces(alloc: Global, bytes: &[u8], waits: &mut Outbox) -> Result<(), NoMemory>
    ensures { OnOk result (waits.new ≡ waits.old ++ bytes_messages bytes.now) }
{
    for k in 0..bytes.len().div_ceil(BYTES_TOGETHER) {
        put_piece(alloc, bytes, k, waits)?;
    }
    Ok(())
}

/// Puts the line of entry `k` in table order, where there is one.
fn put_entry(
    alloc: Global,
    lines: &Tracker,
    numbers: &Numbers,
    k: usize,
    waits: &mut Outbox,
) -> Result<(), NoMemory>
    ensures { OnOk result (waits.new ≡ waits.old
        ++ flat_map (line_messages numbers.now) (take 1 (drop k (lines_of lines.now)))) }
{
    match lines.entry(k) {
        Some((tuple, line)) => put_line(alloc, tuple, line, numbers, waits),
        None => Ok(()),
    }
}

/// Puts all lines in table order.
pub fn put_lines(
    alloc: Global,
    lines: &Tracker,
    numbers: &Numbers,
    waits: &mut Outbox,
) -> Result<(), NoMemory>
    ensures { OnOk result (waits.new ≡ waits.old
        ++ flat_map (line_messages numbers.now) (lines_of lines.now)) }
{
    for k in 0..lines.len() {
        put_entry(alloc, lines, numbers, k, waits)?;
    }
    Ok(())
}
