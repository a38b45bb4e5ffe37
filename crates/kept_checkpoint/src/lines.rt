//! Lines of a checkpoint.

ghost use Rattle.std.specs.Prelude.{◌≡◌, ◌+◌, ◌&&◌, true, OnOk, if◌then◌else◌, max, nat_lt};
ghost use Rattle.tcp_track.specs.declared.offsets.TheConstants.{OFFSET_BOUND};
ghost use Rattle.std.specs.Option.{option_map};
ghost use Rattle.colo_wire.specs.Places.{has_flag};
ghost use Rattle.kept_checkpoint.specs.Lines.{bytes_fit, line_fits, line_in, refused_by, with_bytes};

use colo_base::NoMemory;
use colo_wire::{FIN, Message, OPENED, REFUSED, RESET};
use inet_frame::Tuple;
use std::alloc::Global;
use tcp_track::{KeptBytes, Line, OFFSET_BOUND, Offset, Opening};

/// A line of which more bytes may follow.
#[derive(Drop)]
pub struct LastLine {
    /// Its connection.
    pub tuple: Tuple,
    /// What was heard of it.
    pub line: Line,
}

/// Says whether a flag is set.
pub fn has_flag(flag: u8, flags: u8) -> bool
    ensures { result ≡ has_flag flag flags }
{
    flags & flag != 0
}

fn refused_by(flags: u8, client: u32) -> Option<u32>
    ensures { result ≡ refused_by flags client }
{
    if has_flag(REFUSED, flags) {
        Some(client)
    } else {
        None
    }
}

/// Says whether an end and an acknowledgement are below the bound of offsets.
fn are_offsets(base: Offset, fin: bool, acked: Offset) -> bool
    ensures { result ≡ (nat_lt (max base 1 + (if fin then 1 else 0)) OFFSET_BOUND
        && nat_lt acked OFFSET_BOUND) }
{
    let end = u64::from(base.max(1)) + u64::from(fin);
    end < u64::from(OFFSET_BOUND) && acked < OFFSET_BOUND
}

/// Says whether a line stays below the bound of offsets.
pub fn line_fits(message: &Message) -> bool
    ensures { result ≡ line_fits message.now }
{
    let Message::Line {
        flags,
        acked,
        base,
        ..
    } = message
    else {
        return true;
    };
    !has_flag(OPENED, *flags) || are_offsets(*base, has_flag(FIN, *flags), *acked)
}

/// The line that a message gives, without its bytes. It takes no memory.
pub fn line_in(alloc: Global, message: &Message) -> Line
    requires { line_fits message.now ≡ true }
    ensures { result ≡ line_in message.now }
{
    let mut line = Line::new(alloc);
    let Message::Line {
        mac,
        flags,
        client,
        own,
        refused,
        acked,
        window,
        mss,
        base,
        ..
    } = message
    else {
        return line;
    };
    line.refused = refused_by(*flags, *refused);
    let mac = *mac;
    line.mac = mac;
    if has_flag(OPENED, *flags) {
        line.opening = Some(Opening {
            client: *client,
            own: *own,
        });
        line.base = *base;
        line.fin = has_flag(FIN, *flags);
        line.reset = has_flag(RESET, *flags);
        line.acked = *acked;
        line.window = *window;
        line.mss = *mss;
    }
    line
}

/// Says whether more bytes of the last line may follow.
pub fn bytes_fit(last: &Option<LastLine>, bytes: &[u8]) -> bool
    ensures { result ≡ bytes_fit last.now bytes.now }
{
    match last {
        None => false,
        Some(last) => {
            last.line.opening.is_some()
                && last.line.end() as usize + bytes.len() < OFFSET_BOUND as usize
        }
    }
}

/// Adds bytes to the last line. After `NoMemory` it is as it was.
pub fn add_bytes(last: &mut Option<LastLine>, bytes: &[u8]) -> Result<(), NoMemory>
    requires { bytes_fit last.old bytes.now ≡ true }
    ensures { OnOk result (last.new ≡ option_map (λ l. with_bytes l bytes.now) last.old) }
{
    match last {
        None => Ok(()),
        Some(last) => last.line.bytes.extend(bytes),
    }
}
