//! The frames of a client that opens one connection after another.

ghost use Rattle.std.specs.Prelude.{◌≡◌, ◌<◌, ◌≤◌, ◌++◌, IfOk, OnOk, length};
ghost use Rattle.inet_build.specs.Segment.{segment_bytes};
ghost use Rattle.input_maker.specs.Client.{client_frame, exchange_ends, flags_at, offset_at, payload_at, segment_at, swap_parts};

use inet_build::{Segment, segment};
use inet_frame::{Tuple, flag};
use std::alloc::{AllocError, Global};

/// The client's MAC address.
const CLIENT_MAC: [u8; 6] = [0x52, 0x54, 0x00, 0xAA, 0x00, 0x01];

/// The client's IPv4 address, 10.0.2.2.
const CLIENT_ADDRESS: u32 = 0x0A00_0202;

/// The port that the client connects to.
const GUEST_PORT: u16 = 7;

/// The flags of a step: SYN, then bytes, then FIN.
fn flags_at(step: u8) -> u8
    ensures { result ≡ flags_at step }
{
    match step {
        0 => flag::SYN,
        7 => flag::FIN | flag::ACK,
        _ => flag::PSH | flag::ACK,
    }
}

/// How far a step's first symbol is from the SYN.
fn offset_at(step: u8) -> u64
    requires { step < 8 }
    ensures value { result ≡ offset_at step }
    ensures small { result ≤ 601 }
{
    if step == 0 {
        return 0;
    }
    1 + 100 * (u64::from(step) - 1)
}

/// The fields of a step of a connection.
fn segment_at(connection: u32, step: u8) -> Segment
    requires { step < 8 }
    ensures { result ≡ segment_at connection step }
{
    let first = 1000 * (u64::from(connection) + 1);
    Segment {
        dst_mac: CLIENT_MAC,
        tuple: Tuple {
            addr: CLIENT_ADDRESS,
            port: 40_000 + (connection % 20_000) as u16,
            guest: GUEST_PORT,
        },
        seq: ((first + offset_at(step)) % 0x1_0000_0000) as u32,
        ack: 0,
        flags: flags_at(step),
        window: 4096,
        mss: None,
    }
}

/// The bytes of a step of a connection, as a segment of the guest has them.
fn build_step(alloc: Global, connection: u32, step: u8) -> Result<Vec<u8>, AllocError>
    requires { step < 8 }
    ensures bytes { IfOk result (λ frame. frame.items
        ≡ segment_bytes (segment_at connection step) (payload_at step)) }
    ensures least { IfOk result (λ frame. 38 ≤ length frame.items) }
{
    let fields = segment_at(connection, step);
    if step == 0 || step == 7 {
        return segment(alloc, &fields, &[]);
    }
    segment(alloc, &fields, &[b'a' + step; 100])
}

/// Appends the part of a frame from the middle place on, and then the part up to it.
fn push_swapped(
    into: &mut Vec<u8>,
    frame: &[u8],
    start: usize,
    middle: usize,
    end: usize,
) -> Result<(), AllocError>
    requires first { start ≤ middle }
    requires second { middle ≤ end }
    requires within { end ≤ length frame.now }
    ensures { OnOk result (into.new.items
        ≡ into.old.items ++ swap_parts frame.now start middle end) }
{
    into.extend_from_slice(&frame[middle..end])?;
    into.extend_from_slice(&frame[start..middle])
}

/// The frame with both ends exchanged: MAC addresses, IPv4 addresses and ports.
#[tactic(auto, unfolding(crate::specs::Client::exchange_ends))]
fn exchange_ends(alloc: Global, frame: &[u8]) -> Result<Vec<u8>, AllocError>
    requires { 38 ≤ length frame.now }
    ensures { IfOk result (λ other. other.items ≡ exchange_ends frame.now) }
{
    let mut other = Vec::with_capacity(alloc, frame.len())?;
    push_swapped(&mut other, frame, 0, 6, 12)?;
    other.extend_from_slice(&frame[12..26])?;
    push_swapped(&mut other, frame, 26, 30, 34)?;
    push_swapped(&mut other, frame, 34, 36, 38)?;
    other.extend_from_slice(&frame[38..])?;
    Ok(other)
}

/// The client's frame with this index, counted from 0: of each connection a SYN, six segments of
/// 100 bytes, and a FIN.
#[tactic(auto, unfolding(crate::specs::Client::client_frame))]
pub fn client_frame(alloc: Global, index: u32) -> Result<Vec<u8>, AllocError>
    ensures { IfOk result (λ frame. frame.items ≡ client_frame index) }
{
    let frame = build_step(alloc, index / 8, (index % 8) as u8)?;
    exchange_ends(alloc, &frame)
}
