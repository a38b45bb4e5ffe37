//! Segments of one connection.

ghost use Rattle.std.specs.Prelude.{◌≡◌, ◌≤◌, ◌<◌, ◌+◌, ◌*◌, ◌^◌, ◌++◌, ◌∷◌, [], Some, length, map, OnOk, OnErr};
ghost use Rattle.settle_rules.specs.Release.{released_frame, segment_at, data_flags, data_segments, ends_here, syn_segments, release_symbols, release_bare, release_reset, refusal_of};
ghost use Rattle.line_release.specs.Both.{both_of};
ghost use Rattle.settle_rules.specs.Pieces.{piece_at};
ghost use Rattle.shared_definitions.specs.Begins.{Begins};
ghost use Rattle.line_release.specs.PieceSegment.{piece_segment};

use crate::both::Both;
use crate::parts::{bytes_between, has_fin_between, has_syn_between};
use colo_base::{Frames, NoMemory};
use inet_build::{Segment, segment};
use inet_frame::flag;
use std::alloc::Global;
use tcp_track::{Line, Offset};

/// At most so many bytes go into one segment (RFC 9293, 3.7.1).
const LARGEST_PAYLOAD: usize = 536;

const SYN_ACK: u8 = flag::SYN | flag::ACK;

const FIN_ACK: u8 = flag::FIN | flag::ACK;

const PSH_ACK: u8 = flag::PSH | flag::ACK;

const FIN_PSH_ACK: u8 = flag::FIN | flag::PSH | flag::ACK;

const RST_ACK: u8 = flag::RST | flag::ACK;

const ACK_ALONE: u8 = flag::ACK;

impl<'a> Both<'a> {
    /// Adds a segment at an offset of the connection, with the agreed acknowledgement and window.
    #[tactic(auto, unfolding(settle_rules::specs::Release::released_frame))]
    fn put_segment(
        &self,
        alloc: Global,
        offset: Offset,
        flags: u8,
        mss: Option<u16>,
        payload: &[u8],
        out: &mut Frames,
    ) -> Result<(), NoMemory>
        requires { length payload.now ≤ 536 }
        ensures ok { OnOk result (out.new ≡ out.old
            ++ released_frame (segment_at (both_of self.now) offset flags mss payload.now) ∷ []) }
        ensures err { OnErr result (out.new ≡ out.old) }
    {
        let fields = Segment {
            dst_mac: mac(self.mine),
            tuple: self.tuple,
            seq: self.number.wrapping_add(offset),
            ack: self.agreed_ack(),
            flags,
            window: self.agreed_window(),
            mss,
        };
        let frame = segment(alloc, &fields, payload)?;
        out.add(frame)
    }
}

fn mac(line: &Line) -> [u8; 6]
    ensures { result ≡ line.now.mac }
{
    line.mac
}

/// The flags of a segment with this payload, where `ends` says that FIN goes with it: without a
/// payload FIN goes alone.
fn data_flags(payload: &[u8], ends: bool) -> u8
    ensures { result ≡ data_flags payload.now ends }
{
    if payload.is_empty() {
        return FIN_ACK;
    }
    if ends { FIN_PSH_ACK } else { PSH_ACK }
}

/// Piece `k` of some bytes, of at most 536.
fn piece_at(bytes: &[u8], k: usize) -> &[u8]
    requires { 536 * k < length bytes.now }
    ensures value { result.now ≡ piece_at 536 bytes.now k }
    ensures len { length result.now ≤ 536 }
{
    let start = LARGEST_PAYLOAD * k;
    let end = (bytes.len() - start).min(LARGEST_PAYLOAD) + start;
    &bytes[start..end]
}

/// Says whether FIN goes with piece `k`.
fn ends_here(bytes: &[u8], ends: bool, k: usize) -> bool
    requires { 536 * k < length bytes.now }
    ensures { result ≡ ends_here bytes.now ends k }
{
    ends && bytes.len() - LARGEST_PAYLOAD * k <= LARGEST_PAYLOAD
}

impl<'a> Both<'a> {
    /// Adds the segment of piece `k` of some bytes that stand from an offset on.
    fn put_piece(
        &self,
        alloc: Global,
        offset: Offset,
        bytes: &[u8],
        ends: bool,
        k: usize,
        out: &mut Frames,
    ) -> Result<(), NoMemory>
        requires place { 536 * k < length bytes.now }
        requires fits { offset + length bytes.now < 2 ^ 32 }
        ensures ok { OnOk result (out.new ≡ out.old
            ++ released_frame (piece_segment (both_of self.now) offset bytes.now ends k) ∷ []) }
        ensures err { OnErr result (out.new ≡ out.old) }
    {
        let piece = piece_at(bytes, k);
        let flags = data_flags(piece, ends_here(bytes, ends, k));
        let at = offset + (LARGEST_PAYLOAD * k) as Offset;
        self.put_segment(alloc, at, flags, None, piece, out)
    }

    /// Adds FIN alone, where it is to go.
    fn put_fin(
        &self,
        alloc: Global,
        offset: Offset,
        ends: bool,
        out: &mut Frames,
    ) -> Result<(), NoMemory>
        ensures ok { OnOk result (out.new ≡ out.old
            ++ map released_frame (data_segments (both_of self.now) offset [] ends)) }
        ensures err { OnErr result (out.new ≡ out.old) }
    {
        if ends {
            self.put_segment(alloc, offset, FIN_ACK, None, &[], out)
        } else {
            Ok(())
        }
    }

    /// Adds the segments of some bytes from an offset on.
    fn put_pieces(
        &self,
        alloc: Global,
        offset: Offset,
        bytes: &[u8],
        ends: bool,
        out: &mut Frames,
    ) -> Result<(), NoMemory>
        requires some { 0 < length bytes.now }
        requires fits { offset + length bytes.now < 2 ^ 32 }
        ensures ok { OnOk result (out.new ≡ out.old
            ++ map released_frame (data_segments (both_of self.now) offset bytes.now ends)) }
        ensures err { OnErr result (Begins out.old out.new) }
    {
        let count = (bytes.len() + (LARGEST_PAYLOAD - 1)) / LARGEST_PAYLOAD;
        for k in 0..count {
            self.put_piece(alloc, offset, bytes, ends, k, out)?;
        }
        Ok(())
    }

    /// Adds the segments of some bytes and a FIN from an offset on, each of at most 536 bytes, FIN
    /// with the last or alone.
    fn put_data(
        &self,
        alloc: Global,
        offset: Offset,
        bytes: &[u8],
        ends: bool,
        out: &mut Frames,
    ) -> Result<(), NoMemory>
        requires { offset + length bytes.now < 2 ^ 32 }
        ensures ok { OnOk result (out.new ≡ out.old
            ++ map released_frame (data_segments (both_of self.now) offset bytes.now ends)) }
        ensures err { OnErr result (Begins out.old out.new) }
    {
        if bytes.is_empty() {
            self.put_fin(alloc, offset, ends, out)
        } else {
            self.put_pieces(alloc, offset, bytes, ends, out)
        }
    }

    /// Adds SYN, where it is to go, with the smaller maximum segment size.
    pub fn release_syn(&self, alloc: Global, goes: bool, out: &mut Frames) -> Result<(), NoMemory>
        ensures ok { OnOk result (out.new ≡ out.old
            ++ map released_frame (syn_segments (both_of self.now) goes)) }
        ensures err { OnErr result (out.new ≡ out.old) }
    {
        if goes {
            let mss = self.agreed_mss();
            self.put_segment(alloc, 0, SYN_ACK, Some(mss), &[], out)
        } else {
            Ok(())
        }
    }

    /// Adds the symbols of the node's own line from one offset up to another: SYN alone, then bytes
    /// in segments of at most 536, FIN with the last of them or alone. The line isn't trimmed past
    /// the first offset. After `NoMemory` the list begins with what it held.
    #[tactic(auto, unfolding(settle_rules::specs::Release::release_symbols))]
    pub fn release_symbols(
        &self,
        alloc: Global,
        from: Offset,
        to: Offset,
        out: &mut Frames,
    ) -> Result<(), NoMemory>
        requires { self.now.mine.now.base ≤ from }
        ensures ok { OnOk result (out.new ≡ out.old
            ++ map released_frame (release_symbols (both_of self.now) from to)) }
        ensures err { OnErr result (Begins out.old out.new) }
    {
        let bytes = bytes_between(self.mine, from, to);
        let ends = has_fin_between(self.mine, from, to);
        self.release_syn(alloc, has_syn_between(self.mine, from, to), out)?;
        self.put_data(alloc, from.max(1), bytes, ends, out)
    }

    /// Adds a segment without symbols at the edge, where it is to go.
    pub fn release_bare(
        &self,
        alloc: Global,
        edge: Offset,
        goes: bool,
        out: &mut Frames,
    ) -> Result<(), NoMemory>
        ensures ok { OnOk result (out.new ≡ out.old
            ++ map released_frame (release_bare (both_of self.now) edge goes)) }
        ensures err { OnErr result (out.new ≡ out.old) }
    {
        if goes {
            self.put_segment(alloc, edge, ACK_ALONE, None, &[], out)
        } else {
            Ok(())
        }
    }

    /// Adds a reset at the edge, where it is to go.
    pub fn release_reset(
        &self,
        alloc: Global,
        edge: Offset,
        goes: bool,
        out: &mut Frames,
    ) -> Result<(), NoMemory>
        ensures ok { OnOk result (out.new ≡ out.old
            ++ map released_frame (release_reset (both_of self.now) edge goes)) }
        ensures err { OnErr result (out.new ≡ out.old) }
    {
        if goes {
            self.put_segment(alloc, edge, RST_ACK, None, &[], out)
        } else {
            Ok(())
        }
    }

    /// Adds a refusal of a client's number.
    #[tactic(auto, unfolding(settle_rules::specs::Release::released_frame))]
    pub fn release_refusal(
        &self,
        alloc: Global,
        client: u32,
        out: &mut Frames,
    ) -> Result<(), NoMemory>
        ensures ok { OnOk result (out.new ≡ out.old
            ++ released_frame (refusal_of (both_of self.now) client) ∷ []) }
        ensures err { OnErr result (out.new ≡ out.old) }
    {
        let fields = Segment {
            dst_mac: mac(self.mine),
            tuple: self.tuple,
            seq: 0,
            ack: client.wrapping_add(1),
            flags: RST_ACK,
            window: 0,
            mss: None,
        };
        let frame = segment(alloc, &fields, &[])?;
        out.add(frame)
    }
}
