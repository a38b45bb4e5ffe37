//! The line of a tuple, and what one segment or trim leaves of it.

ghost use Rattle.std.specs.Prelude.{◌≡◌, ◌≤◌, ◌<◌, ◌+◌, true, length, Some, IfOk, OnOk, OnErr};
ghost use Rattle.inet_frame.specs.Flags.{has_rst};
ghost use Rattle.tcp_track.specs.Segments.{opens_anew, opening_in, is_refusal, may_open, same_opening, start_of, is_near, payload_symbols};
ghost use Rattle.tcp_track.specs.Stands.{acked_after};
ghost use Rattle.tcp_track.specs.Lines.{window_after};

use crate::keeping::KeptBytes;
use crate::offsets::{OFFSET_BOUND, Offset, distance};
use crate::openings::Opening;
use colo_base::NoMemory;
use inet_frame::{TcpView, mss};
use std::alloc::{AllocError, Global};
use std::marker::Model;

/// The symbols of a tuple's current opening, SYN at offset 0 and then bytes and FIN, from the base
/// on; and what stands beside them. The base is the offset below which they are trimmed. Offsets
/// are below `OFFSET_BOUND`.
#[derive(Drop)]
pub struct Line {
    /// The current opening. Without one the line has no symbols.
    pub opening: Option<Opening>,
    /// The greatest trim. FIN is never below it.
    pub base: Offset,
    /// The bytes from the base on, or from offset 1 where the base is 0.
    pub bytes: KeptBytes,
    /// FIN follows the bytes.
    pub fin: bool,
    /// The opening was reset.
    pub reset: bool,
    /// The client's number that the last refusal of the tuple names.
    pub refused: Option<u32>,
    /// The greatest acknowledgement, as an offset in the client's stream.
    pub acked: Offset,
    /// The window of the last segment with ACK.
    pub window: u16,
    /// The maximum segment size that the opening states, 0 without an opening.
    pub mss: u16,
    /// The destination of the opening, or without one of the last refusal.
    pub mac: [u8; 6],
}

impl Model for Line {
    ghost use Rattle.tcp_track.specs.LineFields.{LineFields};

    ghost Value = { LineFields };

    ghost use Rattle.tcp_track.specs.LineInside.{fields_of_line, IsLine};

    ghost view = { fields_of_line };

    ghost invariant = { IsLine };
}

impl Line {
    ghost use Rattle.tcp_track.specs.LineFields.{no_fields, bytes_end, end_of, grows, grow_fields, fields_acked, fields_opened, fields_refused, fields_reset, fields_with, fields_after, fields_trimmed, cut};
    ghost use Rattle.tcp_track.specs.Stands.{is_of_client};

    /// A line without an opening and without a refusal. It takes no memory.
    pub fn new(alloc: Global) -> Line
        ensures { result ≡ no_fields }
    {
        Line {
            opening: None,
            base: 0,
            bytes: KeptBytes::new(alloc),
            fin: false,
            reset: false,
            refused: None,
            acked: 0,
            window: 0,
            mss: 0,
            mac: [0; 6],
        }
    }

    /// The offset after the last byte.
    pub fn bytes_end(&self) -> Offset
        ensures value { result ≡ bytes_end self.now }
        ensures within { result < OFFSET_BOUND }
    {
        self.base.max(1) + self.bytes.len() as Offset
    }

    /// The offset after the last symbol, of a line with an opening.
    pub fn end(&self) -> Offset
        ensures value { result ≡ end_of self.now }
        ensures within { result < OFFSET_BOUND }
    {
        let end = self.base.max(1) + self.bytes.len() as Offset;
        if self.fin { end + 1 } else { end }
    }

    /// Says whether the current opening is one of this client.
    pub fn is_of_client(&self, client: u32) -> bool
        ensures { result ≡ is_of_client self.now.opening client }
    {
        match self.opening {
            None => false,
            Some(opening) => opening.client == client,
        }
    }

    /// Takes a segment on the line's tuple. After `NoMemory` the line is as it was.
    #[tactic(auto, unfolding(crate::specs::LineFields::fields_after))]
    pub(crate) fn take(&mut self, segment: &TcpView) -> Result<(), NoMemory>
        ensures ok { OnOk result (self.new ≡ fields_after self.old segment.now) }
        ensures err { OnErr result (self.new ≡ self.old) }
    {
        if is_refusal(segment) {
            self.refuse(segment);
            return Ok(());
        }
        if segment.has_rst() {
            self.note_reset();
            return Ok(());
        }
        let opening = self.opening;
        if opens_anew(opening, segment) {
            self.open(segment);
            return Ok(());
        }
        match opening {
            None => Ok(()),
            Some(opening) => self.add(opening, segment),
        }
    }

    fn refuse(&mut self, segment: &TcpView)
        ensures { self.new ≡ fields_refused self.old segment.now }
    {
        self.refused = Some(distance(1, segment.ack()));
        if self.opening.is_none() {
            self.mac = mac_of(segment.dst_mac());
        }
    }

    fn note_reset(&mut self)
        ensures { self.new ≡ fields_reset self.old }
    {
        self.reset = self.opening.is_some();
    }

    fn open(&mut self, segment: &TcpView)
        ensures { self.new ≡ fields_opened self.old segment.now }
    {
        let opening = opening_in(segment);
        self.opening = Some(opening);
        self.base = 0;
        self.bytes.clear();
        self.fin = false;
        self.reset = false;
        self.acked = acked_after(0, opening.client, segment);
        self.window = segment.window();
        self.mss = mss(segment.options());
        self.mac = mac_of(segment.dst_mac());
    }

    /// Takes a segment of the current opening.
    fn add(&mut self, opening: Opening, segment: &TcpView) -> Result<(), NoMemory>
        requires { self.old.opening ≡ Some opening }
        ensures ok { OnOk result (self.new ≡ fields_with self.old (Some opening) segment.now) }
        ensures err { OnErr result (self.new ≡ self.old) }
    {
        if self.grows(opening.own, segment) {
            self.grow(opening, segment)?;
        }
        self.acknowledge(opening, segment);
        Ok(())
    }

    /// Says whether a segment may add to the symbols.
    fn grows(&self, own: u32, segment: &TcpView) -> bool
        ensures { result ≡ grows self.now own segment.now }
    {
        if segment.has_syn() || !is_near(own, segment) || self.fin {
            return false;
        }
        distance(own, segment.seq()) <= self.bytes_end()
    }

    /// Adds a segment's symbols from the line's end on.
    fn grow(&mut self, opening: Opening, segment: &TcpView) -> Result<(), NoMemory>
        requires opened { self.old.opening ≡ Some opening }
        requires grows { grows self.old opening.own segment.now ≡ true }
        ensures ok { OnOk result (self.new
            ≡ grow_fields self.old (start_of opening.own segment.now) segment.now) }
        ensures err { OnErr result (self.new ≡ self.old) }
    {
        let known = (self.bytes_end() - distance(opening.own, segment.seq())) as usize;
        let payload = segment.payload();
        if known <= payload.len() {
            self.bytes.extend(&payload[known..])?;
            self.fin = segment.has_fin();
        }
        Ok(())
    }

    fn acknowledge(&mut self, opening: Opening, segment: &TcpView)
        ensures { self.new ≡ fields_acked self.old opening segment.now }
    {
        self.acked = acked_after(self.acked, opening.client, segment);
        self.window = window_after(self.window, segment);
    }

    /// Forgets the symbols below `to`, but never FIN, where the current opening is one of this
    /// client. It takes no memory.
    #[tactic(auto, unfolding(crate::specs::LineFields::fields_trimmed))]
    pub(crate) fn trim(&mut self, client: u32, to: Offset)
        ensures { self.new ≡ fields_trimmed self.old client to }
    {
        if self.is_of_client(client) {
            let end = self.bytes_end();
            self.cut(to.min(end));
        }
    }

    fn cut(&mut self, to: Offset)
        requires { to ≤ bytes_end self.old }
        ensures { self.new ≡ cut self.old to }
    {
        let gone = to.saturating_sub(self.base.max(1));
        self.bytes.forget(gone as usize);
        self.base = self.base.max(to);
    }
}

impl Clone for Line {
    ghost is_clone = { λ line copy. copy ≡ line };

    fn clone(&self) -> Result<Line, AllocError> {
        let bytes = match self.bytes.copy() {
            Ok(bytes) => bytes,
            Err(NoMemory) => return Err(AllocError),
        };
        Ok(Line {
            opening: self.opening,
            base: self.base,
            bytes,
            fin: self.fin,
            reset: self.reset,
            refused: self.refused,
            acked: self.acked,
            window: self.window,
            mss: self.mss,
            mac: self.mac,
        })
    }
}

/// A MAC address as six bytes.
fn mac_of(mac: &[u8]) -> [u8; 6]
    requires { length mac.now ≡ 6 }
    ensures { result ≡ mac.now }
{
    let mut bytes = [0; 6];
    bytes.copy_from_slice(mac);
    bytes
}

/// Says whether a segment is a refusal: RST, ACK and sequence number 0.
#[tactic(auto, unfolding(crate::specs::Segments::is_refusal))]
pub(crate) fn is_refusal(segment: &TcpView) -> bool
    ensures { result ≡ is_refusal segment.now }
{
    segment.has_rst() && (segment.has_ack() && segment.seq() == 0)
}

/// Says whether a segment has SYN and ACK and no RST.
#[tactic(auto, unfolding(crate::specs::Segments::may_open))]
pub fn may_open(segment: &TcpView) -> bool
    ensures { result ≡ may_open segment.now }
{
    segment.has_syn() && (segment.has_ack() && !segment.has_rst())
}

/// The opening that a segment makes.
pub fn opening_in(segment: &TcpView) -> Opening
    ensures { result ≡ opening_in segment.now }
{
    Opening {
        client: distance(1, segment.ack()),
        own: segment.seq(),
    }
}

/// Says whether a segment opens, and not the opening that stands already.
pub(crate) fn opens_anew(current: Option<Opening>, segment: &TcpView) -> bool
    ensures { result ≡ opens_anew current segment.now }
{
    may_open(segment) && !same_opening(current, opening_in(segment))
}

fn same_opening(current: Option<Opening>, opening: Opening) -> bool
    ensures { result ≡ same_opening current opening }
{
    match current {
        None => false,
        Some(current) => current.client == opening.client && current.own == opening.own,
    }
}

/// Says whether the offset after a segment's last symbol is below the bound.
#[tactic(auto, unfolding(crate::specs::Segments::is_near))]
pub(crate) fn is_near(own: u32, segment: &TcpView) -> bool
    ensures value { result ≡ is_near own segment.now }
    ensures within { result ≡ true
        → start_of own segment.now + length (payload_symbols segment.now) < OFFSET_BOUND }
{
    let start = distance(own, segment.seq());
    start < OFFSET_BOUND && symbol_count(segment) < OFFSET_BOUND - start
}

/// How many bytes and FIN a segment has.
pub(crate) fn symbol_count(segment: &TcpView) -> Offset
    ensures value { result ≡ length (payload_symbols segment.now) }
    ensures small { result ≤ 1461 }
{
    let count = segment.payload().len() as Offset;
    if segment.has_fin() { count + 1 } else { count }
}

/// The greater of what was acknowledged before and what a segment acknowledges.
fn acked_after(acked: Offset, client: u32, segment: &TcpView) -> Offset
    requires { acked < OFFSET_BOUND }
    ensures value { result ≡ acked_after acked client segment.now }
    ensures within { result < OFFSET_BOUND }
{
    let to = distance(client, segment.ack());
    if segment.has_ack() && to < OFFSET_BOUND {
        acked.max(to)
    } else {
        acked
    }
}

fn window_after(window: u16, segment: &TcpView) -> u16
    ensures { result ≡ window_after window segment.now }
{
    if segment.has_ack() {
        segment.window()
    } else {
        window
    }
}
