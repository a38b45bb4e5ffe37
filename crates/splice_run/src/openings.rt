//! The current openings of a guest's connections, from the frames that it sent.

ghost use Rattle.std.specs.Prelude.{◌≡◌, ◌≤◌, length, take, OnOk};
ghost use Rattle.indexmap.specs.IndexMap.{get};
ghost use Rattle.inet_frame.specs.Counted.{counted, tcp_in};
ghost use Rattle.inet_frame.specs.declared.tuple.Tuple.{Tuple};
ghost use Rattle.tcp_track.specs.Segments.{same_tuple};
ghost use Rattle.tcp_track.specs.Stands.{opening_after};
ghost use Rattle.splice_run.specs.Openings.{KnowsOpenings, opening_at, opening_with};

use colo_base::{Frames, NoMemory};
use indexmap::IndexMap;
use inet_frame::{Seen, TcpView, Tuple, counted, parse};
use tcp_track::{Opening, may_open, opening_in};

/// The current openings, by the names of their connections.
pub type Openings = IndexMap<Tuple, Opening>;

/// Notes the opening of a segment, where it makes one.
fn note_segment(openings: &mut Openings, segment: &TcpView) -> Result<(), NoMemory>
    ensures { OnOk result ((t : Tuple) → get same_tuple openings.new t
        ≡ opening_after t (get same_tuple openings.old t) segment.now) }
{
    if may_open(segment) {
        openings.insert(segment.tuple(), opening_in(segment))?;
    }
    Ok(())
}

/// Notes the opening of a frame that the guest sent, where it makes one.
fn note_frame(openings: &mut Openings, frame: &[u8]) -> Result<(), NoMemory>
    ensures { OnOk result ((t : Tuple) → get same_tuple openings.new t
        ≡ opening_with t (get same_tuple openings.old t) (counted frame.now)) }
{
    match counted(frame) {
        Some(segment) => note_segment(openings, &segment),
        None => Ok(()),
    }
}

/// Notes the openings of the frames from `from` on, where those of the frames before are known.
pub fn note_frames(openings: &mut Openings, sent: &Frames, from: usize) -> Result<(), NoMemory>
    requires within { from ≤ length sent.now }
    requires before { KnowsOpenings (get same_tuple openings.old) (take from sent.now) }
    ensures { OnOk result (KnowsOpenings (get same_tuple openings.new) sent.now) }
{
    for k in from..sent.len() {
        let Some(frame) = sent.get(k) else {
            return Ok(());
        };
        note_frame(openings, frame)?;
    }
    Ok(())
}

/// The current opening of a client's segment.
pub fn opening_at(openings: &Openings, frame: &[u8]) -> Option<Opening>
    ensures { result ≡ opening_at (get same_tuple openings.now) (tcp_in frame.now) }
{
    match parse(frame) {
        Seen::Tcp(segment) => openings.get(&segment.client_tuple()).copied(),
        Seen::Arp(_) | Seen::Udp(_) | Seen::Other(_) => None,
    }
}
