//! The openings that the senders of a log's client frames had seen.

ghost use Rattle.std.specs.Prelude.{◌≡◌, ℕ, IfOk, OnOk};
ghost use Rattle.std.specs.BTreeMap.{get};
ghost use Rattle.std.specs.Ordering.{nat_cmp};
ghost use Rattle.splice_run.specs.Frames.{answer_frame, client_frame, seen_first, seen_in, taken_frame};

use colo_base::NoMemory;
use replay_log::{Answer, Line, Record, TurnFrame};
use std::alloc::Global;
use std::collections::BTreeMap;
use tcp_track::Opening;

/// A frame that a client event names, and the opening that its sender had seen.
#[derive(Clone, Copy)]
pub struct ClientFrame {
    pub index: u64,
    pub seen: Option<Opening>,
}

/// The openings seen, by the frames' indices.
pub type Seen = BTreeMap<u64, Option<Opening>>;

/// The frame that an answer names.
fn answer_frame(answer: Answer) -> Option<ClientFrame>
    ensures { result ≡ answer_frame answer }
{
    match answer {
        Answer::Accepted { index, seen, .. } => Some(ClientFrame { index, seen }),
        Answer::Arp { index }
        | Answer::Dropped { index, .. }
        | Answer::Full { index }
        | Answer::Lost { index } => Some(ClientFrame { index, seen: None }),
        Answer::Nothing
        | Answer::Made { .. }
        | Answer::Heard { .. }
        | Answer::HeardBack { .. }
        | Answer::Zero
        | Answer::Reported { .. } => None,
    }
}

/// The frame of a client event.
fn client_frame(record: &Record) -> Option<ClientFrame>
    ensures { result ≡ client_frame record.now }
{
    match record.line {
        Line::Client => answer_frame(record.answer),
        _ => None,
    }
}

/// What an event says of its frame, before what is known from later ones.
fn tell(seen: &mut Seen, frame: Option<ClientFrame>) -> Result<(), NoMemory>
    ensures { OnOk result ((index : ℕ) →
        get nat_cmp seen.new index ≡ seen_first frame index (get nat_cmp seen.old index)) }
{
    if let Some(frame) = frame {
        seen.insert(frame.index, frame.seen)?;
    }
    Ok(())
}

/// The openings that the log's client events tell, of each index the first.
pub fn seen_in(alloc: Global, log: &[Record]) -> Result<Seen, NoMemory>
    ensures { IfOk result (λ seen. (index : ℕ) → get nat_cmp seen index ≡ seen_in log.now index) }
{
    let mut seen = BTreeMap::new(alloc);
    let mut end = log.len();
    while end > 0 {
        end -= 1;
        tell(&mut seen, client_frame(&log[end]))?;
    }
    Ok(seen)
}

/// The frame of a turn that took the frame of this index.
pub fn taken_frame(seen: &Seen, taken: Option<u64>) -> TurnFrame
    ensures { result ≡ taken_frame (get nat_cmp seen.now) taken }
{
    let Some(index) = taken else {
        return TurnFrame::Absent;
    };
    match seen.get(&index) {
        Some(Some(opening)) => TurnFrame::Seen {
            index,
            opening: *opening,
        },
        _ => TurnFrame::Plain { index },
    }
}
