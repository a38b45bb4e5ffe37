//! A frame for each reason to drop it, a SYN that is cleaned, an ARP request, and a full inbox. The
//! frames were put together by an independent script. A line of a text takes a frame, and answers
//! its drop number, 0 where it is accepted or answered; `is_clean` and `is_answered` compare what
//! is kept of it, and the reply to it.

use crate::frames::made;
use crate::scene::play;
use colo_base::{Contents, NoMemory};
use frame_mirror::{Entry, Inbox, Waiting, accept};
use std::alloc::Global;
use std::test::Fail;
use worked_frames::{ARP_REPLY, CLEAN_SYN};
use worked_steps::{Answer, Scene, no_such_call, number, word, yes_or_no};

/// A client's frame at the gate of the pair.
#[derive(Drop)]
struct Gate {
    alloc: Global,
    frame: Vec<u8>,
}

/// The number of a dropped frame, 0 for any other.
fn drop_number(alloc: Global, frame: &[u8]) -> Answer {
    match accept(alloc, frame) {
        Ok(Entry::Drop(why)) => number(u64::from(why.number)),
        Ok(Entry::Frame(_)) | Ok(Entry::Answer(_)) => number(0),
        Err(_) => word("out of memory"),
    }
}

/// Whether the clean SYN is kept of a frame.
fn is_clean(alloc: Global, frame: &[u8]) -> bool {
    match accept(alloc, frame) {
        Ok(Entry::Frame(kept)) => kept.as_slice() == CLEAN_SYN.as_slice(),
        Ok(Entry::Drop(_)) | Ok(Entry::Answer(_)) | Err(_) => false,
    }
}

/// Whether a frame is answered by the worked reply.
fn is_answered(alloc: Global, frame: &[u8]) -> bool {
    match accept(alloc, frame) {
        Ok(Entry::Answer(reply)) => reply.as_slice() == ARP_REPLY.as_slice(),
        Ok(Entry::Drop(_)) | Ok(Entry::Frame(_)) | Err(_) => false,
    }
}

impl Scene for Gate {
    fn call(&mut self, name: &str, n: &[u32; 6]) -> Answer {
        if let Some(frame) = made(self.alloc, &self.frame, name, n) {
            self.frame = frame;
            return drop_number(self.alloc, &self.frame);
        }
        match name {
            "is_clean" => yes_or_no(is_clean(self.alloc, &self.frame)),
            "is_answered" => yes_or_no(is_answered(self.alloc, &self.frame)),
            _ => no_such_call(),
        }
    }
}

impl Gate {
    fn new(alloc: Global) -> Gate {
        Gate {
            alloc,
            frame: Vec::new(alloc),
        }
    }
}

/// Each number with the first reason.
const NUMBERS: &str = "\
syn : 0
request : 0
syn : 0
cut D : 1
zeros 5EB : 2
syn C 86 : 3
request 15 2 : 4
syn E 65 : 5
syn 19 AD : 6
syn 14 20 18 42 : 7
syn 17 1 19 B1 : 8
syn 2E 40 : 9
syn 32 80 : A
summed 27 C : B
summed 28 23 : C
syn 5 57 : D
elsewhere : D
summed 5 57 : D
request 29 10 : D
summed : E
";

/// What is kept, and the reply.
const TAKEN: &str = "\
syn : 0
is_clean : yes
request : 0
is_answered : yes
";

#[test]
fn dropped_frames_have_the_first_number(rt: HostRuntime) {
    play(&rt, &mut Gate::new(rt.alloc()), NUMBERS);
}

#[test]
fn an_accepted_syn_is_clean_and_a_request_is_answered(rt: HostRuntime) {
    play(&rt, &mut Gate::new(rt.alloc()), TAKEN);
}

/// An inbox for frames of no bytes, which are known by their indices.
#[derive(Drop)]
struct Waiters {
    alloc: Global,
    inbox: Inbox,
}

/// What is told of an index.
fn index_or_none(index: Option<u64>) -> Answer {
    match index {
        Some(index) => number(index),
        None => word("none"),
    }
}

impl Waiters {
    fn new(alloc: Global) -> Result<Waiters, NoMemory> {
        Ok(Waiters {
            alloc,
            inbox: Inbox::new(alloc)?,
        })
    }

    /// Puts a frame, and gives the index of one that is given back.
    fn put(&mut self, index: u64) -> Option<u64> {
        let waiting = Waiting {
            index,
            seen: None,
            trim: 0,
            frame: Contents::from_vec(Vec::new(self.alloc)),
        };
        match self.inbox.put(waiting) {
            Err(back) => Some(back.index),
            Ok(()) => None,
        }
    }

    /// The index of the oldest frame, which is taken.
    fn take(&mut self) -> Option<u64> {
        let oldest = self.inbox.take()?;
        Some(oldest.index)
    }

    /// Whether frames with these indices are put, and none is given back.
    fn are_put(&mut self, from: u32, to: u32) -> bool {
        for index in from..to {
            if self.put(u64::from(index)).is_some() {
                return false;
            }
        }
        true
    }

    /// Whether frames with these indices are taken, in order.
    fn are_taken(&mut self, from: u32, to: u32) -> bool {
        for index in from..to {
            if self.take() != Some(u64::from(index)) {
                return false;
            }
        }
        true
    }
}

impl Scene for Waiters {
    /// `put` answers the index of a frame that is given back, and `take` that of the oldest one;
    /// `are_put` and `are_taken` have the first index and the one after the last.
    fn call(&mut self, name: &str, n: &[u32; 6]) -> Answer {
        match name {
            "put" => index_or_none(self.put(u64::from(n[0]))),
            "take" => index_or_none(self.take()),
            "are_put" => yes_or_no(self.are_put(n[0], n[1])),
            "are_taken" => yes_or_no(self.are_taken(n[0], n[1])),
            "length" => number(self.inbox.len() as u64),
            "is_empty" => yes_or_no(self.inbox.is_empty()),
            _ => no_such_call(),
        }
    }
}

/// 4,096 frames wait, and one more is given back.
const FULL: &str = "\
is_empty : yes
are_put 0 1000 : yes
length : 1000
put 1000 : 1000
are_taken 0 FFF : yes
put 1000 : none
put 1001 : none
are_taken FFF 1002 : yes
take : none
";

#[test]
fn a_full_inbox_gives_the_frame_back_and_keeps_its_order(rt: HostRuntime) -> Result<(), Fail> {
    play(&rt, &mut Waiters::new(rt.alloc())?, FULL);
    Ok(())
}
