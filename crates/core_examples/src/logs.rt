//! Worked logs. A text has the lines of a log, and after those of an event the frames that went out
//! in it: `out` with a kind, the sequence number and the bytes. Beside them a text has
//!
//! - `sends FRAME`: the client sends a worked frame;
//! - `come COUNT` and `heard COUNT`: so many frames of the client come and are accepted, without an
//!   opening seen, and so many of them are delivered to the secondary;
//! - `rest COUNT`: so many turns of the primary that take and send nothing;
//! - `refused LINE`: a second stop, or a false report;
//! - `wire MESSAGE`: the message that the event delivered;
//! - `waiting DOWN UP`, `offered FRAMES`, `steps EVENTS` and `turned TURNS`: what is on its way,
//!   what clients sent, the events that happened, and the turns of the survivor's guest;
//! - `received FRAME`: the last frame that the survivor's guest received.
//!
//! The client is 10.0.2.2 at port 40000, its number is 1000, and the guest's port is 7.

use crate::session::Session;
use crate::told::Told;
use crate::words::{cut, frame, line, number, worked};
use pair_core::{Pair, StepFault};
use replay_log::{Answer, Line};
use state_wire::ScriptGuest;
use std::alloc::Global;
use std::process::Abort;
use std::test::Fail;

/// What a guest sends in a turn whose clock goes on by 0, 1, and so on.
const TABLE: &str = "\
none
syn 5000
syn 9000
data 5001 0123456789
data 9001 012
data 9004 3456789
data 5001 abc
data 9001 abd
";

/// Two SYNs, a reset after each, and a refusal.
const RESETS: &str = "\
none
syn 5000
syn 9000
reset 5001
reset 9001
reset 0
";

/// Both guests take the client's SYN and answer it, each with a number of its own.
const OPENING: &str = "\
sends syn
c : 0 - 0 0
P 1 1 0 0 : 0 0
> : 1
> : 2
wire number
S 2 1 0 0 : 0 0
< : 12 0 0
< : 13 1 1
out syn 5000
";

/// The secondary's guest has sent three of ten bytes.
const FIRST_CUT: &str = "\
P 3 0 0 0 : - 0
S 4 0 0 0 : - 0
< : 13 2 1
out data 5001 012
";

const SECOND_CUT: &str = "\
S 5 0 0 0 : - 0
< : 13 3 1
out data 5004 3456789
turned 2
";

/// A difference, and its checkpoint without the last message.
const DIFFERENCE: &str = "\
P 6 0 0 0 : - 0
S 7 0 0 0 : - 0
< : 13 2 1
! q 1 differ
out data 5001 ab
P 1 0 0 0 : -
> : 3
> : 4
> : 9
> : 10
";

const COMMIT: &str = "\
> : 11
! k 1
";

const ACKNOWLEDGEMENT: &str = "\
< : 14 0 1
wire ack
! a 1
out data 5003 c
";

/// The primary ignores what it hears while it awaits the acknowledgement.
const IGNORED: &str = "\
S 4 0 0 0 : - 0
< : 13 2 0
k : -
";

const RESTART: &str = "\
P 2 0 0 0 : - 0
! q 1 restart
> : 3
> : 4
> : 9
> : 11
! k 1
< : 14 0 1
! a 1
out syn 5000
";

/// The primary stops before a checkpoint.
const FAILOVER: &str = "\
x p : 0
r : 1
out syn 5000
S 4 0 0 0 : - 1
out data 5001 012
turned 2
P 1 0 0 0 : -
> : -
< : -
k : -
";

/// The primary stops, and the secondary has not loaded the checkpoint.
const UNLOADED: &str = "\
x p : 0
r : 2
out syn 5000
out data 5001 abd
";

/// The primary stops, and the secondary has loaded it.
const LOADED: &str = "\
x p : 0
r : 2
out syn 5000
out data 5001 abc
";

/// The last message comes between the stop and its report.
const LOADED_BETWEEN: &str = "\
x p : 0
> : 11
! k 1
r : 2
out syn 5000
out data 5001 abc
";

/// The secondary stops.
const LONE_PRIMARY: &str = "\
P 3 0 0 0 : - 0
x s : 0
S 4 0 0 0 : -
> : -
k : -
r : 1
out data 5001 0123456789
P 6 0 0 0 : - 1
out data 5001 012
< : -
waiting 0 0
";

/// The client acknowledges the first three bytes.
const TRIM: &str = "\
sends ack-5004
c : 1 1000/5000 4 0
";

/// The client acknowledges more than was sent.
const NO_TRIM: &str = "\
sends ack-5012
c : 1 1000/5000 0 0
";

/// The secondary's guest takes the acknowledgement.
const GIVEN: &str = "\
> : 1
S 5 1 0 0 : 1 0
x p : 0
received ack-9004
";

/// The primary's guest sends its ten bytes again.
const AGAIN: &str = "\
S 5 0 0 0 : - 0
< : 13 3 1
out data 5004 3456789
P 3 0 0 0 : - 1
out data 5004 3456789
";

/// The secondary's SYN comes before the secondary is known to have the number.
const UNKNOWN: &str = "\
sends syn
c : 0 - 0 0
P 1 1 0 0 : 0 0
> : 1
S 2 1 0 0 : 0 0
< : 13 1 0
> : 2
< : 12 1 1
out syn 5000
";

/// The secondary says nothing.
const SILENCE: &str = "\
P 1 0 0 0 : - 0
rest 254
P 0 0 0 0 : - 0
! q 1 wait
";

/// Both inboxes are full, and the primary's guest takes a frame.
const FULL: &str = "\
come 4096
c : 4096 full
offered 4098
heard 4096
> : -
P 0 1 0 0 : 0 0
c : 4097 - 0 0
> : 1 full
c : -
steps 8198
";

/// Frames that no node takes, and frames that none is there to take.
const GATES: &str = "\
sends arp
sends datagram
sends syn
sends syn
c : 0 arp 1
out arp
c : 1 drop 14
x p : 0
c : 2 lost
r : 0
c : 3 - 0 0
c : -
S 1 1 0 0 : 3 1
out syn 5000
received clean-syn
";

const CHECKPOINT: &str = "\
> : -
< : -
c : -
k : 0
! q 1 asked
k : -
P 0 0 0 0 : -
waiting 3 0
> : 3
> : 4
> : 11
! k 1
waiting 0 1
< : 14 0 0
wire ack
! a 1
waiting 0 0
";

const REFUSED: &str = "\
refused r
x s : 0
refused x p
refused x s
r : 0
refused r
refused x p
steps 2
P 0 0 0 0 : - 0
";

/// The primary's reset carries no symbol, so a segment without symbols goes out first.
const RESET: &str = "\
P 3 0 0 0 : - 1
out ack 5001
S 4 0 0 0 : - 0
< : 13 2 1
out reset 5001
";

const REFUSAL: &str = "\
P 5 0 0 0 : - 0
S 5 0 0 0 : - 0
< : 13 1 1
out refusal 0
";

/// A number, after the arrow down: the tuple, the client's number and the guest's.
const NUMBER: &[u8] = &[
    0x3E, 0x02, 0x00, 0x00, 0x00, 0x10, 0x0A, 0x00, 0x02, 0x02, 0x9C, 0x40, 0x00, 0x07, 0x00, 0x00,
    0x03, 0xE8, 0x00, 0x00, 0x13, 0x88,
];

/// The acknowledgement of checkpoint 1, after the arrow up.
const ACK: &[u8] = &[0x3C, 0x0E, 0x00, 0x00, 0x00, 0x04, 0x00, 0x00, 0x00, 0x01];

fn is_event<S: Session + Drop>(told: &mut Told<S>, text: &str) -> bool {
    let (asked, _) = text.split_once(" : ").unwrap_or((text, ""));
    match line(asked) {
        Some(line) => told.is_told() && told.event(&line) && told.tells(text),
        None => false,
    }
}

/// So many turns of the primary that take and send nothing.
fn are_quiet<S: Session + Drop>(told: &mut Told<S>, count: u32) -> bool {
    for _ in 0..count {
        if !is_event(told, "P 0 0 0 0 : - 0") {
            return false;
        }
    }
    true
}

/// So many frames that the client sends, with two more, come and are accepted.
fn are_accepted<S: Session + Drop>(told: &mut Told<S>, count: u32) -> bool {
    for k in 0..count {
        let accepted = Answer::Accepted {
            index: u64::from(k),
            seen: None,
            trim: 0,
            released: 0,
        };
        let comes = told.offer(worked("syn")) && told.event(&Line::Client);
        if !comes || !told.answers(accepted) {
            return false;
        }
    }
    told.offer(worked("syn")) && told.offer(worked("syn"))
}

/// So many frames are delivered.
fn are_heard<S: Session + Drop>(told: &mut Told<S>, count: u32) -> bool {
    let heard = Answer::Heard {
        kind: 1,
        full: false,
    };
    for _ in 0..count {
        if !told.event(&Line::ToSecondary) || !told.answers(heard) {
            return false;
        }
    }
    true
}

fn is_refused<S: Session + Drop>(told: &mut Told<S>, text: &str) -> bool {
    let fault = if text == "r" {
        StepFault::FalseReport
    } else {
        StepFault::SecondStop
    };
    match line(text) {
        Some(line) => !told.event(&line) && told.fault() == Some(fault),
        None => false,
    }
}

fn is_out<S: Session + Drop>(alloc: Global, told: &mut Told<S>, words: &str) -> bool {
    match frame(alloc, words) {
        Ok(frame) => told.releases(&frame),
        Err(_) => false,
    }
}

fn are_waiting<S: Session + Drop>(told: &Told<S>, words: &str) -> bool {
    let (down, up) = cut(words);
    let waiting = told.waiting();
    waiting.0 == number(down) as usize && waiting.1 == number(up) as usize
}

/// Whether a line of a text is so.
fn is_so<S: Session + Drop>(alloc: Global, told: &mut Told<S>, text: &str) -> bool {
    let (verb, words) = cut(text);
    match verb {
        "sends" => told.offer(worked(words)),
        "!" => told.tells(text),
        "out" => is_out(alloc, told, words),
        "wire" => told.wire() == if words == "ack" { ACK } else { NUMBER },
        "rest" => are_quiet(told, number(words)),
        "come" => are_accepted(told, number(words)),
        "heard" => are_heard(told, number(words)),
        "refused" => is_refused(told, words),
        "waiting" => are_waiting(told, words),
        "offered" => told.counts().0 == number(words) as usize,
        "steps" => told.counts().1 == u64::from(number(words)),
        "turned" => told.turned() == u64::from(number(words)),
        "received" => told.received(worked(words)),
        _ => is_event(told, text),
    }
}

/// Asserts that each line of the texts, one after the other, is so.
fn play<R: Abort + AllocGlobal, S: Session + Drop>(rt: &R, told: &mut Told<S>, texts: &[&str]) {
    for text in texts {
        for line in text.lines() {
            assert!(rt; is_so(rt.alloc(), told, line), "{line}");
        }
    }
    assert!(rt; told.is_told());
}

/// Plays the texts over guests with a table.
fn plays<R: Abort + AllocGlobal, S: Session + Drop>(
    rt: &R,
    table: &str,
    texts: &[&str],
) -> Result<(), Fail> {
    let session = S::start(rt.alloc(), table).ok_or("out of memory")?;
    play(rt, &mut Told::new(rt.alloc(), session), texts);
    Ok(())
}

type Worked = Pair<ScriptGuest>;

#[test]
fn both_guests_open_and_cut_otherwise(rt: HostRuntime) -> Result<(), Fail> {
    plays::<_, Worked>(&rt, TABLE, &[OPENING, FIRST_CUT, SECOND_CUT])?;
    plays::<_, Worked>(&rt, TABLE, &[UNKNOWN])
}

#[test]
fn a_checkpoint_after_a_difference_a_restart_and_silence(rt: HostRuntime) -> Result<(), Fail> {
    plays::<_, Worked>(&rt, TABLE, &[OPENING, DIFFERENCE, COMMIT, ACKNOWLEDGEMENT])?;
    plays::<_, Worked>(&rt, TABLE, &[OPENING, DIFFERENCE, IGNORED])?;
    plays::<_, Worked>(&rt, TABLE, &[OPENING, RESTART])?;
    plays::<_, Worked>(&rt, TABLE, &[SILENCE])?;
    plays::<_, Worked>(&rt, TABLE, &[CHECKPOINT])
}

#[test]
fn the_primary_stops_before_and_round_a_checkpoint(rt: HostRuntime) -> Result<(), Fail> {
    plays::<_, Worked>(&rt, TABLE, &[OPENING, FAILOVER])?;
    plays::<_, Worked>(&rt, TABLE, &[OPENING, DIFFERENCE, UNLOADED])?;
    plays::<_, Worked>(&rt, TABLE, &[OPENING, DIFFERENCE, COMMIT, LOADED])?;
    plays::<_, Worked>(&rt, TABLE, &[OPENING, DIFFERENCE, LOADED_BETWEEN])
}

#[test]
fn the_secondary_stops(rt: HostRuntime) -> Result<(), Fail> {
    plays::<_, Worked>(&rt, TABLE, &[OPENING, LONE_PRIMARY])
}

#[test]
fn an_acknowledgement_trims_and_is_raised(rt: HostRuntime) -> Result<(), Fail> {
    plays::<_, Worked>(&rt, TABLE, &[OPENING, FIRST_CUT, TRIM, GIVEN])?;
    plays::<_, Worked>(&rt, TABLE, &[OPENING, FIRST_CUT, TRIM, AGAIN])?;
    plays::<_, Worked>(&rt, TABLE, &[OPENING, FIRST_CUT, NO_TRIM])
}

#[test]
fn resets_and_refusals_go_out_once_both_guests_sent_them(rt: HostRuntime) -> Result<(), Fail> {
    plays::<_, Worked>(&rt, RESETS, &[OPENING, RESET])?;
    plays::<_, Worked>(&rt, RESETS, &[REFUSAL])
}

#[test]
fn frames_that_are_not_accepted(rt: HostRuntime) -> Result<(), Fail> {
    plays::<_, Worked>(&rt, TABLE, &[GATES])
}

#[test]
fn full_inboxes(rt: HostRuntime) -> Result<(), Fail> {
    plays::<_, Worked>(&rt, TABLE, &[FULL])
}

#[test]
fn a_second_stop_and_a_false_report_are_refused(rt: HostRuntime) -> Result<(), Fail> {
    plays::<_, Worked>(&rt, TABLE, &[REFUSED])
}
