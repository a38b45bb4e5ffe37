//! Worked exchanges: what goes out at the end of each event, and why a checkpoint starts. The
//! connections are those of a client at 10.0.2.2 with the guest's port 7. The node's own guest has
//! number 5000, the other's has 9000, and the client's number is 1000.
//!
//! An exchange is a text with a line for each step:
//!
//! - `own SEGMENT` and `other SEGMENT`: a guest's frame, where SEGMENT is the client's port, the
//!   kind, the sequence number, the acknowledgement, the window and the bytes;
//! - `known PORT CLIENT NUMBER`: the other node has that number;
//! - `turn FRAMES WHY PORT OFFSET` and `event ..`: the end of an event that is a turn or none, how
//!   many frames go out, and why a checkpoint starts, where one does;
//! - `turns COUNT`: so many turns in which nothing happens;
//! - `out K SEGMENT`: the frame K that went out at the last end of an event;
//! - `client ACK TRIM`: a client's acknowledgement, and how far it trims;
//! - `captured` and `acknowledged`: a checkpoint's;
//! - `alone`: the other node stopped;
//! - `survive FRAMES`: the node becomes the survivor with its own lines, and how many frames go
//!   out;
//! - `line PORT BASE END` and `number PORT CLIENT NUMBER`: where an own line begins and ends, and a
//!   number that is kept.

use crate::exchange::{Exchange, Pair, Sent, Why};
use crate::words::{cut, number};
use std::process::Abort;
use worked_frames::{ACK_5004, ACK_5012, SYN};

/// Both guests opened, and the SYN went out once its number was known.
const OPENING: &str = "\
own 40000 syn 5000 1001 4096
turn 0
other 40000 syn 9000 1001 4096
event 0
known 40000 1000 5000
event 1
out 0 40000 syn 5000 1001 4096
";

/// The other guest sends another byte at offset 3, which goes out after the checkpoint.
const DIFFERENCE: &str = "\
own 40000 data 5001 1001 4096 abc
turn 0
other 40000 data 9001 1001 4096 abd
event 1 differ 40000 3
out 0 40000 data 5001 1001 4096 ab
captured
acknowledged
event 1
out 0 40000 data 5003 1001 4096 c
";

/// The other guest cuts otherwise, the client trims, and the own guest sends again.
const CUTS: &str = "\
own 40000 data 5001 1001 4096 0123456789
turn 0
other 40000 data 9001 1001 4096 012
event 1
out 0 40000 data 5001 1001 4096 012
client 5012 0
client 5004 4
other 40000 data 9004 1001 4096 3456789
event 1
out 0 40000 data 5004 1001 4096 3456789
own 40000 data 5001 1001 4096 0123456789
turn 1
out 0 40000 data 5004 1001 4096 3456789
";

/// The own guest opens again.
const RESTART: &str = "\
own 40000 syn 9000 1001 4096
turn 0 restart 40000
captured
acknowledged
event 1
out 0 40000 syn 5000 1001 4096
";

/// The other guest is silent, but for a byte after 255 turns.
const SILENCE: &str = "\
own 40000 data 5001 1001 4096 abc
turns 255
other 40000 data 9001 1001 4096 a
event 1
out 0 40000 data 5001 1001 4096 a
turns 255
turn 0 wait 40000
turn 0
";

/// Two connections, and two causes.
const NEIGHBOURS: &str = "\
own 40001 syn 5000 1001 4096
other 40001 syn 9000 1001 4096
known 40001 1000 5000
event 1
out 0 40001 syn 5000 1001 4096
own 40001 data 5001 1001 4096 x
own 40000 data 5001 1001 4096 a
turn 0
other 40001 data 9001 1001 4096 y
event 0 differ 40001 1
other 40000 data 9001 1001 4096 b
event 0 differ 40000 1
own 40000 syn 6000 1001 4096
turn 0 differ 40001 1
";

/// The other guest's window is smaller.
const WINDOW: &str = "\
own 40000 ack 5001 1001 1000
turn 1
out 0 40000 ack 5001 1001 1000
other 40000 ack 9001 1001 500
event 1
out 0 40000 ack 5001 1001 500
event 0
";

/// Both guests reset.
const RESET: &str = "\
own 40000 reset 5001 1001 4096
turn 1
out 0 40000 ack 5001 1001 4096
other 40000 reset 9001 1001 4096
event 1
out 0 40000 reset 5001 1001 4096
event 0
";

/// FIN without bytes.
const FIN: &str = "\
own 40000 fin 5001 1001 4096
other 40000 fin 9001 1001 4096
event 1
out 0 40000 fin 5001 1001 4096
";

/// FIN with 536 bytes.
const FIN_OF_536: &str = "\
own 40000 end 5001 1001 4096 long
other 40000 data 9001 1001 4096 long
other 40000 fin 9537 1001 4096
event 1
out 0 40000 end 5001 1001 4096 long
";

/// FIN with the last of 537 bytes.
const FIN_OF_537: &str = "\
own 40000 data 5001 1001 4096 long
own 40000 end 5537 1001 4096 z
other 40000 data 9001 1001 4096 long
other 40000 end 9537 1001 4096 z
event 2
out 0 40000 data 5001 1001 4096 long
out 1 40000 end 5537 1001 4096 z
";

/// Both guests reset before the SYN went out.
const EARLY_RESET: &str = "\
own 40000 syn 5000 1001 4096
own 40000 reset 5001 1001 4096
other 40000 syn 9000 1001 4096
other 40000 reset 9001 1001 4096
event 0
known 40000 1000 5000
event 2
out 0 40000 syn 5000 1001 4096
out 1 40000 reset 5001 1001 4096
";

/// Both guests refuse.
const REFUSAL: &str = "\
own 40000 reset 0 1001 0
turn 0
other 40000 reset 0 1001 0
event 1
out 0 40000 reset 0 1001 0
event 0
";

/// The guests opened to different clients.
const OTHER_CLIENT: &str = "\
own 40000 syn 5000 1001 4096
other 40000 syn 9000 2001 4096
known 40000 1000 5000
turns 255
turn 0 wait 40000
";

/// The survivor's guest opened again with 9000, and its client knows it under 5000. Six bytes, of
/// which the client has three, and the last one with FIN; then a reset at the end, a refusal of
/// another client, and one on another connection, none of which the other guest sent.
const SURVIVOR: &str = "\
own 40000 data 9001 1001 4096 abcdef
other 40000 data 9001 1001 4096 abcd
event 1
out 0 40000 data 5001 1001 4096 abcd
client 5004 4
own 40000 end 9007 1001 4096 g
own 40000 reset 9009 1001 4096
own 40000 reset 0 2001 0
own 40001 reset 0 3001 0
line 40000 4 9
number 40000 1000 5000
survive 5
out 0 40000 syn 5000 1001 4096
out 1 40000 end 5004 1001 4096 defg
out 2 40000 reset 5009 1001 4096
out 3 40000 reset 0 2001 0
out 4 40001 reset 0 3001 0
line 40000 4 9
number 40000 1000 5000
turn 0
";

/// The other node stops after 255 turns without its guest's bytes, and before it has the number of
/// another connection.
const ALONE: &str = "\
own 40000 data 5001 1001 4096 abc
own 40001 syn 7000 1001 4096
turns 255
alone
turn 2
out 0 40000 data 5001 1001 4096 abc
out 1 40001 syn 7000 1001 4096
number 40001 1000 7000
turns 300
";

fn flags_of(kind: &str) -> u8 {
    match kind {
        "syn" => 0x12,
        "ack" => 0x10,
        "data" => 0x18,
        "reset" => 0x14,
        "fin" => 0x11,
        _ => 0x19,
    }
}

fn short(word: &str) -> u16 {
    u16::try_from(number(word)).unwrap_or(0)
}

/// The segment that words say.
fn segment(words: &str) -> Sent<'_> {
    let (port, words) = cut(words);
    let (kind, words) = cut(words);
    let (seq, words) = cut(words);
    let (ack, words) = cut(words);
    let (window, word) = cut(words);
    Sent {
        port: short(port),
        flags: flags_of(kind),
        seq: number(seq),
        ack: number(ack),
        window: short(window),
        word,
    }
}

/// A port and two numbers.
fn numbers(words: &str) -> (u16, u32, u32) {
    let (port, words) = cut(words);
    let (first, second) = cut(words);
    (short(port), number(first), number(second))
}

/// Whether this is why a checkpoint starts: a word, a port and an offset.
fn is_why(why: Why, words: &str) -> bool {
    let (word, words) = cut(words);
    let (port, offset) = cut(words);
    why.word == word && why.port == short(port) && why.offset == number(offset)
}

/// The end of an event: how many frames go out, and why a checkpoint starts.
fn is_end<P: Pair>(pair: &mut P, turn: bool, words: &str) -> bool {
    let (frames, words) = cut(words);
    match pair.end(turn) {
        Some(why) => is_why(why, words) && pair.released() == usize::from(short(frames)),
        None => false,
    }
}

/// So many turns in which nothing happens.
fn are_quiet<P: Pair>(pair: &mut P, turns: u16) -> bool {
    for _ in 0..turns {
        if !is_end(pair, true, "0") {
            return false;
        }
    }
    true
}

fn is_out<P: Pair>(pair: &P, words: &str) -> bool {
    let (k, words) = cut(words);
    pair.is_released(usize::from(short(k)), &segment(words))
}

fn is_client<P: Pair>(pair: &mut P, words: &str) -> bool {
    let (ack, trim) = cut(words);
    let frame = if ack == "5004" { &ACK_5004 } else { &ACK_5012 };
    pair.trim(frame) == Some(number(trim))
}

fn is_line<P: Pair>(pair: &P, words: &str) -> bool {
    let (port, base, end) = numbers(words);
    pair.line(port) == Some((base, end))
}

fn is_number<P: Pair>(pair: &P, words: &str) -> bool {
    let (port, client, number) = numbers(words);
    pair.number(port, client) == Some(number)
}

fn know<P: Pair>(pair: &mut P, words: &str) -> bool {
    let (port, client, number) = numbers(words);
    pair.know(port, client, number)
}

/// Puts the survivor in the place of the node; so many frames go out.
fn survives<P: Pair + Drop>(pair: &mut P, frames: u16) -> bool {
    match pair.survivor() {
        Some(survivor) => {
            *pair = survivor;
            pair.released() == usize::from(frames)
        }
        None => false,
    }
}

/// Whether a step that happens to the node is made.
fn happens<P: Pair + Drop>(pair: &mut P, verb: &str, words: &str) -> bool {
    match verb {
        "known" => know(pair, words),
        "captured" => pair.capture(),
        "acknowledged" => pair.acknowledge(),
        "alone" => pair.leave_alone(),
        "survive" => survives(pair, short(words)),
        _ => false,
    }
}

/// Whether what a line asks of the node is so.
fn is_so<P: Pair + Drop>(pair: &mut P, verb: &str, words: &str) -> bool {
    match verb {
        "client" => is_client(pair, words),
        "out" => is_out(pair, words),
        "line" => is_line(pair, words),
        "number" => is_number(pair, words),
        _ => happens(pair, verb, words),
    }
}

/// Whether a step is answered so.
fn is_answered<P: Pair + Drop>(pair: &mut P, line: &str) -> bool {
    let (verb, words) = cut(line);
    match verb {
        "own" => pair.own(&segment(words)),
        "other" => pair.other(&segment(words)),
        "turn" => is_end(pair, true, words),
        "event" => is_end(pair, false, words),
        "turns" => are_quiet(pair, short(words)),
        _ => is_so(pair, verb, words),
    }
}

/// Plays the texts one after the other, and asserts that each line is answered so.
fn play<R: Abort, P: Pair + Drop>(rt: &R, pair: &mut P, texts: &[&str]) {
    for text in texts {
        for line in text.lines() {
            assert!(rt; is_answered(pair, line), "{line}");
        }
    }
}

/// Plays the texts at a comparer of which nothing was sent yet.
fn plays<R: Abort + AllocGlobal, P: Pair + Drop>(rt: &R, texts: &[&str]) {
    play(rt, &mut P::start(rt.alloc()), texts);
}

/// Plays each text after the opening.
fn plays_each<R: Abort + AllocGlobal, P: Pair + Drop>(rt: &R, texts: &[&str]) {
    for text in texts {
        plays::<R, P>(rt, &[OPENING, text]);
    }
}

/// Asserts that the first frame of the opening has these bytes.
fn opens_with<R: Abort + AllocGlobal, P: Pair + Drop>(rt: &R, frame: &[u8]) {
    let mut pair = P::start(rt.alloc());
    play(rt, &mut pair, &[OPENING]);
    assert!(rt; pair.frame(0) == Some(frame));
}

#[test]
fn exchanges_are_answered_step_by_step(rt: HostRuntime) {
    plays_each::<_, Exchange>(
        &rt,
        &[
            DIFFERENCE, CUTS, RESTART, SILENCE, NEIGHBOURS, WINDOW, RESET, FIN, FIN_OF_536,
            FIN_OF_537,
        ],
    );
}

#[test]
fn guests_without_a_released_syn(rt: HostRuntime) {
    plays::<_, Exchange>(&rt, &[EARLY_RESET]);
    plays::<_, Exchange>(&rt, &[REFUSAL]);
    plays::<_, Exchange>(&rt, &[OTHER_CLIENT]);
}

#[test]
fn a_survivor_releases_all_that_its_lines_hold(rt: HostRuntime) {
    plays::<_, Exchange>(&rt, &[OPENING, RESTART, SURVIVOR]);
}

#[test]
fn a_node_alone_releases_its_own_bytes_and_needs_no_checkpoint(rt: HostRuntime) {
    plays::<_, Exchange>(&rt, &[OPENING, ALONE]);
}

#[test]
fn the_syn_that_goes_out_is_58_bytes(rt: HostRuntime) {
    opens_with::<_, Exchange>(&rt, &SYN);
}
