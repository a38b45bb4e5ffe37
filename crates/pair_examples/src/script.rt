//! A node over a guest with a table, played from scripts. A line of a script is a step and, after a
//! colon, what it answers:
//!
//! - `hear` hears a message, and `fill` hears it 4,096 times;
//! - `turn` makes a turn with clock and wish for a frame, and answers the index of the frame that
//!   the guest was given;
//! - `client` is a client's frame with its index, and `crowd` the same 4,096 times;
//! - `report` is the report of the other node's stop, and answers how many frames go out;
//! - `ask` captures a checkpoint;
//! - `released` is how many frames went out in the last of these steps, and `out` compares one of
//!   them;
//! - `says` takes the oldest message that waits, and `state` reads the guest's state, and both
//!   compare it; `turns` is how many the guest made.
//!
//! Bytes are words in hexadecimal, names of the list below, and `*` with a count of zeros.

use crate::node::Node;
use crate::words::{cut, number};
use colo_base::{Frames, NoMemory};
use colo_wire::{Gate, HearFault, Told, Turned};
use std::alloc::Global;
use std::process::Abort;
use std::test::Fail;
use tcp_track::Opening;

/// A node, and what went out in its last step.
#[derive(Drop)]
struct Played<N: Node + Drop> {
    alloc: Global,
    node: N,
    out: Frames,
}

/// What the guest sends in a turn whose clock goes on by 0, 1, and so on.
const TABLE: &str = "\
none
answer
none
none
first-9001
rest-9004
syn-5000
abd-9001
";

/// Fronts of messages, each with its kind and its length; fields of a line; frames of the client,
/// and frames of the guest with their sequence numbers. The connection is that of 10.0.2.2, port
/// 40000, to port 7, which its client opened with 1000, and the guest with 9000 under the number
/// 5000. The guest sends `012` and `3456789`, or `abd`. Checksums were worked out outside this
/// repository.
const NAMES: &str = "\
number 02 00000010 0A000202 9C40 0007 000003E8
begin 03 00000004
state 04 00000008
page 05 00001004
disk 06 00000204
write 07 00000204
line 09 0000002B 0A000202 9C40 0007 525400AA0001
opened 000003E8 00002328 00001388 00000000 00000001 1000 05B4
bytes 0A 00000001
end 0B 00000004
known 0C 00000010 0A000202 9C40 0007 000003E8
sent 0D 0000003A
ack 0E 00000004
frame 01 0000005F 0000000000000005 00 00000000 00000000 00000000
held 08 0000005F 0000000000000005 00 00000000 00000000 00000000
seen 01 0000004B 0000000000000006 01 000003E8 00001388 00000004
plain 01 00000042 0000000000000005 00 00000000 00000000 00000000
waits 08 00000042 0000000000000005 00 00000000 00000000 00000000
syn 525400123456 525400AA0001 0800 4500 003C 0000 4000 4006 22AC 0A000202 0A00020F \
 9C40 0007 000003E8 00000000 A002 1000 87CE 0000 020405B4 01010101010101010101010101010101
ack-5004 525400123456 525400AA0001 0800 4500 0028 0000 4000 4006 22C0 0A000202 0A00020F \
 9C40 0007 000003E9 0000138C 5010 1000 D407 0000
ack-9004 525400123456 525400AA0001 0800 4500 0028 0000 4000 4006 22C0 0A000202 0A00020F \
 9C40 0007 000003E9 0000232C 5010 1000 C467 0000
ack-5012 525400123456 525400AA0001 0800 4500 0028 0000 4000 4006 22C0 0A000202 0A00020F \
 9C40 0007 000003E9 00001394 5010 1000 D3FF 0000
datagram 525400123456 525400AA0001 0800 4500 001F 0000 4000 4011 22BE 0A000202 0A00020F \
 0044 0043 000B 22DE 616263
arp FFFFFFFFFFFF 525400AA0001 0806 0001 0800 06 04 0001 525400AA0001 0A000202 \
 000000000000 0A00020F
answer 525400AA0001 525400123456 0800 4500 002C 0000 4000 4006 22BC 0A00020F 0A000202 \
 0007 9C40 00002328 000003E9 6012 1000 ACAD 0000 020405B4
syn-5000 525400AA0001 525400123456 0800 4500 002C 0000 4000 4006 22BC 0A00020F 0A000202 \
 0007 9C40 00001388 000003E9 6012 1000 BC4D 0000 020405B4
first-9001 525400AA0001 525400123456 0800 4500 002B 0000 4000 4006 22BD 0A00020F 0A000202 \
 0007 9C40 00002329 000003E9 5018 1000 622E 0000 303132
first-5001 525400AA0001 525400123456 0800 4500 002B 0000 4000 4006 22BD 0A00020F 0A000202 \
 0007 9C40 00001389 000003E9 5018 1000 71CE 0000 303132
rest-9004 525400AA0001 525400123456 0800 4500 002F 0000 4000 4006 22B9 0A00020F 0A000202 \
 0007 9C40 0000232C 000003E9 5018 1000 EBB5 0000 33343536373839
rest-5004 525400AA0001 525400123456 0800 4500 002F 0000 4000 4006 22B9 0A00020F 0A000202 \
 0007 9C40 0000138C 000003E9 5018 1000 FB55 0000 33343536373839
abd-9001 525400AA0001 525400123456 0800 4500 002B 0000 4000 4006 22BD 0A00020F 0A000202 \
 0007 9C40 00002329 000003E9 5018 1000 FEFC 0000 616264
abd-5001 525400AA0001 525400123456 0800 4500 002B 0000 4000 4006 22BD 0A00020F 0A000202 \
 0007 9C40 00001389 000003E9 5018 1000 0E9D 0000 616264
abc-5001 525400AA0001 525400123456 0800 4500 002B 0000 4000 4006 22BD 0A00020F 0A000202 \
 0007 9C40 00001389 000003E9 5018 1000 0F9D 0000 616263
ack-5011 525400AA0001 525400123456 0800 4500 0028 0000 4000 4006 22C0 0A00020F 0A000202 \
 0007 9C40 00001393 000003E9 5010 1000 D400 0000
reply 525400AA0001 525400123456 0806 0001 0800 06 04 0002 525400123456 0A00020F \
 525400AA0001 0A000202
";

/// The words of a name.
fn named(name: &str) -> Option<&'static str> {
    for line in NAMES.lines() {
        let (first, words) = cut(line);
        if first == name {
            return Some(words);
        }
    }
    None
}

/// What a hexadecimal digit stands for.
fn digit(byte: u8) -> Option<u8> {
    match byte {
        b'0'..=b'9' => Some(byte - b'0'),
        b'A'..=b'F' => Some(byte - b'A' + 10),
        _ => None,
    }
}

/// Appends the bytes of hexadecimal digits.
fn put_digits(word: &str, out: &mut Vec<u8>) -> bool {
    let mut first = None;
    for byte in word.as_bytes() {
        let Some(low) = digit(*byte) else {
            return false;
        };
        first = match first {
            None => Some(low),
            Some(high) => {
                if out.push(high << 4 | low).is_err() {
                    return false;
                }
                None
            }
        };
    }
    first.is_none()
}

/// Appends so many zeros.
fn put_zeros(count: u32, out: &mut Vec<u8>) -> bool {
    for _ in 0..count {
        if out.push(0).is_err() {
            return false;
        }
    }
    true
}

/// Appends the bytes of words without names.
fn put_words(words: &str, out: &mut Vec<u8>) -> bool {
    for word in words.split_whitespace() {
        let is_put = match word.strip_prefix('*') {
            Some(count) => put_zeros(number(count), out),
            None => put_digits(word, out),
        };
        if !is_put {
            return false;
        }
    }
    true
}

/// Whether a word is a name.
fn is_name(word: &str) -> bool {
    word.as_bytes()
        .first()
        .is_some_and(|byte| byte.is_ascii_lowercase())
}

/// Appends the bytes of a word or a name.
fn put_word(word: &str, out: &mut Vec<u8>) -> bool {
    if !is_name(word) {
        return put_words(word, out);
    }
    match named(word) {
        Some(words) => put_words(words, out),
        None => false,
    }
}

/// The bytes of words; `None` where one is no name, or where memory ran out.
fn bytes(alloc: Global, words: &str) -> Option<Vec<u8>> {
    let mut out = Vec::new(alloc);
    for word in words.split_whitespace() {
        if !put_word(word, &mut out) {
            return None;
        }
    }
    Some(out)
}

/// Appends the frame of words, where there is one.
fn put_frame(alloc: Global, words: &str, out: &mut Frames) -> bool {
    if words == "none" {
        return true;
    }
    match bytes(alloc, words) {
        Some(frame) => out.add(frame).is_ok(),
        None => false,
    }
}

/// A place of a table.
fn place(alloc: Global, words: &str) -> Option<Frames> {
    let mut sent = Frames::new(alloc);
    if put_frame(alloc, words, &mut sent) {
        Some(sent)
    } else {
        None
    }
}

/// Appends a place to a table.
fn put_place(alloc: Global, words: &str, table: &mut Vec<Frames>) -> bool {
    match place(alloc, words) {
        Some(sent) => table.push(sent).is_ok(),
        None => false,
    }
}

/// The guest's table.
fn table(alloc: Global) -> Option<Vec<Frames>> {
    let mut table = Vec::new(alloc);
    for words in TABLE.lines() {
        if !put_place(alloc, words, &mut table) {
            return None;
        }
    }
    Some(table)
}

/// Whether a message did what an answer says: the number of its kind, and what else it did; or why
/// it was refused.
fn is_told(heard: Result<Told, HearFault>, answer: &str) -> bool {
    match heard {
        Ok(told) => {
            let (kind, rest) = cut(answer);
            number(kind) == u32::from(told.kind) && is_rest(told, rest)
        }
        Err(HearFault::NotDue(kind)) => {
            answer.strip_prefix("not due ").map(number) == Some(u32::from(kind))
        }
        Err(HearFault::NoMessage(_)) => answer == "no message",
        Err(HearFault::NoMemory) => answer == "out of memory",
    }
}

fn is_rest(told: Told, rest: &str) -> bool {
    match (told.commit, told.ack) {
        (Some(e), None) => rest.strip_prefix("commits ").map(number) == Some(e),
        (None, Some(e)) => rest.strip_prefix("acknowledges ").map(number) == Some(e),
        (None, None) => rest == if told.full { "full" } else { "" },
        (Some(_), Some(_)) => false,
    }
}

fn is_seen(opening: Opening, trim: u32, words: &str) -> bool {
    let (client, words) = cut(words);
    let (own, words) = cut(words);
    number(client) == opening.client && number(own) == opening.own && number(words) == trim
}

/// Whether a client's frame was answered so: taken, perhaps with what was seen and its trim, or
/// answered, or dropped with a number.
fn is_let_in(gate: Option<Gate>, answer: &str) -> bool {
    let (word, words) = cut(answer);
    match gate {
        Some(Gate::Taken { seen: None, trim }) => answer == "taken" && trim == 0,
        Some(
            Gate::Taken {
                seen: Some(seen),
                trim,
            },
        ) => word == "taken" && is_seen(seen, trim, words),
        Some(Gate::Answered) => answer == "answered",
        Some(Gate::Dropped(why)) => word == "dropped" && number(words) == u32::from(why.number),
        Some(Gate::Full) => answer == "full",
        None => answer == "not alone",
    }
}

fn is_taken(gate: Option<Option<Gate>>, answer: &str) -> bool {
    match gate {
        Some(gate) => is_let_in(gate, answer),
        None => false,
    }
}

fn is_turn(turned: Turned, answer: &str) -> bool {
    match turned {
        Turned::Made(Some(index)) => u64::from(number(answer)) == index,
        Turned::Made(None) => answer == "-",
        Turned::Paused => answer == "paused",
    }
}

fn is_number(found: Option<u32>, answer: &str) -> bool {
    match found {
        Some(found) => number(answer) == found,
        None => answer == "-",
    }
}

/// What is answered to a comparison.
fn compared(found: Option<&[u8]>, wanted: &[u8]) -> &'static str {
    match found {
        Some(found) => if found == wanted { "yes" } else { "no" },
        None => "nothing",
    }
}

impl<N: Node + Drop> Played<N> {
    /// Nothing went out yet.
    fn clear(&mut self) {
        self.out = Frames::new(self.alloc);
    }

    fn hear(&mut self, message: &[u8]) -> Result<Told, HearFault> {
        self.clear();
        self.node.listen(message, &mut self.out)
    }

    /// Hears a message 4,096 times, of which the last one is answered.
    fn fill(&mut self, message: &[u8]) -> Result<Told, HearFault> {
        for _ in 1..4096 {
            let _ = self.hear(message)?;
        }
        self.hear(message)
    }

    fn turn(&mut self, words: &str) -> Result<Turned, NoMemory> {
        let (ticks, wish) = cut(words);
        self.clear();
        self.node
            .go(u64::from(number(ticks)), wish == "1", &mut self.out)
    }

    /// A client's frame comes; `None` where its words are none, or where memory ran out.
    fn client(&mut self, words: &str) -> Option<Option<Gate>> {
        let (index, words) = cut(words);
        let frame = bytes(self.alloc, words)?;
        self.clear();
        self.node
            .receive(u64::from(number(index)), &frame, &mut self.out)
            .ok()
    }

    /// A client's frame comes 4,096 times, of which the last one is answered.
    fn crowd(&mut self, words: &str) -> Option<Option<Gate>> {
        for _ in 1..4096 {
            if self.client(words).is_none() {
                return None;
            }
        }
        self.client(words)
    }

    /// Whether so many frames go out at the other node's stop.
    fn is_reported(&mut self, answer: &str) -> bool {
        self.clear();
        self.node.survive(&mut self.out).is_ok() && self.is_released(answer)
    }

    /// Whether so many frames went out.
    fn is_released(&self, answer: &str) -> bool {
        self.out.len() == number(answer) as usize
    }

    fn is_out(&self, words: &str, answer: &str) -> bool {
        let (k, words) = cut(words);
        match bytes(self.alloc, words) {
            Some(wanted) => compared(self.out.get(number(k) as usize), &wanted) == answer,
            None => false,
        }
    }

    fn is_said(&mut self, words: &str, answer: &str) -> bool {
        let oldest = self.node.oldest();
        match bytes(self.alloc, words) {
            Some(wanted) => compared(oldest.as_deref(), &wanted) == answer,
            None => false,
        }
    }

    fn has_state(&self, words: &str, answer: &str) -> bool {
        let mut state = Vec::new(self.alloc);
        if self.node.state(&mut state).is_err() {
            return false;
        }
        match bytes(self.alloc, words) {
            Some(wanted) => compared(Some(&state), &wanted) == answer,
            None => false,
        }
    }

    fn is_heard(&mut self, words: &str, answer: &str) -> bool {
        match bytes(self.alloc, words) {
            Some(message) => is_told(self.hear(&message), answer),
            None => false,
        }
    }

    fn is_filled(&mut self, words: &str, answer: &str) -> bool {
        match bytes(self.alloc, words) {
            Some(message) => is_told(self.fill(&message), answer),
            None => false,
        }
    }

    fn is_turned(&mut self, words: &str, answer: &str) -> bool {
        match self.turn(words) {
            Ok(turned) => is_turn(turned, answer),
            Err(NoMemory) => false,
        }
    }

    fn is_captured(&mut self, answer: &str) -> bool {
        match self.node.capture() {
            Ok(found) => is_number(found, answer),
            Err(NoMemory) => false,
        }
    }

    /// Whether a question is answered so.
    fn is_so(&mut self, verb: &str, words: &str, answer: &str) -> bool {
        match verb {
            "ask" => self.is_captured(answer),
            "released" => self.is_released(answer),
            "out" => self.is_out(words, answer),
            "says" => self.is_said(words, answer),
            "state" => self.has_state(words, answer),
            "turns" => self.node.turned() == u64::from(number(answer)),
            _ => false,
        }
    }

    /// Whether a step is answered so.
    fn is_answered(&mut self, asked: &str, answer: &str) -> bool {
        let (verb, words) = cut(asked);
        match verb {
            "hear" => self.is_heard(words, answer),
            "fill" => self.is_filled(words, answer),
            "turn" => self.is_turned(words, answer),
            "client" => is_taken(self.client(words), answer),
            "crowd" => is_taken(self.crowd(words), answer),
            "report" => self.is_reported(answer),
            _ => self.is_so(verb, words, answer),
        }
    }
}

/// Plays a script, and asserts that each line is answered so.
fn play<R: Abort, N: Node + Drop>(rt: &R, played: &mut Played<N>, script: &str) {
    for line in script.lines() {
        let (asked, answer) = line.split_once(" : ").unwrap_or((line, ""));
        assert!(rt; played.is_answered(asked, answer), "{line}");
    }
}

/// A node whose guest has made no turn.
fn started<N: Node + Drop>(alloc: Global) -> Option<Played<N>> {
    let node = N::start(alloc, table(alloc)?)?;
    let out = Frames::new(alloc);
    Some(Played { alloc, node, out })
}

/// Plays scripts one after the other at a node whose guest has made no turn.
pub fn plays<R: Abort + AllocGlobal, N: Node + Drop>(rt: &R, scripts: &[&str]) -> Result<(), Fail> {
    let mut played = started::<N>(rt.alloc()).ok_or("out of memory")?;
    for script in scripts {
        play(rt, &mut played, script);
    }
    Ok(())
}
