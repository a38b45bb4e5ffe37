//! Worked exchanges of the connection of `worked_frames`, played from scripts. A line of a script
//! is a step and, after a colon, what it answers.
//!
//! `take` takes the frame of a name, and answers what it was; `trim` has a client's number and an
//! offset; `commit` goes on with a copy that was committed; `put` puts a line that its client
//! opened with 1000, and the guest with 5000; `line` is the base of the connection's line, its
//! last byte, how many there are, and whether FIN follows.

use inet_frame::Tuple;
use std::alloc::Global;
use std::process::Abort;
use tcp_track::{Line, Opening, Tracker, What};
use worked_frames::{DIGITS, END, OTHER_SYN, SYN};

/// `abcdef` at 5006, so that five of its bytes are sent already.
const LETTERS: [u8; 60] = [
    0x52, 0x54, 0x00, 0xAA, 0x00, 0x01, 0x52, 0x54, 0x00, 0x12, 0x34, 0x56, 0x08, 0x00, 0x45, 0x00,
    0x00, 0x2E, 0x00, 0x00, 0x40, 0x00, 0x40, 0x06, 0x22, 0xBA, 0x0A, 0x00, 0x02, 0x0F, 0x0A, 0x00,
    0x02, 0x02, 0x00, 0x07, 0x9C, 0x40, 0x00, 0x00, 0x13, 0x8E, 0x00, 0x00, 0x03, 0xE9, 0x50, 0x18,
    0x10, 0x00, 0xA9, 0xCA, 0x00, 0x00, 0x61, 0x62, 0x63, 0x64, 0x65, 0x66,
];

/// `gh` at 5020.
const LATE: [u8; 56] = [
    0x52, 0x54, 0x00, 0xAA, 0x00, 0x01, 0x52, 0x54, 0x00, 0x12, 0x34, 0x56, 0x08, 0x00, 0x45, 0x00,
    0x00, 0x2A, 0x00, 0x00, 0x40, 0x00, 0x40, 0x06, 0x22, 0xBE, 0x0A, 0x00, 0x02, 0x0F, 0x0A, 0x00,
    0x02, 0x02, 0x00, 0x07, 0x9C, 0x40, 0x00, 0x00, 0x13, 0x9C, 0x00, 0x00, 0x03, 0xE9, 0x50, 0x18,
    0x10, 0x00, 0x6C, 0x85, 0x00, 0x00, 0x67, 0x68,
];

/// `x` at 5012, with window 100 and acknowledgement 1005.
const AFTER_END: [u8; 55] = [
    0x52, 0x54, 0x00, 0xAA, 0x00, 0x01, 0x52, 0x54, 0x00, 0x12, 0x34, 0x56, 0x08, 0x00, 0x45, 0x00,
    0x00, 0x29, 0x00, 0x00, 0x40, 0x00, 0x40, 0x06, 0x22, 0xBF, 0x0A, 0x00, 0x02, 0x0F, 0x0A, 0x00,
    0x02, 0x02, 0x00, 0x07, 0x9C, 0x40, 0x00, 0x00, 0x13, 0x94, 0x00, 0x00, 0x03, 0xED, 0x50, 0x18,
    0x00, 0x64, 0x6B, 0x8E, 0x00, 0x00, 0x78,
];

/// RST and ACK at 5001.
const RESET: [u8; 54] = [
    0x52, 0x54, 0x00, 0xAA, 0x00, 0x01, 0x52, 0x54, 0x00, 0x12, 0x34, 0x56, 0x08, 0x00, 0x45, 0x00,
    0x00, 0x28, 0x00, 0x00, 0x40, 0x00, 0x40, 0x06, 0x22, 0xC0, 0x0A, 0x00, 0x02, 0x0F, 0x0A, 0x00,
    0x02, 0x02, 0x00, 0x07, 0x9C, 0x40, 0x00, 0x00, 0x13, 0x89, 0x00, 0x00, 0x03, 0xE9, 0x50, 0x14,
    0x10, 0x00, 0xD4, 0x06, 0x00, 0x00,
];

/// RST and ACK at 0.
const REFUSAL: [u8; 54] = [
    0x52, 0x54, 0x00, 0xAA, 0x00, 0x01, 0x52, 0x54, 0x00, 0x12, 0x34, 0x56, 0x08, 0x00, 0x45, 0x00,
    0x00, 0x28, 0x00, 0x00, 0x40, 0x00, 0x40, 0x06, 0x22, 0xC0, 0x0A, 0x00, 0x02, 0x0F, 0x0A, 0x00,
    0x02, 0x02, 0x00, 0x07, 0x9C, 0x40, 0x00, 0x00, 0x00, 0x00, 0x00, 0x00, 0x03, 0xE9, 0x50, 0x14,
    0x10, 0x00, 0xE7, 0x8F, 0x00, 0x00,
];

/// `0123456789` from 10.0.2.14.
const STRANGER: [u8; 64] = [
    0x52, 0x54, 0x00, 0xAA, 0x00, 0x01, 0x52, 0x54, 0x00, 0x12, 0x34, 0x56, 0x08, 0x00, 0x45, 0x00,
    0x00, 0x32, 0x00, 0x00, 0x40, 0x00, 0x40, 0x06, 0x22, 0xB7, 0x0A, 0x00, 0x02, 0x0E, 0x0A, 0x00,
    0x02, 0x02, 0x00, 0x07, 0x9C, 0x40, 0x00, 0x00, 0x13, 0x89, 0x00, 0x00, 0x03, 0xE9, 0x50, 0x18,
    0x10, 0x00, 0xCE, 0xEF, 0x00, 0x00, 0x30, 0x31, 0x32, 0x33, 0x34, 0x35, 0x36, 0x37, 0x38, 0x39,
];

const TUPLE: Tuple = Tuple {
    addr: 0x0A00_0202,
    port: 40000,
    guest: 7,
};

/// The frame of a name.
fn frame_of(name: &str) -> Option<&'static [u8]> {
    Some(match name {
        "syn" => SYN.as_slice(),
        "other" => OTHER_SYN.as_slice(),
        "digits" => DIGITS.as_slice(),
        "letters" => LETTERS.as_slice(),
        "late" => LATE.as_slice(),
        "end" => END.as_slice(),
        "after" => AFTER_END.as_slice(),
        "reset" => RESET.as_slice(),
        "refusal" => REFUSAL.as_slice(),
        "stranger" => STRANGER.as_slice(),
        _ => return None,
    })
}

/// What a script drives. No call has a clause, so that what the contracts say stands in no goal of
/// a test.
trait Follows {
    /// A guest that sent nothing.
    fn start(alloc: Global) -> Self
    where
        Self: Sized;
    /// Takes a frame, and says what it was; `None` where memory ran out.
    fn take(&mut self, frame: &[u8]) -> Option<What>;
    /// Trims the connection of a client to an offset.
    fn trim(&mut self, client: u32, offset: u32) -> bool;
    /// Goes on with a copy that was committed.
    fn commit(&mut self) -> bool;
    /// Puts a line that its client opened with 1000, and the guest with 5000.
    fn put(&mut self) -> bool;
    /// The base of the connection's line, its last byte, how many there are, and whether FIN
    /// follows.
    fn line(&self) -> Option<(u32, u8, usize, bool)>;
}

/// What a guest sent.
#[derive(Drop)]
struct Followed {
    alloc: Global,
    tracker: Tracker,
}

impl Follows for Followed {
    fn start(alloc: Global) -> Followed {
        Followed {
            alloc,
            tracker: Tracker::new(alloc),
        }
    }

    fn take(&mut self, frame: &[u8]) -> Option<What> {
        match self.tracker.take(frame) {
            Ok(took) => Some(took.what),
            Err(_) => None,
        }
    }

    fn trim(&mut self, client: u32, offset: u32) -> bool {
        self.tracker.trim(&TUPLE, client, offset);
        true
    }

    fn commit(&mut self) -> bool {
        match self.tracker.copy() {
            Ok(mut copy) => {
                copy.commit();
                self.tracker = copy;
                true
            }
            Err(_) => false,
        }
    }

    fn put(&mut self) -> bool {
        let mut line = Line::new(self.alloc);
        line.opening = Some(Opening {
            client: 1000,
            own: 5000,
        });
        self.tracker.put(&TUPLE, line).is_ok()
    }

    fn line(&self) -> Option<(u32, u8, usize, bool)> {
        let line = self.tracker.line(&TUPLE)?;
        let bytes = line.bytes.as_slice();
        let last = bytes.last().copied().unwrap_or(0);
        Some((line.base, last, bytes.len(), line.fin))
    }
}

/// The first word of a text, and the rest.
fn cut(text: &str) -> (&str, &str) {
    text.split_once(' ').unwrap_or((text, ""))
}

/// The number that a word spells, 0 where it is left out.
fn number(word: &str) -> u32 {
    word.parse().unwrap_or(0)
}

/// Two numbers.
fn numbers(words: &str) -> (u32, u32) {
    let (first, second) = cut(words);
    (number(first), number(second))
}

/// Whether a frame was what an answer says.
fn is_what(what: What, answer: &str) -> bool {
    let (kind, words) = cut(answer);
    match what {
        What::Ignored => answer == "ignored",
        What::Refused(client) => kind == "refused" && number(words) == client,
        What::Opened(opening) => {
            kind == "opened" && numbers(words) == (opening.client, opening.own)
        }
        What::Symbols { from, to } => kind == "symbols" && numbers(words) == (from, to),
        What::Reset => answer == "reset",
        What::Restarted(opening) => {
            kind == "restarted" && numbers(words) == (opening.client, opening.own)
        }
    }
}

fn is_taken<F: Follows>(followed: &mut F, name: &str, answer: &str) -> bool {
    match frame_of(name) {
        Some(frame) => match followed.take(frame) {
            Some(what) => is_what(what, answer),
            None => false,
        },
        None => false,
    }
}

fn is_line<F: Follows>(followed: &F, answer: &str) -> bool {
    let (base, words) = cut(answer);
    let (last, words) = cut(words);
    let (len, fin) = cut(words);
    match followed.line() {
        Some((b, l, n, f)) => {
            number(base) == b
                && number(last) == u32::from(l)
                && number(len) as usize == n
                && fin == if f { "true" } else { "false" }
        }
        None => false,
    }
}

fn trim<F: Follows>(followed: &mut F, words: &str) -> bool {
    let (client, offset) = numbers(words);
    followed.trim(client, offset)
}

/// Whether a step is answered so.
fn is_answered<F: Follows>(followed: &mut F, asked: &str, answer: &str) -> bool {
    let (verb, words) = cut(asked);
    match verb {
        "take" => is_taken(followed, words, answer),
        "line" => is_line(followed, answer),
        "trim" => trim(followed, words) && answer == "done",
        "commit" => followed.commit() && answer == "done",
        "put" => followed.put() && answer == "done",
        _ => false,
    }
}

/// Plays a script, and asserts that each line is answered so.
fn play_with<R: Abort, F: Follows>(rt: &R, followed: &mut F, script: &str) {
    for line in script.lines() {
        let (asked, answer) = line.split_once(" : ").unwrap_or((line, ""));
        assert!(rt; is_answered(followed, asked, answer), "{line}");
    }
}

/// Plays a script of a guest that sent nothing.
fn play<R: Abort + AllocGlobal, F: Follows + Drop>(rt: &R, script: &str) {
    play_with(rt, &mut F::start(rt.alloc()), script);
}

/// Each way of a frame.
const WAYS: &str = "\
take stranger : ignored
take digits : ignored
take reset : ignored
take refusal : refused 1000
take syn : opened 1000 5000
take syn : symbols 0 1
take digits : symbols 1 11
take digits : symbols 1 11
take reset : reset
take other : restarted 1000 9000
take syn : restarted 1000 5000
";

/// The first symbol at an offset stays; what comes past a gap isn't in the line.
const OVERLAP: &str = "\
take syn : opened 1000 5000
take digits : symbols 1 11
take late : symbols 20 22
take letters : symbols 6 12
line : 0 102 11 false
";

/// Nothing follows a FIN.
const FIN: &str = "\
take syn : opened 1000 5000
take digits : symbols 1 11
take end : symbols 11 12
take after : symbols 12 13
take letters : symbols 6 12
line : 0 57 10 true
trim 1000 12 : done
line : 11 0 0 true
";

/// Trims of the connection go to the end at most.
const TRIMS: &str = "\
take syn : opened 1000 5000
take digits : symbols 1 11
trim 2000 5 : done
line : 0 57 10 false
trim 1000 4 : done
trim 1000 2 : done
line : 4 57 7 false
trim 1000 40 : done
line : 11 0 0 false
";

/// A commit keeps the current openings.
const COMMIT: &str = "\
take syn : opened 1000 5000
commit : done
take other : restarted 1000 9000
";

/// A line that is put is no opening.
const PUT: &str = "\
put : done
take digits : symbols 1 11
take other : opened 1000 9000
";

#[test]
fn each_way_of_a_frame(rt: HostRuntime) {
    play::<_, Followed>(&rt, WAYS);
}

#[test]
fn lines_are_followed_and_trimmed(rt: HostRuntime) {
    play::<_, Followed>(&rt, OVERLAP);
    play::<_, Followed>(&rt, FIN);
    play::<_, Followed>(&rt, TRIMS);
}

#[test]
fn openings_are_committed_and_put(rt: HostRuntime) {
    play::<_, Followed>(&rt, COMMIT);
    play::<_, Followed>(&rt, PUT);
}
