//! Worked examples, played from scripts: streams whole and cut, the ends of a stream, and what is
//! read back. A line of a script is a step and, after a colon, what it answers.
//!
//! `feed` feeds bytes, and `drip` feeds them one by one; `write` writes the record of a frame and
//! feeds it; `next` takes the next frame and compares it; `at` is how many bytes were fed, the
//! place, and whether the stream is at the end of a frame. Bytes are numbers, and `*` with a count
//! stands for the bytes 0, 1, 2 and so on up to 250, and from 0 again.

use colo_base::NoMemory;
use sock_link::{LinkFault, Unframer, frame_into};
use std::alloc::Global;
use std::process::Abort;
use std::test::Fail;

/// Appends so many bytes that count up.
fn count_up(count: u16, out: &mut Vec<u8>) -> Result<(), Fail> {
    for k in 0..count {
        out.push((k % 251) as u8)?;
    }
    Ok(())
}

/// The bytes of words.
fn bytes(alloc: Global, words: &str) -> Result<Vec<u8>, Fail> {
    let mut out = Vec::new(alloc);
    for word in words.split_whitespace() {
        match word.strip_prefix('*') {
            Some(count) => count_up(count.parse()?, &mut out)?,
            None => out.push(word.parse()?)?,
        }
    }
    Ok(out)
}

/// A stream that is fed and unframed. No call has a clause, so that what the contracts say stands
/// in no goal of a test.
trait Stream {
    /// One of which nothing was fed.
    fn start(alloc: Global) -> Self
    where
        Self: Sized;
    /// Feeds a short piece to a short stream.
    fn feed(&mut self, piece: &[u8]) -> Result<(), LinkFault>;
    /// Feeds the record of a short frame.
    fn write(&mut self, frame: &[u8]) -> Result<(), LinkFault>;
    /// Takes the next frame; the error is that memory ran out.
    fn next(&mut self) -> Result<Option<Vec<u8>>, NoMemory>;
    /// How many bytes were fed, and the place.
    fn places(&self) -> (u64, u64);
    /// Whether the stream is at the end of a frame.
    fn is_at_end(&self) -> bool;
}

/// An unframer.
#[derive(Drop)]
struct Unframed {
    alloc: Global,
    unframer: Unframer,
}

impl Stream for Unframed {
    fn start(alloc: Global) -> Unframed {
        Unframed {
            alloc,
            unframer: Unframer::new(alloc),
        }
    }

    fn feed(&mut self, piece: &[u8]) -> Result<(), LinkFault> {
        if self.unframer.fed() > 1_000_000 || piece.len() > 1_000_000 {
            return Err(LinkFault::NoMemory);
        }
        self.unframer.feed(piece)
    }

    fn write(&mut self, frame: &[u8]) -> Result<(), LinkFault> {
        if frame.len() > 2000 {
            return Err(LinkFault::NoMemory);
        }
        let mut stream = Vec::new(self.alloc);
        match frame_into(frame, &mut stream) {
            Ok(()) => self.feed(&stream),
            Err(NoMemory) => Err(LinkFault::NoMemory),
        }
    }

    fn next(&mut self) -> Result<Option<Vec<u8>>, NoMemory> {
        self.unframer.next_frame()
    }

    fn places(&self) -> (u64, u64) {
        (self.unframer.fed(), self.unframer.place())
    }

    fn is_at_end(&self) -> bool {
        self.unframer.at_boundary()
    }
}

fn drip<S: Stream>(stream: &mut S, piece: &[u8]) -> Result<(), LinkFault> {
    for byte in piece {
        stream.feed(&[*byte])?;
    }
    Ok(())
}

fn number(word: &str) -> u64 {
    word.parse().unwrap_or(0)
}

/// Whether bytes were taken as an answer says.
fn is_fed(fed: Result<(), LinkFault>, answer: &str) -> bool {
    match fed {
        Ok(()) => answer == "taken",
        Err(LinkFault::TooLong { at }) => {
            answer.strip_prefix("too long at ").map(number) == Some(at)
        }
        Err(LinkFault::NoMemory) => answer == "out of memory",
    }
}

fn next<S: Stream>(stream: &mut S, wanted: &[u8]) -> &'static str {
    match stream.next() {
        Ok(Some(frame)) => if frame.as_slice() == wanted {
            "yes"
        } else {
            "no"
        },
        Ok(None) => "none",
        Err(NoMemory) => "out of memory",
    }
}

/// Whether the places are those of an answer, as `66 64 within`.
fn is_at<S: Stream>(stream: &S, answer: &str) -> bool {
    let (fed, rest) = answer.split_once(' ').unwrap_or((answer, ""));
    let (place, end) = rest.split_once(' ').unwrap_or((rest, ""));
    let wanted = if stream.is_at_end() { "end" } else { "within" };
    (number(fed), number(place)) == stream.places() && end == wanted
}

/// Whether a step is answered so.
fn is_answered<S: Stream>(stream: &mut S, verb: &str, bytes: &[u8], answer: &str) -> bool {
    match verb {
        "feed" => is_fed(stream.feed(bytes), answer),
        "drip" => is_fed(drip(stream, bytes), answer),
        "write" => is_fed(stream.write(bytes), answer),
        "next" => next(stream, bytes) == answer,
        "at" => is_at(stream, answer),
        _ => false,
    }
}

/// Plays a script, and asserts that each line is answered so.
fn play_with<R: Abort + AllocGlobal, S: Stream>(
    rt: &R,
    stream: &mut S,
    script: &str,
) -> Result<(), Fail> {
    for line in script.lines() {
        let (asked, answer) = line.split_once(" : ").ok_or("no answer")?;
        let (verb, words) = asked.split_once(' ').unwrap_or((asked, ""));
        let bytes = bytes(rt.alloc(), words)?;
        assert!(rt; is_answered(stream, verb, &bytes, answer), "{line}");
    }
    Ok(())
}

/// Plays a script with a stream of which nothing was fed.
fn play<R: Abort + AllocGlobal, S: Stream + Drop>(rt: &R, script: &str) -> Result<(), Fail> {
    play_with(rt, &mut S::start(rt.alloc()), script)
}

/// A record of 60 bytes and two bytes of the next.
const WHOLE: &str = "\
feed 0 0 0 60 *60 0 0 : taken
at : 66 64 within
next *60 : yes
next : none
";

/// The same byte by byte.
const CUT: &str = "\
drip 0 0 0 60 *60 0 0 : taken
at : 66 64 within
next *60 : yes
next : none
";

/// A frame of 1,600 bytes, and the greatest length.
const LIMIT: &str = "\
write *1600 : taken
at : 1604 1604 end
next *1600 : yes
feed 0 1 16 0 : taken
";

const ABOVE: &str = "feed 0 1 16 1 : too long at 0\n";

/// A frame of one byte, one of none, and then a length above the limit, the stream cut within each
/// length.
const BEFORE_LONG: &str = "\
feed 0 0 : taken
feed 0 1 : taken
feed 7 0 : taken
feed 0 0 : taken
feed 0 0 : taken
feed 1 16 : taken
feed 1 9 : too long at 9
feed 9 : too long at 9
at : 15 9 within
next 7 : yes
next : yes
next : none
";

#[test]
fn a_stream_gives_the_same_frame_however_it_is_cut(rt: HostRuntime) -> Result<(), Fail> {
    play::<_, Unframed>(&rt, WHOLE)?;
    play::<_, Unframed>(&rt, CUT)
}

#[test]
fn lengths_to_the_limit_are_taken(rt: HostRuntime) -> Result<(), Fail> {
    play::<_, Unframed>(&rt, LIMIT)?;
    play::<_, Unframed>(&rt, ABOVE)
}

#[test]
fn the_frames_before_a_long_one_are_given(rt: HostRuntime) -> Result<(), Fail> {
    play::<_, Unframed>(&rt, BEFORE_LONG)
}
