//! A test as a text. A line is a call with its numbers and, after a colon, what it answers, as in
//! `lw 80001000 : 12345678`. Numbers are hexadecimal, and what follows a `#` is a comment.
//!
//! A [`Scene`] makes the calls, and [`is_answered`] plays a line.
#![tactic(auto)]

/// What a call answers: a word, a number, both or nothing.
#[derive(Clone, Copy)]
pub struct Answer {
    word: &'static str,
    number: Option<u64>,
}

/// What is tested, with all that stands beside it. No call has a clause, so that what the contracts
/// say stands in no goal of a test.
pub trait Scene {
    /// Makes the call with this name and these numbers.
    fn call(&mut self, name: &str, n: &[u32; 6]) -> Answer;
}

/// The answer that is one word.
pub fn word(word: &'static str) -> Answer {
    Answer { word, number: None }
}

/// The answer that is one number.
pub fn number(number: u64) -> Answer {
    word_and_number("", number)
}

/// The answer that is a word and a number.
pub fn word_and_number(word: &'static str, number: u64) -> Answer {
    Answer {
        word,
        number: Some(number),
    }
}

/// The answer that is a number, or `none`.
pub fn number_or_none(found: Option<u32>) -> Answer {
    match found {
        Some(found) => number(u64::from(found)),
        None => word("none"),
    }
}

/// The answer to a question.
pub fn yes_or_no(holds: bool) -> Answer {
    word(if holds { "yes" } else { "no" })
}

/// The answer of what answers nothing.
pub fn nothing() -> Answer {
    word("")
}

/// The answer where there is no such call, which no line expects.
pub fn no_such_call() -> Answer {
    word("no such call")
}

/// Whether the call of a line answers what the line says.
pub fn is_answered<S: Scene>(scene: &mut S, line: &str) -> bool {
    let (step, _) = line.split_once('#').unwrap_or((line, ""));
    let (call, wanted) = step.split_once(" : ").unwrap_or((step, ""));
    let call = call.trim();
    let (name, words) = call.split_once(' ').unwrap_or((call, ""));
    if name.is_empty() {
        return wanted.is_empty();
    }
    match read_numbers(words) {
        Some(n) => is_wanted(&scene.call(name, &n), wanted.trim()),
        None => false,
    }
}

/// Whether an answer is the one that is wanted.
fn is_wanted(answer: &Answer, wanted: &str) -> bool {
    match wanted.strip_prefix(answer.word) {
        Some(rest) if rest.is_empty() => answer.number.is_none(),
        Some(rest) => read_number(rest.trim()) == answer.number,
        None => false,
    }
}

/// The numbers of some words, at most six; the rest are 0.
fn read_numbers(words: &str) -> Option<[u32; 6]> {
    let mut numbers = [0; 6];
    let mut words = words.split_whitespace();
    for number in &mut numbers {
        if let Some(word) = words.next() {
            *number = u32::try_from(read_number(word)?).ok()?;
        }
    }
    if words.next().is_none() {
        Some(numbers)
    } else {
        None
    }
}

/// The number that a word spells in hexadecimal digits.
fn read_number(word: &str) -> Option<u64> {
    if word.is_empty() || word.len() > 16 {
        return None;
    }
    let mut number = 0;
    for byte in word.as_bytes() {
        number = number << 4 | u64::from(digit(*byte)?);
    }
    Some(number)
}

/// What a hexadecimal digit stands for.
fn digit(byte: u8) -> Option<u8> {
    match byte {
        b'0'..=b'9' => Some(byte - b'0'),
        b'A'..=b'F' => Some(byte - b'A' + 10),
        _ => None,
    }
}
