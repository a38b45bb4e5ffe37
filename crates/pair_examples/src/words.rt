//! The words of a line.

/// The first word of a text, and the rest.
pub fn cut(text: &str) -> (&str, &str) {
    text.split_once(' ').unwrap_or((text, ""))
}

/// The number that a word spells, 0 where it is left out.
pub fn number(word: &str) -> u32 {
    word.parse().unwrap_or(0)
}
