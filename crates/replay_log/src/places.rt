//! What stands at one place of a line.

use crate::keywords::Keyword;

/// What stands at one place of a line.
#[derive(Clone, Copy)]
pub enum Place {
    /// A fixed word.
    Word(Keyword),
    /// A number in this range. A fixed number is a range of one.
    Number { low: u64, high: u64 },
    /// `client/number`.
    Opening,
    /// `index/client/number`.
    SeenFrame,
}
