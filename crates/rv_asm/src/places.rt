//! Where the labels of a text stand.

/// Where a label stands: its line, counted from 0, and how many words stand before it.
#[derive(Clone, Copy)]
pub struct Place {
    pub line: u64,
    pub words: u64,
}
