//! The lines of a text: labels, statements and their places.

ghost use Rattle.std.specs.Prelude.{◌≡◌, ◌≤◌, ◌*◌, ℕ, List, map, length, IfOk, OnOk};
ghost use Rattle.std.specs.Option.{option_copied};
ghost use Rattle.rv_asm.specs.Labels.{place_in, with_label};
ghost use Rattle.rv_asm.specs.Lines.{label_of, line_of, word_count, place_of};

use crate::places::Place;
use crate::reading::is_label;
use ascii_text::cut;
use std::alloc::{AllocError, Global};
use std::collections::BTreeMap;

/// The labels of a text, each with its first place.
pub type Labels<'t> = BTreeMap<&'t [u8], Place>;

/// A line: a label, perhaps, and a statement, perhaps.
#[derive(Clone, Copy)]
pub struct Line<'a> {
    pub label: Option<&'a [u8]>,
    pub statement: Option<&'a [u8]>,
}

/// The label that a word is, if it ends in a colon and has a label's form before it.
#[tactic(auto, unfolding(crate::specs::Lines::label_of))]
fn label_of(word: &[u8]) -> Option<&[u8]>
    ensures { option_copied result ≡ label_of word.now }
{
    let (name, rest) = cut(word, b':');
    match rest {
        Some([]) => { if is_label(name) { Some(name) } else { None } }
        _ => None,
    }
}

/// The label and the statement of a line's text.
#[tactic(auto, unfolding(crate::specs::Lines::line_of))]
pub fn line_of(text: &[u8]) -> Line<'_>
    ensures label { option_copied result.label ≡ (line_of text.now).label }
    ensures statement { option_copied result.statement ≡ (line_of text.now).statement }
{
    let (word, rest) = cut(text, b' ');
    match label_of(word) {
        Some(label) => Line {
            label: Some(label),
            statement: rest,
        },
        None => Line {
            label: None,
            statement: if text.is_empty() { None } else { Some(text) },
        },
    }
}

/// How many words a statement stands for, be it good or bad: `li` is two, any other one.
#[tactic(auto, unfolding(crate::specs::Lines::word_count))]
pub fn word_count(statement: Option<&[u8]>) -> u64
    ensures count { result ≡ word_count (option_copied statement.entry) }
    ensures small { result ≤ 2 }
{
    match statement {
        None => 0,
        Some(text) => {
            let (name, _) = cut(text, b' ');
            if name == b"li".as_slice() { 2 } else { 1 }
        }
    }
}

/// Adds the label, unless it has a place already.
fn add_label<'t>(
    labels: &mut Labels<'t>,
    label: Option<&'t [u8]>,
    place: Place,
) -> Result<(), AllocError>
    ensures { OnOk result ((name : List ℕ)
        → place_in labels.new name
        ≡ with_label (option_copied label.entry) place (place_in labels.old) name) }
{
    let Some(label) = label else {
        return Ok(());
    };
    if !labels.contains_key(&label) {
        labels.insert(label, place)?;
    }
    Ok(())
}

/// The labels of the lines, each with its first place.
pub fn labels_of<'t>(alloc: Global, lines: &[&'t str]) -> Result<Labels<'t>, AllocError>
    ensures places { IfOk result (λ labels. (name : List ℕ)
        → place_in labels name ≡ place_of (map (λ line. line.now) lines.now) name) }
{
    let mut labels = BTreeMap::new(alloc);
    let mut words = 0u64;
    for (index, text) in lines.iter().enumerate() {
        let line = line_of(text.as_bytes());
        let place = Place {
            line: index as u64,
            words,
        };
        add_label(&mut labels, line.label, place)?;
        words += word_count(line.statement);
    }
    Ok(labels)
}
