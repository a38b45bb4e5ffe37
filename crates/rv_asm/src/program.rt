//! Assembling a text, line by line.

ghost use Rattle.std.specs.Prelude.{◌≡◌, ◌+◌, ◌<◌, ◌++◌, ◌^◌, ℕ, List, map, OnOk, IfOk, IfErr};
ghost use Rattle.std.specs.Int.{w32, to_le_bytes};
ghost use Rattle.std.specs.Option.{option_copied};
ghost use Rattle.rv_asm.specs.Labels.{place_in, words_in};
ghost use Rattle.rv_asm.specs.Lines.{line_of, place_of};
ghost use Rattle.rv_asm.specs.Operands.{view_by};
ghost use Rattle.rv_asm.specs.Program.{stands_before, label_is_given, statement_words, line_words, lines_of, bytes_of, WritesWords, IsFaultOf, HaveBytes, HaveFault, Assembles, AreBytesOf, IsFirstFault};
ghost use Rattle.rv_asm.specs.Words.{words_of};

use crate::fault::{AsmFault, Why};
use crate::lines::{Labels, labels_of, line_of, word_count};
use crate::operands::Context;
use crate::places::Place;
use crate::statements::{Words, statement};
use std::alloc::{AllocError, Global};

/// Whether the place is on an earlier line.
fn stands_before(index: u64, place: Option<Place>) -> bool
    ensures { result ≡ stands_before index place }
{
    match place {
        None => false,
        Some(place) => place.line < index,
    }
}

/// Whether the label stands already before an earlier line.
fn label_is_given<'t>(labels: &Labels<'t>, index: u64, label: Option<&'t [u8]>) -> bool
    ensures { result ≡ label_is_given (place_in labels.now) index (option_copied label.entry) }
{
    match label {
        None => false,
        Some(name) => stands_before(index, labels.get(&name).copied()),
    }
}

/// Appends a word, little-endian.
fn push_word(bytes: &mut Vec<u8>, word: u32) -> Result<(), AllocError>
    ensures { OnOk result (bytes.new.items ≡ bytes.old.items ++ to_le_bytes w32 word) }
{
    bytes.extend_from_slice(&word.to_le_bytes())
}

/// Appends the words of a statement.
fn push_words(bytes: &mut Vec<u8>, words: Words) -> Result<(), AllocError>
    ensures { OnOk result (bytes.new.items ≡ bytes.old.items ++ bytes_of (words_of words)) }
{
    match words {
        Words::One(word) => push_word(bytes, word),
        Words::Two(first, second) => {
            push_word(bytes, first)?;
            push_word(bytes, second)
        }
    }
}

/// Appends the words of a line's statement, where it has one.
fn push_statement<'t>(
    bytes: &mut Vec<u8>,
    context: &Context<'_, 't>,
    index: u64,
    text: Option<&'t [u8]>,
) -> Result<(), AsmFault>
    requires { index + 1 < 2 ^ 64 }
    ensures written { OnOk result (WritesWords (statement_words
        (words_in context.now.labels.now) context.now.here
        (option_copied text.entry)) bytes.old.items bytes.new.items) }
    ensures fault { IfErr result (IsFaultOf (statement_words
        (words_in context.now.labels.now) context.now.here (option_copied text.entry)) index) }
{
    let Some(text) = text else {
        return Ok(());
    };
    match statement(context, text) {
        Err(why) => Err(AsmFault::Line {
            line: index + 1,
            why,
        }),
        Ok(words) => {
            push_words(bytes, words)?;
            Ok(())
        }
    }
}

/// Appends the words of the line at an index.
#[tactic(auto, unfolding(crate::specs::Program::line_words))]
fn push_line<'t>(
    bytes: &mut Vec<u8>,
    context: &Context<'_, 't>,
    index: u64,
    text: &'t [u8],
) -> Result<(), AsmFault>
    requires { index + 1 < 2 ^ 64 }
    ensures written { OnOk result (WritesWords (line_words
        (place_in context.now.labels.now) index context.now.here text.now) bytes.old.items
        bytes.new.items) }
    ensures fault { IfErr result (IsFaultOf (line_words
        (place_in context.now.labels.now) index context.now.here text.now) index) }
{
    let line = line_of(text);
    if label_is_given(context.labels, index, line.label) {
        return Err(AsmFault::Line {
            line: index + 1,
            why: Why::Label,
        });
    }
    push_statement(bytes, context, index, line.statement)
}

/// The bytes of the words of the lines, or the first bad line.
fn assemble_lines(alloc: Global, lines: &[&str]) -> Result<Vec<u8>, AsmFault>
    ensures words { IfOk result (λ bytes. HaveBytes (map
        (λ line. line.now) lines.now) bytes.items) }
    ensures fault { IfErr result (HaveFault (map (λ line. line.now) lines.now)) }
{
    let labels = labels_of(alloc, lines)?;
    let mut bytes = Vec::new(alloc);
    let mut here = 0u64;
    for (index, text) in lines.iter().enumerate() {
        let text = text.as_bytes();
        let context = Context {
            labels: &labels,
            here,
        };
        push_line(&mut bytes, &context, index as u64, text)?;
        here += word_count(line_of(text).statement);
    }
    Ok(bytes)
}

/// The lines of the text.
fn lines_of(alloc: Global, text: &str) -> Result<Vec<&str>, AllocError>
    ensures { IfOk result (λ lines. map (λ line. line.now) lines.items ≡ lines_of text.now) }
{
    text.split('\n').collect(alloc)
}

/// The bytes of the words that a text's statements stand for, each word little-endian, or the
/// text's first bad line, counted from 1, with its first fault.
///
/// A line is an optional `name:`, and after it and one space, or alone, a statement: an
/// instruction's name in small letters, a space, and its operands with a comma and a space between
/// them. `.word` is a number, and `li` is LUI and ADDI. The first word stands at 0x80000000.
pub fn assemble(alloc: Global, text: &str) -> Result<Vec<u8>, AsmFault>
    ensures words { IfOk result (λ bytes. AreBytesOf text.now bytes.items) }

    // The text has no other words.
    ensures only { IfOk result (λ bytes. (words : List ℕ) → Assembles text.now words
        → bytes.items ≡ bytes_of words) }
    ensures fault { IfErr result (IsFirstFault text.now) }
{
    let lines = lines_of(alloc, text)?;
    assemble_lines(alloc, lines.as_slice())
}
