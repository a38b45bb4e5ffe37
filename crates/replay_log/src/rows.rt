//! A text's lines and their words.

ghost use Rattle.std.specs.Prelude.{◌≡◌, ◌<◌, ◌∷◌, ◌++◌, true, IfOk, map, length};
ghost use Rattle.replay_log.specs.Rows.{rows_of, words_of};
ghost use Rattle.shared_definitions.specs.Ascii.{newline};

use ascii_text::cut;
use std::alloc::{AllocError, Global};

/// The first line of a text, whether a newline ends it, and what follows that newline.
pub fn first_row(text: &[u8]) -> (&[u8], bool, &[u8])
    requires { 0 < length text.now }
    ensures row { rows_of text.now ≡ record { content = result.0.now; is_ended = result.1 }
        ∷ rows_of result.2.now }
    ensures ended { result.1 ≡ true → text.now ≡ result.0.now ++ (newline ∷ result.2.now) }
    ensures shorter { length result.2.now < length text.now }
{
    let (content, after) = cut(text, b'\n');
    match after {
        Some(rest) => (content, true, rest),
        None => (content, false, &[]),
    }
}

/// The words of a line.
pub fn words_of(alloc: Global, content: &[u8]) -> Result<Vec<&[u8]>, AllocError>
    ensures { IfOk result (λ words. map (λ w. w.now) words.items ≡ words_of content.now) }
{
    content.split(|byte| *byte == b' ').collect(alloc)
}
