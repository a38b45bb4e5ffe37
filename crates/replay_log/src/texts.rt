//! Texts, read line by line.

ghost use Rattle.std.specs.Prelude.{IfOk, IfErr};
ghost use Rattle.replay_log.specs.Cases.{first_bad, IsFault};
ghost use Rattle.replay_log.specs.Texts.{IsText};

use crate::causes::LineFault;
use crate::forms::Form;
use crate::items::{Item, item_of};
use crate::judging::{Before, judge};
use crate::rows::{first_row, words_of};
use std::alloc::Global;

/// What the lines of a text say; or its first bad line.
pub fn read_items(alloc: Global, forms: &[Form], text: &[u8]) -> Result<Vec<Item>, LineFault>
    ensures ok { IfOk result (λ items. IsText forms.now items.items text.now) }
    ensures bad { IfErr result (λ fault. IsFault fault (first_bad forms.now text.now)) }
{
    let mut items = Vec::new(alloc);
    let mut before = Before::none();
    let mut rest = text;
    while !rest.is_empty() {
        let (content, is_ended, next) = first_row(rest);
        let words = words_of(alloc, content)?;
        let words = words.as_slice();
        let form = match judge(forms, before, words, is_ended) {
            Ok(form) => form,
            Err(why) => {
                let line = items.len() as u64 + 1;
                return Err(LineFault::Bad { line, why });
            }
        };
        items.push(item_of(alloc, form, words)?)?;
        before = before.with(words);
        rest = next;
    }
    Ok(items)
}
