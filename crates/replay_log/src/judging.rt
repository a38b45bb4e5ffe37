//! Whether a line is good, and which form it has.

ghost use Rattle.std.specs.Prelude.{◌≡◌, [], Some, None, IfOk, IfErr, OnOk, map, find, length, drop};
ghost use Rattle.std.specs.List.{list_any};
ghost use Rattle.replay_log.specs.Cases.{form_fits, form_counts, form_reads, begins_with, before_of, before_with, case_of, is_early_mark, is_second_stop, is_false_report};
ghost use Rattle.replay_log.specs.Forms.{front_places};

use crate::causes::LineWhy;
use crate::forms::{Form, back_places, front_places};
use crate::keywords::{Keyword, keyword_text};
use crate::reading::{are_read, fit_all};

/// What the rules on marks, stops and reports ask of the lines before a line.
#[derive(Clone, Copy)]
pub struct Before {
    /// Whether there is a line.
    pub any: bool,
    /// Whether one is a stop.
    pub stopped: bool,
    /// Whether one is a report.
    pub reported: bool,
}

/// The words at the places of an event's answer.
pub fn back_words<'a>(form: Form, words: &'a [&'a [u8]]) -> &'a [&'a [u8]]
    ensures { result.now ≡ drop (length (front_places form)) words.now }
{
    let front = front_places(form).len();
    if front <= words.len() {
        &words[front..]
    } else {
        &[]
    }
}

/// Whether each word that stands at the place of a fixed word is that word.
#[tactic(auto, using(crate::proofs::FormLemmas::fit_all_append, crate::proofs::FormLemmas::drop_words))]
fn form_fits(form: Form, words: &[&[u8]]) -> bool
    ensures { result ≡ form_fits (map (λ w. w.now) words.now) form }
{
    fit_all(front_places(form), words) && fit_all(back_places(form), back_words(form, words))
}

/// Whether the form fits and has so many words.
#[tactic(auto, using(crate::proofs::FormLemmas::length_places))]
fn form_counts(form: Form, words: &[&[u8]]) -> bool
    ensures { result ≡ form_counts (map (λ w. w.now) words.now) form }
{
    form_fits(form, words) && front_places(form).len() + back_places(form).len() == words.len()
}

/// Whether the line has the form.
#[tactic(auto, using(crate::proofs::FormLemmas::are_read_append, crate::proofs::FormLemmas::drop_words))]
fn form_reads(form: Form, words: &[&[u8]]) -> bool
    ensures { result ≡ form_reads (map (λ w. w.now) words.now) form }
{
    form_counts(form, words)
        && (are_read(front_places(form), words)
            && are_read(back_places(form), back_words(form, words)))
}

fn begins_with(keyword: Keyword, words: &[&[u8]]) -> bool
    ensures { result ≡ begins_with keyword (map (λ w. w.now) words.now) }
{
    match words {
        [] => false,
        [word, ..] => *word == keyword_text(keyword),
    }
}

fn any_fits(forms: &[Form], words: &[&[u8]]) -> bool
    ensures { result ≡ list_any (form_fits (map (λ w. w.now) words.now)) forms.now }
{
    forms.iter().any(|form| form_fits(*form, words))
}

fn any_counts(forms: &[Form], words: &[&[u8]]) -> bool
    ensures { result ≡ list_any (form_counts (map (λ w. w.now) words.now)) forms.now }
{
    forms.iter().any(|form| form_counts(*form, words))
}

fn first_that_reads(forms: &[Form], words: &[&[u8]]) -> Option<Form>
    ensures { result ≡ find (form_reads (map (λ w. w.now) words.now)) forms.now }
{
    forms.iter().copied().find(|form| form_reads(*form, words))
}

impl Before {
    /// No line.
    pub fn none() -> Before
        ensures { result ≡ before_of [] }
    {
        Before {
            any: false,
            stopped: false,
            reported: false,
        }
    }

    /// These lines and one more.
    pub fn with(self, words: &[&[u8]]) -> Before
        ensures { result ≡ before_with self (map (λ w. w.now) words.now) }
    {
        Before {
            any: true,
            stopped: self.stopped || begins_with(Keyword::Stop, words),
            reported: self.reported || begins_with(Keyword::Report, words),
        }
    }

    fn is_early_mark(self, words: &[&[u8]]) -> bool
        ensures { result ≡ is_early_mark self (map (λ w. w.now) words.now) }
    {
        !self.any && begins_with(Keyword::Mark, words)
    }

    fn is_second_stop(self, words: &[&[u8]]) -> bool
        ensures { result ≡ is_second_stop self (map (λ w. w.now) words.now) }
    {
        self.stopped && begins_with(Keyword::Stop, words)
    }

    fn is_false_report(self, words: &[&[u8]]) -> bool
        ensures { result ≡ is_false_report self (map (λ w. w.now) words.now) }
    {
        (!self.stopped || self.reported) && begins_with(Keyword::Report, words)
    }
}

/// The form of a line that stands after such lines; or the first case of it that is bad.
#[tactic(auto, unfolding(crate::specs::Cases::case_of))]
pub fn judge(
    forms: &[Form],
    before: Before,
    words: &[&[u8]],
    is_ended: bool,
) -> Result<Form, LineWhy>
    ensures good { OnOk result (case_of forms.now before (map (λ w. w.now) words.now) is_ended
        ≡ None) }
    ensures form { IfOk result (λ form. find (form_reads (map (λ w. w.now) words.now)) forms.now
        ≡ Some form) }
    ensures bad { IfErr result (λ why. case_of forms.now before (map
        (λ w. w.now) words.now) is_ended ≡ Some why) }
{
    if before.is_early_mark(words) || !any_fits(forms, words) {
        return Err(LineWhy::Word);
    }
    if !is_ended || !any_counts(forms, words) {
        return Err(LineWhy::Count);
    }
    let Some(form) = first_that_reads(forms, words) else {
        return Err(LineWhy::Number);
    };
    if before.is_second_stop(words) {
        return Err(LineWhy::SecondStop);
    }
    if before.is_false_report(words) {
        return Err(LineWhy::FalseReport);
    }
    Ok(form)
}
