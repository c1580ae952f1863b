//! A line that asks whether an input is the encoding of a value.
ghost use Rattle.std.specs.Prelude.{◌≡◌, ◌≢◌, ◌≤◌, ◌∷◌, ◌++◌, [], ℕ, List, Some, length, IfOk, IfSome, IfErr, MatchOption, MatchResult};
ghost use Rattle.commonware_base.specs.Range.{Bounds};
ghost use Rattle.judge_questions.specs.Forms.{name_of};
ghost use Rattle.judge_questions.specs.Hex.{IsText};
ghost use Rattle.judge_questions.specs.Ranges.{IsRange};
ghost use Rattle.judge_questions.specs.Questions.{AreLimits, IsQuestion, IsUnreadable, ReadsRanges};
ghost use Rattle.judge_questions.specs.Words.{AreShort, words_of};
ghost use Rattle.judge_questions.specs.declared.form.Form.{Form};
ghost use Rattle.judge_questions.specs.declared.limits.Limits.{Limits};

use crate::bytes::Bytes;
use crate::form::{FORMS, Form};
use crate::hex::read_text;
use crate::limits::{Limit, Limits};
use crate::ranges::read_limit;
use crate::words::{Words, are_same};
use std::alloc::{AllocError, Allocator};

/// What a line asks: which value of a type the input begins with, under the ranges of its lengths.
///
/// `set<u8> .. 020509ffff` asks it of the bytes `[2, 5, 9, 0xff, 0xff]`, for a set of bytes of any
/// length.
#[derive(Drop)]
pub struct Question<A: Allocator> {
    /// The type.
    pub form: Form,
    /// The ranges.
    pub limits: Limits,
    /// The input.
    pub text: Bytes<A>,
}

/// What of a line can't be read.
///
/// Of `u9 00` it is `Name`, of `usize 5 05` `Ranges`, and of `u8 0` `Bytes`.
#[derive(Clone, Copy, PartialEq, Eq)]
pub enum Unreadable {
    /// The first word is no verb and no type's name, or the word after the verb no name of a type
    /// that it takes.
    Name,
    /// After the type's name there are not as many ranges as the type has, or a list that is never
    /// empty has a bound 0.
    Ranges,
    /// After the ranges, or what else comes before them, there are not as many words of bytes as
    /// there should be, and nothing else.
    Bytes,
    /// After the verb there is no fault model.
    Model,
    /// After the fault model there is no number of members, or not the numbers that there should be
    /// and nothing else.
    Number,
}

/// The question that a line asks: a type's name, a range for each of its lengths, and the bytes of
/// the input, each after one space; or what of it can't be read. The error is an allocation
/// failure, and comes only where a word has more than 128 bytes.
pub fn read_question<A: Allocator>(
    alloc: A,
    line: &[u8],
) -> Result<Result<Question<A>, Unreadable>, AllocError>
    ensures read { IfOk result (λ read. MatchResult read
        (λ q. IsQuestion line.now q.form q.limits q.text)
        (IsUnreadable line.now)) }
    ensures memory { IfErr result (λ _. ¬ AreShort (words_of line.now)) }
{
    let mut words = Words::new(line);
    let Some(form) = next_form(&mut words) else {
        return Ok(Err(Unreadable::Name));
    };
    let Some(limits) = next_limits(&mut words, form) else {
        return Ok(Err(Unreadable::Ranges));
    };
    match last_text(alloc, &mut words)? {
        Some(text) => Ok(Ok(Question { form, limits, text })),
        None => Ok(Err(Unreadable::Bytes)),
    }
}

/// The type that the next word names.
pub(crate) fn next_form(words: &mut Words<'_>) -> Option<Form>
    ensures { MatchOption result
        ((form : Form) (rest : List (List ℕ)) → words.old ≢ name_of form ∷ rest)
        (λ form. words.old ≡ name_of form ∷ words.new) }
{
    read_form(words.next()?)
}

/// The type of a name.
pub fn read_form(name: &[u8]) -> Option<Form>
    ensures { MatchOption result
        ((form : Form) → name.now ≢ name_of form)
        (λ form. name.now ≡ name_of form) }
{
    for form in &FORMS {
        if are_same(name, form.name().as_bytes()) {
            return Some(*form);
        }
    }
    None
}

/// The ranges of the type that the next words write.
fn next_limits(words: &mut Words<'_>, form: Form) -> Option<Limits>
    ensures { MatchOption result
        ((ranges more : List (List ℕ)) (limits : Limits) →
        AreLimits form ranges limits → words.old ≢ ranges ++ more)
        (λ limits. (ranges : List (List ℕ)) × (words.old ≡ ranges ++ words.new)
        × AreLimits form ranges limits) }
{
    let limits = next_ranges(words, form.lengths())?;
    if limits.fit(form) { Some(limits) } else { None }
}

/// The ranges that the next `count` words write, which are at most three.
fn next_ranges(words: &mut Words<'_>, count: usize) -> Option<Limits>
    requires { count ≤ 3 }
    ensures { ReadsRanges count words.old result words.new }
{
    match count {
        0 => Some(limits_of(Limit::full(), Limit::full(), Limit::full())),
        1 => one_range(words),
        2 => two_ranges(words),
        _ => three_ranges(words),
    }
}

fn one_range(words: &mut Words<'_>) -> Option<Limits>
    ensures { ReadsRanges 1 words.old result words.new }
{
    let first = next_limit(words)?;
    Some(limits_of(first, Limit::full(), Limit::full()))
}

fn two_ranges(words: &mut Words<'_>) -> Option<Limits>
    ensures { ReadsRanges 2 words.old result words.new }
{
    let first = next_limit(words)?;
    let second = next_limit(words)?;
    Some(limits_of(first, second, Limit::full()))
}

fn three_ranges(words: &mut Words<'_>) -> Option<Limits>
    ensures { ReadsRanges 3 words.old result words.new }
{
    let first = next_limit(words)?;
    let second = next_limit(words)?;
    let third = next_limit(words)?;
    Some(limits_of(first, second, third))
}

fn limits_of(first: Limit, second: Limit, third: Limit) -> Limits
    ensures first { result.first ≡ first }
    ensures second { result.second ≡ second }
    ensures third { result.third ≡ third }
{
    Limits {
        first,
        second,
        third,
    }
}

/// The range that the next word writes.
fn next_limit(words: &mut Words<'_>) -> Option<Limit>
    ensures read { IfSome result (λ range. (word : List ℕ) × (words.old ≡ word ∷ words.new)
        × IsRange word range) }
    ensures given { (word : List ℕ) (rest : List (List ℕ)) (range : Bounds ℕ) →
        words.old ≡ word ∷ rest → IsRange word range → result ≡ Some range }
{
    read_limit(words.next()?)
}

/// The bytes that the last word writes.
pub(crate) fn last_text<A: Allocator>(
    alloc: A,
    words: &mut Words<'_>,
) -> Result<Option<Bytes<A>>, AllocError>
    ensures read { IfOk result (λ text. MatchOption text
        ((word bytes : List ℕ) → words.old ≡ word ∷ [] → ¬ IsText word bytes)
        (λ bytes. (word : List ℕ) × (words.old ≡ word ∷ []) × IsText word bytes)) }
    ensures memory { IfErr result (λ _. ¬ AreShort words.old) }
{
    let Some(word) = words.next() else {
        return Ok(None);
    };
    if words.next().is_some() {
        return Ok(None);
    }
    read_text(alloc, word)
}
