//! The bytes that words write, one after another.
ghost use Rattle.std.specs.Prelude.{◌≡◌, ◌∷◌, [], ℕ, List, IfErr, IfOk, MatchOption};
ghost use Rattle.judge_questions.specs.Hex.{IsText};
ghost use Rattle.judge_questions.specs.Tasks.{LackThreeTexts, LackTwoTexts};
ghost use Rattle.judge_questions.specs.Words.{AreShort};

use crate::bytes::Bytes;
use crate::hex::read_text;
use crate::question::last_text;
use crate::words::Words;
use std::alloc::{AllocError, Allocator};

/// The bytes that the next word writes.
fn next_text<A: Allocator>(alloc: A, words: &mut Words<'_>) -> Result<Option<Bytes<A>>, AllocError>
    ensures read { IfOk result (λ text. MatchOption text
        ((word bytes : List ℕ) (more : List (List ℕ)) → words.old ≡ word ∷ more
        → ¬ IsText word bytes)
        (λ bytes. (word : List ℕ) × (words.old ≡ word ∷ words.new) × IsText word bytes)) }
    ensures memory { IfErr result (λ _. ¬ AreShort words.old) }
{
    let Some(word) = words.next() else {
        return Ok(None);
    };
    read_text(alloc, word)
}

/// The bytes that the last two words write.
pub(crate) fn two_texts<A: Allocator + Copy>(
    alloc: A,
    words: &mut Words<'_>,
) -> Result<Option<(Bytes<A>, Bytes<A>)>, AllocError>
    ensures read { IfOk result (λ read. MatchOption read (LackTwoTexts words.old)
        (λ p. (first : List ℕ) × (second : List ℕ) × (words.old ≡ first ∷ second ∷ [])
        × IsText first p.0 × IsText second p.1)) }
    ensures memory { IfErr result (λ _. ¬ AreShort words.old) }
{
    let Some(first) = next_text(alloc, words)? else {
        return Ok(None);
    };
    match last_text(alloc, words)? {
        Some(second) => Ok(Some((first, second))),
        None => Ok(None),
    }
}

/// The bytes that the last three words write.
pub(crate) fn three_texts<A: Allocator + Copy>(
    alloc: A,
    words: &mut Words<'_>,
) -> Result<Option<(Bytes<A>, Bytes<A>, Bytes<A>)>, AllocError>
    ensures read { IfOk result (λ read. MatchOption read (LackThreeTexts words.old)
        (λ p. (list : List ℕ) × (first : List ℕ) × (second : List ℕ)
        × (words.old ≡ list ∷ first ∷ second ∷ [])
        × IsText list p.0 × IsText first p.1 × IsText second p.2)) }
    ensures memory { IfErr result (λ _. ¬ AreShort words.old) }
{
    let Some(list) = next_text(alloc, words)? else {
        return Ok(None);
    };
    match two_texts(alloc, words)? {
        Some((first, second)) => Ok(Some((list, first, second))),
        None => Ok(None),
    }
}
