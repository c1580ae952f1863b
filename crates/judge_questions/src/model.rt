//! Fault models and numbers of members, as words.
ghost use Rattle.std.specs.Prelude.{◌≡◌, ◌<◌, ◌^◌, ◌∷◌, ℕ, List, MatchOption};
ghost use Rattle.judge_questions.specs.Ranges.{IsNumber};
ghost use Rattle.judge_questions.specs.Tasks.{IsModel, IsSize, LackModel};

use crate::ranges::read_number;
use crate::words::{Words, are_same, strip};

/// The resilience of the fault model that a word names: `n3f1` is 3, `n5f1` is 5, and `k=7` is 7.
/// It is at least 2. It returns `None` exactly where the word names none.
pub fn read_model(word: &[u8]) -> Option<u32>
    ensures { MatchOption result ((k : ℕ) → ¬ IsModel word.now k) (IsModel word.now) }
{
    if are_same(word, b"n3f1") {
        return Some(3);
    }
    if are_same(word, b"n5f1") {
        return Some(5);
    }
    let k = read_u32(strip(word, b"k=")?)?;
    if k < 2 { None } else { Some(k) }
}

/// The number of members that a word writes, which is at least 1. It returns `None` exactly where
/// the word writes none.
pub fn read_size(word: &[u8]) -> Option<u32>
    ensures { MatchOption result ((n : ℕ) → ¬ IsSize word.now n) (IsSize word.now) }
{
    let n = read_u32(word)?;
    if n == 0 { None } else { Some(n) }
}

/// The number that the word writes in decimal digits, where it fits a `u32`.
pub(crate) fn read_u32(word: &[u8]) -> Option<u32>
    ensures { MatchOption result ((n : ℕ) → IsNumber word.now n → ¬ (n < 2 ^ 32))
        (λ n. IsNumber word.now n) }
{
    u32::try_from(read_number(word)?).ok()
}

/// The resilience of the fault model that the next word names.
pub(crate) fn next_model(words: &mut Words<'_>) -> Option<u32>
    ensures { MatchOption result (LackModel words.old)
        (λ k. (word : List ℕ) × (words.old ≡ word ∷ words.new) × IsModel word k) }
{
    read_model(words.next()?)
}

/// The number of members that the next word writes.
pub(crate) fn next_size(words: &mut Words<'_>) -> Option<u32>
    ensures { MatchOption result
        ((word : List ℕ) (more : List (List ℕ)) (n : ℕ) → words.old ≡ word ∷ more → ¬ IsSize word n)
        (λ n. (word : List ℕ) × (words.old ≡ word ∷ words.new) × IsSize word n) }
{
    read_size(words.next()?)
}
