//! Ranges as words.
ghost use Rattle.std.specs.Prelude.{◌≡◌, ℕ, Option, Some, IfSome};
ghost use Rattle.std.specs.declared.ops.Bound.{Bound};
ghost use Rattle.commonware_base.specs.Range.{Bounds};
ghost use Rattle.judge_questions.specs.Ranges.{IsLower, IsNumber, IsRange, IsUpper};

use crate::limits::Limit;
use crate::words::{place_of, strip};
use std::ops::Bound;

/// The range that the word writes as Rust does: `..`, `a..`, `..b`, `..=b`, `a..b` or `a..=b`.
/// Numbers are decimal digits and fit a `usize`. Zeros may lead. It returns `None` exactly where
/// the word writes none.
pub fn read_limit(word: &[u8]) -> Option<Limit>
    ensures range { IfSome result (IsRange word.now) }
    ensures given { (range : Bounds ℕ) → IsRange word.now range → result ≡ Some range }
{
    let at = place_of(word, b'.')?;
    let (start, rest) = word.split_at(at);
    let end = strip(rest, b"..")?;
    let lower = read_lower(start)?;
    let upper = read_upper(end)?;
    Some(Limit::new(lower, upper))
}

/// The lower bound that the word writes, which is none where the word is empty.
fn read_lower(word: &[u8]) -> Option<Option<usize>>
    ensures bound { IfSome result (IsLower word.now) }
    ensures given { (bound : Option ℕ) → IsLower word.now bound → result ≡ Some bound }
{
    if word.is_empty() {
        return Some(None);
    }
    let number = read_number(word)?;
    Some(Some(number))
}

/// The upper bound that the word writes, which is none where the word is empty.
fn read_upper(word: &[u8]) -> Option<Bound<usize>>
    ensures bound { IfSome result (IsUpper word.now) }
    ensures given { (bound : Bound ℕ) → IsUpper word.now bound → result ≡ Some bound }
{
    if word.is_empty() {
        return Some(Bound::Unbounded);
    }
    match strip(word, b"=") {
        Some(digits) => {
            let number = read_number(digits)?;
            Some(Bound::Included(number))
        }
        None => {
            let number = read_number(word)?;
            Some(Bound::Excluded(number))
        }
    }
}

/// The number that the word writes in decimal digits.
pub(crate) fn read_number(word: &[u8]) -> Option<usize>
    ensures number { IfSome result (IsNumber word.now) }
    ensures given { (n : ℕ) → IsNumber word.now n → result ≡ Some n }
{
    if word.is_empty() {
        return None;
    }
    let mut number = 0usize;
    for digit in word {
        if !digit.is_ascii_digit() {
            return None;
        }
        let digit = (*digit - b'0') as usize;
        number = number.checked_mul(10)?.checked_add(digit)?;
    }
    Some(number)
}
