//! Bytes as hexadecimal digits.
ghost use Rattle.std.specs.Prelude.{◌≡◌, ◌<◌, ◌≤◌, ℕ, List, Some, length, IfErr, IfNone, IfOk, IfSome, MatchOption};
ghost use Rattle.std.specs.Char.{digit_value};
ghost use Rattle.judge_questions.specs.Hex.{IsHexByte, IsText};

use crate::bytes::Bytes;
use crate::words::are_same;
use std::alloc::{AllocError, Allocator};

/// The bytes that the word writes: two hexadecimal digits for each, of which letters may be lower
/// or upper case, or `-` where there are none. It returns `None` exactly where the word writes
/// none. The error is an allocation failure, and comes only where the word has more than 128 bytes.
pub fn read_text<A: Allocator>(alloc: A, word: &[u8]) -> Result<Option<Bytes<A>>, AllocError>
    ensures read { IfOk result (λ text. MatchOption text
        ((bytes : List ℕ) → ¬ IsText word.now bytes)
        (λ bytes. IsText word.now bytes)) }
    ensures memory { IfErr result (λ _. 128 < length word.now) }
{
    if are_same(word, b"-") {
        return Ok(Some(Bytes::new(alloc)));
    }
    if word.is_empty() {
        return Ok(None);
    }
    let mut bytes = Bytes::new(alloc);
    let mut rest = word;
    while let [high, low, after @ ..] = rest {
        let Some(byte) = read_byte(*high, *low) else {
            return Ok(None);
        };
        bytes.push(byte)?;
        rest = after;
    }
    if rest.is_empty() {
        Ok(Some(bytes))
    } else {
        Ok(None)
    }
}

/// The byte of two hexadecimal digits.
fn read_byte(high: u8, low: u8) -> Option<u8>
    ensures byte { IfSome result (IsHexByte high low) }
    ensures other { IfNone result ((byte : ℕ) → ¬ IsHexByte high low byte) }
{
    Some(read_digit(high)? * 16 + read_digit(low)?)
}

/// The value of a hexadecimal digit.
fn read_digit(digit: u8) -> Option<u8>
    ensures value { IfSome result (λ value. (value ≡ digit_value digit) × (value < 16)) }
    ensures other { IfNone result (16 ≤ digit_value digit) }
{
    match digit {
        b'0'..=b'9' => Some(digit - b'0'),
        b'a'..=b'f' => Some(digit - b'a' + 10),
        b'A'..=b'F' => Some(digit - b'A' + 10),
        _ => None,
    }
}
