//! Conflicts over values of each small length, and longer than every room of the judge, and at each
//! k: with ample memory the members that signed both are named.

use crate::judge::{WHOLE, held, of};
use std::alloc::{AllocError, Global};
use std::ops::Range;

/// The last byte and the signers of two certificates, and the answer of three of four members.
static CASES: [(&str, &str, &str); 4] = [
    ("0103000102", "0203010203", "members 020102\n"),
    ("0103000102", "0103010203", "EqualValues\n"),
    ("0103000102", "0203010204", "Outside\n"),
    ("0103000102", "02020102", "TooFew\n"),
];

/// Whether the judge answers a line by this, and ends with status 0.
pub(super) fn is_answered(alloc: Global, line: &str, answer: &str) -> Result<bool, AllocError> {
    let outcome = held(alloc, &of(line.as_bytes(), WHOLE))?;
    Ok(outcome.status == 0 && outcome.written.as_slice() == answer.as_bytes())
}

/// Appends the varint of a length below 2^21.
pub(super) fn append_length(line: &mut String<Global>, length: u32) -> Result<(), AllocError> {
    let (lowest, middle) = (length % 128, length / 128 % 128);
    if length < 128 {
        write!(line, "{lowest:02x}")
    } else if length < 16_384 {
        write!(line, "{:02x}{middle:02x}", 128 + lowest)
    } else {
        write!(
            line,
            "{:02x}{:02x}{:02x}",
            128 + lowest,
            128 + middle,
            length / 16_384
        )
    }
}

/// Appends a certificate of a value of this length, all of whose bytes but the last are `aa`.
fn append_certificate(line: &mut String<Global>, length: u32, end: &str) -> Result<(), AllocError> {
    append_length(line, length)?;
    for _ in 1..length {
        line.push_str("aa")?;
    }
    line.push_str(end)
}

/// Whether the case has its answer, of values of this length.
fn is_right(alloc: Global, length: u32, case: &(&str, &str, &str)) -> Result<bool, AllocError> {
    let (first, second, answer) = *case;
    let mut line = String::from_str(alloc, "conflict n3f1 4 ")?;
    append_certificate(&mut line, length, first)?;
    line.push_str(" ")?;
    append_certificate(&mut line, length, second)?;
    is_answered(alloc, &line, answer)
}

#[test]
fn conflicts_over_long_values_are_answered(rt: HostRuntime) {
    for length in (1..=300).chain([400, 5_000, 70_000]) {
        for case in &CASES {
            let right = is_right(rt.alloc(), length, case);
            assert!(rt; right == Ok(true), "{length} {}", case.2);
        }
    }
}

/// Appends a list of indices, each of which is below 128.
fn append_signers(line: &mut String<Global>, signers: Range<u32>) -> Result<(), AllocError> {
    write!(line, "{:02x}", signers.len())?;
    for signer in signers {
        write!(line, "{signer:02x}")?;
    }
    Ok(())
}

/// Whether among 2k members the first 2k - 1 and the last 2k - 1, which are quorums since one is
/// faulty, share all but the first and the last.
fn names_all_between(alloc: Global, k: u32) -> Result<bool, AllocError> {
    let members = k.saturating_mul(2);
    let last = members.saturating_sub(1);
    let mut line = format!(in alloc; "conflict k={k} {members} 0101")?;
    append_signers(&mut line, 0..last)?;
    line.push_str(" 0102")?;
    append_signers(&mut line, 1..members)?;
    let mut answer = String::from_str(alloc, "members ")?;
    append_signers(&mut answer, 1..last)?;
    answer.push_str("\n")?;
    is_answered(alloc, &line, &answer)
}

#[test]
fn conflicts_at_each_k_are_answered(rt: HostRuntime) {
    for k in 2..=20 {
        assert!(rt; names_all_between(rt.alloc(), k) == Ok(true), "{k}");
    }
}
