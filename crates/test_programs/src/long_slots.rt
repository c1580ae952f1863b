//! Slots of each small length, and longer than every room of the judge: with ample memory a
//! certificate's slot is told, and the members that signed two decisions for one slot are named.

use crate::long_conflicts::{append_length, is_answered};
use std::alloc::{AllocError, Global};

/// The decision and the signers of two certificates for one slot, and the answer of three of four
/// members.
static CASES: [(&str, &str, &str); 4] = [
    ("0103000102", "0203010203", "members 020102\n"),
    ("0103000102", "0103010203", "SameDecision\n"),
    ("0103000102", "0203010204", "Outside\n"),
    ("0103000102", "02020102", "TooFew\n"),
];

/// Appends this number of bytes `aa`, or `-` where there are none.
fn append_word(line: &mut String<Global>, length: u32) -> Result<(), AllocError> {
    if length == 0 {
        return line.push_str("-");
    }
    append_bytes(line, length)
}

/// Appends this number of bytes `aa`.
fn append_bytes(line: &mut String<Global>, length: u32) -> Result<(), AllocError> {
    for _ in 0..length {
        line.push_str("aa")?;
    }
    Ok(())
}

/// How many bytes the varint of a length below 2^21 has.
fn varint_length(length: u32) -> u32 {
    match length {
        0..=127 => 1,
        128..=16_383 => 2,
        _ => 3,
    }
}

/// Appends a certificate of a value whose slot has this number of bytes `aa` and whose decision has
/// one, which the end begins with.
fn append_certificate(line: &mut String<Global>, length: u32, end: &str) -> Result<(), AllocError> {
    let value = length
        .saturating_add(varint_length(length))
        .saturating_add(1);
    append_length(line, value)?;
    append_length(line, length)?;
    append_bytes(line, length)?;
    line.push_str(end)
}

/// Whether two certificates of slots of these lengths have the answer.
fn is_right(
    alloc: Global,
    lengths: (u32, u32),
    case: &(&str, &str, &str),
) -> Result<bool, AllocError> {
    let (first, second, answer) = *case;
    let mut line = String::from_str(alloc, "equivocation n3f1 4 ")?;
    append_certificate(&mut line, lengths.0, first)?;
    line.push_str(" ")?;
    append_certificate(&mut line, lengths.1, second)?;
    is_answered(alloc, &line, answer)
}

/// Whether two slots of which one is a byte longer name no one.
fn are_other_slots(alloc: Global, length: u32) -> Result<bool, AllocError> {
    let longer = length.saturating_add(1);
    let case = ("0103000102", "0203010203", "OtherSlot\n");
    Ok(is_right(alloc, (length, longer), &case)? && is_right(alloc, (longer, length), &case)?)
}

/// Whether the slot of a certificate that a quorum signed is told.
fn is_told(alloc: Global, length: u32) -> Result<bool, AllocError> {
    let mut line = String::from_str(alloc, "quorum n3f1 4 ")?;
    append_certificate(&mut line, length, "0103000102")?;
    let mut answer = String::from_str(alloc, "quorum 3 slot ")?;
    append_word(&mut answer, length)?;
    answer.push_str(" decision 01\n")?;
    is_answered(alloc, &line, &answer)
}

#[test]
fn slots_of_each_length_are_told(rt: HostRuntime) {
    for length in (0..=300).chain([400, 5_000, 70_000]) {
        assert!(rt; is_told(rt.alloc(), length) == Ok(true), "{length}");
        assert!(rt; are_other_slots(rt.alloc(), length) == Ok(true), "{length}");
    }
}

#[test]
fn equivocations_of_long_slots_are_answered(rt: HostRuntime) {
    for length in (0..=300).chain([400, 5_000, 70_000]) {
        for case in &CASES {
            let right = is_right(rt.alloc(), (length, length), case);
            assert!(rt; right == Ok(true), "{length} {}", case.2);
        }
    }
}
