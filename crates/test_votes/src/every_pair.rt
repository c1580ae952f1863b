//! All pairs of lists of five members under all thresholds, against sets of bits.
use crate::made::{are, at, signers};
use committee_votes::{OverlapError, VoteAt, double_signers, overlap};
use std::alloc::{AllocError, Global};
use std::process::Abort;

/// Returns the members of a set of bits.
fn indices_of(alloc: Global, bits: u32) -> Result<Vec<u32>, AllocError> {
    let mut indices = Vec::new(alloc);
    for index in 0..5u32 {
        if (bits >> index) & 1 == 1 {
            indices.push(index)?;
        }
    }
    Ok(indices)
}

/// Whether the answers about two lists of members are right under all thresholds.
fn are_right(
    alloc: Global,
    votes: (VoteAt<'_>, VoteAt<'_>),
    first: u32,
    second: u32,
) -> Result<bool, AllocError> {
    let one = signers(alloc, &indices_of(alloc, first)?)?;
    let two = signers(alloc, &indices_of(alloc, second)?)?;
    let shared = first & second;
    let both = indices_of(alloc, shared)?;
    let named = double_signers(alloc, 5, votes.0, &one, votes.1, &two);
    if !matches!(&named, Ok(named) if are(named, &both)) {
        return Ok(false);
    }
    for a in 0..7u8 {
        for b in 0..7u8 {
            let (p, q) = (a as usize, b as usize);
            let right = first.count_ones() as usize >= p && second.count_ones() as usize >= q;
            let answer = overlap(alloc, 5, p, votes.0, &one, q, votes.1, &two);
            let is_right = match &answer {
                Ok(named) => right && are(named, &both) && is_law(shared, a, b),
                Err(error) => !right && *error == OverlapError::TooFew,
            };
            if !is_right {
                return Ok(false);
            }
        }
    }
    Ok(true)
}

/// Whether lists of at least a and at least b of 5 members share enough, and leave one outside any
/// f, where a + b is more than 5 + f.
fn is_law(shared: u32, a: u8, b: u8) -> bool {
    let sum = a as usize + b as usize;
    if (shared.count_ones() as usize) + 5 < sum {
        return false;
    }
    for faulty in 0..32u32 {
        if 5 + (faulty.count_ones() as usize) < sum && shared & !faulty == 0 {
            return false;
        }
    }
    true
}

/// Whether the answers about all pairs of lists are right.
fn all_are_right(alloc: Global) -> Result<bool, AllocError> {
    let one = at((b"d", b"s", b"A"));
    let two = at((b"d", b"s", b"B"));
    for first in 0..32u32 {
        for second in 0..32u32 {
            if !are_right(alloc, (one, two), first, second)? {
                return Ok(false);
            }
        }
    }
    Ok(true)
}

#[test]
fn every_pair_of_lists(rt: HostRuntime) {
    assert!(rt; all_are_right(rt.alloc()) == Ok(true));
}
