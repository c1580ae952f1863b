//! Builders and `conflict` at each small number of items, and at inputs that are longer than every
//! buffer and every first room of the library, in an order that is neither increasing nor
//! decreasing: with ample memory they succeed.
use crate::conflicts::conflict_of;
use committee_certificates::Certificate;
use commonware_utils::faults::N3f1;
use commonware_utils::ordered::{BiMap, Error, Map, Set};
use commonware_utils::{Participant, TryFromIterator};
use std::alloc::{AllocError, Global};
use std::ops::Range;

/// How many items there are: more than 65,536.
pub(super) const COUNT: u32 = 70_000;

/// The greatest of the numbers of entries that are tried one by one, from 0 on.
pub(super) const EACH: u32 = 300;

/// The number at a position of `count`: 27,449 is prime and no divisor of `count`, so each number
/// below `count` is at one position.
fn number(position: u32, count: u32) -> u32 {
    (u64::from(position) * 27_449 % u64::from(count.max(1))) as u32
}

/// The numbers below `count` in a mixed order, each with its position.
pub(super) fn pairs(alloc: Global, count: u32) -> Result<Vec<(u32, u32)>, AllocError> {
    let mut pairs = Vec::new(alloc);
    for position in 0..count {
        pairs.push((number(position, count), position))?;
    }
    Ok(pairs)
}

/// Whether these are the numbers below `count`, in order.
pub(super) fn are_all(keys: &[u32], count: u32) -> bool {
    keys.iter().copied().eq(0..count)
}

/// Whether these are the numbers below `count`, and each is at the position that is its value.
pub(super) fn are_at(keys: &[u32], values: &[u32], count: u32) -> bool {
    for (key, position) in keys.iter().zip(values) {
        if number(*position, count) != *key {
            return false;
        }
    }
    are_all(keys, count) && keys.len() == values.len()
}

fn is_whole_set(alloc: Global, pairs: &[(u32, u32)], count: u32) -> Result<bool, Error> {
    let set = Set::try_from_iter(alloc, pairs.iter().map(|pair| pair.0))?;
    let kept = Set::from_iter_dedup(alloc, pairs.iter().chain(pairs).map(|pair| pair.0))?;
    Ok(are_all(set.as_slice(), count) && are_all(kept.as_slice(), count))
}

fn is_whole_map(alloc: Global, pairs: &[(u32, u32)], count: u32) -> Result<bool, Error> {
    let map = Map::try_from_iter(alloc, pairs.iter().copied())?;
    Ok(are_at(map.keys().as_slice(), map.values(), count))
}

fn is_whole_bimap(alloc: Global, pairs: &[(u32, u32)], count: u32) -> Result<bool, Error> {
    let bimap = BiMap::try_from_iter(alloc, pairs.iter().copied())?;
    Ok(are_at(bimap.keys().as_slice(), bimap.values(), count))
}

#[test]
fn mixed_items_are_taken(rt: HostRuntime) {
    let alloc = rt.alloc();
    for count in (0..=EACH).chain([5_000, COUNT]) {
        let pairs = pairs(alloc, count).expect(&rt, "memory");
        assert!(rt; is_whole_set(alloc, &pairs, count) == Ok(true), "{count}");
        assert!(rt; is_whole_map(alloc, &pairs, count) == Ok(true), "{count}");
        assert!(rt; is_whole_bimap(alloc, &pairs, count) == Ok(true), "{count}");
    }
}

/// A certificate of a value of one byte that the members in a range of indices signed.
fn signed(
    alloc: Global,
    value: u8,
    signers: Range<u32>,
) -> Result<Certificate<Global>, AllocError> {
    Ok(Certificate {
        value: Vec::from_slice(alloc, &[value])?,
        signers: Set::from_iter_dedup(alloc, signers.map(Participant::new))?,
    })
}

/// Whether members 30,000 to 69,999 of 100,000 are named where the first 70,000 signed one value
/// and the last 70,000 another. 66,667 are a quorum.
fn are_named(
    alloc: Global,
    committee: &Set<u32, Global>,
    first: &Certificate<Global>,
    second: &Certificate<Global>,
) -> bool {
    match conflict_of::<N3f1, _>(alloc, committee, first, second) {
        Some(Ok(both)) => both.iter().map(|signer| signer.get()).eq(30_000..COUNT),
        _ => false,
    }
}

#[test]
fn many_signers_of_both_are_named(rt: HostRuntime) {
    let alloc = rt.alloc();
    let committee = Set::from_iter_dedup(alloc, 0..100_000u32).expect(&rt, "memory");
    let first = signed(alloc, 1, 0..COUNT).expect(&rt, "memory");
    let second = signed(alloc, 2, 30_000..100_000).expect(&rt, "memory");
    assert!(rt; are_named(alloc, &committee, &first, &second));
}
