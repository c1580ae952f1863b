//! Sets and maps of items in many orders: of equal ones the first stays, or equal ones are refused.
use crate::TryFromIterator;
use crate::bench::items::labelled::{Labelled, item};
use crate::ordered::{Error, Map, Set};
use std::alloc::{AllocError, Global};
use std::process::Abort;

/// Numbers, which are labelled by the letters in turn, and what stays of them, in order.
type Row = (&'static [u8], &'static [(u8, char)]);

const LETTERS: &str = "abcdefghi";

/// None, one, and numbers that increase, decrease, or are equal to the one before.
static STRAIGHT: [Row; 7] = [
    (&[], &[]),
    (&[7], &[(7, 'a')]),
    (&[1, 3, 5, 9], &[(1, 'a'), (3, 'b'), (5, 'c'), (9, 'd')]),
    (&[4, 4, 4, 4], &[(4, 'a')]),
    (
        &[2, 4, 4, 6, 6, 6, 8],
        &[(2, 'a'), (4, 'b'), (6, 'd'), (8, 'g')],
    ),
    (&[9, 5, 3, 1], &[(1, 'd'), (3, 'c'), (5, 'b'), (9, 'a')]),
    (
        &[9, 5, 5, 3, 9, 1],
        &[(1, 'f'), (3, 'd'), (5, 'b'), (9, 'a')],
    ),
];

/// Numbers that increase, a lesser one that is new, and others: all new, or equal to one before,
/// early or late.
static BROKEN: [Row; 9] = [
    (
        &[2, 4, 6, 3, 7, 9],
        &[(2, 'a'), (3, 'd'), (4, 'b'), (6, 'c'), (7, 'e'), (9, 'f')],
    ),
    (
        &[2, 4, 6, 1, 8],
        &[(1, 'd'), (2, 'a'), (4, 'b'), (6, 'c'), (8, 'e')],
    ),
    (
        &[2, 4, 4, 3, 4, 5],
        &[(2, 'a'), (3, 'd'), (4, 'b'), (5, 'f')],
    ),
    (
        &[2, 4, 6, 3, 6, 8],
        &[(2, 'a'), (3, 'd'), (4, 'b'), (6, 'c'), (8, 'f')],
    ),
    (
        &[2, 4, 6, 3, 2, 8],
        &[(2, 'a'), (3, 'd'), (4, 'b'), (6, 'c'), (8, 'f')],
    ),
    (
        &[2, 4, 6, 3, 4, 8],
        &[(2, 'a'), (3, 'd'), (4, 'b'), (6, 'c'), (8, 'f')],
    ),
    (
        &[2, 4, 6, 3, 3, 8],
        &[(2, 'a'), (3, 'd'), (4, 'b'), (6, 'c'), (8, 'f')],
    ),
    (
        &[2, 4, 6, 3, 8, 3],
        &[(2, 'a'), (3, 'd'), (4, 'b'), (6, 'c'), (8, 'e')],
    ),
    (
        &[2, 4, 6, 3, 8, 8, 7],
        &[(2, 'a'), (3, 'd'), (4, 'b'), (6, 'c'), (7, 'g'), (8, 'e')],
    ),
];

/// Numbers that increase and a lesser one that came before, and two rows that increase, one after
/// the other.
static AGAIN: [Row; 5] = [
    (&[2, 1, 2], &[(1, 'b'), (2, 'a')]),
    (&[2, 4, 6, 2, 8], &[(2, 'a'), (4, 'b'), (6, 'c'), (8, 'e')]),
    (&[2, 4, 6, 4, 5], &[(2, 'a'), (4, 'b'), (5, 'e'), (6, 'c')]),
    (
        &[1, 3, 5, 2, 4, 6],
        &[(1, 'a'), (2, 'd'), (3, 'b'), (4, 'e'), (5, 'c'), (6, 'f')],
    ),
    (
        &[1, 3, 4, 5, 2, 3, 5, 6],
        &[(1, 'a'), (2, 'e'), (3, 'b'), (4, 'c'), (5, 'd'), (6, 'h')],
    ),
];

/// Whether these items, in this order, are the set's.
fn is_set(set: &Set<Labelled, Global>, kept: &[(u8, char)]) -> bool {
    for (item, (number, label)) in set.as_slice().iter().zip(kept) {
        if item.number != *number || item.label != *label {
            return false;
        }
    }
    set.len() == kept.len()
}

/// Whether these pairs, in this order, are the map's.
fn is_map(map: &Map<u8, char, Global>, kept: &[(u8, char)]) -> bool {
    for ((key, value), (number, label)) in map.iter_pairs().zip(kept) {
        if *key != *number || *value != *label {
            return false;
        }
    }
    map.len() == kept.len()
}

/// Whether the items of the set are the numbers from 0 up to this one, which is left out.
fn counts_to(set: &Set<u32, Global>, end: u32) -> bool {
    set.iter().copied().eq(0..end)
}

/// The items of these numbers and labels.
fn labelled(alloc: Global, pairs: &[(u8, char)]) -> Result<Vec<Labelled>, AllocError> {
    let mut items = Vec::new(alloc);
    for (number, label) in pairs {
        items.push(item(*number, *label))?;
    }
    Ok(items)
}

/// Whether of equal items the first one stays, or, where none may be equal, they are refused.
fn makes_set(rt: &impl Abort, alloc: Global, items: &[Labelled], kept: &[(u8, char)]) -> bool {
    let set = Set::from_iter_dedup(alloc, items.iter().copied());
    if !is_set(&set.expect(rt, "memory"), kept) {
        return false;
    }
    match Set::try_from_iter(alloc, items.iter().copied()) {
        Ok(whole) => items.len() == kept.len() && is_set(&whole, kept),
        Err(error) => error == Error::DuplicateKey && items.len() > kept.len(),
    }
}

/// The same of pairs by their keys.
fn makes_map(rt: &impl Abort, alloc: Global, pairs: &[(u8, char)], kept: &[(u8, char)]) -> bool {
    let map = Map::from_iter_dedup(alloc, pairs.iter().copied());
    if !is_map(&map.expect(rt, "memory"), kept) {
        return false;
    }
    match Map::try_from_iter(alloc, pairs.iter().copied()) {
        Ok(whole) => pairs.len() == kept.len() && is_map(&whole, kept),
        Err(error) => error == Error::DuplicateKey && pairs.len() > kept.len(),
    }
}

/// Whether a set and a map are made of the pairs as is said.
fn makes_both(rt: &impl Abort, alloc: Global, pairs: &[(u8, char)], kept: &[(u8, char)]) -> bool {
    let items = labelled(alloc, pairs).expect(rt, "memory");
    makes_set(rt, alloc, &items, kept) && makes_map(rt, alloc, pairs, kept)
}

/// Whether a set and a map are made of the row as it says.
fn is_built(rt: &impl Abort, alloc: Global, row: &Row) -> bool {
    let (numbers, kept) = *row;
    let pairs: Vec<(u8, char)> = numbers
        .iter()
        .copied()
        .zip(LETTERS.chars())
        .collect(alloc)
        .expect(rt, "memory");
    makes_both(rt, alloc, &pairs, kept)
}

#[test]
fn rows_are_built_or_refused(rt: HostRuntime) {
    for (at, row) in STRAIGHT.iter().chain(&BROKEN).chain(&AGAIN).enumerate() {
        assert!(rt; is_built(&rt, rt.alloc(), row), "{at}");
    }
}

/// The numbers below 1000 in another order, and then once more. 7919 has no divisor in common with
/// 1000, so each comes once in each half.
fn mixed_twice(alloc: Global) -> Result<Vec<u32>, AllocError> {
    let mut numbers = Vec::new(alloc);
    for i in 0..2000u32 {
        numbers.push(i.wrapping_mul(7919) % 1000)?;
    }
    Ok(numbers)
}

/// The numbers below 1000 from the greatest on, and then once more.
fn falling_twice(alloc: Global) -> Result<Vec<u32>, AllocError> {
    (0..1000u32).rev().chain((0..1000).rev()).collect(alloc)
}

/// Whether numbers that are those below 1000 in an order, and then once more in the same, are put
/// in order: equal ones are left out, or refused where none may be equal.
fn are_put_in_order(alloc: Global, numbers: &[u32]) -> Result<bool, Error> {
    let (half, _) = numbers.split_at(numbers.len() / 2);
    let set = Set::from_iter_dedup(alloc, numbers.iter().copied())?;
    let whole = Set::try_from_iter(alloc, half.iter().copied())?;
    let repeated = Set::try_from_iter(alloc, numbers.iter().copied());
    Ok(
        counts_to(&set, 1000)
            && counts_to(&whole, 1000)
            && repeated.err() == Some(Error::DuplicateKey),
    )
}

#[test]
fn many_items_are_put_in_order(rt: HostRuntime) {
    for numbers in [falling_twice(rt.alloc()), mixed_twice(rt.alloc())] {
        let numbers = numbers.expect(&rt, "memory");
        assert!(rt; are_put_in_order(rt.alloc(), &numbers) == Ok(true));
    }
}

/// Whether each value of the map is half of its key.
fn are_halves(map: &Map<u32, u32, Global>) -> bool {
    for (key, value) in map {
        if *value != *key / 2 {
            return false;
        }
    }
    true
}

#[test]
fn many_mixed_pairs_are_put_in_order(rt: HostRuntime) {
    let mut pairs = Vec::new(rt.alloc());
    for i in 0..1000u32 {
        let key = i.wrapping_mul(7919) % 1000;
        pairs.push((key, key / 2)).expect(&rt, "memory");
    }
    let map = Map::try_from_iter(rt.alloc(), pairs).expect(&rt, "memory");
    assert!(rt; counts_to(&map, 1000) && are_halves(&map));
}

/// The numbers below this one as labels of their last digits.
fn labels_of_digits(alloc: Global, end: u8) -> Result<Vec<(u8, char)>, AllocError> {
    let mut pairs = Vec::new(alloc);
    for i in 0..end {
        pairs.push((i % 10, char::from(i)))?;
    }
    Ok(pairs)
}

/// The first labels of the ten digits are the numbers below ten.
#[test]
fn the_first_label_of_a_number_stays(rt: HostRuntime) {
    let pairs = labels_of_digits(rt.alloc(), 100).expect(&rt, "memory");
    let kept = labels_of_digits(rt.alloc(), 10).expect(&rt, "memory");
    assert!(rt; makes_both(&rt, rt.alloc(), &pairs, &kept));
}

/// The first numbers with each of the ten last digits are those below ten.
#[test]
fn the_first_value_of_a_key_stays(rt: HostRuntime) {
    let pairs = (0..100u8).map(|number| (number % 10, number));
    let map = Map::from_iter_dedup(rt.alloc(), pairs).expect(&rt, "memory");
    assert!(rt; map.keys().iter().copied().eq(0..10) && map.values().iter().copied().eq(0..10));
}

/// The numbers below 300 with one label, and then with another.
fn two_rows(alloc: Global) -> Result<Vec<(u32, char)>, AllocError> {
    let mut pairs = Vec::new(alloc);
    for label in ['a', 'b'] {
        for number in 0..300u32 {
            pairs.push((number, label))?;
        }
    }
    Ok(pairs)
}

/// Whether the number is even, or, with the second label, a multiple of three.
fn is_multiple(pair: &(u32, char)) -> bool {
    if pair.1 == 'a' {
        pair.0 % 2 == 0
    } else {
        pair.0 % 3 == 0
    }
}

/// Whether each key is in one of the two rows, and has the label of the first that has it.
fn are_first_labels(map: &Map<u32, char, Global>) -> bool {
    for (key, label) in map {
        let expected = if *key % 2 == 0 { 'a' } else { 'b' };
        if *key >= 300 || (*key % 2 != 0 && *key % 3 != 0) || *label != expected {
            return false;
        }
    }
    true
}

/// Of the numbers below 300, 150 are even, and 50 of the others are multiples of three. How many
/// come isn't told before.
#[test]
fn two_long_rows_become_one(rt: HostRuntime) {
    let rows = two_rows(rt.alloc()).expect(&rt, "memory");
    let multiples = rows.into_iter().filter(is_multiple);
    let map = Map::from_iter_dedup(rt.alloc(), multiples).expect(&rt, "memory");
    assert!(rt; map.len() == 200 && are_first_labels(&map));
}
