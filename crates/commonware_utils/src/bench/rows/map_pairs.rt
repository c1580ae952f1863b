//! Iterators over the pairs of maps: both ends, the number left, and what is written through them.
use crate::ordered::{Map, MapIntoIter, Pairs, PairsMut, Set};
use std::alloc::Global;
use std::process::Abort;

/// {1: 10, 2: 20, 3: 30}
pub(in crate::bench) fn tens(rt: &impl Abort, alloc: Global) -> Map<u8, u8, Global> {
    let keys = Set::from_iter_dedup(alloc, [3u8, 1, 2]).expect(rt, "memory");
    let values = vec![in alloc; 10, 20, 30].expect(rt, "memory");
    Map::from_parts(keys, values).expect(rt, "uneven")
}

/// Whether there are `count` pairs at first, and each step, from the back where that is said, gives
/// the pair beside it and leaves this many.
pub(in crate::bench) fn borrows(
    mut pairs: Pairs<'_, u8, u8>,
    count: usize,
    steps: &[(bool, Option<(&u8, &u8)>, usize)],
) -> bool {
    if pairs.len() != count || pairs.size_hint() != (count, Some(count)) {
        return false;
    }
    for (from_back, expected, left) in steps {
        let pair = if *from_back {
            pairs.next_back()
        } else {
            pairs.next()
        };
        if pair != *expected || pairs.len() != *left || pairs.size_hint() != (*left, Some(*left)) {
            return false;
        }
    }
    true
}

/// The same of pairs by value.
pub(in crate::bench) fn gives(
    mut pairs: MapIntoIter<u8, u8, Global>,
    count: usize,
    steps: &[(bool, Option<(u8, u8)>, usize)],
) -> bool {
    if pairs.len() != count || pairs.size_hint() != (count, Some(count)) {
        return false;
    }
    for (from_back, expected, left) in steps {
        let pair = if *from_back {
            pairs.next_back()
        } else {
            pairs.next()
        };
        if pair != *expected || pairs.len() != *left || pairs.size_hint() != (*left, Some(*left)) {
            return false;
        }
    }
    true
}

/// Steps over {1: 10, 2: 20}: whether from the back, the pair that comes, and how many are left.
static GIVEN: [(bool, Option<(u8, u8)>, usize); 5] = [
    (true, Some((2, 20)), 1),
    (false, Some((1, 10)), 0),
    (false, None, 0),
    (true, None, 0),
    (false, None, 0),
];

#[test]
fn pairs_are_given_from_both_ends(rt: HostRuntime) {
    let two = Map::try_from_array(rt.alloc(), [(1u8, 10u8), (2, 20)]).expect(&rt, "memory");
    assert!(rt; gives(two.into_iter(), 2, &GIVEN));
    let three = tens(&rt, rt.alloc());
    assert!(rt; gives(three.into_iter(), 3, &[(false, Some((1, 10)), 2)]));
}

/// Two digits more for a pair: its key and its value, added up.
fn with_pair(digits: u32, key: u8, value: u8) -> u32 {
    digits
        .wrapping_mul(100)
        .wrapping_add(u32::from(key))
        .wrapping_add(u32::from(value))
}

/// The digits of the pairs that a loop borrows.
fn walked(map: &Map<u8, u8, Global>) -> u32 {
    let mut digits = 0;
    for (key, value) in map {
        digits = with_pair(digits, *key, *value);
    }
    digits
}

/// The digits of the pairs that a loop is given.
fn taken(map: Map<u8, u8, Global>) -> u32 {
    let mut digits = 0;
    for (key, value) in map {
        digits = with_pair(digits, key, value);
    }
    digits
}

/// Adds the key to the value, and returns both as they were.
fn add_key(pair: Option<(&u8, &mut u8)>) -> Option<(u8, u8)> {
    let (key, value) = pair?;
    let previous = *value;
    *value = previous.wrapping_add(*key);
    Some((*key, previous))
}

/// Whether the keys of {1: 10, 2: 20, 3: 30} are added to the values, from both ends.
fn adds_keys(map: &mut Map<u8, u8, Global>) -> bool {
    let mut pairs = map.iter_pairs_mut();
    pairs.len() == 3
        && add_key(pairs.next()) == Some((1, 10))
        && pairs.len() == 2
        && add_key(pairs.next_back()) == Some((3, 30))
        && pairs.len() == 1
        && add_key(pairs.next_back()) == Some((2, 20))
        && pairs.len() == 0
        && pairs.next().is_none()
        && pairs.next_back().is_none()
}

/// Steps over {1: 10, 2: 20, 3: 30}: whether from the back, the pair that comes, and how many are
/// left.
static BORROWED: [(bool, Option<(&u8, &u8)>, usize); 7] = [
    (false, Some((&1, &10)), 2),
    (true, Some((&3, &30)), 1),
    (true, Some((&2, &20)), 0),
    (false, None, 0),
    (true, None, 0),
    (false, None, 0),
    (true, None, 0),
];

/// The lines on maps; those on bimaps are with the bimaps.
#[test]
fn test_pair_iterators(rt: HostRuntime) {
    let mut map = tens(&rt, rt.alloc());
    assert!(rt;
        borrows(map.iter_pairs(), 3, &BORROWED)
            && adds_keys(&mut map)
            && map.values() == [11, 22, 33].as_slice()
    );
}

#[test]
fn the_number_left_is_returned(rt: HostRuntime) {
    let mut map = tens(&rt, rt.alloc());
    let mut lent = map.iter_pairs_mut();
    let _ = lent.next();
    assert!(rt; lent.len() == 2 && lent.size_hint() == (2, Some(2)));
}

/// Adds each key to its value, in a loop.
fn add_keys(map: &mut Map<u8, u8, Global>) {
    for (key, value) in map.iter_pairs_mut() {
        *value = value.wrapping_add(*key);
    }
}

#[test]
fn loops_walk_the_pairs_write_the_values_and_take_both(rt: HostRuntime) {
    let mut map = tens(&rt, rt.alloc());
    assert!(rt; walked(&map) == 112_233);
    add_keys(&mut map);
    assert!(rt;
        map.values() == [11, 22, 33].as_slice()
            && map.keys().as_slice() == [1, 2, 3].as_slice()
            && taken(map) == 122_436
    );
}
