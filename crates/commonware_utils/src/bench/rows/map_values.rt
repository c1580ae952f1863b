//! Maps of new values: every pair once in key order, first errors, results that borrow.
use crate::bench::rows::map_pairs::tens;
use crate::ordered::{Map, MapError, Set};
use std::alloc::Global;
use std::process::Abort;

/// Whether there are values, and they are these.
fn are_values<E: Drop>(answer: Result<Map<u8, u8, Global>, MapError<E>>, values: &[u8]) -> bool {
    match answer {
        Ok(map) => map.values() == values,
        Err(_) => false,
    }
}

/// Whether a counter that borrows the values of {1: 10, 2: 20, 3: 30} adds them up along the keys.
fn counts_along(rt: &impl Abort, map: &Map<u8, u8, Global>) -> bool {
    let mut counter = 0u8;
    let sums = map
        .map_values(|_, value| {
            counter = counter.wrapping_add(*value);
            counter
        })
        .expect(rt, "memory");
    sums.values() == [10, 30, 60].as_slice() && sums.keys() == map.keys() && counter == 60
}

/// The same of a counter that takes the values.
fn takes_along(rt: &impl Abort, map: Map<u8, u8, Global>) -> bool {
    let mut taken = 0u8;
    let sums = map
        .map_values_into(|_, value| {
            taken = taken.wrapping_add(value);
            taken
        })
        .expect(rt, "memory");
    sums.values() == [10, 30, 60].as_slice() && taken == 60
}

#[test]
fn a_counter_runs_along_the_keys(rt: HostRuntime) {
    let map = tens(&rt, rt.alloc());
    assert!(rt; counts_along(&rt, &map));
    assert!(rt; takes_along(&rt, map));
}

#[test]
fn a_counter_runs_along_the_keys_that_may_fail(rt: HostRuntime) {
    let map = tens(&rt, rt.alloc());
    let mut counter = 0u8;
    let sums: Result<_, MapError<u8>> = map.try_map_values(|_, value| {
        counter = counter.wrapping_add(*value);
        Ok(counter)
    });
    assert!(rt; are_values(sums, &[10, 30, 60]) && counter == 60);
    let mut taken = 0u8;
    let sums: Result<_, MapError<u8>> = map.try_map_values_into(|_, value| {
        taken = taken.wrapping_add(value);
        Ok(taken)
    });
    assert!(rt; are_values(sums, &[10, 30, 60]) && taken == 60);
}

#[test]
fn nothing_is_called_after_the_first_error(rt: HostRuntime) {
    let map = tens(&rt, rt.alloc());
    let mut called = 0u32;
    let failed = map.try_map_values(|key, value| {
        called = called.wrapping_mul(10).wrapping_add(u32::from(*key));
        if *key == 2 { Err(7u8) } else { Ok(*value) }
    });
    assert!(rt; failed.err() == Some(MapError::Closure(7)) && called == 12);
    let mut calls = 0u32;
    let failed: Result<Map<u8, u8, Global>, MapError<u8>> = map.try_map_values_into(|_, _| {
        calls = calls.wrapping_add(1);
        Err(5u8)
    });
    assert!(rt; failed.err() == Some(MapError::Closure(5)) && calls == 1);
}

/// {1: "one", 4: "four"}
fn texts(rt: &impl Abort, alloc: Global) -> Map<u8, &'static str, Global> {
    let keys = Set::from_iter_dedup(alloc, [4u8, 1]).expect(rt, "memory");
    let values = vec![in alloc; "one", "four"].expect(rt, "memory");
    Map::from_parts(keys, values).expect(rt, "uneven")
}

/// Whether the texts of {1: "one", 4: "four"} have their lengths beside the same keys.
fn has_lengths(rt: &impl Abort, map: &Map<u8, &'static str, Global>) -> bool {
    let lengths = map.map_values(|_, text| text.len()).expect(rt, "memory");
    lengths.keys() == map.keys() && lengths.values() == [3, 4].as_slice()
}

#[test]
fn texts_are_mapped_to_their_lengths(rt: HostRuntime) {
    assert!(rt; has_lengths(&rt, &texts(&rt, rt.alloc())));
}

/// A value that can't be cloned, compared or hashed.
#[derive(Drop)]
struct Value(u8);

/// A key that can't be cloned or hashed.
#[derive(PartialEq, Eq, PartialOrd, Ord, Drop)]
struct Key(u8);

/// {1: 10, 2: 20, 3: 30}, with values that can't be cloned.
fn valued(rt: &impl Abort, alloc: Global) -> Map<u8, Value, Global> {
    let keys = Set::from_iter_dedup(alloc, [3u8, 1, 2]).expect(rt, "memory");
    let values = vec![in alloc; Value(10), Value(20), Value(30)].expect(rt, "memory");
    Map::from_parts(keys, values).expect(rt, "uneven")
}

/// What is borrowed of {1: 10, 2: 20, 3: 30}.
static BORROWED: [(&u8, &u8); 3] = [(&1, &10), (&2, &20), (&3, &30)];

/// Whether values that borrow are beside these keys.
fn are_borrowed(mapped: Map<u8, (&u8, &u8), Global>, keys: &Set<u8, Global>) -> bool {
    mapped.keys() == keys && mapped.values() == BORROWED.as_slice()
}

/// Whether values that borrow are beside the keys that they were beside.
fn borrows_values(rt: &impl Abort, map: &Map<u8, Value, Global>) -> bool {
    let mapped = map.map_values(|key, value| (key, &value.0));
    are_borrowed(mapped.expect(rt, "memory"), map.keys())
}

/// The same where the closure may fail.
fn tries_to_borrow_values(rt: &impl Abort, map: &Map<u8, Value, Global>) -> bool {
    let tried: Result<_, MapError<()>> = map.try_map_values(|key, value| Ok((key, &value.0)));
    are_borrowed(tried.expect(rt, "memory"), map.keys())
}

#[test]
fn test_map_values_borrowed(rt: HostRuntime) {
    let map = valued(&rt, rt.alloc());
    assert!(rt;
        borrows_values(&rt, &map)
            && tries_to_borrow_values(&rt, &map)
            && matches!(map.get_value(&2), Some(Value(20)))
    );
}

/// {1: 10, 2: 20, 3: 30}, with keys and values that can't be cloned.
fn owned(rt: &impl Abort, alloc: Global) -> Map<Key, Value, Global> {
    let keys = Set::from_iter_dedup(alloc, [Key(3), Key(1), Key(2)]).expect(rt, "memory");
    let values = vec![in alloc; Value(10), Value(20), Value(30)].expect(rt, "memory");
    Map::from_parts(keys, values).expect(rt, "uneven")
}

/// Whether the keys are 1, 2 and 3, and the values 11, 22 and 33.
fn are_sums(map: &Map<Key, u8, Global>) -> bool {
    map.keys().as_slice() == [Key(1), Key(2), Key(3)].as_slice()
        && map.values() == [11, 22, 33].as_slice()
}

/// Whether each key of {1: 10, 2: 20, 3: 30} is visited once, in order, and added to its value, by
/// a closure that could fail or one that can't.
fn reuses_keys(rt: &impl Abort, map: Map<Key, Value, Global>, fallible: bool) -> bool {
    let mut visited = 0u32;
    let mut transform = |key: &Key, value: Value| {
        visited = visited.wrapping_mul(10).wrapping_add(u32::from(key.0));
        key.0.wrapping_add(value.0)
    };
    let mapped = if fallible {
        let tried: Result<_, MapError<()>> = map.try_map_values_into(|key, value| Ok(transform(
            key, value,
        )));
        tried.ok()
    } else {
        map.map_values_into(transform).ok()
    };
    visited == 123 && are_sums(&mapped.expect(rt, "memory"))
}

#[test]
fn test_map_values_into_reuses_keys(rt: HostRuntime) {
    for fallible in [false, true] {
        assert!(rt; reuses_keys(&rt, owned(&rt, rt.alloc()), fallible));
    }
}

#[test]
fn test_map_values_empty(rt: HostRuntime) {
    let alloc = rt.alloc();
    let map: Map<u8, u8, Global> = Map::empty(alloc);
    let mut called = false;
    let mapped = map.map_values(|_, _| called = true).expect(&rt, "memory");
    assert!(rt; mapped.is_empty());
    let tried: Result<_, MapError<u8>> = map.try_map_values(|_, _| {
        called = true;
        Ok(0)
    });
    assert!(rt; are_values(tried, &[]));
    let again: Map<u8, u8, Global> = Map::empty(alloc);
    assert!(rt;
        again
            .map_values_into(|_, _| called = true)
            .expect(&rt, "memory")
            .is_empty()
    );
    let tried: Result<_, MapError<u8>> = map.try_map_values_into(|_, _| {
        called = true;
        Ok(0)
    });
    assert!(rt; are_values(tried, &[]) && !called);
}

#[test]
fn test_try_map_values_error(rt: HostRuntime) {
    for (failed_key, expected) in [(1u8, 1u32), (2, 12), (3, 123)] {
        let map = tens(&rt, rt.alloc());
        let mut visited = 0u32;
        let mut transform = |key: &u8| {
            visited = visited.wrapping_mul(10).wrapping_add(u32::from(*key));
            if *key == failed_key {
                Err(*key)
            } else {
                Ok(Value(*key))
            }
        };
        let borrowed = map.try_map_values(|key, _| transform(key));
        assert!(rt; borrowed.err() == Some(MapError::Closure(failed_key)) && visited == expected);
        let mut visited = 0u32;
        let mut transform = |key: &u8| {
            visited = visited.wrapping_mul(10).wrapping_add(u32::from(*key));
            if *key == failed_key {
                Err(*key)
            } else {
                Ok(Value(*key))
            }
        };
        let taken = map.try_map_values_into(|key, _| transform(key));
        assert!(rt; taken.err() == Some(MapError::Closure(failed_key)) && visited == expected);
    }
}
