//! Maps of many pairs: what is built, and what is refused.
use crate::TryFromIterator;
use crate::ordered::{Error, Map, Set};
use std::alloc::Global;
use std::process::Abort;

/// Keys and their values.
type Parts = (&'static [u8], &'static [char]);

/// Pairs, and the parts of their map, or none where a key is repeated.
static LISTS: [(&[(u8, char)], Option<Parts>); 4] = [
    (
        &[(3, 'c'), (1, 'a'), (2, 'b')],
        Some((&[1, 2, 3], &['a', 'b', 'c'])),
    ),
    (&[(2, 'a'), (1, 'b'), (2, 'c')], None),
    (&[(3, 'c'), (1, 'a'), (2, 'b'), (1, 'd')], None),
    (&[], Some((&[], &[]))),
];

/// A value with no order, no clones, no `==` and no hash.
#[derive(Drop)]
struct Opaque(u8);

/// Whether the result is the map of these parts, or, for `None`, that two keys are equal.
fn answers(answer: Result<Map<u8, char, Global>, Error>, parts: Option<(&[u8], &[char])>) -> bool {
    match (answer, parts) {
        (Ok(map), Some((keys, values))) => map.as_slice() == keys && map.values() == values,
        (Err(Error::DuplicateKey), None) => true,
        _ => false,
    }
}

/// Whether the keys are 1, 2 and 3.
fn has_three_keys(map: &Map<u8, &'static str, Global>) -> bool {
    map.len() == 3 && !map.is_empty() && map.as_slice() == [1, 2, 3].as_slice()
}

/// Whether `a` is the value of 1, `b` that at place 1, and there is none of 4, nor at place 3.
fn has_letters(map: &Map<u8, &'static str, Global>) -> bool {
    map.get_value(&1) == Some(&"a")
        && map.get_value(&4) == None
        && map.value(1) == Some(&"b")
        && map.value(3) == None
}

#[test]
fn test_map_from_iter_dedup(rt: HostRuntime) {
    let items = [(3u8, "c"), (1, "a"), (2, "b"), (1, "duplicate")];
    let map = Map::from_iter_dedup(rt.alloc(), items).expect(&rt, "memory");
    assert!(rt; has_three_keys(&map) && has_letters(&map));
}

/// Whether there is a value, and it holds this byte.
fn is_opaque(found: Option<&Opaque>, byte: u8) -> bool {
    match found {
        Some(value) => value.0 == byte,
        None => false,
    }
}

#[test]
fn values_need_no_bound(rt: HostRuntime) {
    let alloc = rt.alloc();
    let map = Map::from_iter_dedup(
        alloc,
        [(2u8, Opaque(20)), (1, Opaque(10)), (2, Opaque(30))],
    ).expect(&rt, "memory");
    assert!(rt; is_opaque(map.get_value(&2), 20));
    let whole = Map::try_from_iter(alloc, [(2u8, Opaque(20)), (1, Opaque(10))]).expect(
        &rt, "memory",
    );
    assert!(rt; is_opaque(whole.value(0), 10));
}

/// By each builder of a list.
#[test]
fn test_map_try_from(rt: HostRuntime) {
    let alloc = rt.alloc();
    for (pairs, parts) in &LISTS {
        let whole = Vec::from_slice(alloc, pairs).expect(&rt, "memory");
        assert!(rt;
            answers(Map::try_from_vec(whole), *parts)
                && answers(Map::try_from_iter(alloc, pairs.iter().copied()), *parts)
                && answers(Map::try_from_slice(alloc, pairs), *parts)
        );
    }
}

#[test]
fn test_map_try_from_duplicate(rt: HostRuntime) {
    let pairs = vec![in rt.alloc(); (3u8, 'c'), (1, 'a'), (2, 'b'), (1, 'd')].expect(&rt, "memory");
    assert!(rt; answers(Map::try_from_vec(pairs), None));
}

#[test]
fn test_map_try_from_iter_duplicate(rt: HostRuntime) {
    let pairs = vec![in rt.alloc(); (3u8, 'c'), (1, 'a'), (2, 'b'), (1, 'd')].expect(&rt, "memory");
    assert!(rt; answers(Map::try_from_iter(rt.alloc(), pairs), None));
}

/// Whether an array, and a reference to it, give the map of these parts.
fn arrays_make<const N: usize>(
    alloc: Global,
    pairs: [(u8, char); N],
    parts: Option<(&[u8], &[char])>,
) -> bool {
    answers(Map::try_from_array_ref(alloc, &pairs), parts)
        && answers(Map::try_from_array(alloc, pairs), parts)
}

#[test]
fn arrays_are_cloned_into_maps(rt: HostRuntime) {
    let (pairs, repeated) = (
        [(3, 'c'), (1, 'a'), (2, 'b')],
        [(2, 'a'), (1, 'b'), (2, 'c')],
    );
    assert!(rt;
        arrays_make(rt.alloc(), pairs, Some((&[1, 2, 3], &['a', 'b', 'c'])))
            && arrays_make(rt.alloc(), repeated, None)
            && arrays_make(rt.alloc(), [], Some((&[], &[])))
    );
}

#[test]
fn the_empty_map_holds_nothing(rt: HostRuntime) {
    let empty: Map<u8, char, _> = Map::empty(rt.alloc());
    assert!(rt; empty.is_empty() && empty.len() == 0 && empty.values().is_empty());
}

/// Whether the keys of the map are those of the pairs, in their order.
fn are_keys_of(map: &Map<u8, char, Global>, pairs: &[(u8, char)]) -> bool {
    for (key, pair) in map.as_slice().iter().zip(pairs) {
        if *key != pair.0 {
            return false;
        }
    }
    map.len() == pairs.len()
}

#[test]
fn test_map_from_set(rt: HostRuntime) {
    let alloc = rt.alloc();
    let pairs = [(3u8, 'a'), (1, 'b'), (2, 'c')];
    let first = Set::try_from_iter(alloc, pairs).expect(&rt, "memory");
    let wrapped = Map::try_from_iter(
        alloc,
        Set::try_from_iter(alloc, pairs).expect(&rt, "memory"),
    )
    .expect(&rt, "memory");
    assert!(rt; are_keys_of(&wrapped, first.as_slice()));
}

/// The set of 1, 2 and 3, from an array that has them in another order.
fn three_keys(rt: &impl Abort, alloc: Global) -> Set<u8, Global> {
    Set::try_from_array(alloc, [3u8, 1, 2]).expect(rt, "memory")
}

/// The map of 1, 2 and 3 with numbers as values.
fn of_tens(rt: &impl Abort, alloc: Global) -> Map<u8, u8, Global> {
    let values = vec![in alloc; 30u8, 10, 10].expect(rt, "memory");
    Map::from_parts(three_keys(rt, alloc), values).expect(rt, "uneven")
}

/// The map of 1, 2 and 3 with words as values.
fn of_words(rt: &impl Abort, alloc: Global) -> Map<u8, &'static str, Global> {
    let words = vec![in alloc; "one", "two", "three"].expect(rt, "memory");
    Map::from_parts(three_keys(rt, alloc), words).expect(rt, "uneven")
}

/// Whether there is a word, and it is this one.
fn is_word(found: Option<&&'static str>, word: &str) -> bool {
    match found {
        Some(text) => *text == word,
        None => false,
    }
}

/// Whether the map has these keys and values.
fn holds(map: &Map<u8, u8, Global>, keys: &[u8], values: &[u8]) -> bool {
    map.as_slice() == keys && map.values() == values
}

/// The contents that the test of the Rust crate `test_map_from_parts_reuses_allocations` compares.
#[test]
fn map_from_parts(rt: HostRuntime) {
    let alloc = rt.alloc();
    assert!(rt; holds(&of_tens(&rt, alloc), &[1, 2, 3], &[30, 10, 10]));
    assert!(rt; is_word(of_words(&rt, alloc).get_value(&2), "two"));
}

/// Whether there is a map of so many keys and values, or none where the numbers differ.
fn is_even(map: Option<Map<usize, usize, Global>>, keys_len: usize, values_len: usize) -> bool {
    match &map {
        Some(map) => {
            keys_len == values_len && map.len() == keys_len && map.values().len() == values_len
        }
        None => keys_len != values_len,
    }
}

/// With two values beside the lengths that the test of the Rust crate takes.
#[test]
fn test_map_from_parts_lengths(rt: HostRuntime) {
    let alloc = rt.alloc();
    for keys_len in [0usize, 1, 3] {
        for values_len in [0usize, 1, 2, 3] {
            let keys = Set::try_from_iter(alloc, 0..keys_len).expect(&rt, "memory");
            let values: Vec<usize> = (0..values_len).collect(alloc).expect(&rt, "memory");
            assert!(rt; is_even(Map::from_parts(keys, values), keys_len, values_len));
        }
    }
}
