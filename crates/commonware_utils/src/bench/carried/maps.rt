//! Maps: look-ups, edits, texts, and what is written and read.
use crate::Participant;
use crate::bench::rows::sets::UNSORTED;
use crate::bench::{
    are_equal, is_debugged_as, is_read_as, is_shown_as, is_written_as, read, refuses,
};
use crate::codec::{Error, RangeCfg, round_trip};
use crate::ordered::{Map, Set, map_fault_law};
use std::alloc::Global;
use std::process::Abort;

/// Keys, and their places and values in {1: 10, 5: 50, 9: 90}.
static PLACES: [(u8, Option<usize>, Option<&u8>); 4] = [
    (1, Some(0), Some(&10)),
    (5, Some(1), Some(&50)),
    (9, Some(2), Some(&90)),
    (4, None, None),
];

/// Pairs, and the bytes of their map.
static BYTES: [(&[(u8, u8)], &[u8]); 3] = [
    (&[(2, 20), (1, 10)], b"\x02\x01\x02\x02\x0a\x14"),
    (
        &[(4, 40), (1, 10), (3, 30), (2, 20)],
        b"\x04\x01\x02\x03\x04\x04\x0a\x14\x1e\x28",
    ),
    (&[], b"\x00\x00"),
];

/// Pairs, and the text of their map.
static TEXTS: [(&[(u8, u8)], &str); 2] = [(&[(2, 20), (1, 10)], "[(1, 10), (2, 20)]"), (&[], "[]")];

/// The pairs of maps that differ from {1: 10, 2: 20}.
static OTHERS: [[(u8, u8); 2]; 2] = [[(1, 10), (2, 21)], [(1, 10), (3, 20)]];

/// Inputs that are no map of bytes.
static NO_MAPS: [(&[u8], Error); 5] = [
    (b"\x02\x01\x02\x01\x0a", Error::InvalidLength(1)),
    (b"\x02\x01\x02\x02\x0a", Error::EndOfBuffer),
    (b"\x02\x02\x01", UNSORTED),
    (b"\x01\x05\x82\x00", Error::InvalidVarint),
    (
        b"\x01\x05\xff\xff\xff\xff\x0f",
        Error::InvalidLength(4294967295),
    ),
];

/// The map of these pairs.
fn map_of(rt: &impl Abort, alloc: Global, pairs: &[(u8, u8)]) -> Map<u8, u8, Global> {
    Map::try_from_slice(alloc, pairs).expect(rt, "memory")
}

/// Whether the map has these keys and values.
fn holds(map: &Map<u8, u8, Global>, keys: &[u8], values: &[u8]) -> bool {
    map.keys().as_slice() == keys && map.values() == values
}

/// Whether each key is found at its place and with its value, or isn't.
fn has_places(map: &Map<u8, u8, Global>, rows: &[(u8, Option<usize>, Option<&u8>)]) -> bool {
    for (key, place, value) in rows {
        if map.position(key) != *place || map.get_value(key) != *value {
            return false;
        }
    }
    true
}

/// Whether the pair is at the place, and none after it.
fn ends_with_pair(map: &Map<u8, u8, Global>, place: usize, key: u8, value: u8) -> bool {
    map.get(place) == Some(&key)
        && map.value(place) == Some(&value)
        && map.get(place.wrapping_add(1)) == None
        && map.value(place.wrapping_add(1)) == None
}

#[test]
fn keys_are_found(rt: HostRuntime) {
    let map = map_of(&rt, rt.alloc(), &[(9, 90), (1, 10), (5, 50)]);
    assert!(rt; has_places(&map, &PLACES) && ends_with_pair(&map, 2, 9, 90));
}

/// The sum of the items.
fn sum(set: &Set<u8, Global>) -> u32 {
    let mut sum = 0u32;
    for item in set {
        sum = sum.wrapping_add(u32::from(*item));
    }
    sum
}

/// Whether the map of 1 and 2 is seen as the set of its keys.
fn is_its_keys(map: &Map<u8, u8, Global>) -> bool {
    let keys: &Set<u8, Global> = map.as_ref();
    sum(map) == 3 && keys.as_slice() == [1, 2].as_slice() && map.iter().rev().eq([2, 1].iter())
}

#[test]
fn test_map_deref_to_set(rt: HostRuntime) {
    assert!(rt; is_its_keys(&map_of(&rt, rt.alloc(), &[(2, 20), (1, 10)])));
}

#[test]
fn test_map_into_keys(rt: HostRuntime) {
    let map = map_of(&rt, rt.alloc(), &[(3, 30), (1, 10), (2, 20)]);
    assert!(rt; map.into_keys().as_slice() == [1, 2, 3].as_slice());
}

#[test]
fn test_map_allows_duplicate_values(rt: HostRuntime) {
    let map = map_of(&rt, rt.alloc(), &[(3, 7), (1, 7), (2, 8)]);
    assert!(rt; map.len() == 3 && map.get_value(&1) == Some(&7) && map.get_value(&3) == Some(&7));
}

#[test]
fn pairs_are_given_in_order(rt: HostRuntime) {
    let pairs = map_of(&rt, rt.alloc(), &[(3, 7), (1, 9), (2, 8)])
        .into_pairs()
        .expect(&rt, "memory");
    assert!(rt; pairs.as_slice() == [(1, 9), (2, 8), (3, 7)].as_slice());
}

#[test]
fn pairs_past_a_length_go(rt: HostRuntime) {
    let mut map = map_of(&rt, rt.alloc(), &[(1, 10), (2, 20)]);
    for len in [1, 9] {
        map.truncate(len);
        assert!(rt; holds(&map, &[1], &[10]));
    }
}

#[test]
fn the_value_of_a_key_is_written(rt: HostRuntime) {
    let mut map = map_of(&rt, rt.alloc(), &[(1, 10), (2, 20)]);
    if let Some(value) = map.get_value_mut(&2) {
        *value = 7;
    }
    assert!(rt; map.get_value_mut(&3) == None && holds(&map, &[1, 2], &[10, 7]));
}

#[test]
fn test_values_mut(rt: HostRuntime) {
    let mut map = map_of(&rt, rt.alloc(), &[(1, 10), (2, 20)]);
    for value in map.values_mut() {
        *value = value.saturating_add(1);
    }
    assert!(rt; map.values() == [11, 21].as_slice());
}

#[test]
fn maps_are_shown(rt: HostRuntime) {
    let alloc = rt.alloc();
    for (pairs, text) in &TEXTS {
        assert!(rt; is_shown_as(alloc, &map_of(&rt, alloc, pairs), text));
    }
    assert!(rt; is_debugged_as(alloc, &map_of(&rt, alloc, &[(1, 10)]), "Map([(1, 10)])"));
}

#[test]
fn equal_maps_hash_alike(rt: HostRuntime) {
    let map = map_of(&rt, rt.alloc(), &[(2, 20), (1, 10)]);
    assert!(rt; are_equal(&map, &map.clone().expect(&rt, "memory"), true));
    for other in &OTHERS {
        assert!(rt; are_equal(&map, &map_of(&rt, rt.alloc(), other), false));
    }
}

/// Whether each map is written as its bytes.
fn are_written(rt: &impl Abort, alloc: Global) -> bool {
    for (pairs, bytes) in &BYTES {
        if !is_written_as(alloc, &map_of(rt, alloc, pairs), bytes) {
            return false;
        }
    }
    true
}

/// A list of the empty map and of {5: 6}.
fn listed(rt: &impl Abort, alloc: Global) -> Vec<Map<u8, u8, Global>> {
    let mut maps = Vec::new(alloc);
    for pairs in [[].as_slice(), &[(5, 6)]] {
        maps.push(map_of(rt, alloc, pairs)).expect(rt, "memory");
    }
    maps
}

#[test]
fn maps_are_written_as_two_lists_and_in_lists(rt: HostRuntime) {
    let alloc = rt.alloc();
    map_fault_law::<u8, u8, _>(alloc, RangeCfg::from(..), &(), &());
    assert!(rt; are_written(&rt, alloc));
    assert!(rt; is_written_as(alloc, &listed(&rt, alloc), b"\x02\x00\x00\x01\x05\x01\x06"));
}

#[test]
fn values_may_be_sets(rt: HostRuntime) {
    let alloc = rt.alloc();
    let seven = Set::try_from_array(alloc, [7u8]).expect(&rt, "memory");
    let sets = Map::from_iter_dedup(alloc, [(2u8, seven), (1, Set::empty(alloc))]).expect(
        &rt, "memory",
    );
    assert!(rt; is_written_as(alloc, &sets, b"\x02\x01\x02\x02\x00\x01\x07"));
}

#[test]
fn inputs_that_are_no_map_are_refused(rt: HostRuntime) {
    let any = (RangeCfg::from(..), (), ());
    assert!(rt; refuses::<Map<u8, u8, _>, _>(rt.alloc(), &any, &NO_MAPS));
}

/// Whether the input isn't a map of at most ten keys, as they aren't in order.
fn is_unsorted(alloc: Global, text: &[u8]) -> bool {
    let short = (RangeCfg::from(0..=10), (), ());
    refuses::<Map<u8, u8, _>, _>(alloc, &short, &[(text, UNSORTED)])
}

#[test]
fn test_map_decode_rejects_duplicate_keys(rt: HostRuntime) {
    assert!(rt; is_unsorted(rt.alloc(), b"\x04\x01\x02\x02\x03\x04\x0a\x14\x1e\x28"));
}

#[test]
fn test_map_decode_rejects_unsorted_keys(rt: HostRuntime) {
    assert!(rt; is_unsorted(rt.alloc(), b"\x04\x01\x03\x02\x04\x04\x0a\x14\x1e\x28"));
}

/// With a byte that follows the map, and is left.
#[test]
fn test_map_decode_accepts_valid(rt: HostRuntime) {
    let short = (RangeCfg::from(0..=10), (), ());
    let text = b"\x04\x01\x02\x03\x04\x04\x0a\x14\x1e\x28\xff";
    let map = map_of(&rt, rt.alloc(), &[(1, 10), (2, 20), (3, 30), (4, 40)]);
    assert!(rt;
        holds(&map, &[1, 2, 3, 4], &[10, 20, 30, 40])
            && is_read_as(rt.alloc(), text, &short, &map, 10)
    );
}

#[test]
fn what_is_written_is_read(rt: HostRuntime) {
    let alloc = rt.alloc();
    let any = (RangeCfg::from(..), (), ());
    let bytes = b"\x03\x01\x02\x09\x03\x0a\x14\x14";
    let (map, taken) = read::<Map<u8, u8, _>, _>(alloc, bytes, &any);
    let map = map.expect(&rt, "a value");
    let (again, left) = round_trip(alloc, &map, b"\xff", &any).expect(&rt, "a value");
    assert!(rt; again == map && left == 1 && taken == 8);
}

#[test]
fn sizes_are_bounded(rt: HostRuntime) {
    assert!(rt;
        Map::<u32, Participant, Global>::max_encode_size(10, 8) == 122
            && Map::<u8, u8, Global>::max_encode_size(0, 8) == 2
    );
}
