//! Bimaps: what is built and refused, look-ups from both sides, texts, and what is written and
//! read.
use crate::TryFromIterator;
use crate::bench::rows::map_pairs::{borrows, gives};
use crate::bench::rows::sets::UNSORTED;
use crate::bench::{are_equal, is_debugged_as, is_shown_as, is_written_as, read, refuses};
use crate::codec::{self, RangeCfg, round_trip};
use crate::ordered::{BiMap, Error, Map, Set, bimap_fault_law};
use std::alloc::Global;
use std::process::Abort;

pub(in crate::bench) const REPEATED: codec::Error = codec::Error::Invalid(
    "BiMap",
    "duplicate value detected during deserialization",
);

/// Pairs, and what refuses them; equal keys come before equal values.
const LISTS: [([(u8, char); 3], Option<Error>); 3] = [
    ([(1, 'a'), (2, 'b'), (3, 'a')], Some(Error::DuplicateValue)),
    ([(1, 'a'), (1, 'b'), (2, 'a')], Some(Error::DuplicateKey)),
    ([(3, 'c'), (1, 'a'), (2, 'b')], None),
];

/// Inputs that are no bimap of bytes.
static NO_BIMAPS: [(&[u8], codec::Error); 4] = [
    (b"\x02\x01\x02\x02\x0a\x0a", REPEATED),
    (b"\x03\x01\x02\x03\x03\x0a\x14\x0a", REPEATED),
    (b"\x02\x02\x01\x02\x0a\x0a", UNSORTED),
    (b"\x02\x01\x02\x02\x0a", codec::Error::EndOfBuffer),
];

/// The places, keys and values of {1: a, 2: b, 3: c}.
static PLACES: [(usize, u8, char); 3] = [(0, 1, 'a'), (1, 2, 'b'), (2, 3, 'c')];

/// Values, and their keys in {1: a, 2: b, 3: c}.
static KEYS: [(char, Option<&u8>); 4] = [
    ('a', Some(&1)),
    ('b', Some(&2)),
    ('c', Some(&3)),
    ('d', None),
];

/// Pairs, and the text of their bimap.
static TEXTS: [(&[(u8, u8)], &str); 2] = [(&[(2, 10), (1, 20)], "[(1, 20), (2, 10)]"), (&[], "[]")];

/// The pairs of bimaps that differ from {1: 10, 2: 20}.
static OTHERS: [[(u8, u8); 2]; 3] = [[(1, 10), (2, 21)], [(1, 10), (3, 20)], [(1, 20), (2, 10)]];

/// {1: a, 2: b, 3: c}
fn letters(rt: &impl Abort, alloc: Global) -> BiMap<u8, char, Global> {
    BiMap::try_from_array(alloc, [(2u8, 'b'), (3, 'c'), (1, 'a')]).expect(rt, "memory")
}

/// The bimap of these pairs.
fn bimap_of(rt: &impl Abort, alloc: Global, pairs: &[(u8, u8)]) -> BiMap<u8, u8, Global> {
    BiMap::try_from_slice(alloc, pairs).expect(rt, "memory")
}

/// Whether a builder has failed with this error, or with none.
fn fails_with(built: Result<BiMap<u8, char, Global>, Error>, refusal: &Option<Error>) -> bool {
    built.err() == *refusal
}

/// Whether every builder fails with this error, or with none.
fn all_fail_with(
    rt: &impl Abort,
    alloc: Global,
    pairs: [(u8, char); 3],
    refusal: &Option<Error>,
) -> bool {
    let list = Vec::from_slice(alloc, &pairs).expect(rt, "memory");
    fails_with(BiMap::try_from_vec(list), refusal)
        && fails_with(BiMap::try_from_iter(alloc, pairs), refusal)
        && fails_with(BiMap::try_from_slice(alloc, &pairs), refusal)
        && fails_with(BiMap::try_from_array(alloc, pairs), refusal)
        && fails_with(BiMap::try_from_array_ref(alloc, &pairs), refusal)
}

/// By every builder.
#[test]
fn test_bimap_duplicate_value_error(rt: HostRuntime) {
    for (pairs, refusal) in LISTS {
        assert!(rt; all_fail_with(&rt, rt.alloc(), pairs, &refusal));
    }
}

/// Whether the pair is at the place, by each look-up.
fn is_at(bimap: &BiMap<u8, char, Global>, place: usize, key: u8, value: char) -> bool {
    bimap.get_value(&key) == Some(&value)
        && bimap.get(place) == Some(&key)
        && bimap.value(place) == Some(&value)
        && bimap.position(&key) == Some(place)
}

/// Whether each pair is at its place.
fn has_places(bimap: &BiMap<u8, char, Global>) -> bool {
    for (place, key, value) in &PLACES {
        if !is_at(bimap, *place, *key, *value) {
            return false;
        }
    }
    true
}

/// Whether there are three letters, and none of 4.
fn has_letters(bimap: &BiMap<u8, char, Global>) -> bool {
    bimap.len() == 3
        && !bimap.is_empty()
        && bimap.get_value(&4) == None
        && bimap.values() == ['a', 'b', 'c'].as_slice()
}

#[test]
fn test_bimap_no_duplicate_values(rt: HostRuntime) {
    let bimap = letters(&rt, rt.alloc());
    assert!(rt; has_letters(&bimap) && has_places(&bimap));
}

/// Whether each value has its key, or none.
fn has_keys(bimap: &BiMap<u8, char, Global>) -> bool {
    for (value, key) in &KEYS {
        if bimap.get_key(value) != *key {
            return false;
        }
    }
    true
}

#[test]
fn test_bimap_get_key(rt: HostRuntime) {
    assert!(rt; has_keys(&letters(&rt, rt.alloc())));
}

/// The bimap of the map of these pairs, or what refuses it.
fn of_map(
    rt: &impl Abort,
    alloc: Global,
    pairs: [(u8, char); 3],
) -> Result<BiMap<u8, char, Global>, Error> {
    BiMap::try_from_map(Map::try_from_array(alloc, pairs).expect(rt, "memory"))
}

/// Whether there are three pairs, and `a` is the value of 1.
fn has_three(bimap: &BiMap<u8, char, Global>) -> bool {
    bimap.len() == 3 && bimap.get_value(&1) == Some(&'a')
}

/// Whether the map of no pairs is made the empty bimap.
fn is_none_made(rt: &impl Abort, alloc: Global) -> bool {
    let none: Map<u8, u8, _> = Map::empty(alloc);
    BiMap::try_from_map(none).expect(rt, "memory") == BiMap::empty(alloc)
}

#[test]
fn test_bimap_try_from_map(rt: HostRuntime) {
    let alloc = rt.alloc();
    let pairs = [(1, 'a'), (2, 'b'), (3, 'c')];
    assert!(rt; has_three(&of_map(&rt, alloc, pairs).expect(&rt, "memory")));
    assert!(rt; is_none_made(&rt, alloc));
}

#[test]
fn test_bimap_try_from_map_duplicate(rt: HostRuntime) {
    let refused = of_map(&rt, rt.alloc(), [(1, 'a'), (2, 'b'), (3, 'a')]);
    assert!(rt; refused.err() == Some(Error::DuplicateValue));
}

/// Whether the bimap of 1, 2 and 3 is seen as the set of its keys.
fn is_its_keys(bimap: &BiMap<u8, char, Global>) -> bool {
    let set: &Set<u8, Global> = bimap;
    let keys: &Set<u8, Global> = bimap.as_ref();
    set == keys && bimap.keys() == keys && bimap.iter().next_back() == Some(&3)
}

#[test]
fn bimaps_are_sets_of_keys(rt: HostRuntime) {
    assert!(rt; is_its_keys(&letters(&rt, rt.alloc())));
}

#[test]
fn bimaps_are_given_up_in_parts(rt: HostRuntime) {
    let keys = letters(&rt, rt.alloc()).into_keys();
    assert!(rt; keys.as_slice() == [1, 2, 3].as_slice());
    let pairs = letters(&rt, rt.alloc()).into_pairs().expect(&rt, "memory");
    assert!(rt; pairs.as_slice() == [(1, 'a'), (2, 'b'), (3, 'c')].as_slice());
}

/// From which end a pair of {1: 10, 2: 20, 3: 30} is taken, the pair, and how many are left.
static STEPS: [(bool, Option<(&u8, &u8)>, usize); 5] = [
    (false, Some((&1, &10)), 2),
    (true, Some((&3, &30)), 1),
    (true, Some((&2, &20)), 0),
    (false, None, 0),
    (true, None, 0),
];

/// The lines on bimaps; those on maps are with the pairs of maps.
#[test]
fn test_pair_iterators(rt: HostRuntime) {
    let bimap = bimap_of(&rt, rt.alloc(), &[(3, 30), (1, 10), (2, 20)]);
    assert!(rt;
        borrows(bimap.iter_pairs(), 3, &STEPS)
            && borrows((&bimap).into_iter(), 3, &[(true, Some((&3, &30)), 2)])
            && gives(bimap.into_iter(), 3, &[(true, Some((3, 30)), 2)])
    );
}

#[test]
fn bimaps_are_shown(rt: HostRuntime) {
    let alloc = rt.alloc();
    for (pairs, text) in &TEXTS {
        assert!(rt; is_shown_as(alloc, &bimap_of(&rt, alloc, pairs), text));
    }
    assert!(rt; is_debugged_as(alloc, &bimap_of(&rt, alloc, &[(1, 10)]), "BiMap([(1, 10)])"));
}

/// Whether the bimap is equal to a clone.
fn equals_clone(rt: &impl Abort, bimap: &BiMap<u8, u8, Global>) -> bool {
    are_equal(bimap, &bimap.clone().expect(rt, "memory"), true)
}

/// Whether the bimap is equal to none of the others.
fn equals_no_other(rt: &impl Abort, alloc: Global, bimap: &BiMap<u8, u8, Global>) -> bool {
    for other in &OTHERS {
        if !are_equal(bimap, &bimap_of(rt, alloc, other), false) {
            return false;
        }
    }
    true
}

#[test]
fn equal_bimaps_hash_alike(rt: HostRuntime) {
    let bimap = bimap_of(&rt, rt.alloc(), &[(2, 20), (1, 10)]);
    assert!(rt; equals_clone(&rt, &bimap) && equals_no_other(&rt, rt.alloc(), &bimap));
}

/// A list of the empty bimap and of {5: 6}.
fn listed(rt: &impl Abort, alloc: Global) -> Vec<BiMap<u8, u8, Global>> {
    let mut bimaps = Vec::new(alloc);
    for pairs in [[].as_slice(), &[(5, 6)]] {
        bimaps.push(bimap_of(rt, alloc, pairs)).expect(rt, "memory");
    }
    bimaps
}

#[test]
fn bimaps_are_written_as_maps_and_in_lists(rt: HostRuntime) {
    let alloc = rt.alloc();
    bimap_fault_law::<u8, u8, _>(alloc, RangeCfg::from(..), &(), &());
    let bytes = b"\x02\x01\x02\x02\x14\x0a";
    assert!(rt; is_written_as(alloc, &bimap_of(&rt, alloc, &[(2, 10), (1, 20)]), bytes));
    assert!(rt; is_written_as(alloc, &listed(&rt, alloc), b"\x02\x00\x00\x01\x05\x01\x06"));
}

/// Under any range, and under one that all of them keep.
#[test]
fn inputs_that_are_no_bimap_are_refused(rt: HostRuntime) {
    for range in [RangeCfg::from(..), RangeCfg::from(0..=10)] {
        assert!(rt; refuses::<BiMap<u8, u8, _>, _>(rt.alloc(), &(range, (), ()), &NO_BIMAPS));
    }
}

/// Whether the bytes aren't a bimap of at most ten keys, as a value is repeated.
fn is_repeated(alloc: Global, bytes: &[u8]) -> bool {
    let short = (RangeCfg::from(0..=10), (), ());
    refuses::<BiMap<u8, u8, _>, _>(alloc, &short, &[(bytes, REPEATED)])
}

/// A map that repeats a value is written, and its bytes are refused.
#[test]
fn test_bimap_decode_rejects_duplicate_values(rt: HostRuntime) {
    let alloc = rt.alloc();
    let map = Map::try_from_array(alloc, [(1u8, 10u8), (2, 20), (3, 10)]).expect(&rt, "memory");
    let bytes = b"\x03\x01\x02\x03\x03\x0a\x14\x0a";
    assert!(rt; is_written_as(alloc, &map, bytes) && is_repeated(alloc, bytes));
}

/// Whether the bimap is what was read, and two bytes are left.
fn is_back(
    answer: Result<(BiMap<u8, u8, Global>, usize), codec::Error>,
    bimap: &BiMap<u8, u8, Global>,
) -> bool {
    match answer {
        Ok((again, left)) => again == *bimap && left == 2,
        Err(_) => false,
    }
}

#[test]
fn bimaps_are_read_back(rt: HostRuntime) {
    let alloc = rt.alloc();
    let any = (RangeCfg::from(..), (), ());
    let bytes = b"\x02\x01\x02\x02\x14\x0a\xff";
    let (bimap, taken) = read::<BiMap<u8, u8, _>, _>(alloc, bytes, &any);
    let bimap = bimap.expect(&rt, "a value");
    assert!(rt; taken == 6 && bimap.get_key(&10) == Some(&2));
    assert!(rt; is_back(round_trip(alloc, &bimap, b"\xff\x00", &any), &bimap));
}
