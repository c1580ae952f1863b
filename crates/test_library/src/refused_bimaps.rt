//! The builders of bimaps and their pairs with each allocation failing in turn, and the calls that
//! allocate nothing.
use crate::builders::outcome_of_error;
use commonware_utils::ordered::{BiMap, Error, Map};
use commonware_utils::{TryCollect, TryFromIterator};
use std::alloc::Global;
use test_equipment::Refusing;
use test_equipment::walk::{Heap, Outcome, Refusable, full, makes_requests, refused};

/// A builder of bimaps.
#[derive(Clone, Copy)]
enum Builder {
    Iterator,
    Collect,
    List,
    Map,
    Slice,
    Array,
    ArrayRef,
}

static BUILDERS: [Builder; 7] = [
    Builder::Iterator,
    Builder::Collect,
    Builder::List,
    Builder::Map,
    Builder::Slice,
    Builder::Array,
    Builder::ArrayRef,
];

/// Pairs, and the values by the order of the keys, or the repeat.
static PAIRS: [([(u8, u8); 4], Result<&[u8], Error>); 3] = [
    ([(5, 1), (1, 3), (3, 4), (9, 2)], Ok(&[3, 4, 1, 2])),
    ([(5, 1), (1, 3), (3, 4), (9, 1)], Err(Error::DuplicateValue)),
    ([(5, 1), (1, 3), (5, 4), (9, 1)], Err(Error::DuplicateKey)),
];

/// What the builder returns for the pairs.
fn build<H: Heap>(
    builder: Builder,
    heap: H,
    pairs: &[(u8, u8); 4],
) -> Result<BiMap<u8, u8, H>, Error> {
    match builder {
        Builder::Iterator => BiMap::try_from_iter(heap, *pairs),
        Builder::Collect => TryCollect::try_collect(pairs.iter().copied(), heap),
        Builder::List => of_list(heap, pairs),
        Builder::Map => of_map(heap, pairs),
        Builder::Slice => BiMap::try_from_slice(heap, pairs),
        Builder::Array => BiMap::try_from_array(heap, *pairs),
        Builder::ArrayRef => BiMap::try_from_array_ref(heap, pairs),
    }
}

/// The bimap of a list of the pairs.
fn of_list<H: Heap>(heap: H, pairs: &[(u8, u8)]) -> Result<Numbers<H>, Error> {
    BiMap::try_from_vec(Vec::from_slice(heap, pairs)?)
}

/// The bimap of a map of the pairs.
fn of_map<H: Heap>(heap: H, pairs: &[(u8, u8)]) -> Result<Numbers<H>, Error> {
    BiMap::try_from_map(Map::try_from_slice(heap, pairs)?)
}

/// A builder at some pairs, and what it has to return.
#[derive(Drop)]
struct Building<'a> {
    builder: Builder,
    pairs: &'a [(u8, u8); 4],
    answer: &'a Result<&'a [u8], Error>,
}

impl<'b> Refusable for Building<'b> {
    fn outcome<H: Heap>(&self, heap: H, granted: u64) -> Outcome {
        heap.restart(granted);
        match build(self.builder, heap, self.pairs) {
            Ok(bimap) => full(matches!(self.answer, Ok(values) if bimap.values() == *values)),
            Err(error) => outcome_of_error(error, self.answer.as_ref().err()),
        }
    }
}

type Numbers<H> = BiMap<u8, u8, H>;

/// {1: 30, 2: 20, 3: 10}
fn three<H: Heap>(heap: H) -> Result<Numbers<H>, Error> {
    BiMap::try_from_iter(heap, [(3u8, 10u8), (1, 30), (2, 20)])
}

/// The pairs of a bimap, moved out of it.
struct IntoPairs;

impl Refusable for IntoPairs {
    fn outcome<H: Heap>(&self, heap: H, granted: u64) -> Outcome {
        let Ok(bimap) = three(heap) else {
            return Outcome::Wrong;
        };
        heap.restart(granted);
        match bimap.into_pairs() {
            Ok(pairs) => full(pairs.as_slice() == [(1, 30), (2, 20), (3, 10)].as_slice()),
            Err(_) => refused(true),
        }
    }
}

/// A map made a bimap, for which its values are looked up in a hash set.
struct FromMap;

impl Refusable for FromMap {
    fn outcome<H: Heap>(&self, heap: H, granted: u64) -> Outcome {
        let Ok(map) = Map::try_from_iter(heap, [(1u8, 10u8), (2, 20), (3, 30)]) else {
            return Outcome::Wrong;
        };
        heap.restart(granted);
        outcome_of_map(map)
    }
}

/// The outcome of the map {1: 10, 2: 20, 3: 30} made a bimap.
fn outcome_of_map<H: Heap>(map: Map<u8, u8, H>) -> Outcome {
    match BiMap::try_from_map(map) {
        Ok(bimap) => full(bimap.values() == [10, 20, 30].as_slice()),
        Err(error) => refused(error == Error::Memory),
    }
}

/// Whether the builder returns what it has to for all the pairs.
fn is_right(alloc: Global, builder: Builder) -> bool {
    for (pairs, answer) in &PAIRS {
        let call = Building {
            builder,
            pairs,
            answer,
        };
        if !makes_requests(alloc, &call, 1) {
            return false;
        }
    }
    true
}

#[test]
fn each_request_is_refused_in_turn(rt: HostRuntime) {
    for (at, builder) in BUILDERS.iter().enumerate() {
        assert!(rt; is_right(rt.alloc(), *builder), "{at}");
    }
    assert!(rt;
        makes_requests(rt.alloc(), &IntoPairs, 1) && makes_requests(rt.alloc(), &FromMap, 1)
    );
}

/// Whether the map is refused by an allocation failure when it is made a bimap.
fn is_refused<H: Heap>(map: Map<u8, u8, H>) -> bool {
    BiMap::try_from_map(map).err() == Some(Error::Memory)
}

/// The map is there; the set in which its values are looked up is refused.
#[test]
fn a_map_is_no_bimap_without_memory(rt: HostRuntime) {
    let heap = Refusing::all_after(rt.alloc(), u64::MAX);
    let map = Map::try_from_iter(&heap, [(1u8, 10u8), (2, 20)]).expect(&rt, "memory");
    heap.restart(0);
    assert!(rt; is_refused(map) && heap.has_refused());
}

/// Whether {1: 30, 2: 20, 3: 10} is looked up.
fn is_looked_up<H: Heap>(bimap: &Numbers<H>) -> bool {
    bimap.get_key(&10) == Some(&3)
        && bimap.get_value(&3) == Some(&10)
        && bimap.position(&3) == Some(2)
        && bimap.value(0) == Some(&30)
        && bimap.iter_pairs().next_back() == Some((&3, &10))
}

/// Whether one {1: 30, 2: 20, 3: 10} is looked up and equals another.
fn are_looked_up<H: Heap>(bimap: &Numbers<H>, other: &Numbers<H>) -> bool {
    is_looked_up(bimap) && *bimap == *other
}

/// Whether the keys of one {1: 30, 2: 20, 3: 10} and the first pair of another are consumed.
fn are_given_up<H: Heap>(bimap: Numbers<H>, other: Numbers<H>) -> bool {
    let first = other.into_iter().next();
    bimap.into_keys().as_slice() == [1, 2, 3].as_slice() && first == Some((1, 30))
}

#[test]
fn bimaps_are_looked_up_and_given_up_without_memory(rt: HostRuntime) {
    let heap = Refusing::all_after(rt.alloc(), u64::MAX);
    let bimap = three(&heap).expect(&rt, "memory");
    let other = three(&heap).expect(&rt, "memory");
    heap.restart(0);
    assert!(rt; are_looked_up(&bimap, &other));
    assert!(rt; are_given_up(bimap, other) && !heap.has_refused());
}

/// Whether a bimap of no pairs is empty, and the same as one of a map of none.
fn is_empty<H: Heap>(heap: H) -> Result<bool, Error> {
    let none: Numbers<H> = BiMap::empty(heap);
    let from_none = BiMap::try_from_map(Map::empty(heap))?;
    Ok(none.is_empty() && from_none == none)
}

#[test]
fn a_map_without_pairs_is_a_bimap_without_memory(rt: HostRuntime) {
    let heap = Refusing::all_after(rt.alloc(), 0);
    assert!(rt; is_empty(&heap) == Ok(true) && !heap.has_refused());
}
