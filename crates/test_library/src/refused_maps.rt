//! The builders of maps and their pairs with each allocation failing in turn, and the calls that
//! allocate nothing.
use crate::builders::{BUILDERS, Builder, outcome_of_error};
use commonware_utils::codec::EncodeSize;
use commonware_utils::ordered::{Error, Map, Set};
use commonware_utils::{TryCollect, TryFromIterator};
use std::alloc::{AllocError, Global};
use test_equipment::Refusing;
use test_equipment::walk::{Heap, Outcome, Refusable, full, makes_requests, refused};

type Numbers<H> = Map<u32, u8, H>;

/// Pairs of different keys.
static PAIRS: [(u32, u8); 4] = [(5, 50), (1, 10), (9, 90), (3, 30)];

/// Pairs of which two have the key 5.
static REPEAT: [(u32, u8); 4] = [(5, 50), (1, 10), (5, 90), (3, 30)];

/// What the builder returns for the pairs.
pub(super) fn build<H: Heap, const N: usize>(
    builder: Builder,
    heap: H,
    pairs: &[(u32, u8); N],
) -> Result<Map<u32, u8, H>, Error> {
    match builder {
        Builder::Dedup => Map::from_iter_dedup(heap, pairs.iter().copied()).map_err(Error::from),
        Builder::Iterator => Map::try_from_iter(heap, pairs.iter().copied()),
        Builder::Collect => TryCollect::try_collect(pairs.iter().copied(), heap),
        Builder::List => of_list(heap, pairs),
        Builder::Slice => Map::try_from_slice(heap, pairs),
        Builder::Array => Map::try_from_array(heap, *pairs),
        Builder::ArrayRef => Map::try_from_array_ref(heap, pairs),
    }
}

/// The map of a list of the pairs.
fn of_list<H: Heap>(heap: H, pairs: &[(u32, u8)]) -> Result<Numbers<H>, Error> {
    Map::try_from_vec(Vec::from_slice(heap, pairs)?)
}

/// The keys and the values of a map, or the repeat.
type Answer = Result<(&'static [u32], &'static [u8]), Error>;

/// A builder at some pairs, and the keys and values of the map that it has to return.
#[derive(Drop)]
struct Building {
    builder: Builder,
    pairs: &'static [(u32, u8); 4],
    answer: Answer,
}

impl Building {
    /// Whether the map has the keys and values that it has to have.
    fn is_answered<H: Heap>(&self, map: &Numbers<H>) -> bool {
        match &self.answer {
            Ok((keys, values)) => map.keys().as_slice() == *keys && map.values() == *values,
            Err(_) => false,
        }
    }
}

impl Refusable for Building {
    fn outcome<H: Heap>(&self, heap: H, granted: u64) -> Outcome {
        heap.restart(granted);
        match build(self.builder, heap, self.pairs) {
            Ok(map) => full(self.is_answered(&map)),
            Err(error) => outcome_of_error(error, self.answer.as_ref().err()),
        }
    }

    fn may_do_without(&self) -> bool {
        matches!(self.builder, Builder::Dedup)
    }
}

/// The pairs of a map, moved out of it.
struct IntoPairs;

impl Refusable for IntoPairs {
    fn outcome<H: Heap>(&self, heap: H, granted: u64) -> Outcome {
        let Ok(map) = Map::try_from_slice(heap, &PAIRS) else {
            return Outcome::Wrong;
        };
        heap.restart(granted);
        match map.into_pairs() {
            Ok(pairs) => full(pairs.as_slice() == [(1, 10), (3, 30), (5, 50), (9, 90)].as_slice()),
            Err(_) => refused(true),
        }
    }
}

/// What the builder has to return where two pairs have the key 5.
fn answer_of_repeat(builder: Builder) -> Answer {
    match builder {
        Builder::Dedup => Ok((&[1, 3, 5], &[10, 30, 50])),
        _ => Err(Error::DuplicateKey),
    }
}

#[test]
fn each_request_is_refused_in_turn(rt: HostRuntime) {
    for (at, builder) in BUILDERS.iter().enumerate() {
        let four = Building {
            builder: *builder,
            pairs: &PAIRS,
            answer: Ok((&[1, 3, 5, 9], &[10, 30, 50, 90])),
        };
        assert!(rt; makes_requests(rt.alloc(), &four, 3), "{at}");
        let repeat = Building {
            builder: *builder,
            pairs: &REPEAT,
            answer: answer_of_repeat(*builder),
        };
        assert!(rt; makes_requests(rt.alloc(), &repeat, 1), "{at}");
    }
    assert!(rt; makes_requests(rt.alloc(), &IntoPairs, 1));
}

/// Whether the map of the pairs is looked up.
fn is_looked_up<H: Heap>(map: &Numbers<H>) -> bool {
    map.len() == 4
        && !map.is_empty()
        && map.is_writable()
        && (map.get(2), map.value(3), map.position(&3)) == (Some(&5), Some(&90), Some(1))
        && map.keys().as_slice() == [1, 3, 5, 9].as_slice()
        && map.iter().next() == Some(&1)
        && map.iter_pairs().next_back() == Some((&9, &90))
}

/// Halves the values, writes 31 for 3, doubles the values and takes the last pair away.
fn change<H: Heap>(map: &mut Numbers<H>) {
    for value in map.values_mut() {
        *value /= 2;
    }
    if let Some(value) = map.get_value_mut(&3) {
        *value = 31;
    }
    for (_, value) in map.iter_pairs_mut() {
        *value = value.saturating_mul(2);
    }
    map.truncate(3);
}

/// Whether the map of the pairs is changed.
fn is_changed<H: Heap>(map: &Numbers<H>) -> bool {
    map.values() == [10, 62, 50].as_slice() && map.get_value(&3) == Some(&62)
}

#[test]
fn maps_are_looked_up_and_changed_without_memory(rt: HostRuntime) {
    let heap = Refusing::all_after(rt.alloc(), u64::MAX);
    let mut map = Map::try_from_slice(&heap, &PAIRS).expect(&rt, "memory");
    heap.restart(0);
    let looked_up = is_looked_up(&map);
    change(&mut map);
    let changed = is_changed(&map);
    let keys = map.into_keys();
    let right = looked_up && changed && keys.as_slice() == [1, 3, 5].as_slice();
    assert!(rt; right && !heap.has_refused());
}

/// Keys and their values.
type Parts<H> = (Set<u32, H>, Vec<u8, H>);

/// The keys 1, 3, 5 and their values.
fn parts<H: Heap>(heap: H) -> Result<Parts<H>, AllocError> {
    let keys = Set::from_iter_dedup(heap, [1u32, 3, 5])?;
    Ok((keys, vec![in heap; 10u8, 31, 50]?))
}

/// Whether the parts make a map that is not this one, and ends with (5, 50).
fn make_another<H: Heap>(parts: Parts<H>, map: &Numbers<H>) -> Option<bool> {
    let made = Map::from_parts(parts.0, parts.1)?;
    let differs = made != *map;
    let last = made.into_iter().next_back();
    Some(differs && last == Some((5, 50)))
}

#[test]
fn maps_of_parts_take_no_memory(rt: HostRuntime) {
    let heap = Refusing::all_after(rt.alloc(), u64::MAX);
    let map = Map::try_from_slice(&heap, &PAIRS).expect(&rt, "memory");
    let parts = parts(&heap).expect(&rt, "memory");
    heap.restart(0);
    assert!(rt; make_another(parts, &map) == Some(true) && !heap.has_refused());
}

#[test]
fn a_map_of_nothing_takes_no_memory(rt: HostRuntime) {
    let heap = Refusing::all_after(rt.alloc(), 0);
    let none: Numbers<_> = Map::empty(&heap);
    let most = Numbers::<&Refusing<Global>>::max_encode_size(128, 1);
    assert!(rt; none.is_empty() && most == 644 && !heap.has_refused());
}
