//! Collections whose items take memory of their own, with each allocation failing in turn, so that
//! the refusal falls on an item too: what was borrowed is as it was.
use commonware_utils::ordered::{Error, Map, MapError, Set};
use commonware_utils::vec::{Bounded, NonEmptyVec};
use commonware_utils::{NZUsize, vec};
use std::alloc::AllocError;
use test_equipment::walk::{Heap, Outcome, Refusable, full, makes_requests, refused};

type Item<H> = Vec<u8, H>;

type Pair<H> = (Item<H>, Item<H>);

type List<H> = NonEmptyVec<Item<H>, H>;

/// The texts of three items, in no order.
static TEXTS: [&[u8]; 3] = [b"cc", b"a", b"bbb"];

/// The same in order.
static IN_ORDER: [&[u8]; 3] = [b"a", b"bbb", b"cc"];

/// An item of this text.
fn item<H: Heap>(heap: H, text: &[u8]) -> Result<Item<H>, AllocError> {
    Vec::from_slice(heap, text)
}

/// The items of the three texts.
fn items<H: Heap>(heap: H) -> Result<Vec<Item<H>, H>, AllocError> {
    let mut items = Vec::new(heap);
    for text in &TEXTS {
        items.push(item(heap, text)?)?;
    }
    Ok(items)
}

/// An item of this text, with a clone of itself.
fn pair<H: Heap>(heap: H, text: &[u8]) -> Result<Pair<H>, AllocError> {
    Ok((item(heap, text)?, item(heap, text)?))
}

/// The items of the three texts, each with a clone of itself.
fn pairs<H: Heap>(heap: H) -> Result<Vec<Pair<H>, H>, AllocError> {
    let mut pairs = Vec::new(heap);
    for text in &TEXTS {
        pairs.push(pair(heap, text)?)?;
    }
    Ok(pairs)
}

/// Whether the items have these texts.
fn are<H: Heap>(items: &[Item<H>], texts: &[&[u8]]) -> bool {
    for (item, text) in items.iter().zip(texts) {
        if item.as_slice() != *text {
            return false;
        }
    }
    items.len() == texts.len()
}

/// Whether the items of the pairs have these texts.
fn pairs_are<H: Heap>(pairs: &[Pair<H>], texts: &[&[u8]]) -> bool {
    for ((first, second), text) in pairs.iter().zip(texts) {
        if first.as_slice() != *text || second.as_slice() != *text {
            return false;
        }
    }
    pairs.len() == texts.len()
}

/// Whether the set has the texts in order.
fn is_in_order<H: Heap>(set: &Set<Item<H>, H>) -> bool {
    are(set.as_slice(), &IN_ORDER)
}

/// A call that clones the items of a slice.
#[derive(Clone, Copy)]
enum Build {
    Set,
    List,
}

/// What the call returns for the items, as whether it is right. `None` if it was refused by an
/// allocation failure.
fn built<H: Heap>(call: Build, heap: H, items: &[Item<H>]) -> Option<bool> {
    match call {
        Build::Set => set_is_right(Set::try_from_slice(heap, items)),
        Build::List => list_is_right(NonEmptyVec::try_from_slice(heap, items)),
    }
}

/// Whether the set is in order, if it is there.
fn set_is_right<H: Heap>(set: Result<Set<Item<H>, H>, Error>) -> Option<bool> {
    match set {
        Ok(set) => Some(is_in_order(&set)),
        Err(_) => None,
    }
}

/// Whether the list has the texts as they were given, if it is there.
fn list_is_right<H: Heap>(list: Result<List<H>, vec::Error>) -> Option<bool> {
    match list {
        Ok(list) => Some(are(list.as_slice(), &TEXTS)),
        Err(_) => None,
    }
}

impl Refusable for Build {
    fn outcome<H: Heap>(&self, heap: H, granted: u64) -> Outcome {
        let Ok(items) = items(heap) else {
            return Outcome::Wrong;
        };
        heap.restart(granted);
        let answer = built(*self, heap, items.as_slice());
        let unchanged = are(items.as_slice(), &TEXTS);
        match answer {
            Some(right) => full(right && unchanged),
            None => refused(unchanged),
        }
    }
}

type Items<H> = Map<Item<H>, Item<H>, H>;

/// Whether the keys and the values of the map have the texts in order.
fn map_is_in_order<H: Heap>(map: &Items<H>) -> bool {
    is_in_order(map.keys()) && are(map.values(), &IN_ORDER)
}

/// Whether the map is in order, if it is there.
fn map_is_right<H: Heap>(map: Result<Items<H>, Error>) -> Option<bool> {
    match map {
        Ok(map) => Some(map_is_in_order(&map)),
        Err(_) => None,
    }
}

/// The map of clones of the pairs of a slice.
struct BuildMap;

impl Refusable for BuildMap {
    fn outcome<H: Heap>(&self, heap: H, granted: u64) -> Outcome {
        let Ok(pairs) = pairs(heap) else {
            return Outcome::Wrong;
        };
        heap.restart(granted);
        let answer = map_is_right(Map::try_from_slice(heap, pairs.as_slice()));
        let unchanged = pairs_are(pairs.as_slice(), &TEXTS);
        match answer {
            Some(right) => full(right && unchanged),
            None => refused(unchanged),
        }
    }
}

/// A list of three items made one of five, by clones of another one.
struct Resize;

impl Refusable for Resize {
    fn outcome<H: Heap>(&self, heap: H, granted: u64) -> Outcome {
        let Some(mut list) = list(heap) else {
            return Outcome::Wrong;
        };
        let Ok(more) = item(heap, b"dd") else {
            return Outcome::Wrong;
        };
        heap.restart(granted);
        resized(&mut list, more)
    }
}

/// A list of the three items.
fn list<H: Heap>(heap: H) -> Option<List<H>> {
    NonEmptyVec::try_from(items(heap).ok()?).ok()
}

/// The texts of the list of five.
static RESIZED: [&[u8]; 5] = [b"cc", b"a", b"bbb", b"dd", b"dd"];

/// The outcome of the list of three items made one of five.
fn resized<H: Heap>(list: &mut List<H>, more: Item<H>) -> Outcome {
    match list.resize(NZUsize!(5), more) {
        Ok(()) => full(are(list.as_slice(), &RESIZED)),
        Err(_) => refused(are(list.as_slice(), &TEXTS)),
    }
}

/// A clone of a queue of three items.
struct QueueClone;

impl Refusable for QueueClone {
    fn outcome<H: Heap>(&self, heap: H, granted: u64) -> Outcome {
        let Some(queue) = queue(heap) else {
            return Outcome::Wrong;
        };
        let Ok(items) = items(heap) else {
            return Outcome::Wrong;
        };
        heap.restart(granted);
        let outcome = queue_cloned(&queue);
        if queue.iter().eq(items.iter()) {
            outcome
        } else {
            Outcome::Wrong
        }
    }
}

type Queue<H> = Bounded<Item<H>, H>;

/// A queue of the three items.
fn queue<H: Heap>(heap: H) -> Option<Queue<H>> {
    let mut queue = Bounded::new(heap, NZUsize!(3));
    for text in &TEXTS {
        if queue.push(item(heap, text).ok()?) != Ok(None) {
            return None;
        }
    }
    Some(queue)
}

/// The outcome of a clone of the queue.
fn queue_cloned<H: Heap>(queue: &Queue<H>) -> Outcome {
    let clone: Result<_, _> = queue.clone();
    match clone {
        Ok(clone) => full(clone == *queue),
        Err(_) => refused(true),
    }
}

/// The values of a map, by clones of its keys.
#[derive(Clone, Copy)]
enum MapValues {
    Mapped,
    Tried,
}

impl Refusable for MapValues {
    fn outcome<H: Heap>(&self, heap: H, granted: u64) -> Outcome {
        let Some(map) = map(heap) else {
            return Outcome::Wrong;
        };
        heap.restart(granted);
        let (lengths, calls) = self.lengths(&map);
        let outcome = outcome_of(lengths, calls == if granted == 0 { 0 } else { 3 });
        if map_is_in_order(&map) {
            outcome
        } else {
            Outcome::Wrong
        }
    }
}

/// The length of an item, which is counted.
fn length<H: Heap>(item: &Item<H>, calls: &mut u32) -> usize {
    *calls = calls.saturating_add(1);
    item.len()
}

/// The map of the three items with themselves.
fn map<H: Heap>(heap: H) -> Option<Items<H>> {
    Map::try_from_vec(pairs(heap).ok()?).ok()
}

/// The lengths of items by the items.
type Lengths<H> = Map<Item<H>, usize, H>;

impl MapValues {
    /// The lengths of the map's values, and how often the closure was called.
    fn lengths<H: Heap>(&self, map: &Items<H>) -> (Result<Lengths<H>, MapError<()>>, u32) {
        let mut calls = 0u32;
        let lengths = match self {
            MapValues::Mapped => map
                .map_values(|_, value| length(value, &mut calls))
                .map_err(MapError::from),
            MapValues::Tried => map.try_map_values(|_, value| Ok(length(value, &mut calls))),
        };
        (lengths, calls)
    }
}

/// The outcome of lengths that are there, or of a refusal that came in time or not.
fn outcome_of<H: Heap>(lengths: Result<Lengths<H>, MapError<()>>, in_time: bool) -> Outcome {
    match lengths {
        Ok(lengths) => full(lengths.values() == [1, 3, 2].as_slice()),
        Err(_) => refused(in_time),
    }
}

/// Each call that maps values.
static MAPPINGS: [MapValues; 2] = [MapValues::Mapped, MapValues::Tried];

/// At least one request for each clone, and one for the room of each list of them.
#[test]
fn each_request_is_refused_in_turn(rt: HostRuntime) {
    let alloc = rt.alloc();
    assert!(rt; makes_requests(alloc, &Build::Set, 4) && makes_requests(alloc, &Build::List, 4));
    assert!(rt; makes_requests(alloc, &BuildMap, 8));
    for (at, call) in MAPPINGS.iter().enumerate() {
        assert!(rt; makes_requests(alloc, call, 5), "values: {at}");
    }
    assert!(rt; makes_requests(alloc, &Resize, 2) && makes_requests(alloc, &QueueClone, 4));
}
