//! The value maps with each of their allocations failing in turn: before a refusal the closure was
//! called for no entry, or for every one where the clone of the keys is refused.
use commonware_utils::ordered::{Map, MapError, Set};
use test_equipment::walk::{Heap, Outcome, Refusable, full, refused, requests};

/// How the values of a map are mapped.
#[derive(Clone, Copy)]
enum Way {
    Mapped,
    Tried,
    /// As the one before, with a closure that fails.
    Failed,
}

/// A call that maps the values of a map, which is borrowed or consumed.
#[derive(Clone, Copy)]
enum Call {
    Lent(Way),
    Owned(Way),
}

/// Each call, and how many requests it makes: room for the values and the clone of the keys.
static CALLS: [(Call, u64); 6] = [
    (Call::Lent(Way::Mapped), 2),
    (Call::Lent(Way::Tried), 2),
    (Call::Lent(Way::Failed), 1),
    (Call::Owned(Way::Mapped), 1),
    (Call::Owned(Way::Tried), 1),
    (Call::Owned(Way::Failed), 1),
];

type Tens<H> = Map<u8, u8, H>;

/// {1: 10, 2: 20, 3: 30}, if there is memory for it.
fn tens<H: Heap>(heap: H) -> Option<Tens<H>> {
    let keys = Set::from_iter_dedup(heap, [1u8, 2, 3]).ok()?;
    Map::from_parts(keys, vec![in heap; 10, 20, 30].ok()?)
}

/// Half of a value, which is counted.
fn half(value: u8, calls: &mut u32) -> u8 {
    *calls = calls.saturating_add(1);
    value / 2
}

/// The outcome of the call on a borrowed map where the closure halves a value or fails with its
/// key.
fn lent<H: Heap>(way: Way, map: &Tens<H>, granted: u64) -> Outcome {
    let mut calls = 0u32;
    let answer = match way {
        Way::Mapped => map
            .map_values(|_, value| half(*value, &mut calls))
            .map_err(MapError::from),
        Way::Tried => map.try_map_values(|_, value| Ok(half(*value, &mut calls))),
        Way::Failed => map.try_map_values(|key, _| Err(*key)),
    };
    outcome_of(answer, calls, granted)
}

/// The same of the call that consumes the map.
fn owned<H: Heap>(way: Way, map: Tens<H>, granted: u64) -> Outcome {
    let mut calls = 0u32;
    let answer = match way {
        Way::Mapped => map
            .map_values_into(|_, value| half(value, &mut calls))
            .map_err(MapError::from),
        Way::Tried => map.try_map_values_into(|_, value| Ok(half(value, &mut calls))),
        Way::Failed => map.try_map_values_into(|key, _| Err(*key)),
    };
    outcome_of(answer, calls, granted)
}

/// The outcome of a result and of the calls of the closure, where `granted` requests were granted.
fn outcome_of<H: Heap>(answer: Result<Tens<H>, MapError<u8>>, calls: u32, granted: u64) -> Outcome {
    match answer {
        Ok(halves) => full(halves.values() == [5, 10, 15].as_slice()),
        Err(MapError::Closure(key)) => full(key == 1),
        // The second request is for the clone of the keys, after the last call.
        Err(MapError::Memory) => refused(calls == if granted == 0 { 0 } else { 3 }),
    }
}

/// The outcome of the call on a borrowed map, which has to stay as it is.
fn lent_and_kept<H: Heap>(way: Way, map: &Tens<H>, granted: u64) -> Outcome {
    let outcome = lent(way, map, granted);
    if map.values() == [10, 20, 30].as_slice() {
        outcome
    } else {
        Outcome::Wrong
    }
}

impl Call {
    /// The outcome of the call on this map.
    fn outcome_on<H: Heap>(self, heap: H, granted: u64, map: Tens<H>) -> Outcome {
        heap.restart(granted);
        match self {
            Call::Lent(way) => lent_and_kept(way, &map, granted),
            Call::Owned(way) => owned(way, map, granted),
        }
    }
}

impl Refusable for Call {
    fn outcome<H: Heap>(&self, heap: H, granted: u64) -> Outcome {
        match tens(heap) {
            Some(map) => self.outcome_on(heap, granted, map),
            None => Outcome::Wrong,
        }
    }
}

#[test]
fn the_closure_is_called_after_there_is_room(rt: HostRuntime) {
    for (at, (call, wanted)) in CALLS.iter().enumerate() {
        assert!(rt; requests(rt.alloc(), call) == Some(*wanted), "{at}");
    }
}
