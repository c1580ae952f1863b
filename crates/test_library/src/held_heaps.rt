//! Which allocator a set and a map return, where there are two.
use commonware_utils::TryFromIterator;
use commonware_utils::ordered::{BiMap, Error, Map, Set};
use std::alloc::Global;
use std::process::Abort;
use test_equipment::Refusing;
use test_equipment::walk::Heap;

/// Whether the allocator is the heap: it refuses a request where the heap refuses all of them.
fn is_heap<H: Heap>(allocator: H, heap: H) -> bool {
    heap.restart(0);
    let refused = Vec::<u8, _>::with_capacity(allocator, 1).is_err();
    heap.restart(u64::MAX);
    refused
}

/// Whether a set, a map and a bimap return the heap that they were made on, and no other one.
fn are_held<H: Heap>(rt: &impl Abort, heap: H, other: H) -> bool {
    let set = Set::try_from_iter(heap, [3u8, 1, 2]).expect(rt, "a set");
    let of_set = is_first(*set.allocator(), heap, other);
    let map = Map::try_from_iter(heap, [(3u8, 30u8), (1, 10)]).expect(rt, "a map");
    let of_map = is_first(*map.allocator(), heap, other);
    let bimap = BiMap::try_from_iter(heap, [(3u8, 30u8), (1, 10)]).expect(rt, "a bimap");
    of_set && of_map && is_first(*bimap.allocator(), heap, other)
}

/// Whether the allocator is the heap, and not the other one.
fn is_first<H: Heap>(allocator: H, heap: H, other: H) -> bool {
    is_heap(allocator, heap) && !is_heap(allocator, other)
}

/// Whether a map of keys on one heap and values on another returns that of the keys, and so do its
/// keys.
fn is_that_of_the_keys<H: Heap>(keys: H, values: H) -> Result<bool, Error> {
    let set = Set::try_from_iter(keys, [1u8, 2])?;
    let list = Vec::from_slice(values, &[10u8, 20])?;
    let Some(map) = Map::from_parts(set, list) else {
        return Ok(false);
    };
    let held = is_heap(*map.allocator(), keys) && !is_heap(*map.allocator(), values);
    Ok(held && is_heap(*map.into_keys().allocator(), keys))
}

#[test]
fn collections_return_the_heap_that_they_hold(rt: HostRuntime) {
    let first = Refusing::<Global>::all_after(rt.alloc(), u64::MAX);
    let second = Refusing::<Global>::all_after(rt.alloc(), u64::MAX);
    assert!(rt; are_held(&rt, &first, &second));
    assert!(rt; are_held(&rt, &second, &first));
    assert!(rt; is_that_of_the_keys(&first, &second) == Ok(true));
}
