//! Pairs that are inserted at their places: the room that is reserved for them, and what is left of
//! them after an allocation failure.
use commonware_map::SortedEntries;
use std::alloc::{AllocError, Global};
use test_equipment::Refusing;
use test_equipment::walk::Heap;

/// The greatest key. It is past the 4,096 of the first room that a hint makes.
const MOST: u32 = 5_000;

/// Whether these are the keys from the first one on, each with the value that follows it.
fn are_pairs_from(first: u32, keys: &[u32], values: &[u32]) -> bool {
    let mut key = first;
    for (found, value) in keys.iter().zip(values) {
        if *found != key || *value != key.wrapping_add(1) {
            return false;
        }
        key = key.wrapping_add(1);
    }
    keys.len() == values.len()
}

/// The keys from 1 to 5,000, in a run.
fn run<H: Heap>(heap: H) -> Result<SortedEntries<u32, u32, H>, AllocError> {
    let mut entries = SortedEntries::with_room(heap, 0)?;
    for key in 1..=MOST {
        entries.insert(key, key.wrapping_add(1))?;
    }
    Ok(entries)
}

/// What an insertion of the least key gives where its allocation after `granted` granted ones
/// fails: whether one did, and whether the pairs are then as they have to be. `None` where one
/// before or after it fails.
fn insertion<H: Heap>(heap: H, granted: u64) -> Option<(bool, bool)> {
    let mut entries = run(heap).ok()?;
    heap.restart(granted);
    let inserted = entries.insert(0, 1);
    let (keys, values) = entries.into_columns().ok()?;
    Some(match inserted {
        Ok(new) => (
            false,
            new && keys.len() == 5_001 && are_pairs_from(0, &keys, &values),
        ),
        Err(_) => (
            true,
            keys.len() <= 5_000 && are_pairs_from(1, &keys, &values),
        ),
    })
}

/// A prefix of the pairs is left after an allocation failure, tried at the first allocation and
/// each 37th after it, up to the first walk that meets no failure. The tree makes at least one.
#[test]
fn a_refused_insertion_leaves_a_prefix(rt: HostRuntime) {
    let mut has_refused = false;
    for turn in 0..1_000u64 {
        let granted = turn.wrapping_mul(37);
        let heap = Refusing::<Global>::after(rt.alloc(), u64::MAX);
        let Some((is_refused, right)) = insertion(&heap, granted) else {
            break;
        };
        assert!(rt; right, "{granted}");
        if !is_refused {
            break;
        }
        has_refused = true;
    }
    assert!(rt; has_refused);
}

#[test]
fn room_for_none_takes_no_memory(rt: HostRuntime) {
    let heap = Refusing::<Global>::all_after(rt.alloc(), 0);
    assert!(rt; SortedEntries::<u32, u32, _>::with_room(&heap, 0).is_ok());
    assert!(rt; !heap.has_refused());
    assert!(rt; SortedEntries::<u32, u32, _>::with_room(&heap, 1).is_err());
}
