//! Clones that equal their source.
ghost use Rattle.std.specs.Prelude.{◌≡◌, true, IfOk};

use crate::bench::is_debugged_as;
use crate::bench::rows::sets::{set_of, with_empty};
use crate::codec::UInt;
use crate::ordered::{BiMap, Map, Set};
use crate::vec::NonEmptyVec;
use crate::{EqClone, Participant, TryFromIterator, non_empty_vec};
use std::alloc::{AllocError, Allocator, Global};
use std::process::Abort;

/// Whether a clone equals its source, which the law says of every type that has it.
fn clones_equal<T: EqClone>(value: &T) -> Result<bool, AllocError>
    ensures { IfOk result (λ equal. equal ≡ true) }
{
    let copy = value.clone()?;
    Ok(*value == copy)
}

/// Whether there is memory for a clone of the value, which equals it.
fn is_cloned<T: EqClone>(value: &T) -> bool {
    clones_equal(value) == Ok(true)
}

/// The same of a value that is given, and dropped.
fn is_taken_and_cloned<T: EqClone + Drop>(value: T) -> bool {
    is_cloned(&value)
}

/// Whether numbers of each type have equal clones.
fn numbers_are_cloned() -> bool {
    is_cloned(&1u8)
        && is_cloned(&2u16)
        && is_cloned(&3u32)
        && is_cloned(&4u64)
        && is_cloned(&5u128)
        && is_cloned(&6usize)
        && is_cloned(&-1i8)
        && is_cloned(&-2i16)
        && is_cloned(&-3i32)
        && is_cloned(&-4i64)
        && is_cloned(&-5i128)
        && is_cloned(&-6isize)
        && is_cloned(&UInt(300))
        && is_cloned(&Participant::new(300))
}

#[test]
fn numbers_and_texts_equal_their_clones(rt: HostRuntime) {
    let text = String::from_str(rt.alloc(), "text").expect(&rt, "memory");
    assert!(rt; numbers_are_cloned() && is_cloned(&'c') && is_cloned(&"text") && is_cloned(&text));
}

/// {1: 'a', 2: 'b'}
fn letters(rt: &impl Abort, alloc: Global) -> BiMap<u8, char, Global> {
    BiMap::try_from_iter(alloc, [(2u8, 'b'), (1, 'a')]).expect(rt, "memory")
}

#[test]
fn collections_equal_their_clones(rt: HostRuntime) {
    let alloc = rt.alloc();
    assert!(rt;
        is_taken_and_cloned(vec![in alloc; 3u8, 1, 2].expect(&rt, "memory"))
            && is_taken_and_cloned(with_empty(&rt, alloc, set_of(&rt, alloc, &[2, 1])))
            && is_taken_and_cloned(letters(&rt, alloc))
    );
}

/// A list that is never empty.
type List = NonEmptyVec<u8, Global>;

/// [1, 2] and [1]
fn lists(rt: &impl Abort, alloc: Global) -> [List; 2] {
    [
        non_empty_vec!(alloc => 1u8, 2).expect(rt, "memory"),
        non_empty_vec!(alloc => 1).expect(rt, "memory"),
    ]
}

/// Whether the set has both lists, the short one first.
fn has_both(set: &Set<List, Global>, long: &List, short: &List) -> bool {
    set.len() == 2 && set.get(0) == Some(short) && set.get(1) == Some(long)
}

/// Whether a set has clones of both lists, and it and the long one are cloned.
fn are_cloned_as_items(rt: &impl Abort, alloc: Global, lists: &[List; 2]) -> bool {
    let [long, short] = lists;
    let set = Set::try_from_slice(alloc, lists).expect(rt, "memory");
    has_both(&set, long, short) && is_cloned(long) && is_cloned(&set)
}

#[test]
fn lists_that_are_never_empty_are_cloned_as_items(rt: HostRuntime) {
    let alloc = rt.alloc();
    let lists = lists(&rt, alloc);
    assert!(rt;
        are_cloned_as_items(&rt, alloc, &lists)
            && is_debugged_as(alloc, &lists[0], "NonEmptyVec([1, 2])")
    );
}

/// Whether the bimap of 7 and this map holds a copy of it, and is cloned.
fn is_value_cloned(alloc: Global, map: Map<u8, char, Global>) -> bool {
    let pairs = [(7u8, map)];
    let [(_, map)] = &pairs;
    match BiMap::try_from_slice(alloc, &pairs) {
        Ok(bimap) => bimap.get_value(&7) == Some(map) && is_cloned(&bimap),
        Err(_) => false,
    }
}

#[test]
fn maps_are_cloned_as_values(rt: HostRuntime) {
    let map = Map::try_from_iter(rt.alloc(), [(2u8, 'b'), (1, 'a')]).expect(&rt, "memory");
    assert!(rt; is_cloned(&map));
    assert!(rt; is_value_cloned(rt.alloc(), map));
}
