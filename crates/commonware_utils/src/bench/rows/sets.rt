//! Sets: what is built, written and read.
use crate::Participant;
use crate::bench::{
    are_ordered, comes_back, is_coded_as, is_read_as, is_written_as, read, refuses,
};
use crate::codec::{Canonical, Error, RangeCfg, Read, Write, round_trip};
use crate::ordered::{Set, set_fault_law};
use std::alloc::{AllocError, Allocator, Global};
use std::cmp::Ordering;
use std::process::Abort;

pub(in crate::bench) const UNSORTED: Error = Error::Invalid(
    "Set",
    "items must be sorted and unique",
);

/// Inputs that are no set of bytes, under any range.
static NO_SETS: [(&[u8], Error); 5] = [
    (b"\x83\x00\x01\x02\x03", Error::InvalidVarint),
    (b"\xff\xff\xff\xff\x10", Error::InvalidVarint),
    (b"\xff\xff\xff\xff", Error::EndOfBuffer),
    (b"", Error::EndOfBuffer),
    (b"\xff\xff\xff\xff\x0f\x01", Error::EndOfBuffer),
];

/// Inputs that are no set of at most ten bytes.
static NO_SHORT_SETS: [(&[u8], Error); 2] = [
    (b"\x03\x02\x01", Error::EndOfBuffer),
    (b"\x0b", Error::InvalidLength(11)),
];

/// Items of two sets, and the order of the sets.
static ORDERS: [(&[u8], &[u8], Ordering); 5] = [
    (&[1, 2], &[1, 2, 3], Ordering::Less),
    (&[2], &[1, 9], Ordering::Greater),
    (&[1, 2], &[2], Ordering::Less),
    (&[1, 2], &[2, 1, 2], Ordering::Equal),
    (&[1, 2], &[1, 3], Ordering::Less),
];

/// The set of these items.
pub(super) fn set_of(rt: &impl Abort, alloc: Global, items: &[u8]) -> Set<u8, Global> {
    Set::from_iter_dedup(alloc, items.iter().copied()).expect(rt, "memory")
}

/// The set of the sets of these items.
fn nest_of(rt: &impl Abort, alloc: Global, lists: &[&[u8]]) -> Set<Set<u8, Global>, Global> {
    let mut sets = Vec::new(alloc);
    for items in lists {
        sets.push(set_of(rt, alloc, items)).expect(rt, "memory");
    }
    Set::from_iter_dedup(alloc, sets).expect(rt, "memory")
}

/// The set of this set and the empty one.
pub(super) fn with_empty<T: Ord + Drop>(
    rt: &impl Abort,
    alloc: Global,
    set: Set<T, Global>,
) -> Set<Set<T, Global>, Global> {
    Set::from_iter_dedup(alloc, [set, Set::empty(alloc)]).expect(rt, "memory")
}

/// Whether the set of the items is written as these bytes.
fn is_set_written_as<T: Ord + Copy + Write<A>, A: Allocator + Copy>(
    alloc: A,
    items: &[T],
    bytes: &[u8],
) -> Result<bool, AllocError> {
    let items = Vec::from_slice(alloc, items)?;
    let set = Set::from_iter_dedup(alloc, items)?;
    Ok(is_written_as(alloc, &set, bytes))
}

#[test]
fn the_empty_set_holds_nothing(rt: HostRuntime) {
    let set: Set<u8, _> = Set::empty(rt.alloc());
    assert!(rt;
        set.is_empty()
            && set.len() == 0
            && set.get(0) == None
            && is_written_as(rt.alloc(), &set, b"\x00")
    );
}

#[test]
fn sets_are_written_as_their_lists(rt: HostRuntime) {
    let alloc = rt.alloc();
    set_fault_law::<u8, _>(alloc, RangeCfg::from(..), &());
    let words = b"\x02\x00\x00\x00\x01\x00\x00\x01\x00";
    let indices = [Participant::new(300), Participant::new(1)];
    assert!(rt;
        is_set_written_as(alloc, &[3u8, 1, 2, 1], b"\x03\x01\x02\x03") == Ok(true)
            && is_set_written_as(alloc, &[256u32, 1], words) == Ok(true)
            && is_set_written_as(alloc, &indices, b"\x02\x01\xac\x02") == Ok(true)
    );
}

#[test]
fn inputs_that_are_no_set_are_refused(rt: HostRuntime) {
    let alloc = rt.alloc();
    let (any, few, none) = (
        RangeCfg::from(..),
        RangeCfg::from(0..=10),
        RangeCfg::from(3..2),
    );
    assert!(rt;
        refuses::<Set<u8, _>, _>(alloc, &(any, ()), &NO_SETS)
            && refuses::<Set<u8, _>, _>(alloc, &(few, ()), &NO_SHORT_SETS)
            && refuses::<Set<u8, _>, _>(alloc, &(none, ()), &[(b"\x00", Error::InvalidLength(0))])
    );
}

#[test]
fn sets_are_read_and_what_follows_is_left(rt: HostRuntime) {
    let alloc = rt.alloc();
    let any = RangeCfg::from(..);
    let set = set_of(&rt, alloc, &[5, 9]);
    assert!(rt; is_read_as(alloc, b"\x02\x05\x09\xff\xff", &(any, ()), &set, 3));
    let nest = nest_of(&rt, alloc, &[&[2], &[2, 1], &[1], &[]]);
    let bytes = b"\x04\x00\x01\x01\x02\x01\x02\x01\x02";
    assert!(rt; is_coded_as(alloc, &nest, &(any, (any, ())), bytes));
}

/// Whether an equal value came back, with one byte left.
fn is_back<T: PartialEq + Drop>(answer: Result<(T, usize), Error>, value: &T) -> bool {
    match answer {
        Ok((again, left)) => again == *value && left == 1,
        Err(_) => false,
    }
}

/// Whether the first six bytes are a set of two items, which comes back with one byte after it.
fn two_come_back<T: Ord + Read<A> + Write<A> + Canonical + Drop, A: Allocator + Copy>(
    alloc: A,
    bytes: &[u8],
    cfg: &(RangeCfg<usize>, T::Cfg),
) -> bool {
    let (result, taken) = read::<Set<T, A>, A>(alloc, bytes, cfg);
    match result {
        Ok(set) => {
            taken == 6 && set.len() == 2 && is_back(round_trip(alloc, &set, b"\xff", cfg), &set)
        }
        Err(_) => false,
    }
}

#[test]
fn sets_nest_three_deep(rt: HostRuntime) {
    let any = RangeCfg::from(..);
    let bytes = b"\x02\x00\x02\x00\x01\x07\xff";
    assert!(rt;
        two_come_back::<Set<Set<u8, _>, _>, _>(rt.alloc(), bytes, &(any, (any, (any, ()))))
    );
}

#[test]
fn sets_are_ordered_as_their_lists(rt: HostRuntime) {
    for (items, others, order) in &ORDERS {
        let set = set_of(&rt, rt.alloc(), items);
        let other = set_of(&rt, rt.alloc(), others);
        assert!(rt; are_ordered(&set, &other, *order));
    }
}

#[test]
fn test_sorted_unique_codec_roundtrip(rt: HostRuntime) {
    let sorted = set_of(&rt, rt.alloc(), &[1, 2, 3, 4, 5, 6, 7, 8, 9]);
    assert!(rt; comes_back(rt.alloc(), &sorted, &(RangeCfg::from(0..=9), ())));
}

/// Whether the input isn't a set of at most ten bytes, as they aren't in order.
fn is_unsorted(alloc: Global, text: &[u8]) -> bool {
    let short = (RangeCfg::from(0..=10), ());
    refuses::<Set<u8, _>, _>(alloc, &short, &[(text, UNSORTED)])
}

#[test]
fn test_set_decode_rejects_duplicates(rt: HostRuntime) {
    assert!(rt; is_unsorted(rt.alloc(), b"\x04\x01\x02\x02\x03"));
}

#[test]
fn test_set_decode_rejects_unsorted(rt: HostRuntime) {
    assert!(rt; is_unsorted(rt.alloc(), b"\x04\x01\x03\x02\x04"));
}

#[test]
fn test_set_decode_accepts_valid(rt: HostRuntime) {
    let set = set_of(&rt, rt.alloc(), &[1, 2, 3, 4]);
    let short = (RangeCfg::from(0..=10), ());
    assert!(rt; is_read_as(rt.alloc(), b"\x04\x01\x02\x03\x04", &short, &set, 5));
}
