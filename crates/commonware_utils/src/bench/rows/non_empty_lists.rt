//! Non-empty lists, and bounded queues: rows and vectors.
use crate::bench::{are_equal, are_ordered, is_debugged_as, is_written_as, refuses};
use crate::codec::{Error as CodecError, RangeCfg};
use crate::ordered::{Map, Set};
use crate::vec::{Bounded, Mutate, NonEmptyVec};
use crate::{NZUsize, non_empty_vec};
use std::alloc::Global;
use std::cmp::Ordering;
use std::collections::VecDeque;
use std::num::NonZeroUsize;
use std::process::Abort;

pub(in crate::bench) const EMPTY: CodecError = CodecError::Invalid(
    "NonEmptyVec",
    "cannot decode empty vector",
);

/// Items of two lists, and the order of the lists.
static ORDERS: [(&[u8], &[u8], Ordering); 4] = [
    (&[1], &[1, 1], Ordering::Less),
    (&[1, 1], &[2], Ordering::Less),
    (&[2], &[1, 1], Ordering::Greater),
    (&[1], &[1], Ordering::Equal),
];

/// The list of these bytes.
fn list_of(rt: &impl Abort, alloc: Global, items: &[u8]) -> NonEmptyVec<u8, Global> {
    NonEmptyVec::try_from_slice(alloc, items).expect(rt, "memory")
}

/// Whether the queue holds these items.
fn holds(queue: &VecDeque<u8, Global>, items: &[u8]) -> bool {
    queue.iter().eq(items.iter())
}

/// The queue of the last items, at most `capacity` of them.
fn queue_of(alloc: Global, capacity: NonZeroUsize, items: &[u8]) -> Bounded<u8, Global> {
    let mut queue = Bounded::new(alloc, capacity);
    for item in items {
        let _ = queue.push(*item);
    }
    queue
}

#[test]
fn queues_are_compared_with_their_capacity(rt: HostRuntime) {
    let alloc = rt.alloc();
    let queue = queue_of(alloc, NZUsize!(3), &[1, 2]);
    for (capacity, items, equal) in [
        (NZUsize!(3), [1, 2], true),
        (NZUsize!(2), [1, 2], false),
        (NZUsize!(3), [1, 3], false),
    ] {
        assert!(rt; are_equal(&queue, &queue_of(alloc, capacity, &items), equal));
    }
}

#[test]
fn queues_are_cloned_and_shown(rt: HostRuntime) {
    let queue = queue_of(rt.alloc(), NZUsize!(3), &[1, 2]);
    let clone = queue.clone().expect(&rt, "memory");
    let text = "Bounded { deque: [1, 2], capacity: 3 }";
    assert!(rt; are_equal(&queue, &clone, true) && is_debugged_as(rt.alloc(), &queue, text));
    let items: VecDeque<u8, Global> = clone.into();
    assert!(rt; holds(&items, &[1, 2]));
}

/// A value that can be cloned and no more.
#[derive(Clone, Drop)]
struct Token(u8);

/// Whether the numbers of the tokens are these.
fn have_numbers(rt: &impl Abort, tokens: &NonEmptyVec<Token, Global>, expected: &[u8]) -> bool {
    let numbers = tokens.map(|token| token.0).expect(rt, "memory");
    numbers.as_slice() == expected
}

/// Whether a clone of the tokens gives its last one, 7, and three are left.
fn are_cloned(rt: &impl Abort, tokens: &NonEmptyVec<Token, Global>) -> bool {
    let mut clone = tokens.clone().expect(rt, "memory");
    matches!(clone.pop(), Some(Token(7))) && clone.len().get() == 3
}

#[test]
fn items_need_no_more_than_clones(rt: HostRuntime) {
    let tokens = NonEmptyVec::try_from_array(rt.alloc(), [Token(1), Token(2)]);
    let mut tokens = tokens.expect(&rt, "memory");
    tokens.resize(NZUsize!(4), Token(7)).expect(&rt, "memory");
    assert!(rt; have_numbers(&rt, &tokens, &[1, 2, 7, 7]) && are_cloned(&rt, &tokens));
}

#[test]
fn lists_are_ordered_item_by_item(rt: HostRuntime) {
    for (items, others, order) in &ORDERS {
        let list = list_of(&rt, rt.alloc(), items);
        let other = list_of(&rt, rt.alloc(), others);
        assert!(rt; are_ordered(&list, &other, *order));
    }
}

#[test]
fn lists_are_items(rt: HostRuntime) {
    let alloc = rt.alloc();
    let mut lists = Vec::new(alloc);
    for items in [[1, 1].as_slice(), &[1]] {
        lists.push(list_of(&rt, alloc, items)).expect(&rt, "memory");
    }
    let set = Set::from_iter_dedup(alloc, lists).expect(&rt, "memory");
    assert!(rt; is_written_as(alloc, &set, b"\x02\x01\x01\x02\x01\x01"));
}

#[test]
fn lists_are_keys_and_values(rt: HostRuntime) {
    let alloc = rt.alloc();
    let map = Map::from_iter_dedup(
        alloc,
        [(list_of(&rt, alloc, &[7]), list_of(&rt, alloc, &[8, 9]))],
    )
    .expect(&rt, "memory");
    assert!(rt; is_written_as(alloc, &map, b"\x01\x01\x07\x01\x02\x08\x09"));
}

#[test]
fn empty_lists_are_refused_by_their_range_first(rt: HostRuntime) {
    let none = RangeCfg::from(NZUsize!(3)..NZUsize!(3));
    let rows = [
        (b"\x00".as_slice(), CodecError::InvalidLength(0)),
        (b"\x80", CodecError::EndOfBuffer),
    ];
    assert!(rt; refuses::<NonEmptyVec<u8, _>, _>(rt.alloc(), &(none, ()), &rows));
}

#[test]
fn what_is_inside_is_changed(rt: HostRuntime) {
    let mut v = non_empty_vec!(rt.alloc() => 3u8, 1, 2, 1).expect(&rt, "memory");
    let left = v.mutate(|items| {
        items.truncate(2);
        items.len()
    });
    assert!(rt; left == 2 && v.as_slice() == [3, 1].as_slice());
}
