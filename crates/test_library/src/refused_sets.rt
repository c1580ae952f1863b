//! The builders of sets with each allocation failing in turn, and the calls on sets that allocate
//! nothing.
use crate::builders::{BUILDERS, Builder, outcome_of_error};
use commonware_utils::codec::EncodeSize;
use commonware_utils::ordered::{Error, Quorum, Set};
use commonware_utils::{N3f1, N5f1, Participant, TryCollect, TryFromIterator};
use std::alloc::Global;
use test_equipment::Refusing;
use test_equipment::walk::{Heap, Outcome, Refusable, full, makes_requests};

/// Items, and the set of them if all differ.
static ITEMS: [([u32; 5], &[u32], bool); 3] = [
    ([5, 1, 3, 11, 9], &[1, 3, 5, 9, 11], true),
    ([5, 1, 5, 9, 3], &[1, 3, 5, 9], false),
    ([5, 1, 3, 1, 9], &[1, 3, 5, 9], false),
];

/// What the builder returns for the items.
pub(super) fn build<H: Heap, const N: usize>(
    builder: Builder,
    heap: H,
    items: &[u32; N],
) -> Result<Set<u32, H>, Error> {
    match builder {
        Builder::Dedup => Set::from_iter_dedup(heap, items.iter().copied()).map_err(Error::from),
        Builder::Iterator => Set::try_from_iter(heap, items.iter().copied()),
        Builder::Collect => TryCollect::try_collect(items.iter().copied(), heap),
        Builder::List => of_list(heap, items),
        Builder::Slice => Set::try_from_slice(heap, items),
        Builder::Array => Set::try_from_array(heap, *items),
        Builder::ArrayRef => Set::try_from_array_ref(heap, items),
    }
}

/// The set of a list of the items.
fn of_list<H: Heap>(heap: H, items: &[u32]) -> Result<Set<u32, H>, Error> {
    Set::try_from_vec(Vec::from_slice(heap, items)?)
}

/// A builder at some items, and what it has to return.
#[derive(Drop)]
struct Building<'a> {
    builder: Builder,
    items: &'a [u32; 5],
    answer: Result<&'a [u32], Error>,
}

impl<'b> Refusable for Building<'b> {
    fn outcome<H: Heap>(&self, heap: H, granted: u64) -> Outcome {
        heap.restart(granted);
        match build(self.builder, heap, self.items) {
            Ok(set) => full(matches!(&self.answer, Ok(items) if set.as_slice() == *items)),
            Err(error) => outcome_of_error(error, self.answer.as_ref().err()),
        }
    }

    fn may_do_without(&self) -> bool {
        matches!(self.builder, Builder::Dedup)
    }
}

/// Whether the builder returns what it has to for all the items.
fn is_right(alloc: Global, builder: Builder) -> bool {
    let keeps_first = matches!(builder, Builder::Dedup);
    let least = if keeps_first { 2 } else { 1 };
    for (items, set, differ) in &ITEMS {
        let call = Building {
            builder,
            items,
            answer: if *differ || keeps_first {
                Ok(set)
            } else {
                Err(Error::DuplicateKey)
            },
        };
        if !makes_requests(alloc, &call, least) {
            return false;
        }
    }
    true
}

#[test]
fn each_request_is_refused_in_turn(rt: HostRuntime) {
    for (at, builder) in BUILDERS.iter().enumerate() {
        assert!(rt; is_right(rt.alloc(), *builder), "{at}");
    }
}

/// Whether {1, 3, 5} is read by its places.
fn is_read<H: Heap>(set: &Set<u32, H>) -> bool {
    set.len() == 3 && set[0] == 1 && set.slice(1..3) == [3, 5].as_slice()
}

/// Whether {1, 3, 5} is looked up.
fn is_looked_up<H: Heap>(set: &Set<u32, H>) -> bool {
    set.get(1) == Some(&3) && set.position(&5) == Some(2) && set.iter().next_back() == Some(&5)
}

/// Whether {1, 3, 5} is a committee of three.
fn is_committee<H: Heap>(set: &Set<u32, H>) -> bool {
    set.len() == 3
        && set.key(Participant::new(1)) == Some(&3)
        && set.index(&5) == Some(Participant::new(2))
        && (set.quorum::<N3f1>(), set.max_faults::<N5f1>()) == (3, 0)
}

/// Whether the set comes before another one, and can be written.
fn is_before<H: Heap>(set: &Set<u32, H>, other: &Set<u32, H>) -> bool {
    *set < *other && *set != *other && set.is_writable()
}

/// Whether {1, 3, 5} is read and comes before {1, 5}.
fn are_right<H: Heap>(set: &Set<u32, H>, other: &Set<u32, H>) -> bool {
    is_read(set) && is_looked_up(set) && is_committee(set) && is_before(set, other)
}

/// Whether the items of {1, 3, 5} and the last of {1, 5} are consumed.
fn are_given_up<H: Heap>(set: Set<u32, H>, other: Set<u32, H>) -> bool {
    let last = other.into_iter().next_back();
    let items: Vec<u32, H> = set.into();
    items.as_slice() == [1, 3, 5].as_slice() && last == Some(5)
}

#[test]
fn sets_are_read_compared_and_given_up_without_memory(rt: HostRuntime) {
    let heap = Refusing::all_after(rt.alloc(), u64::MAX);
    let set = Set::from_iter_dedup(&heap, [5u32, 1, 3]).expect(&rt, "memory");
    let other = Set::from_iter_dedup(&heap, [5u32, 1]).expect(&rt, "memory");
    heap.restart(0);
    assert!(rt; are_right(&set, &other));
    assert!(rt; are_given_up(set, other) && !heap.has_refused());
}

#[test]
fn a_set_of_nothing_takes_no_memory(rt: HostRuntime) {
    let heap = Refusing::all_after(rt.alloc(), 0);
    let none: Set<u32, _> = Set::empty(&heap);
    let most = Set::<u32, &Refusing<Global>>::max_encode_size(128);
    assert!(rt; none.is_empty() && most == 514 && !heap.has_refused());
}
