//! Inputs in which an item is repeated and an allocation fails: the one that is met first is the
//! error, and after a repeat no further item is drawn.
use crate::drawn::Drawn;
use commonware_utils::TryFromIterator;
use commonware_utils::ordered::{Error, Map, Set};
use std::alloc::Global;
use std::cell::Cell;
use std::process::Abort;
use test_equipment::Refusing;
use test_equipment::walk::{Heap, Outcome, Refusable, full, refused, requests};

/// More items than there is room for in the first two rooms that are reserved, even if 4096 items
/// fit into the first.
const MANY: u32 = 10_000;

/// More requests than the first few items take, and fewer than room for many does where it is
/// doubled.
const FEW: u64 = 8;

/// What is made of the items.
#[derive(Clone, Copy)]
enum Kind {
    Set,
    Map,
}

/// What is made of the items, and whether these tell how many they are.
#[derive(Clone, Copy)]
struct Way(Kind, bool);

static WAYS: [Way; 4] = [
    Way(Kind::Set, false),
    Way(Kind::Set, true),
    Way(Kind::Map, false),
    Way(Kind::Map, true),
];

/// How many requests reserve room for the first item, at most: keys and values may have a room
/// each.
const ROOMS: u64 = 2;

/// The item with a value.
fn pair(item: u32) -> (u32, char) {
    (item, 'v')
}

/// What the items give: the error, if there is one, whether an allocation failed, and how often an
/// item was drawn.
type Answer = (Option<Error>, bool, usize);

impl Way {
    /// The error that the items give, if there is one. The calls of `next` are counted.
    fn refusal<H: Heap>(self, heap: H, items: &[u32], asked: &Cell<u32>) -> Option<Error> {
        let items = Drawn::new(items, asked, self.1);
        match self.0 {
            Kind::Set => Set::try_from_iter(heap, items).err(),
            Kind::Map => Map::try_from_iter(heap, items.map(pair)).err(),
        }
    }

    /// What the items give where the allocation after `granted` granted ones fails.
    fn answer(self, alloc: Global, items: &[u32], granted: u64) -> Answer {
        let asked = Cell::new(0);
        let heap = Refusing::after(alloc, granted);
        let refusal = self.refusal(&heap, items, &asked);
        (refusal, heap.has_refused(), asked.get() as usize)
    }
}

/// These items, then the numbers from 10 on until there are many, and then these.
fn items_of(rt: &impl Abort, alloc: Global, first: &[u32], last: &[u32]) -> Vec<u32> {
    let mut items = first.to_vec(alloc).expect(rt, "memory");
    for item in 10..MANY {
        items.push(item).expect(rt, "memory");
    }
    items.extend_from_slice(last).expect(rt, "memory");
    items
}

#[test]
fn a_refusal_before_the_first_repeat_is_returned(rt: HostRuntime) {
    for (at, way) in WAYS.iter().enumerate() {
        let (error, refused, asked) = way.answer(rt.alloc(), &[5, 5, 7], 0);
        assert!(rt;
            error == Some(Error::Memory) && refused && asked <= 1,
            "{at}"
        );
    }
}

/// The item that is repeated is the last, one of those in the midst, or the first.
#[test]
fn a_refusal_before_a_late_repeat_is_returned(rt: HostRuntime) {
    for last in [MANY - 1, 50, 1] {
        let items = items_of(&rt, rt.alloc(), &[1, 2], &[last]);
        for (at, way) in WAYS.iter().enumerate() {
            let (error, refused, asked) = way.answer(rt.alloc(), &items, ROOMS);
            let right = error == Some(Error::Memory) && refused && asked < items.len();
            assert!(rt; right, "{at} {last}");
        }
    }
}

#[test]
fn a_repeat_before_the_first_refusal_is_returned(rt: HostRuntime) {
    let items = items_of(&rt, rt.alloc(), &[5, 5], &[]);
    for (at, way) in WAYS.iter().enumerate() {
        let (error, refused, _) = way.answer(rt.alloc(), &items, ROOMS);
        assert!(rt; error == Some(Error::DuplicateKey) && !refused, "{at}");
    }
}

/// Items of which two of the first few are equal.
#[derive(Drop)]
struct Repeated<'a>(Way, &'a [u32]);

impl<'b> Refusable for Repeated<'b> {
    fn outcome<H: Heap>(&self, heap: H, granted: u64) -> Outcome {
        heap.restart(granted);
        match self.0.refusal(heap, self.1, &Cell::new(0)) {
            Some(Error::Memory) => refused(true),
            answer => full(answer == Some(Error::DuplicateKey)),
        }
    }
}

/// Starts in which the last item is the first to be repeated: right after its equal, or after a
/// lesser one.
static STARTS: [&[u32]; 6] = [
    &[5, 5],
    &[2, 5, 5],
    &[5, 2, 5],
    &[2, 5, 2],
    &[5, 2, 2],
    &[2, 5, 3, 7, 7],
];

#[test]
fn no_room_is_made_for_what_follows_a_repeat(rt: HostRuntime) {
    for start in &STARTS {
        let items = items_of(&rt, rt.alloc(), start, &[]);
        for (at, way) in WAYS.iter().enumerate() {
            let asked = requests(rt.alloc(), &Repeated(*way, &items));
            assert!(rt; matches!(asked, Some(1..=FEW)), "{at} {start:?} {asked:?}");
        }
    }
}

#[test]
fn no_item_is_taken_after_a_repeat(rt: HostRuntime) {
    for start in &STARTS {
        let items = items_of(&rt, rt.alloc(), start, &[]);
        for (at, way) in WAYS.iter().enumerate() {
            let (error, _, asked) = way.answer(rt.alloc(), &items, u64::MAX);
            let right = error == Some(Error::DuplicateKey) && asked == start.len();
            assert!(rt; right, "{at} {start:?}");
        }
    }
}
