//! Non-empty lists, with each of their allocations failing in turn: what was borrowed is
//! as it was, what was pushed comes back, and a closure was called for no item. The calls that
//! allocate nothing succeed.
use commonware_utils::codec::EncodeSize;
use commonware_utils::vec::{Error, Mutate, NonEmptyVec};
use commonware_utils::{NZUsize, TryCollect, TryFromIterator, non_empty_vec};
use test_equipment::Refusing;
use test_equipment::walk::{Heap, Outcome, Refusable, full, makes_requests, refused};

type List<H> = NonEmptyVec<u8, H>;

/// 1, 2, 3, with no room for more.
fn three<H: Heap>(heap: H) -> Result<List<H>, Error> {
    non_empty_vec!(heap => 1u8, 2, 3)
}

/// A call that makes a list longer.
#[derive(Clone, Copy)]
enum Grow {
    Push,
    Insert,
    Extend,
    Resize,
    ResizeWith,
}

/// A call on 1, 2, 3, and what the list is after it.
#[derive(Drop)]
struct Growth {
    call: Grow,
    grown: &'static [u8],
}

static GROWTHS: [Growth; 5] = [
    Growth {
        call: Grow::Push,
        grown: &[1, 2, 3, 9],
    },
    Growth {
        call: Grow::Insert,
        grown: &[9, 1, 2, 3],
    },
    Growth {
        call: Grow::Extend,
        grown: &[1, 2, 3, 4, 5, 6, 7, 8, 9, 10, 11, 12, 13, 14, 15],
    },
    Growth {
        call: Grow::Resize,
        grown: &[1, 2, 3, 9, 9],
    },
    Growth {
        call: Grow::ResizeWith,
        grown: &[1, 2, 3, 9, 9],
    },
];

/// Whether the call gave back what was handed in where it was refused, and called no closure.
/// `None` if it was not refused.
fn refusal_of<H: Heap>(call: Grow, list: &mut List<H>) -> Option<bool> {
    match call {
        Grow::Push => Some(list.push(9).err()? == 9),
        Grow::Insert => Some(list.insert(0, 9).err()? == 9),
        Grow::Extend => is_not_extended(list).then_some(true),
        Grow::Resize => list.resize(NZUsize!(5), 9).is_err().then_some(true),
        Grow::ResizeWith => {
            let (refused, calls) = resizing(list);
            refused.then_some(calls == 0)
        }
    }
}

/// Whether the list refuses the numbers from 4 to 15, of an iterator that may give none of them.
fn is_not_extended<H: Heap>(list: &mut List<H>) -> bool {
    list.extend((4u8..=15).filter(|item| *item > 0)).is_err()
}

/// Whether the list refuses to be one of five by calls of a closure, and how many of these it made.
fn resizing<H: Heap>(list: &mut List<H>) -> (bool, u32) {
    let mut calls = 0u32;
    let resized = list.resize_with(NZUsize!(5), || {
        calls = calls.saturating_add(1);
        9
    });
    (resized.is_err(), calls)
}

impl Growth {
    /// The outcome of the call on this list, which is 1, 2, 3.
    fn grow<H: Heap>(&self, heap: H, granted: u64, list: &mut List<H>) -> Outcome {
        heap.restart(granted);
        match refusal_of(self.call, list) {
            None => full(list.as_slice() == self.grown),
            Some(right) => if_unchanged(list, refused(right)),
        }
    }
}

impl Refusable for Growth {
    fn outcome<H: Heap>(&self, heap: H, granted: u64) -> Outcome {
        match three(heap) {
            Ok(mut list) => self.grow(heap, granted, &mut list),
            Err(_) => Outcome::Wrong,
        }
    }

    fn may_do_without(&self) -> bool {
        matches!(self.call, Grow::Extend)
    }
}

/// A call that makes a list.
#[derive(Clone, Copy)]
enum Make {
    One,
    Iterator,
    Collect,
    Slice,
    Array,
    ArrayRef,
    Macro,
    MacroOfNumber,
    MacroOfNonZero,
    MacroOfVariable,
}

/// Each of them, and the list that it makes.
static MAKES: [(Make, &[u8]); 10] = [
    (Make::One, &[7]),
    (Make::Iterator, &[1, 2, 3]),
    (Make::Collect, &[1, 2, 3]),
    (Make::Slice, &[1, 2, 3]),
    (Make::Array, &[1, 2, 3]),
    (Make::ArrayRef, &[1, 2, 3]),
    (Make::Macro, &[1, 2, 3]),
    (Make::MacroOfNumber, &[4, 4, 4]),
    (Make::MacroOfNonZero, &[4, 4, 4]),
    (Make::MacroOfVariable, &[4, 4, 4]),
];

/// What the call returns for 1, 2, 3.
fn made_by<H: Heap>(call: Make, heap: H, items: &[u8]) -> Result<List<H>, Error> {
    match call {
        Make::One => NonEmptyVec::new(heap, 7u8),
        Make::Iterator => NonEmptyVec::try_from_iter(heap, [1u8, 2, 3]),
        Make::Collect => TryCollect::try_collect([1u8, 2, 3].into_iter(), heap),
        Make::Slice => NonEmptyVec::try_from_slice(heap, items),
        Make::Array => NonEmptyVec::try_from_array(heap, [1u8, 2, 3]),
        Make::ArrayRef => NonEmptyVec::try_from_array_ref(heap, &[1u8, 2, 3]),
        Make::Macro => three(heap),
        Make::MacroOfNumber => non_empty_vec!(heap => 4u8; 3),
        Make::MacroOfNonZero => non_empty_vec!(heap => 4u8; NZUsize!(3)),
        Make::MacroOfVariable => {
            let count = NZUsize!(3);
            non_empty_vec!(heap => 4u8; @count)
        }
    }
}

/// The outcome of a result where these items are wanted, and no closure is called before a failure.
fn outcome_of<H: Heap>(made: Result<List<H>, Error>, wanted: &[u8], calls: u32) -> Outcome {
    match made {
        Ok(made) => full(made.as_slice() == wanted),
        Err(error) => refused(error == Error::Memory && calls == 0),
    }
}

/// The outcome, if 1, 2, 3 are as they were.
fn if_unchanged<H: Heap>(list: &List<H>, outcome: Outcome) -> Outcome {
    if list.as_slice() == [1, 2, 3].as_slice() {
        outcome
    } else {
        Outcome::Wrong
    }
}

/// A call that makes a list, and the list.
#[derive(Drop)]
struct Making(Make, &'static [u8]);

impl Making {
    /// The outcome of the call on this list, which is 1, 2, 3 and has to stay.
    fn make<H: Heap>(&self, heap: H, granted: u64, list: &List<H>) -> Outcome {
        heap.restart(granted);
        let outcome = outcome_of(made_by(self.0, heap, list.as_slice()), self.1, 0);
        if_unchanged(list, outcome)
    }
}

impl Refusable for Making {
    fn outcome<H: Heap>(&self, heap: H, granted: u64) -> Outcome {
        match three(heap) {
            Ok(list) => self.make(heap, granted, &list),
            Err(_) => Outcome::Wrong,
        }
    }
}

/// A call that makes a list of another one.
#[derive(Clone, Copy)]
enum Remake {
    Clone,
    Map,
    MapInto,
}

static REMAKES: [Remake; 3] = [Remake::Clone, Remake::Map, Remake::MapInto];

/// A clone of the list.
fn cloned<H: Heap>(list: &List<H>) -> Result<List<H>, Error> {
    Ok(list.clone()?)
}

/// The item, by a call that is counted.
fn counted(item: u8, calls: &mut u32) -> u8 {
    *calls = calls.saturating_add(1);
    item
}

/// The outcome of the call on 1, 2, 3, borrowed and owned, with no closure called before a failure.
fn remade_by<H: Heap>(call: Remake, list: &List<H>, owned: List<H>) -> Outcome {
    let mut calls = 0u32;
    let made = match call {
        Remake::Clone => cloned(list),
        Remake::Map => list.map(|item| counted(*item, &mut calls)),
        Remake::MapInto => owned.map_into(|item| counted(item, &mut calls)),
    };
    outcome_of(made, &[1, 2, 3], calls)
}

impl Refusable for Remake {
    fn outcome<H: Heap>(&self, heap: H, granted: u64) -> Outcome {
        let Ok(list) = three(heap) else {
            return Outcome::Wrong;
        };
        let Ok(owned) = three(heap) else {
            return Outcome::Wrong;
        };
        heap.restart(granted);
        if_unchanged(&list, remade_by(*self, &list, owned))
    }
}

#[test]
fn each_request_is_refused_in_turn(rt: HostRuntime) {
    for (at, growth) in GROWTHS.iter().enumerate() {
        assert!(rt;
            makes_requests(rt.alloc(), growth, 1),
            "a longer list: {at}"
        );
    }
    for (at, (call, items)) in MAKES.iter().enumerate() {
        assert!(rt;
            makes_requests(rt.alloc(), &Making(*call, items), 1),
            "a list: {at}"
        );
    }
    for (at, call) in REMAKES.iter().enumerate() {
        assert!(rt;
            makes_requests(rt.alloc(), call, 1),
            "a list of another: {at}"
        );
    }
}

/// Removes four of six items, and returns whether the two that came back are right and no closure
/// was called.
fn shorten<H: Heap>(list: &mut List<H>) -> Result<bool, Error> {
    if list.len().get() != 6 {
        return Ok(false);
    }
    let back = (list.remove(1), list.pop());
    list.resize(NZUsize!(4), 0)?;
    list.resize(NZUsize!(3), 0)?;
    let mut called = false;
    list.resize_with(NZUsize!(3), || {
        called = true;
        0
    })?;
    list.resize_with(NZUsize!(2), || {
        called = true;
        0
    })?;
    Ok(back == (Some(2), Some(6)) && !called)
}

/// Whether six items get to be 1 and 3.
fn is_shortened<H: Heap>(list: &mut List<H>) -> Option<bool> {
    let right = shorten(list).ok()?;
    Some(right && list.as_slice() == [1, 3].as_slice() && list.is_writable())
}

#[test]
fn a_list_gets_shorter_without_memory(rt: HostRuntime) {
    let heap = Refusing::all_after(rt.alloc(), u64::MAX);
    let mut list = non_empty_vec!(&heap => 1u8, 2, 3, 4, 5, 6).expect(&rt, "memory");
    heap.restart(0);
    assert!(rt; is_shortened(&mut list) == Some(true) && !heap.has_refused());
}

/// Whether 1, 3 is reversed, and 7 written for the first of them.
fn is_changed<H: Heap>(list: &mut List<H>) -> bool {
    list.mutate(|items| items.reverse());
    *list.first_mut() = 7;
    list.len().get() == 2 && *list.last() == 1 && list[0] == 7
}

/// The items of a list that is consumed and rebuilt twice.
fn given_up<H: Heap>(list: List<H>) -> Result<Vec<u8, H>, Error> {
    let items = NonEmptyVec::from_unchecked(list.into_vec()).into_vec();
    Ok(NonEmptyVec::try_from(items)?.into())
}

#[test]
fn a_list_is_changed_and_given_up_without_memory(rt: HostRuntime) {
    let heap = Refusing::all_after(rt.alloc(), u64::MAX);
    let mut list = non_empty_vec!(&heap => 1u8, 3).expect(&rt, "memory");
    heap.restart(0);
    let changed = is_changed(&mut list);
    let items = given_up(list).expect(&rt, "memory");
    assert!(rt; changed && items.as_slice() == [7, 1].as_slice() && !heap.has_refused());
}

#[test]
fn a_list_of_nothing_is_refused_without_memory(rt: HostRuntime) {
    let heap = Refusing::all_after(rt.alloc(), 0);
    let none: Vec<u8, _> = Vec::new(&heap);
    let refusal = NonEmptyVec::try_from(none).err();
    assert!(rt; refusal == Some(Error::Empty) && !heap.has_refused());
}
