//! The tests of the Rust crate's module `vec`, each with the name that it has there.
ghost use Rattle.std.specs.Prelude.{◌≡◌, ◌≤◌, ◌∷◌, [], length};

use crate::bench::rows::non_empty_lists::EMPTY;
use crate::bench::{is_read_as, is_written_as, refuses};
use crate::codec::{EncodeSize, Error as CodecError, RangeCfg, round_trip};
use crate::vec::{Bounded, Error, Mutate, NonEmptyVec, non_empty_fault_law};
use crate::{NZUsize, TryCollect, TryFromIterator, non_empty_vec};
use std::alloc::Global;
use std::num::NonZeroUsize;
use std::process::Abort;

/// 1, 2, 3
fn one_two_three(rt: &impl Abort, alloc: Global) -> NonEmptyVec<u8, Global>
    ensures { result ≡ 1 ∷ 2 ∷ 3 ∷ [] }
{
    non_empty_vec!(alloc => 1, 2, 3).expect(rt, "memory")
}

/// The sum of the items.
fn sum(items: &[u8]) -> u8 {
    let mut sum = 0u8;
    for item in items {
        sum = sum.wrapping_add(*item);
    }
    sum
}

/// Whether the list has these items, and their number, the first and the last of them.
fn has(list: &NonEmptyVec<u8, Global>, items: &[u8]) -> bool {
    let ends = (items.first(), items.last());
    list.as_slice() == items
        && list.len().get() == items.len()
        && ends == (Some(list.first()), Some(list.last()))
}

/// Items that are pushed, and what each of them puts out.
static PUSHES: [(u8, Option<u8>); 4] = [(1, None), (2, None), (3, None), (4, Some(1))];

/// Whether each push puts out what is beside its item.
fn evicts(queue: &mut Bounded<u8, Global>, pushes: &[(u8, Option<u8>)]) -> bool {
    for (item, out) in pushes {
        if queue.push(*item) != Ok(*out) {
            return false;
        }
    }
    true
}

/// Whether the queue has this capacity and these items, the oldest first.
fn queues(queue: &Bounded<u8, Global>, capacity: NonZeroUsize, items: &[u8]) -> bool {
    queue.capacity() == capacity && queue.iter().eq(items.iter())
}

/// Whether a queue of this capacity evicts so, and has these items after the pushes.
fn keeps_last(
    alloc: Global,
    capacity: NonZeroUsize,
    pushes: &[(u8, Option<u8>)],
    left: &[u8],
) -> bool {
    let mut queue = Bounded::new(alloc, capacity);
    evicts(&mut queue, pushes) && queues(&queue, capacity, left)
}

#[test]
fn test_bounded_push_evicts_oldest(rt: HostRuntime) {
    assert!(rt;
        keeps_last(rt.alloc(), NZUsize!(3), &PUSHES, &[2, 3, 4])
            && keeps_last(rt.alloc(), NZUsize!(1), &[(5, None), (6, Some(5))], &[6])
    );
}

/// Whether an empty queue of two takes 1, 2 and 3 where it has room, and gives 1.
fn reuses_room(queue: &mut Bounded<u8, Global>) -> bool {
    queue.pop_front() == None
        && queue.push(1) == Ok(None)
        && queue.push(2) == Ok(None)
        && queue.pop_front() == Some(1)
        && queue.push(3) == Ok(None)
}

/// Whether a queue of 2 and 3, which is full, takes 4.
fn takes_four(queue: &mut Bounded<u8, Global>) -> bool {
    queue.iter().eq([2, 3].iter())
        && queue.push(4) == Ok(Some(2))
        && queue.as_ref().iter().eq([3, 4].iter())
}

#[test]
fn test_bounded_pop_front_reuses_capacity(rt: HostRuntime) {
    let mut queue = Bounded::new(rt.alloc(), NZUsize!(2));
    assert!(rt; reuses_room(&mut queue) && takes_four(&mut queue));
}

#[test]
fn test_bounded_into_inner(rt: HostRuntime) {
    let mut queue = Bounded::new(rt.alloc(), NZUsize!(2));
    assert!(rt;
        queue.push(1u8) == Ok(None)
            && queue.push(2) == Ok(None)
            && queue.into_inner().iter().eq([1, 2].iter())
    );
}

#[test]
fn test_new(rt: HostRuntime) {
    let v = NonEmptyVec::new(rt.alloc(), 42u8).expect(&rt, "memory");
    assert!(rt; has(&v, &[42]));
}

#[test]
fn test_is_singleton(rt: HostRuntime) {
    let one = non_empty_vec!(rt.alloc() => 42u8).expect(&rt, "memory");
    let two = non_empty_vec!(rt.alloc() => 1u8, 2).expect(&rt, "memory");
    assert!(rt;
        one.is_singleton() && !two.is_singleton() && !one_two_three(&rt, rt.alloc()).is_singleton()
    );
}

/// Whether the result is the list of these items.
fn is_list(answer: Result<NonEmptyVec<u8, Global>, Error>, items: &[u8]) -> bool {
    match answer {
        Ok(list) => has(&list, items),
        Err(_) => false,
    }
}

/// Whether lists are made of items that are written out.
fn are_of_items(alloc: Global) -> bool {
    is_list(non_empty_vec!(alloc => 1, 2, 3), &[1, 2, 3])
        && is_list(non_empty_vec!(alloc => 1, 2, 3,), &[1, 2, 3])
        && is_list(non_empty_vec!(alloc => 42), &[42])
        && is_list(non_empty_vec!(alloc => 7, 8, 9, 7, 8), &[7, 8, 9, 7, 8])
}

/// Whether lists are made of an item and a number.
fn are_repeats(alloc: Global, n: NonZeroUsize) -> bool {
    is_list(non_empty_vec!(alloc => 42; 5), &[42; 5])
        && is_list(non_empty_vec!(alloc => 0; 1), &[0])
        && is_list(non_empty_vec!(alloc => 99; NZUsize!(3)), &[99; 3])
        && is_list(non_empty_vec!(alloc => 4; 3), &[4, 4, 4])
        && is_list(non_empty_vec!(alloc => 7; @n), &[7, 7, 7, 7])
}

#[test]
fn test_macro(rt: HostRuntime) {
    let whole = vec![in rt.alloc(); 1u8, 2, 3].expect(&rt, "memory");
    assert!(rt;
        are_of_items(rt.alloc())
            && are_repeats(rt.alloc(), NZUsize!(4))
            && has(&non_empty_vec!(@whole), &[1, 2, 3])
    );
}

#[test]
fn test_try_from_vec(rt: HostRuntime) {
    let v = NonEmptyVec::try_from(vec![in rt.alloc(); 1u8, 2, 3].expect(&rt, "memory")).expect(
        &rt, "memory",
    );
    assert!(rt; has(&v, &[1, 2, 3]));
    let none: Vec<u8> = Vec::new(rt.alloc());
    assert!(rt; NonEmptyVec::try_from(none).err() == Some(Error::Empty));
}

#[test]
fn test_try_from_slice(rt: HostRuntime) {
    let v = NonEmptyVec::try_from_slice(rt.alloc(), [1u8, 2, 3].as_slice()).expect(&rt, "memory");
    assert!(rt; has(&v, &[1, 2, 3]));
    let none: &[u8] = &[];
    let refused = NonEmptyVec::try_from_slice(rt.alloc(), none);
    assert!(rt; refused.err() == Some(Error::Empty));
}

#[test]
fn test_try_from_array(rt: HostRuntime) {
    let v = NonEmptyVec::try_from_array(rt.alloc(), [1u8, 2, 3]).expect(&rt, "memory");
    let w = NonEmptyVec::try_from_array_ref(rt.alloc(), &[1u8, 2, 3]).expect(&rt, "memory");
    assert!(rt; has(&v, &[1, 2, 3]) && v == w);
    assert!(rt;
        NonEmptyVec::try_from_array(rt.alloc(), [0u8; 0]).err() == Some(Error::Empty)
            && NonEmptyVec::try_from_array_ref(rt.alloc(), &[0u8; 0]).err() == Some(Error::Empty)
    );
}

#[test]
fn test_try_from_iterator(rt: HostRuntime) {
    let v: NonEmptyVec<u8, Global> = TryCollect::try_collect(1u8..=3, rt.alloc()).expect(
        &rt, "memory",
    );
    assert!(rt; has(&v, &[1, 2, 3]));
    let none = std::iter::empty::<u8>();
    let refused: Result<NonEmptyVec<u8, Global>, _> = TryCollect::try_collect(none, rt.alloc());
    assert!(rt;
        refused.err() == Some(Error::Empty)
            && NonEmptyVec::try_from_iter(rt.alloc(), [0u8; 0]).err() == Some(Error::Empty)
    );
}

#[test]
fn test_first_last(rt: HostRuntime) {
    let mut v = one_two_three(&rt, rt.alloc());
    assert!(rt; has(&v, &[1, 2, 3]));
    *v.first_mut() = 10;
    *v.last_mut() = 30;
    assert!(rt; has(&v, &[10, 2, 30]));
}

#[test]
fn test_push(rt: HostRuntime) {
    let mut v = non_empty_vec!(rt.alloc() => 1).expect(&rt, "memory");
    assert!(rt; v.push(2).is_ok() && v.push(3).is_ok() && has(&v, &[1, 2, 3]));
}

#[test]
fn test_insert(rt: HostRuntime) {
    let mut v = non_empty_vec!(rt.alloc() => 1, 3).expect(&rt, "memory");
    assert!(rt; v.insert(1, 2).is_ok() && has(&v, &[1, 2, 3]));
    let mut ends = non_empty_vec!(rt.alloc() => 1u8, 2, 3).expect(&rt, "memory");
    assert!(rt;
        ends.insert(3, 9) == Ok(())
            && has(&ends, &[1, 2, 3, 9])
            && ends.insert(0, 8) == Ok(())
            && has(&ends, &[8, 1, 2, 3, 9])
    );
}

#[test]
fn test_extend(rt: HostRuntime) {
    let mut v = non_empty_vec!(rt.alloc() => 1).expect(&rt, "memory");
    assert!(rt; v.extend([2, 3, 4]).is_ok() && has(&v, &[1, 2, 3, 4]));
}

/// Whether the list has these items, once it has so many, with 0 for what it lacks.
fn is_resized(v: &mut NonEmptyVec<u8, Global>, len: NonZeroUsize, items: &[u8]) -> bool {
    v.resize(len, 0).is_ok() && has(v, items)
}

#[test]
fn test_resize(rt: HostRuntime) {
    let mut v = non_empty_vec!(rt.alloc() => 1, 2).expect(&rt, "memory");
    assert!(rt;
        is_resized(&mut v, NZUsize!(5), &[1, 2, 0, 0, 0])
            && is_resized(&mut v, NZUsize!(2), &[1, 2])
            && is_resized(&mut v, NZUsize!(1), &[1])
    );
}

#[test]
fn test_resize_with(rt: HostRuntime) {
    let mut v = non_empty_vec!(rt.alloc() => 1).expect(&rt, "memory");
    let mut counter = 0u8;
    v.resize_with(NZUsize!(4), || {
        counter = counter.wrapping_add(1);
        counter.wrapping_mul(10)
    })
    .expect(&rt, "memory");
    assert!(rt; has(&v, &[1, 10, 20, 30]));
    let mut called = false;
    v.resize_with(NZUsize!(2), || {
        called = true;
        0
    })
    .expect(&rt, "memory");
    assert!(rt; has(&v, &[1, 10]) && !called);
}

#[test]
fn test_pop(rt: HostRuntime) {
    let mut v = one_two_three(&rt, rt.alloc());
    for (out, left) in [(Some(3), 2), (Some(2), 1), (None, 1)] {
        assert!(rt; v.pop() == out && v.len().get() == left);
    }
    assert!(rt; has(&v, &[1]));
}

#[test]
fn test_remove(rt: HostRuntime) {
    let mut v = one_two_three(&rt, rt.alloc());
    assert!(rt;
        v.remove(1) == Some(2)
            && has(&v, &[1, 3])
            && v.remove(0) == Some(1)
            && has(&v, &[3])
            && v.remove(0) == None
            && has(&v, &[3])
    );
}

#[test]
fn test_mutate(rt: HostRuntime) {
    let mut v = non_empty_vec!(rt.alloc() => 3, 1, 2, 1).expect(&rt, "memory");
    v.mutate(
        |items|
            requires { 1 ≤ length items.old.items }
            ensures { 1 ≤ length items.new.items }
        {
            items.sort_unstable();
            items.dedup();
        },
    );
    assert!(rt; has(&v, &[1, 2, 3]));
    let sum = v.mutate(|items| sum(items));
    assert!(rt; sum == 6);
}

#[test]
fn test_deref(rt: HostRuntime) {
    let v = non_empty_vec!(rt.alloc() => 3u8, 1, 2).expect(&rt, "memory");
    assert!(rt; has(&v, &[3, 1, 2]) && v.as_slice().contains(&2));
}

#[test]
fn test_deref_mut(rt: HostRuntime) {
    let mut v = non_empty_vec!(rt.alloc() => 3, 1, 2).expect(&rt, "memory");
    v.as_mut_slice().sort_unstable();
    assert!(rt; has(&v, &[1, 2, 3]));
    v.as_mut_slice().reverse();
    assert!(rt; has(&v, &[3, 2, 1]));
    let items = v.as_mut_slice();
    if items.len() == 3 {
        items.swap(0, 2);
    }
    assert!(rt; has(&v, &[1, 2, 3]));
}

#[test]
fn test_into_vec(rt: HostRuntime) {
    let items = one_two_three(&rt, rt.alloc()).into_vec();
    assert!(rt; items.as_slice() == [1, 2, 3].as_slice());
}

#[test]
fn test_map(rt: HostRuntime) {
    let v = one_two_three(&rt, rt.alloc());
    let doubled = v.map(|item| item.wrapping_mul(2)).expect(&rt, "memory");
    assert!(rt; has(&doubled, &[2, 4, 6]) && has(&v, &[1, 2, 3]));
}

#[test]
fn test_map_into(rt: HostRuntime) {
    let doubled = one_two_three(&rt, rt.alloc())
        .map_into(|item| item.wrapping_mul(2))
        .expect(&rt, "memory");
    assert!(rt; has(&doubled, &[2, 4, 6]));
}

#[test]
fn test_from_non_empty_vec(rt: HostRuntime) {
    let items: Vec<u8> = one_two_three(&rt, rt.alloc()).into();
    assert!(rt; items.as_slice() == [1, 2, 3].as_slice());
}

#[test]
fn test_index(rt: HostRuntime) {
    let mut v = one_two_three(&rt, rt.alloc());
    assert!(rt; v[0] == 1 && v[1] == 2 && v[2] == 3 && v.as_slice()[0..2] == [1, 2]);
    let items = v.as_mut_slice();
    items[0] = 10;
    items[1..3].copy_from_slice(&[20, 30]);
    assert!(rt; has(&v, &[10, 20, 30]));
}

/// The sum of the items that a loop borrows.
fn sum_of(list: &NonEmptyVec<u8, Global>) -> u8 {
    let mut sum = 0u8;
    for item in list {
        sum = sum.wrapping_add(*item);
    }
    sum
}

/// Doubles the items, in a loop over the slice.
fn double(list: &mut NonEmptyVec<u8, Global>) {
    for item in list.as_mut_slice() {
        *item = item.wrapping_mul(2);
    }
}

/// Adds ten to the items, in a loop over the list.
fn add_ten(list: &mut NonEmptyVec<u8, Global>) {
    for item in list {
        *item = item.wrapping_add(10);
    }
}

/// Whether 1, 2 and 3 are borrowed, from both ends.
fn borrows(list: &NonEmptyVec<u8, Global>) -> bool {
    sum_of(list) == 6
        && list.into_iter().eq([1, 2, 3].iter())
        && list.into_iter().rev().eq([3, 2, 1].iter())
}

#[test]
fn test_iterators(rt: HostRuntime) {
    let mut v = one_two_three(&rt, rt.alloc());
    assert!(rt; borrows(&v));
    double(&mut v);
    assert!(rt; has(&v, &[2, 4, 6]));
    add_ten(&mut v);
    assert!(rt; has(&v, &[12, 14, 16]) && v.into_iter().eq([12, 14, 16]));
}

/// Whether the list of 1, 2 and 3 has its bytes, and what follows them is left.
fn is_coded(
    alloc: Global,
    list: &NonEmptyVec<u8, Global>,
    cfg: &(RangeCfg<NonZeroUsize>, ()),
) -> bool {
    is_written_as(alloc, list, b"\x03\x01\x02\x03")
        && is_read_as(alloc, b"\x03\x01\x02\x03\xff", cfg, list, 4)
}

#[test]
fn test_codec_roundtrip(rt: HostRuntime) {
    let alloc = rt.alloc();
    let cfg = (RangeCfg::from(NZUsize!(1)..=NZUsize!(10)), ());
    non_empty_fault_law::<u8, _>(alloc, cfg.0, &());
    let list = one_two_three(&rt, alloc);
    assert!(rt; is_coded(alloc, &list, &cfg) && list.is_writable());
    let (again, left) = round_trip(alloc, &list, b"\xff\xff", &cfg).expect(&rt, "a value");
    assert!(rt; again == list && left == 2);
}

/// Whether the empty list is written as its length.
fn is_empty_written(alloc: Global) -> bool {
    let empty: Vec<u8> = Vec::new(alloc);
    is_written_as(alloc, &empty, b"\x00")
}

/// Whether the bytes of the empty list are refused with this fault under the range.
fn is_empty_refused(alloc: Global, range: RangeCfg<NonZeroUsize>, fault: CodecError) -> bool {
    refuses::<NonEmptyVec<u8, _>, _>(alloc, &(range, ()), &[(b"\x00", fault)])
}

#[test]
fn test_codec_rejects_empty(rt: HostRuntime) {
    let (alloc, ten) = (rt.alloc(), NZUsize!(10));
    assert!(rt;
        is_empty_written(alloc)
            && is_empty_refused(alloc, RangeCfg::from(..), EMPTY)
            && is_empty_refused(alloc, RangeCfg::from(..ten), EMPTY)
            && is_empty_refused(
                alloc,
                RangeCfg::from(NZUsize!(1)..ten),
                CodecError::InvalidLength(0),
            )
    );
}

#[test]
fn test_as_ref(rt: HostRuntime) {
    let v = one_two_three(&rt, rt.alloc());
    assert!(rt; v.as_slice() == [1, 2, 3].as_slice());
    let items: &Vec<u8> = v.as_ref();
    assert!(rt; items.as_slice() == [1, 2, 3].as_slice());
}
