//! Inputs read with a heap that refuses each request for more than a number of bytes.
//!
//! With its first item a reader of lists reserves room for as many items as the input states, as
//! there are bytes after the length, and as 1,024 allow, whichever are the fewest; once these are
//! read, for as many more as the bytes hold that are left. A reader that reserved room for a stated
//! length, or for all the bytes there are, would fail to allocate it here: it would return
//! `Memory`, or read on and have been refused.
use crate::readings::outcome;
use commonware_utils::codec::{Error, RangeCfg};
use commonware_utils::ordered::{BiMap, Map, Set};
use commonware_utils::vec::NonEmptyVec;
use std::alloc::Global;
use std::num::NonZeroUsize;
use std::process::Abort;
use test_equipment::Refusing;
use test_equipment::walk::Heap;

/// More than a reader of few items needs at once.
const MOST_BYTES: usize = 512;

/// For how many items room is reserved with the first, at most.
const MOST_ROOM: usize = 1024;

/// How many bytes a number of the type `usize` takes in memory.
const NUMBER: usize = 8;

/// What an input is decoded as.
#[derive(Clone, Copy)]
enum Form {
    List,
    Set,
    Map,
    BiMap,
    NonEmpty,
    /// A list of lists.
    Nest,
    /// A list of lists, of which none is ever empty.
    NonEmptyNest,
    /// Lists by their keys.
    Lists,
    /// A list of numbers.
    Numbers,
    /// A set of numbers.
    NumberSet,
    /// A list of numbers, which is never empty.
    SomeNumbers,
}

impl Form {
    /// What reading the form from the bytes returns.
    fn read<H: Heap>(self, heap: H, bytes: &[u8]) -> (Option<Error>, usize) {
        let any = RangeCfg::from(..);
        let some: RangeCfg<NonZeroUsize> = RangeCfg::from(..);
        match self {
            Form::List => outcome::<Vec<u8, _>, _>(heap, bytes, &(any, ())),
            Form::Set => outcome::<Set<u8, _>, _>(heap, bytes, &(any, ())),
            Form::Map => outcome::<Map<u8, u8, _>, _>(heap, bytes, &(any, (), ())),
            Form::BiMap => outcome::<BiMap<u8, u8, _>, _>(heap, bytes, &(any, (), ())),
            Form::NonEmpty => outcome::<NonEmptyVec<u8, _>, _>(heap, bytes, &(some, ())),
            Form::Nest => outcome::<Vec<Vec<u8, _>, _>, _>(heap, bytes, &(any, (any, ()))),
            Form::NonEmptyNest => {
                outcome::<NonEmptyVec<NonEmptyVec<u8, _>, _>, _>(heap, bytes, &(some, (some, ())))
            }
            Form::Lists => outcome::<Map<u8, Vec<u8, _>, _>, _>(heap, bytes, &(any, (), (any, ()))),
            Form::Numbers => outcome::<Vec<usize, _>, _>(heap, bytes, &(any, any)),
            Form::NumberSet => outcome::<Set<usize, _>, _>(heap, bytes, &(any, any)),
            Form::SomeNumbers => outcome::<NonEmptyVec<usize, _>, _>(heap, bytes, &(some, any)),
        }
    }
}

/// The bytes of the lengths 100000 and 4294967295.
static STATED: [&[u8]; 2] = [b"\xa0\x8d\x06", b"\xff\xff\xff\xff\x0f"];

/// A form, and what is before and after the stated length: good items, and too few.
static SHORT: [(Form, &[u8], &[u8]); 10] = [
    (Form::List, b"", b"\x01\x02\x03\x04\x05"),
    (Form::Set, b"", b"\x01\x02\x03\x04\x05"),
    (Form::Map, b"", b"\x01\x02\x03\x04\x05"),
    (Form::BiMap, b"", b"\x01\x02\x03\x04\x05"),
    (Form::NonEmpty, b"", b"\x01\x02\x03\x04\x05"),
    (Form::Nest, b"", b"\x01\x07\x02\x05\x06"),
    (Form::Nest, b"\x02\x01\x07", b"\x05\x06"),
    (Form::NonEmptyNest, b"", b"\x01\x07\x02\x05\x06"),
    (Form::NonEmptyNest, b"\x02\x01\x07", b"\x05\x06"),
    (Form::Lists, b"\x01\x09\x01", b"\x05\x06"),
];

/// Whether reading the form from the bytes returns this with little memory at once, and none is
/// refused.
fn results_in(alloc: Global, form: Form, bytes: &[u8], wanted: (Option<Error>, usize)) -> bool {
    let heap = Refusing::above(alloc, MOST_BYTES);
    form.read(&heap, bytes) == wanted && !heap.has_refused()
}

/// The bytes of a stated length, with those before and after it.
fn joined(rt: &impl Abort, alloc: Global, before: &[u8], stated: &[u8], after: &[u8]) -> Vec<u8> {
    let mut bytes = before.to_vec(alloc).expect(rt, "memory");
    bytes.extend_from_slice(stated).expect(rt, "memory");
    bytes.extend_from_slice(after).expect(rt, "memory");
    bytes
}

/// Whether the end of the input is met after each stated length, between these bytes.
fn is_short(rt: &impl Abort, alloc: Global, form: Form, before: &[u8], after: &[u8]) -> bool {
    for stated in &STATED {
        let bytes = joined(rt, alloc, before, stated, after);
        if !results_in(alloc, form, &bytes, (Some(Error::EndOfBuffer), 0)) {
            return false;
        }
    }
    true
}

#[test]
fn a_stated_length_alone_makes_no_room(rt: HostRuntime) {
    for (at, (form, before, after)) in SHORT.iter().enumerate() {
        assert!(rt; is_short(&rt, rt.alloc(), *form, before, after), "{at}");
    }
}

/// A form, and bytes that it is read from.
static WHOLE: [(Form, &[u8]); 8] = [
    (Form::List, b"\x05\x01\x02\x03\x02\x01"),
    (Form::Set, b"\x05\x01\x02\x03\x04\x05"),
    (Form::Map, b"\x02\x01\x02\x02\x07\x07"),
    (Form::BiMap, b"\x02\x01\x02\x02\x08\x07"),
    (Form::NonEmpty, b"\x01\x00"),
    (Form::Nest, b"\x03\x01\x07\x00\x02\x05\x06"),
    (Form::NonEmptyNest, b"\x02\x01\x07\x02\x05\x06"),
    (Form::Lists, b"\x01\x09\x01\x02\x05\x06"),
];

/// With as little memory at once, what is not short is accepted.
#[test]
fn short_lists_are_accepted(rt: HostRuntime) {
    for (form, bytes) in &WHOLE {
        assert!(rt;
            results_in(rt.alloc(), *form, bytes, (None, bytes.len())),
            "{bytes:?}"
        );
    }
}

/// The length, a number repeated, and bytes `ff`, which begin no number.
fn numbers(
    rt: &impl Abort,
    alloc: Global,
    length: &[u8],
    number: &[u8],
    times: usize,
    faulty: usize,
) -> Vec<u8> {
    let mut bytes = length.to_vec(alloc).expect(rt, "memory");
    for _ in 0..times {
        bytes.extend_from_slice(number).expect(rt, "memory");
    }
    for _ in 0..faulty {
        bytes.extend_from_slice(b"\xff").expect(rt, "memory");
    }
    bytes
}

/// A number, how often it is read before a fault, how many bytes follow that begin none, and for
/// how many numbers the greatest allocation is: for a number a byte, and for no more than 1,024,
/// until these are read; then for as many more as the bytes hold, if each takes as many as those
/// before.
static ROOMS: [(&[u8], usize, usize, usize); 7] = [
    (b"\x07", 1, 7, 8),
    (b"\x07", 1, 99, 100),
    (b"\x07", 1, 1023, MOST_ROOM),
    (b"\x07", 1, 5000, MOST_ROOM),
    (b"\x07", MOST_ROOM, 9000, MOST_ROOM),
    (b"\x07", MOST_ROOM + 1, 9000, MOST_ROOM + 1 + 9000),
    (b"\x87\x01", MOST_ROOM + 1, 9000, MOST_ROOM + 1 + 4500),
];

/// Whether the fault is met with `most` bytes at once, and with one less an allocation fails.
fn takes(alloc: Global, form: Form, bytes: &[u8], most: usize) -> bool {
    let heap = Refusing::above(alloc, most);
    let less = Refusing::above(alloc, most.saturating_sub(1));
    form.read(&heap, bytes) == (Some(Error::InvalidVarint), 0)
        && !heap.has_refused()
        && form.read(&less, bytes) == (Some(Error::Memory), 0)
        && less.has_refused()
}

/// Whether each form of numbers takes just this much memory at once for the bytes.
fn each_takes(alloc: Global, bytes: &[u8], most: usize) -> bool {
    for form in [Form::Numbers, Form::NumberSet, Form::SomeNumbers] {
        if !takes(alloc, form, bytes, most) {
            return false;
        }
    }
    true
}

/// Room goes by the bytes that are there, whatever length is stated.
#[test]
fn room_goes_by_the_bytes_that_are_there(rt: HostRuntime) {
    for stated in &STATED {
        for (number, times, faulty, room) in &ROOMS {
            let bytes = numbers(&rt, rt.alloc(), stated, number, *times, *faulty);
            let right = each_takes(rt.alloc(), &bytes, room.saturating_mul(NUMBER));
            assert!(rt; right, "{stated:?} {times} {faulty}");
        }
    }
}
