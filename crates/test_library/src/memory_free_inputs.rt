//! Inputs that are decoded or refused without an allocation: the first one would fail.
use crate::readings::outcome;
use commonware_utils::codec::{Error, RangeCfg};
use commonware_utils::ordered::{BiMap, Map, Set};
use commonware_utils::vec::NonEmptyVec;
use std::num::NonZeroUsize;
use test_equipment::Refusing;
use test_equipment::walk::Heap;

/// What an input is decoded as.
#[derive(Clone, Copy)]
enum Form {
    Set,
    /// A map of at most two pairs.
    Map,
    BiMap,
    /// A list of at most three items.
    List,
    NonEmpty,
}

static TEXTS: [(Form, &[u8], Option<Error>); 23] = [
    (Form::Set, b"\xff\xff\xff\xff\x0f", Some(Error::EndOfBuffer)),
    (
        Form::Set,
        b"\xff\xff\xff\xff\x10",
        Some(Error::InvalidVarint),
    ),
    (Form::Set, b"\x02", Some(Error::EndOfBuffer)),
    (Form::Set, b"", Some(Error::EndOfBuffer)),
    (Form::Set, b"\x00", None),
    (Form::Map, b"\x00\x00", None),
    (Form::Map, b"\x00\x01\x07", Some(Error::InvalidLength(1))),
    (Form::Map, b"\x00\x80", Some(Error::EndOfBuffer)),
    (Form::Map, b"", Some(Error::EndOfBuffer)),
    (Form::Map, b"\x80\x00", Some(Error::InvalidVarint)),
    (
        Form::Map,
        b"\x03\x01\x02\x03",
        Some(Error::InvalidLength(3)),
    ),
    (Form::Map, b"\x02", Some(Error::EndOfBuffer)),
    (Form::BiMap, b"\x00\x00", None),
    (Form::BiMap, b"\x00\x05", Some(Error::InvalidLength(5))),
    (Form::BiMap, b"\x00", Some(Error::EndOfBuffer)),
    (Form::BiMap, b"\x02", Some(Error::EndOfBuffer)),
    (
        Form::BiMap,
        b"\xff\xff\xff\xff\x10",
        Some(Error::InvalidVarint),
    ),
    (Form::List, b"\x00", None),
    (
        Form::List,
        b"\x04\x01\x02\x03\x04",
        Some(Error::InvalidLength(4)),
    ),
    (Form::List, b"\x03", Some(Error::EndOfBuffer)),
    (Form::List, b"\x83\x00", Some(Error::InvalidVarint)),
    (
        Form::NonEmpty,
        b"\x00",
        Some(Error::Invalid("NonEmptyVec", "cannot decode empty vector")),
    ),
    (
        Form::NonEmpty,
        b"\xff\xff\xff\xff\x0f",
        Some(Error::EndOfBuffer),
    ),
];

impl Form {
    /// What reading the form from the bytes returns.
    fn read<H: Heap>(self, heap: H, bytes: &[u8]) -> (Option<Error>, usize) {
        let any = RangeCfg::from(..);
        let some: RangeCfg<NonZeroUsize> = RangeCfg::from(..);
        match self {
            Form::Set => outcome::<Set<u8, _>, _>(heap, bytes, &(any, ())),
            Form::Map => {
                outcome::<Map<u8, u8, _>, _>(heap, bytes, &(RangeCfg::from(..=2), (), ()))
            }
            Form::BiMap => outcome::<BiMap<u8, u8, _>, _>(heap, bytes, &(any, (), ())),
            Form::List => outcome::<Vec<u8, _>, _>(heap, bytes, &(RangeCfg::from(..=3), ())),
            Form::NonEmpty => outcome::<NonEmptyVec<u8, _>, _>(heap, bytes, &(some, ())),
        }
    }
}

/// Whether the row's input is read to its end, or refused for its error and not read.
fn is_read<H: Heap>(heap: H, row: &(Form, &[u8], Option<Error>)) -> bool {
    let (form, bytes, wanted) = row;
    let (error, read) = form.read(heap, bytes);
    let whole = if wanted.is_none() { bytes.len() } else { 0 };
    error == *wanted && read == whole
}

#[test]
fn what_needs_no_memory_is_read_without(rt: HostRuntime) {
    let heap = Refusing::all_after(rt.alloc(), 0);
    for (at, row) in TEXTS.iter().enumerate() {
        assert!(rt; is_read(&heap, row) && !heap.has_refused(), "{at}");
    }
}
