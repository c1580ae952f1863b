//! Inputs that are refused, a table a reader: mostly of nests, each by its first fault.
use crate::Participant;
use crate::bench::refuses;
use crate::bench::rows::non_empty_lists::EMPTY;
use crate::bench::rows::sets::UNSORTED;
use crate::codec::{Error, RangeCfg};
use crate::ordered::{Map, Set};
use crate::vec::NonEmptyVec;

/// An input that is no list of lists. Over 100 GB would be reserved here, were room made for the
/// stated length after the first good item.
static NO_LISTS: [(&[u8], Error); 1] = [(b"\xff\xff\xff\xff\x0f\x00", Error::EndOfBuffer)];

/// Inputs that are no list of lists of lists: an innermost list is truncated, or its length is an
/// overlong varint.
static NO_DEEP_LISTS: [(&[u8], Error); 2] = [
    (b"\x01\x01\x02\x07", Error::EndOfBuffer),
    (b"\x01\x01\x82\x00", Error::InvalidVarint),
];

/// Inputs that are no set of participants: the indices 128 and 127, and one that is overlong.
static NO_SETS_OF_PARTICIPANTS: [(&[u8], Error); 2] = [
    (b"\x02\x80\x01\x7f", UNSORTED),
    (b"\x02\x01\x81\x00", Error::InvalidVarint),
];

/// An input that is no set of words: the second is truncated.
static NO_SETS_OF_WORDS: [(&[u8], Error); 1] = [(
    b"\x02\x00\x00\x00\x05\x00\x00\x00",
    Error::EndOfBuffer,
)];

/// Inputs that are no set of sets: an inner set that isn't sorted, an outer one, and an inner one
/// before a truncation.
static NO_SETS_OF_SETS: [(&[u8], Error); 3] = [
    (b"\x01\x02\x02\x01", UNSORTED),
    (b"\x02\x01\x05\x00", UNSORTED),
    (b"\x02\x02\x07\x07\x80", UNSORTED),
];

/// An input that is no set of sets of at most one item.
static NO_SETS_OF_SHORT_SETS: [(&[u8], Error); 1] = [(b"\x02\x00\x02", Error::InvalidLength(2))];

/// An input that is no map to sets: the set beside the one key repeats its item.
static NO_MAPS_TO_SETS: [(&[u8], Error); 1] = [(b"\x01\x05\x01\x02\x03\x03", UNSORTED)];

/// Inputs that are no list of non-empty lists: an inner list is empty, alone or before a
/// truncation, or is truncated.
static NO_FULL_LISTS: [(&[u8], Error); 3] = [
    (b"\x02\x01\x07\x00", EMPTY),
    (b"\x02\x00\x80", EMPTY),
    (b"\x02\x01\x07\x80", Error::EndOfBuffer),
];

#[test]
fn nothing_is_reserved_for_a_stated_length(rt: HostRuntime) {
    let bytes = (RangeCfg::from(..), ());
    let lists = (RangeCfg::from(..), bytes);
    let deep = (RangeCfg::from(..), lists);
    assert!(rt;
        refuses::<Vec<Vec<u8>>, _>(rt.alloc(), &lists, &NO_LISTS)
            && refuses::<Vec<Vec<Vec<u8>>>, _>(rt.alloc(), &deep, &NO_DEEP_LISTS)
    );
}

#[test]
fn inputs_that_are_no_set_of_numbers_are_refused(rt: HostRuntime) {
    let any = (RangeCfg::from(..), ());
    assert!(rt;
        refuses::<Set<Participant, _>, _>(rt.alloc(), &any, &NO_SETS_OF_PARTICIPANTS)
            && refuses::<Set<u32, _>, _>(rt.alloc(), &any, &NO_SETS_OF_WORDS)
    );
}

#[test]
fn the_first_fault_of_a_nest_is_named(rt: HostRuntime) {
    let alloc = rt.alloc();
    let (any, one) = (RangeCfg::from(..), RangeCfg::from(..=1));
    let maps = (any, (), (any, ()));
    assert!(rt;
        refuses::<Set<Set<u8, _>, _>, _>(alloc, &(any, (any, ())), &NO_SETS_OF_SETS)
            && refuses::<Set<Set<u8, _>, _>, _>(alloc, &(any, (one, ())), &NO_SETS_OF_SHORT_SETS)
            && refuses::<Map<u8, Set<u8, _>, _>, _>(alloc, &maps, &NO_MAPS_TO_SETS)
    );
    let lists = (RangeCfg::from(..), (RangeCfg::from(..), ()));
    assert!(rt; refuses::<NonEmptyVec<NonEmptyVec<u8, _>, _>, _>(alloc, &lists, &NO_FULL_LISTS));
}
