//! Items of a type of one value, which takes no bytes, with the laws of clones and codec
//! proved here.
ghost use Rattle.std.specs.Prelude.{[], refl};
ghost use Rattle.std.proofs.Common.{inl};
ghost use Rattle.std.proofs.Math.Nat.{le_refl};

use crate::bench::carried::bimaps::REPEATED;
use crate::bench::rows::non_empty_lists::EMPTY;
use crate::bench::rows::sets::UNSORTED;
use crate::bench::{is_coded_as, is_read_as, is_written_as, refuses};
use crate::codec::{
    Canonical, EncodeSize, Error, MaxEncodeSize, RangeCfg, Read, Source, Write, round_trip,
};
use crate::ordered::{self, BiMap, Map, Set};
use crate::vec::NonEmptyVec;
use crate::{EqClone, TryFromIterator, non_empty_vec};
use std::alloc::{AllocError, Allocator, Global};

/// The one value of its type.
#[derive(Clone, Copy, Debug, PartialEq, Eq, PartialOrd, Ord, Hash)]
struct Nothing;

impl EqClone for Nothing {
    ghost clones_are_equal = { λ _ _ _. refl };
}

impl EncodeSize for Nothing {
    ghost enc = { λ _. [] };

    ghost writable = { λ _. Unit {0} };

    ghost prefix_free = { λ _ _ _ _ _ _ _. refl };

    ghost text_of_bytes = { λ _ _. tt };

    fn encode_size(&self) -> usize {
        0
    }

    fn is_writable(&self) -> bool {
        true
    }
}

impl<A: Allocator> Write<A> for Nothing {
    fn write(&self, _sink: &mut Vec<u8, A>) -> Result<(), AllocError> {
        Ok(())
    }
}

impl MaxEncodeSize for Nothing {
    ghost MAX_ENCODE_SIZE = { 0 };

    const MAX_ENCODE_SIZE: usize = 0;

    ghost bounded = { λ _ _. le_refl 0 };
}

impl<A: Allocator> Read<A> for Nothing {
    type Cfg = ();

    ghost allowed = { λ _ _. Unit {0} };

    ghost fault = { λ _ _ _. ⊥ };

    ghost memory_free = { λ _ _. Unit {0} };

    ghost read_laws = { λ _ _. record {
      allowed_by_bytes = λ _ _ _ _ _ _. tt;
      one_fault = λ _ _ _ faulty _. absurd faulty;
      accepted_no_fault = λ _ _ _ _ _ faulty. faulty;
      accepted_or_faulty = λ text _. inl (
        record {},
        text,
        record {
          writable = tt;
          allowed = tt;
          begins = refl;
        },
      );
    } };

    fn read_cfg(_alloc: A, _src: &mut Source<'_>, _cfg: &()) -> Result<Nothing, Error> {
        Ok(Nothing)
    }
}

impl Canonical for Nothing {
    ghost canonical = { record {
      equal_by_bytes = λ _ _ _ _. ((λ _. refl), (λ _. refl));
      writable_together = λ _ _ _ _. tt;
    } };
}

/// Lengths of lists of nothing that are more than three.
static LONG: [(&[u8], Error); 2] = [
    (b"\x04", Error::InvalidLength(4)),
    (b"\xff\xff\xff\xff\x0f", Error::InvalidLength(4294967295)),
];

/// Whether nothing is written as no bytes, and read from them and before others.
fn takes_none(alloc: Global) -> bool {
    is_read_as(alloc, b"", &(), &Nothing, 0)
        && is_read_as(alloc, b"\x80", &(), &Nothing, 0)
        && is_written_as(alloc, &Nothing, b"")
        && Nothing::MAX_ENCODE_SIZE == 0
}

#[test]
fn nothing_takes_no_bytes(rt: HostRuntime) {
    let alloc = rt.alloc();
    assert!(rt; takes_none(alloc));
    let (again, left) = round_trip(alloc, &Nothing, b"\x01\x02", &()).expect(&rt, "a value");
    assert!(rt; again == Nothing && left == 2);
}

/// Whether the set has nothing once, and so it is written and read.
fn has_one(alloc: Global, set: &Set<Nothing, Global>) -> bool {
    let any = (RangeCfg::from(..), ());
    set.as_slice() == [Nothing].as_slice()
        && is_written_as(alloc, set, b"\x01")
        && is_read_as(alloc, b"\x01\x02", &any, set, 1)
}

/// Whether no set has nothing twice, neither one that is built nor one that is read.
fn is_second_refused(alloc: Global) -> bool {
    let any = (RangeCfg::from(..), ());
    Set::try_from_iter(alloc, [Nothing, Nothing]).err() == Some(ordered::Error::DuplicateKey)
        && refuses::<Set<Nothing, _>, _>(alloc, &any, &[(b"\x02", UNSORTED)])
}

#[test]
fn a_set_has_nothing_once(rt: HostRuntime) {
    let alloc = rt.alloc();
    let set = Set::from_iter_dedup(alloc, [Nothing, Nothing]).expect(&rt, "memory");
    assert!(rt; has_one(alloc, &set) && is_second_refused(alloc));
}

#[test]
fn a_list_has_nothing_as_often_as_it_says(rt: HostRuntime) {
    let alloc = rt.alloc();
    let few = (RangeCfg::from(..=3), ());
    let three = vec![in alloc; Nothing, Nothing, Nothing].expect(&rt, "memory");
    assert!(rt;
        is_written_as(alloc, &three, b"\x03")
            && is_read_as(alloc, b"\x03\xff", &few, &three, 1)
            && refuses::<Vec<Nothing>, _>(alloc, &few, &LONG)
    );
}

#[test]
fn a_list_of_nothing_is_not_empty(rt: HostRuntime) {
    let alloc = rt.alloc();
    let any = (RangeCfg::from(..), ());
    let two = non_empty_vec!(alloc => Nothing, Nothing).expect(&rt, "memory");
    assert!(rt;
        is_coded_as(alloc, &two, &any, b"\x02")
            && refuses::<NonEmptyVec<Nothing, _>, _>(alloc, &any, &[(b"\x00", EMPTY)])
    );
}

/// Whether the map has these bytes, and no bimap has them.
fn is_map_alone(alloc: Global, map: &Map<u8, Nothing, Global>) -> bool {
    let any = (RangeCfg::from(..), (), ());
    let bytes = b"\x02\x01\x02\x02".as_slice();
    is_coded_as(alloc, map, &any, bytes)
        && refuses::<BiMap<u8, Nothing, _>, _>(alloc, &any, &[(bytes, REPEATED)])
}

#[test]
fn two_keys_have_nothing_in_a_map_alone(rt: HostRuntime) {
    let alloc = rt.alloc();
    let map = Map::try_from_iter(alloc, [(2u8, Nothing), (1, Nothing)]).expect(&rt, "memory");
    assert!(rt;
        is_map_alone(alloc, &map)
            && BiMap::try_from_map(map).err() == Some(ordered::Error::DuplicateValue)
    );
}

/// Whether the one key has the one value, and this the key.
fn is_found<A: Allocator>(pair: &BiMap<Nothing, Nothing, A>) -> bool {
    pair.get_value(&Nothing) == Some(&Nothing) && pair.get_key(&Nothing) == Some(&Nothing)
}

/// Whether no bimap has the one key twice.
fn is_second_pair_refused(alloc: Global) -> bool {
    let repeated = BiMap::try_from_iter(alloc, [(Nothing, Nothing), (Nothing, Nothing)]);
    repeated.err() == Some(ordered::Error::DuplicateKey)
}

#[test]
fn nothing_is_a_key_and_a_value(rt: HostRuntime) {
    let alloc = rt.alloc();
    let any = (RangeCfg::from(..), (), ());
    let pair = BiMap::try_from_iter(alloc, [(Nothing, Nothing)]).expect(&rt, "memory");
    assert!(rt;
        is_found(&pair)
            && is_coded_as(alloc, &pair, &any, b"\x01\x01")
            && is_second_pair_refused(alloc)
    );
}
