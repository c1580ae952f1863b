//! A type as a stranger writes it: its `==` isn't identity, and it proves the laws of order, clones
//! and codec itself.
ghost use Rattle.std.specs.Prelude.{◌≡◌, ◌==◌, ℕ, refl};
ghost use Rattle.std.proofs.Common.{ap};
ghost use Rattle.std.proofs.lemmas.Cmp.{nat_eq_equiv};
ghost use Rattle.commonware_utils.specs.Codec.{IsByte, byte, byte_canonical, byte_fault, byte_laws, byte_length, byte_prefix_free};
ghost use Rattle.commonware_utils.specs.Codec.{canonical_on, laws_on, prefix_free_on};
ghost use Rattle.commonware_utils.specs.Roots.{equal_from_same};

use crate::bench::{is_written_as, read};
use crate::codec::{
    Canonical, EncodeSize, Error, MaxEncodeSize, RangeCfg, Read, Source, Write, round_trip,
};
use crate::ordered::{self, BiMap, Set};
use crate::{EqClone, TryFromIterator};
use std::alloc::{AllocError, Allocator, Global};

/// A number and a label. The number alone is compared, hashed and written; what is read has the
/// label `r`.
#[derive(Clone, Copy)]
#[derive_where(Debug, PartialEq, Eq, PartialOrd, Ord, Hash)]
pub(in crate::bench) struct Labelled {
    pub(in crate::bench) number: u8,
    #[derive_where(skip(EqHashOrd))]
    pub(in crate::bench) label: char,
}

impl EqClone for Labelled {
    ghost clones_are_equal = { λ x y same.
        equal_from_same nat_eq_equiv x.number y.number (ap (λ v. v.number) same) };
}

impl EncodeSize for Labelled {
    ghost enc = { λ v. byte v.number };

    ghost writable = { λ v. IsByte v.number };

    ghost prefix_free = { prefix_free_on (λ v. v.number) byte IsByte byte_prefix_free };

    ghost text_of_bytes = { λ v h. (h, tt) };

    fn encode_size(&self) -> usize {
        1
    }

    fn is_writable(&self) -> bool {
        let _number = self.number;
        true
    }
}

impl<A: Allocator> Write<A> for Labelled {
    fn write(&self, sink: &mut Vec<u8, A>) -> Result<(), AllocError> {
        self.number.write(sink)
    }
}

impl MaxEncodeSize for Labelled {
    ghost MAX_ENCODE_SIZE = { 1 };

    const MAX_ENCODE_SIZE: usize = 1;

    ghost bounded = { λ v h. byte_length v.number };
}

impl<A: Allocator> Read<A> for Labelled {
    type Cfg = ();

    ghost allowed = { λ _ _. Unit {0} };

    ghost fault = { λ _ s f. byte_fault s f };

    ghost memory_free = { λ _ _. Unit {0} };

    ghost read_laws = { λ _ _. laws_on (λ v. v.number) byte IsByte (λ _. Unit {0}) byte_fault
        (λ n _ _. (record { number = n; label = 114 }, refl)) byte_laws };

    fn read_cfg(alloc: A, src: &mut Source<'_>, cfg: &()) -> Result<Labelled, Error> {
        let number = u8::read_cfg(alloc, src, cfg)?;
        Ok(Labelled { number, label: 'r' })
    }
}

impl Canonical for Labelled {
    ghost canonical = { canonical_on (λ v. v.number) byte IsByte ◌==◌ byte_canonical };
}

/// An item of this number and label.
pub(in crate::bench) const fn item(number: u8, label: char) -> Labelled {
    Labelled { number, label }
}

/// Whether there is an item, and it has this number and label.
fn is_item(found: Option<&Labelled>, number: u8, label: char) -> bool {
    match found {
        Some(item) => item.number == number && item.label == label,
        None => false,
    }
}

#[test]
fn the_first_of_equals_stays(rt: HostRuntime) {
    let items = [item(2, 'x'), item(1, 'y'), item(2, 'z')];
    let set = Set::from_iter_dedup(rt.alloc(), items).expect(&rt, "memory");
    assert!(rt; set.len() == 2 && is_item(set.get(0), 1, 'y') && is_item(set.get(1), 2, 'x'));
}

/// Whether the sets of 1 and 2 are equal and have their bytes, though the second one was read.
fn have_equal_bytes(
    alloc: Global,
    set: &Set<Labelled, Global>,
    read_set: &Set<Labelled, Global>,
) -> bool {
    let bytes = b"\x02\x01\x02";
    is_item(set.get(0), 1, 'y')
        && is_item(read_set.get(0), 1, 'r')
        && read_set == set
        && is_written_as(alloc, set, bytes)
        && is_written_as(alloc, read_set, bytes)
        && Labelled::MAX_ENCODE_SIZE == 1
}

#[test]
fn equal_sets_of_labelled_items_have_equal_bytes(rt: HostRuntime) {
    let alloc = rt.alloc();
    let any = RangeCfg::from(..);
    let set = Set::from_iter_dedup(alloc, [item(2, 'x'), item(1, 'y')]).expect(&rt, "memory");
    let (read_set, taken) = read::<Set<Labelled, _>, _>(alloc, b"\x02\x01\x02", &(any, ()));
    let read_set = read_set.expect(&rt, "a value");
    assert!(rt; taken == 3 && have_equal_bytes(alloc, &set, &read_set));
}

#[test]
fn a_labelled_item_is_read_back_equal(rt: HostRuntime) {
    let item = item(7, 'x');
    assert!(rt; item.is_writable());
    let (again, left) = round_trip(rt.alloc(), &item, b"\x01\x02", &()).expect(&rt, "a value");
    assert!(rt; again == item && again.label == 'r' && left == 2);
}

#[test]
fn values_are_equal_whatever_their_labels(rt: HostRuntime) {
    let alloc = rt.alloc();
    let repeated = BiMap::try_from_iter(alloc, [(1u8, item(7, 'x')), (2, item(7, 'y'))]);
    assert!(rt; repeated.err() == Some(ordered::Error::DuplicateValue));
    let bimap = BiMap::try_from_iter(alloc, [(1u8, item(7, 'x')), (2, item(6, 'x'))]).expect(
        &rt, "memory",
    );
    assert!(rt; bimap.get_key(&item(6, 'y')) == Some(&2));
}
