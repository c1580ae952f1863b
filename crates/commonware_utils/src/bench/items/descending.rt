//! Items that are ordered by the greater byte first, with the laws of order, clones and codec
//! proved here.
ghost use Rattle.std.specs.Prelude.{◌≡◌, ◌==◌, ℕ, refl};
ghost use Rattle.std.specs.Cmp.{partial_order_from_own_ties};
ghost use Rattle.std.specs.Cmp.Rules.{comparing};
ghost use Rattle.std.specs.Ordering.{as_partial_cmp, flip_args, nat_cmp, on};
ghost use Rattle.std.proofs.Common.{ap, rules};
ghost use Rattle.std.proofs.lemmas.Cmp.{nat_eq_equiv};
ghost use Rattle.commonware_utils.specs.Codec.{IsByte, byte, byte_canonical, byte_fault};
ghost use Rattle.commonware_utils.specs.Codec.{byte_laws, byte_length, byte_prefix_free};
ghost use Rattle.commonware_utils.specs.Codec.{canonical_on, laws_on, prefix_free_on};
ghost use Rattle.commonware_utils.specs.Roots.{equal_from_same};

use crate::bench::rows::sets::UNSORTED;
use crate::bench::{are_ordered, comes_back, is_coded_as, refuses};
use crate::codec::{Canonical, EncodeSize, Error, MaxEncodeSize, RangeCfg, Read, Source, Write};
use crate::ordered::{self, BiMap, Map, Set};
use crate::{EqClone, TryFromIterator};
use std::alloc::{AllocError, Allocator, Global};
use std::cmp::Ordering;
use std::process::Abort;

/// A byte. The greater one comes first.
#[derive(Clone, Copy, Debug, PartialEq, Eq, Hash)]
struct Descending(u8);

impl PartialOrd for Descending {
    ghost partial_cmp = { as_partial_cmp (flip_args (on (λ d. d.0) nat_cmp)) };

    ghost laws = { partial_order_from_own_ties (Prim.search (comparing, rules))
        (Prim.search (comparing, rules)) };

    fn partial_cmp(&self, other: &Descending) -> Option<Ordering> {
        Some(self.cmp(other))
    }
}

impl Ord for Descending {
    ghost cmp = { flip_args (on (λ d. d.0) nat_cmp) };

    ghost total = { Prim.search (comparing, rules) };

    ghost matches_partial_cmp = { Prim.search (comparing, rules) };

    ghost matches_eq = { Prim.search (comparing, rules) };

    fn cmp(&self, other: &Descending) -> Ordering {
        other.0.cmp(&self.0)
    }
}

impl EqClone for Descending {
    ghost clones_are_equal = { λ x y same. equal_from_same nat_eq_equiv x.0 y.0
        (ap (λ d. d.0) same) };
}

impl EncodeSize for Descending {
    ghost enc = { λ d. byte d.0 };

    ghost writable = { λ d. IsByte d.0 };

    ghost prefix_free = { prefix_free_on (λ d. d.0) byte IsByte byte_prefix_free };

    ghost text_of_bytes = { λ d h. (h, tt) };

    fn encode_size(&self) -> usize {
        1
    }

    fn is_writable(&self) -> bool {
        let _byte = self.0;
        true
    }
}

impl<A: Allocator> Write<A> for Descending {
    fn write(&self, sink: &mut Vec<u8, A>) -> Result<(), AllocError> {
        self.0.write(sink)
    }
}

impl MaxEncodeSize for Descending {
    ghost MAX_ENCODE_SIZE = { 1 };

    const MAX_ENCODE_SIZE: usize = 1;

    ghost bounded = { λ d h. byte_length d.0 };
}

impl<A: Allocator> Read<A> for Descending {
    type Cfg = ();

    ghost allowed = { λ _ _. Unit {0} };

    ghost fault = { λ _ s f. byte_fault s f };

    ghost memory_free = { λ _ _. Unit {0} };

    ghost read_laws = { λ _ _. laws_on (λ d. d.0) byte IsByte (λ _. Unit {0}) byte_fault
        (λ n _ _. (record { 0 = n }, refl)) byte_laws };

    fn read_cfg(alloc: A, src: &mut Source<'_>, cfg: &()) -> Result<Descending, Error> {
        let byte = u8::read_cfg(alloc, src, cfg)?;
        Ok(Descending(byte))
    }
}

impl Canonical for Descending {
    ghost canonical = { canonical_on (λ d. d.0) byte IsByte ◌==◌ byte_canonical };
}

/// Inputs that are no set of falling bytes.
static NO_SETS: [(&[u8], Error); 2] = [
    (b"\x03\x01\x02\x03", UNSORTED),
    (b"\x02\x02\x02", UNSORTED),
];

/// The set of these bytes.
fn set_of(rt: &impl Abort, alloc: Global, bytes: &[u8]) -> Set<Descending, Global> {
    let mut items = Vec::new(alloc);
    for byte in bytes {
        items.push(Descending(*byte)).expect(rt, "memory");
    }
    Set::from_iter_dedup(alloc, items).expect(rt, "memory")
}

#[test]
fn the_greater_byte_comes_first(rt: HostRuntime) {
    for (a, b, order) in [
        (2, 1, Ordering::Less),
        (1, 2, Ordering::Greater),
        (0, 255, Ordering::Greater),
        (7, 7, Ordering::Equal),
    ] {
        assert!(rt; are_ordered(&Descending(a), &Descending(b), order));
    }
}

/// Whether the result is the set of the bytes 3, 2 and 1, in this order.
fn falls(answer: Result<Set<Descending, Global>, ordered::Error>) -> bool {
    match answer {
        Ok(set) => set.as_slice() == [Descending(3), Descending(2), Descending(1)].as_slice(),
        Err(_) => false,
    }
}

#[test]
fn builders_put_the_greatest_first(rt: HostRuntime) {
    let alloc = rt.alloc();
    let mixed = vec![in alloc; Descending(1), Descending(3), Descending(2)].expect(&rt, "memory");
    assert!(rt;
        falls(Ok(set_of(&rt, alloc, &[1, 3, 1, 2])))
            && falls(Set::try_from_iter(alloc, mixed.iter().copied()))
            && falls(Set::try_from_slice(alloc, &mixed))
            && falls(Set::try_from_vec(mixed))
    );
}

#[test]
fn only_falling_bytes_are_read(rt: HostRuntime) {
    let alloc = rt.alloc();
    let any = (RangeCfg::from(..), ());
    let set = set_of(&rt, alloc, &[1, 2, 3]);
    let bytes = b"\x03\x03\x02\x01";
    assert!(rt;
        is_coded_as(alloc, &set, &any, bytes)
            && refuses::<Set<Descending, _>, _>(alloc, &any, &NO_SETS)
    );
}

/// Whether the map of 1 and 2 has the value of 2 first, and comes back.
fn is_map(alloc: Global, map: &Map<Descending, u8, Global>) -> bool {
    map.values() == [20, 10].as_slice() && comes_back(alloc, map, &(RangeCfg::from(..), (), ()))
}

/// Whether 2 is the key of 20, and the bimap comes back.
fn is_bimap(alloc: Global, bimap: &BiMap<Descending, u8, Global>) -> bool {
    bimap.get_key(&20) == Some(&Descending(2))
        && comes_back(alloc, bimap, &(RangeCfg::from(..), (), ()))
}

#[test]
fn maps_with_falling_keys_come_back(rt: HostRuntime) {
    let alloc = rt.alloc();
    let pairs = [(Descending(1), 10u8), (Descending(2), 20)];
    assert!(rt;
        is_map(
            alloc,
            &Map::try_from_iter(alloc, pairs).expect(&rt, "memory")
        )
    );
    assert!(rt;
        is_bimap(
            alloc,
            &BiMap::try_from_iter(alloc, pairs).expect(&rt, "memory")
        )
    );
}

/// The set of the sets of these bytes.
fn nest_of(rt: &impl Abort, alloc: Global, rows: &[&[u8]]) -> Set<Set<Descending, Global>, Global> {
    let mut sets = Vec::new(alloc);
    for bytes in rows {
        sets.push(set_of(rt, alloc, bytes)).expect(rt, "memory");
    }
    Set::from_iter_dedup(alloc, sets).expect(rt, "memory")
}

/// The sets are ordered by their items: the one with the greater byte comes first, and the empty
/// one before all.
#[test]
fn sets_of_falling_sets_are_written_and_read(rt: HostRuntime) {
    let alloc = rt.alloc();
    let any = RangeCfg::from(..);
    let nest = nest_of(&rt, alloc, &[&[1], &[1, 2], &[], &[2]]);
    let bytes = b"\x04\x00\x01\x02\x02\x02\x01\x01\x01";
    assert!(rt; is_coded_as(alloc, &nest, &(any, (any, ())), bytes));
}
