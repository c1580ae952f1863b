//! The values of bimaps: many, all of one hash, and on the allocator that the map holds.
ghost use Rattle.std.specs.Prelude.{[], refl};

use crate::TryFromIterator;
use crate::bench::rows::map_pairs::tens;
use crate::ordered::{BiMap, Error, Set};
use std::alloc::Global;
use std::hash::{Hash, Hasher};
use std::process::Abort;

/// A number whose hash is that of every other.
#[derive(Clone, Copy, Debug, PartialEq, Eq)]
struct Alike {
    number: u32,
}

impl Hash for Alike {
    ghost hash_input = { λ _. [] };

    ghost respects_eq = { λ _ _ _. refl };

    fn hash<H: Hasher>(&self, _state: &mut H) {}
}

/// Whether the bimap of the pairs has this many, and this one among them.
fn has_pair<V: Copy + Eq + Hash>(
    rt: &impl Abort,
    pairs: Vec<(u32, V), Global>,
    len: usize,
    pair: (u32, V),
) -> bool {
    let bimap = BiMap::try_from_iter(*pairs.allocator(), pairs).expect(rt, "memory");
    bimap.len() == len && bimap.get_key(&pair.1) == Some(&pair.0)
}

/// Whether the values are told apart: the pairs make a bimap of this many, with this one, and none
/// once the value of the other comes again.
fn are_told_apart<V: Copy + Eq + Hash>(
    rt: &impl Abort,
    mut pairs: Vec<(u32, V), Global>,
    len: usize,
    pair: (u32, V),
    repeat: (u32, V),
) -> bool {
    if !has_pair(rt, pairs.clone().expect(rt, "memory"), len, pair) {
        return false;
    }
    pairs.push(repeat).expect(rt, "memory");
    let repeated = BiMap::try_from_iter(*pairs.allocator(), pairs);
    repeated.err() == Some(Error::DuplicateValue)
}

#[test]
fn a_thousand_values_are_told_apart(rt: HostRuntime) {
    let mut pairs: Vec<(u32, u32), _> = Vec::new(rt.alloc());
    for key in 0..1000u32 {
        pairs.push((key, 999 - key)).expect(&rt, "memory");
    }
    assert!(rt; are_told_apart(&rt, pairs, 1000, (999, 0), (1000, 0)));
}

#[test]
fn values_of_one_hash_are_told_apart(rt: HostRuntime) {
    let mut pairs: Vec<(u32, Alike), _> = Vec::new(rt.alloc());
    for number in 0..100u32 {
        pairs.push((number, Alike { number })).expect(&rt, "memory");
    }
    let last = (99, Alike { number: 99 });
    assert!(rt; are_told_apart(&rt, pairs, 100, last, (100, Alike { number: 0 })));
}

/// Whether the set of these items on this allocator has them.
fn is_built_again(rt: &impl Abort, items: &[u8], alloc: Global) -> bool {
    let set = Set::try_from_slice(alloc, items).expect(rt, "memory");
    set.as_slice() == items
}

/// Of a set, a map and a bimap, whose keys give theirs.
#[test]
fn collections_give_their_allocator(rt: HostRuntime) {
    let set = Set::try_from_array(rt.alloc(), [1u8, 2]).expect(&rt, "memory");
    assert!(rt; is_built_again(&rt, set.as_slice(), *set.allocator()));
    let map = tens(&rt, rt.alloc());
    assert!(rt; is_built_again(&rt, map.keys().as_slice(), *map.allocator()));
    let bimap = BiMap::try_from_map(map).expect(&rt, "memory");
    assert!(rt; is_built_again(&rt, bimap.keys().as_slice(), *bimap.allocator()));
}
