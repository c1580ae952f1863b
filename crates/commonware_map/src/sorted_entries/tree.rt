//! A tree of pairs in which the first of equal keys stays.
ghost use Rattle.std.specs.Prelude.{◌≡◌, IfOk, OnErr};
ghost use Rattle.commonware_ordered.specs.Put.{IsPut};

use std::alloc::{AllocError, Allocator};
use std::collections::BTreeMap;
use std::collections::btree_map::Entry;

/// Inserts a pair at its place unless an equal key is there, and returns whether it did.
#[inline(never)]
pub(super) fn put<K: Ord + Drop, V: Drop, A: Allocator + Copy>(
    tree: &mut BTreeMap<K, V, A>,
    key: K,
    value: V,
) -> Result<bool, AllocError>
    ensures put { IfOk result (λ new.
        IsPut (λ p q. K.cmp p.0 q.0) tree.old.entries (key, value) new tree.new.entries) }
    ensures unchanged { OnErr result (tree.new.entries ≡ tree.old.entries) }
{
    match tree.entry(key)? {
        Entry::Vacant(place) => {
            place.insert(value);
            Ok(true)
        }
        Entry::Occupied(place) => {
            place.into_mut();
            Ok(false)
        }
    }
}
