//! Equality, hash and clones of bimaps: those of their pairs. Bimaps have no order.
ghost use Rattle.std.specs.Prelude.{◌++◌};
ghost use Rattle.std.specs.Cmp.{and_equiv, and_per, on_equiv, on_per};
ghost use Rattle.std.specs.Cmp.Lexicographic.{lists_equiv, lists_per};
ghost use Rattle.std.specs.Hash as fed;
ghost use Rattle.std.specs.List.{AllZip};
ghost use Rattle.std.specs.Map.{keys_of, values_of};
ghost use Rattle.commonware_base.specs.laws.CloneLaws.{equal_from_all_zip};
ghost use Rattle.commonware_map.specs.Pairs.{are_equal_pairs, on_both};
ghost use Rattle.commonware_map.specs.laws.PairLaws.{both_equal, pairs_respect_eq};

use super::BiMap;
use commonware_base::EqClone;
use std::alloc::{AllocError, Allocator};
use std::hash::{Hash, Hasher};

impl<K: Ord, V: Eq + Hash, A: Allocator> PartialEq for BiMap<K, V, A> {
    ghost eq = { are_equal_pairs K.eq V.eq };

    ghost laws = { lists_per
        (and_per (on_per (λ p. p.0) K.PartialEq.laws) (on_per (λ p. p.1) V.PartialEq.laws)) };

    fn eq(&self, other: &Self) -> bool {
        self.map == other.map
    }
}

impl<K: Ord, V: Eq + Hash, A: Allocator> Eq for BiMap<K, V, A> {
    ghost laws = { lists_equiv
        (and_equiv (on_equiv (λ p. p.0) K.Eq.laws) (on_equiv (λ p. p.1) V.Eq.laws)) };
}

impl<K: Ord + Hash, V: Eq + Hash, A: Allocator> Hash for BiMap<K, V, A> {
    ghost hash_input = { λ m.
        fed.slice K.hash_input (keys_of m) ++ fed.slice V.hash_input (values_of m) };

    ghost respects_eq = { pairs_respect_eq K.eq V.eq K.hash_input V.hash_input
        K.respects_eq V.respects_eq };

    fn hash<H: Hasher>(&self, state: &mut H) {
        self.map.hash(state);
    }
}

impl<K: Ord + EqClone, V: EqClone + Hash, A: Allocator + Clone> Clone for BiMap<K, V, A> {
    ghost is_clone = { AllZip (on_both K.is_clone V.is_clone) };

    fn clone(&self) -> Result<Self, AllocError> {
        let map = self.map.clone()?;
        Ok(BiMap { map })
    }
}

impl<K: Ord + EqClone, V: EqClone + Hash, A: Allocator + Clone> EqClone for BiMap<K, V, A> {
    ghost clones_are_equal = { equal_from_all_zip (on_both K.is_clone V.is_clone)
        (both_equal K.eq V.eq K.is_clone V.is_clone K.clones_are_equal V.clones_are_equal) };
}
