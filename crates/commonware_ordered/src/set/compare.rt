//! Equality, order, hash and clones of sets: those of the lists of their items.
ghost use Rattle.std.specs.Cmp.Lexicographic.{lists_agrees, lists_equiv, lists_per, lists_po, lists_ties, lists_total, pointwise, slice_cmp, slice_partial_cmp};
ghost use Rattle.std.specs.Hash as fed;
ghost use Rattle.std.specs.Hash.{items_Alike};
ghost use Rattle.std.specs.List.{AllZip};
ghost use Rattle.commonware_base.specs.laws.CloneLaws.{equal_from_all_zip};

use super::Set;
use commonware_base::EqClone;
use std::alloc::{AllocError, Allocator};
use std::cmp::Ordering;
use std::hash::{Hash, Hasher};

impl<T: Ord, A: Allocator> PartialEq for Set<T, A> {
    ghost eq = { pointwise T.eq };

    ghost laws = { lists_per T.PartialEq.laws };

    fn eq(&self, other: &Self) -> bool {
        self.as_slice() == other.as_slice()
    }
}

impl<T: Ord, A: Allocator> Eq for Set<T, A> {
    ghost laws = { lists_equiv T.Eq.laws };
}

impl<T: Ord, A: Allocator> PartialOrd for Set<T, A> {
    ghost partial_cmp = { slice_partial_cmp T.partial_cmp };

    ghost laws = { lists_po T.PartialOrd.laws };

    fn partial_cmp(&self, other: &Self) -> Option<Ordering> {
        self.as_slice().partial_cmp(&other.as_slice())
    }
}

impl<T: Ord, A: Allocator> Ord for Set<T, A> {
    ghost cmp = { slice_cmp T.cmp };

    ghost total = { lists_total T.total };

    ghost matches_partial_cmp = { lists_agrees T.matches_partial_cmp };

    ghost matches_eq = { lists_ties T.cmp T.matches_eq };

    fn cmp(&self, other: &Self) -> Ordering {
        self.as_slice().cmp(&other.as_slice())
    }
}

impl<T: Ord + Hash, A: Allocator> Hash for Set<T, A> {
    ghost hash_input = { fed.slice T.hash_input };

    ghost respects_eq = { (items_Alike (record { fed = T.respects_eq })).fed };

    fn hash<H: Hasher>(&self, state: &mut H) {
        self.as_slice().hash(state);
    }
}

impl<T: Ord + EqClone, A: Allocator + Clone> Clone for Set<T, A> {
    ghost is_clone = { AllZip T.is_clone };

    fn clone(&self) -> Result<Self, AllocError> {
        let items = self.items.clone()?;
        Ok(Set { items })
    }
}

impl<T: Ord + EqClone, A: Allocator + Clone> EqClone for Set<T, A> {
    ghost clones_are_equal = { equal_from_all_zip T.is_clone T.clones_are_equal };
}
