//! Equality, order, hash, clones and the debug text of non-empty lists: those of lists.
ghost use Rattle.std.specs.Cmp.Lexicographic.{lists_agrees, lists_equiv, lists_per, lists_po, lists_ties, lists_total, pointwise, slice_cmp, slice_partial_cmp};
ghost use Rattle.std.specs.Hash as fed;
ghost use Rattle.std.specs.Hash.{items_Alike};
ghost use Rattle.std.specs.List.{AllZip};
ghost use Rattle.commonware_base.specs.laws.CloneLaws.{equal_from_all_zip};

use super::NonEmptyVec;
use commonware_base::EqClone;
use std::alloc::{AllocError, Allocator};
use std::cmp::Ordering;
use std::fmt;
use std::hash::{Hash, Hasher};

impl<T: PartialEq, A: Allocator> PartialEq for NonEmptyVec<T, A> {
    ghost eq = { pointwise T.eq };

    ghost laws = { lists_per T.laws };

    fn eq(&self, other: &Self) -> bool {
        self.as_slice() == other.as_slice()
    }
}

impl<T: Eq, A: Allocator> Eq for NonEmptyVec<T, A> {
    ghost laws = { lists_equiv T.Eq.laws };
}

impl<T: PartialOrd, A: Allocator> PartialOrd for NonEmptyVec<T, A> {
    ghost partial_cmp = { slice_partial_cmp T.partial_cmp };

    ghost laws = { lists_po T.PartialOrd.laws };

    fn partial_cmp(&self, other: &Self) -> Option<Ordering> {
        self.as_slice().partial_cmp(&other.as_slice())
    }
}

impl<T: Ord, A: Allocator> Ord for NonEmptyVec<T, A> {
    ghost cmp = { slice_cmp T.cmp };

    ghost total = { lists_total T.total };

    ghost matches_partial_cmp = { lists_agrees T.matches_partial_cmp };

    ghost matches_eq = { lists_ties T.cmp T.matches_eq };

    fn cmp(&self, other: &Self) -> Ordering {
        self.as_slice().cmp(&other.as_slice())
    }
}

impl<T: Hash, A: Allocator> Hash for NonEmptyVec<T, A> {
    ghost hash_input = { fed.slice T.hash_input };

    ghost respects_eq = { (items_Alike (record { fed = T.respects_eq })).fed };

    fn hash<H: Hasher>(&self, state: &mut H) {
        self.as_slice().hash(state);
    }
}

impl<T: Clone, A: Allocator + Clone> Clone for NonEmptyVec<T, A> {
    ghost is_clone = { AllZip T.is_clone };

    fn clone(&self) -> Result<Self, AllocError> {
        let items = self.items.clone()?;
        Ok(NonEmptyVec { items })
    }
}

impl<T: EqClone, A: Allocator + Clone> EqClone for NonEmptyVec<T, A> {
    ghost clones_are_equal = { equal_from_all_zip T.is_clone T.clones_are_equal };
}

impl<T: fmt::Debug, A: Allocator> fmt::Debug for NonEmptyVec<T, A> {
    fn fmt<W: fmt::Write>(&self, f: &mut fmt::Formatter<W>) -> fmt::Result {
        f.debug_tuple("NonEmptyVec")
            .field(&self.as_slice())
            .finish()
    }
}
