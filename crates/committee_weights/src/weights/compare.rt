//! Equality and clones of weights: those of their lists.
ghost use Rattle.std.specs.Prelude.{◌≡◌, nat_eq};
ghost use Rattle.std.specs.Cmp.{nat_eq_equiv, partial_equiv_from_equiv};
ghost use Rattle.std.specs.Cmp.Lexicographic.{lists_equiv, pointwise};
ghost use Rattle.commonware_base.specs.laws.CloneLaws.{equal_from_same};

use super::Weights;
use commonware_base::EqClone;
use std::alloc::{AllocError, Allocator};

impl<A: Allocator> PartialEq for Weights<A> {
    ghost eq = { pointwise nat_eq };

    ghost laws = { partial_equiv_from_equiv (lists_equiv nat_eq_equiv) };

    fn eq(&self, other: &Self) -> bool {
        self.as_slice() == other.as_slice()
    }
}

impl<A: Allocator> Eq for Weights<A> {
    ghost laws = { lists_equiv nat_eq_equiv };
}

impl<A: Allocator + Clone> Clone for Weights<A> {
    ghost is_clone = { λ weights clone. clone ≡ weights };

    fn clone(&self) -> Result<Self, AllocError> {
        let items = self.items.clone()?;
        Ok(Weights {
            items,
            total: self.total,
        })
    }
}

impl<A: Allocator + Clone> EqClone for Weights<A> {
    ghost clones_are_equal = { equal_from_same (lists_equiv nat_eq_equiv) };
}
