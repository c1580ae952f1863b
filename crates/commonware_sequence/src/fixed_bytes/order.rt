//! The order of bytes of one length: that of the lists of them.
ghost use Rattle.std.specs.Prelude.{◌≡◌};
ghost use Rattle.std.specs.Cmp.{unsigned_po};
ghost use Rattle.std.specs.Cmp.Lexicographic.{lists_agrees, lists_po, slice_cmp, slice_partial_cmp, texts_ties};
ghost use Rattle.std.specs.Ordering.{as_partial_cmp, nat_cmp};
ghost use Rattle.std.proofs.lemmas.Cmp.{nat_list_cmp_total};
ghost use Rattle.std.proofs.Common.{refl};

use super::FixedBytes;
use crate::order::bytes_order;
use std::cmp::Ordering;

impl<const N: usize> PartialOrd for FixedBytes<N> {
    ghost partial_cmp = { slice_partial_cmp (as_partial_cmp nat_cmp) };

    ghost laws = { lists_po unsigned_po };

    #[inline(always)]
    fn partial_cmp(&self, other: &Self) -> Option<Ordering> {
        Some(self.cmp(other))
    }
}

impl<const N: usize> Ord for FixedBytes<N> {
    ghost cmp = { slice_cmp nat_cmp };

    ghost total = { nat_list_cmp_total };

    ghost matches_partial_cmp = { lists_agrees (λ x y. refl) };

    ghost matches_eq = { texts_ties };

    #[inline(always)]
    fn cmp(&self, other: &Self) -> Ordering {
        bytes_order(&self.0, &other.0)
    }
}
