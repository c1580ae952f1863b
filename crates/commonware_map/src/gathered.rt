//! The columns of the pairs that an iterator gives.
ghost use Rattle.std.specs.Prelude.{◌≡◌, ◌≤◌, IfOk, OnErr, length, zip};
ghost use Rattle.std.specs.Iterator.{IsFiniteIterable};
ghost use Rattle.commonware_base.specs.Taken.{TakesAll, TakesSome};
ghost use Rattle.commonware_ordered.specs.Dedup.{IsDedup};
ghost use Rattle.commonware_ordered.specs.Strict.{IsStrict};

use crate::SortedEntries;
use std::alloc::{AllocError, Allocator};

/// Returns the keys in order, and the values at their positions, of the pairs that an iterator
/// gives, where of equal keys the first pair stays. The only error is an allocation failure, which
/// comes only after a pair; it allocates for the pairs that stay. It takes O(n log n) comparisons.
pub(crate) fn dedup_columns<
    K: Ord + Drop,
    V: Drop,
    A: Allocator + Copy,
    I: IntoIterator<Item = (K, V)>,
>(alloc: A, iter: I) -> Result<(Vec<K, A>, Vec<V, A>), AllocError>
    requires { IsFiniteIterable I.into_iter_gives I.IntoIter.can_next I.IntoIter.remaining iter }
    ensures dedup { IfOk result (λ columns.
        TakesAll I.into_iter_gives I.IntoIter.next_gives iter (λ ps.
        IsDedup (λ p q. K.eq p.0 q.0) (λ p q. K.cmp p.0 q.0)
        ps (zip columns.0.items columns.1.items))) }
    ensures strict { IfOk result (λ columns. IsStrict K.cmp columns.0.items) }
    ensures even { IfOk result (λ columns.
        length columns.1.items ≡ length columns.0.items) }
    ensures nothing { OnErr result (TakesSome I.into_iter_gives I.IntoIter.next_gives iter
        (λ drawn _. 1 ≤ length drawn)) }
{
    let rest = iter.into_iter();
    let coming = rest.size_hint().0;
    let mut entries = SortedEntries::empty(alloc);
    for (key, value) in rest {
        entries.insert_among(key, value, coming)?;
    }
    let (keys, values) = entries.into_columns()?;
    Ok((keys, values))
}
