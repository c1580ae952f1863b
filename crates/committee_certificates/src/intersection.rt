//! A walk over two strictly increasing lists, side by side. Their items are of a type that only a
//! counted call compares.
ghost use Rattle.std.specs.Prelude.{◌≡◌, ◌+◌, ◌<◌, ◌≤◌, IfOk, OnErr, OnOk, length, slice_index_or};
ghost use Rattle.commonware_ordered.specs.Strict.{IsStrict};
ghost use Rattle.committee_certificates.specs.Shared.{shared_by};
ghost use Rattle.committee_certificates.specs.WalkCosts.{IsWalkedToAnEnd};

use commonware_ordered::{CountedOrd, Counter};
use std::alloc::{AllocError, Allocator};
use std::cmp::Ordering;

/// Compares the item at a place of a list with that at a place of another.
#[inline(always)]
fn cmp_places<T: CountedOrd<C>, C: Counter>(
    first: &[T],
    i: usize,
    second: &[T],
    j: usize,
    count: &mut C,
) -> Ordering
    requires first { i < length first.now }
    requires second { j < length second.now }
    ensures value { (d : T) → result
        ≡ T.order (slice_index_or first.now i d) (slice_index_or second.now j d) }
    ensures count { C.counted count.new ≡ C.counted count.old + C.step }
    ensures cost { C.counted count.new ≤ C.counted count.old + 1 }
{
    first[i].counted_cmp(&second[j], count)
}

/// Returns the items of the first list that equal one of the second. Both are strictly increasing,
/// and are walked once, side by side, to the end of one of them: each comparison walks past an item
/// of a list, or past one of both, so there are at least as many as one of them has items.
pub(crate) fn in_both<T: CountedOrd<C> + Copy, A: Allocator, C: Counter>(
    alloc: A,
    first: &[T],
    second: &[T],
    count: &mut C,
) -> Result<Vec<T, A>, AllocError>
    requires first_strict { IsStrict T.order first.now }
    requires second_strict { IsStrict T.order second.now }
    ensures shared { IfOk result (λ both. both.items ≡ shared_by T.same first.now second.now) }
    ensures nothing { OnErr result ((1 ≤ length first.now) × (1 ≤ length second.now)) }
    ensures cost { C.counted count.new
        ≤ C.counted count.old + length first.now + length second.now }
    ensures once { IfOk result (λ both. C.counted count.new + length both.items
        ≤ C.counted count.old + length first.now + length second.now) }
    ensures least { OnOk result (IsWalkedToAnEnd C.step (length first.now) (length second.now)
        (C.counted count.old) (C.counted count.new)) }
{
    let mut both = Vec::with_capacity(alloc, first.len().min(second.len()))?;
    let mut i = 0;
    let mut j = 0;
    while i < first.len() && j < second.len() {
        let order = cmp_places(first, i, second, j, count);
        if order.is_lt() {
            i += 1;
        } else if order.is_gt() {
            j += 1;
        } else {
            both.push(first[i])?;
            i += 1;
            j += 1;
        }
    }
    Ok(both)
}
