//! Comparisons with the item at a place of a list, each counted.
ghost use Rattle.std.specs.Prelude.{◌≡◌, ◌+◌, ◌<◌, ◌≤◌, length, slice_index_or};

use crate::counted::CountedOrd;
use crate::counter::Counter;
use std::cmp::Ordering;

/// Compares an item with the one at a place.
#[inline(always)]
pub(crate) fn cmp_at<T: CountedOrd<C>, C: Counter>(
    items: &[T],
    item: &T,
    place: usize,
    count: &mut C,
) -> Ordering
    requires { place < length items.now }
    ensures value { (d : T) → result ≡ T.order item.now (slice_index_or items.now place d) }
    ensures count { C.counted count.new ≡ C.counted count.old + C.step }
    ensures cost { C.counted count.new ≤ C.counted count.old + 1 }
{
    item.counted_cmp(&items[place], count)
}

/// Compares the item at a place with another.
#[inline(always)]
pub(crate) fn cmp_from<T: CountedOrd<C>, C: Counter>(
    items: &[T],
    place: usize,
    item: &T,
    count: &mut C,
) -> Ordering
    requires { place < length items.now }
    ensures value { (d : T) → result ≡ T.order (slice_index_or items.now place d) item.now }
    ensures count { C.counted count.new ≡ C.counted count.old + C.step }
    ensures cost { C.counted count.new ≤ C.counted count.old + 1 }
{
    items[place].counted_cmp(item, count)
}

/// Whether the item at a place equals another.
#[inline(always)]
pub(crate) fn eq_at<T: CountedOrd<C>, C: Counter>(
    items: &[T],
    place: usize,
    item: &T,
    count: &mut C,
) -> bool
    requires { place < length items.now }
    ensures value { (d : T) → result ≡ T.same (slice_index_or items.now place d) item.now }
    ensures count { C.counted count.new ≡ C.counted count.old + C.step }
    ensures cost { C.counted count.new ≤ C.counted count.old + 1 }
{
    items[place].counted_eq(item, count)
}

/// Compares the item at a place with the next.
#[inline(always)]
pub(crate) fn cmp_next<T: CountedOrd<C>, C: Counter>(
    items: &[T],
    place: usize,
    count: &mut C,
) -> Ordering
    requires { place + 1 < length items.now }
    ensures value { (d : T) → result ≡ T.order (slice_index_or items.now place d)
        (slice_index_or items.now (place + 1) d) }
    ensures count { C.counted count.new ≡ C.counted count.old + C.step }
    ensures cost { C.counted count.new ≤ C.counted count.old + 1 }
{
    items[place].counted_cmp(&items[place + 1], count)
}
