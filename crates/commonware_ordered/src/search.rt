//! The position of an item in a strictly increasing list, searched branchless: no branch depends
//! on a comparison. The items are of a type that only a counted call compares.
ghost use Rattle.std.specs.Prelude.{◌≡◌, ◌≤◌, ◌<◌, ◌+◌, ◌*◌, ◌^◌, ℕ, true, length};
ghost use Rattle.std.specs.List.{HoldsAt};
ghost use Rattle.commonware_ordered.specs.Costs.{IsLookUpCost};
ghost use Rattle.commonware_ordered.specs.Strict.{IsPlaceOf, IsStrict, IsWithin};

use crate::at::{cmp_at, cmp_from, eq_at};
use crate::counted::CountedOrd;
use crate::counter::Counter;
use std::mem::size_of;

/// Returns 1 where the item at a place is at most the one sought, else 0. It compares once.
#[inline(always)]
fn reached<T: CountedOrd<C>, C: Counter>(
    items: &[T],
    place: usize,
    item: &T,
    count: &mut C,
) -> usize
    requires strict { IsStrict T.order items.now }
    requires inside { place < length items.now }
    ensures bound { result ≤ 1 }
    ensures value { (k : ℕ) → k < length items.now
        → HoldsAt (λ y. T.same y item.now ≡ true) items.now k
        → (place ≤ k → result ≡ 1) × (k < place → result ≡ 0) }
    ensures cost { C.counted count.new ≤ C.counted count.old + 1 }
{
    if cmp_at(items, item, place, count).is_ge() {
        1
    } else {
        0
    }
}

/// Halves the `size` places from `base` on, which are at most twice `window`. It returns where
/// those that are left begin, and how many they are, at most `window`. It compares with the first
/// of the last `window`, and not at all where no more than these are left.
#[inline(always)]
fn half<T: CountedOrd<C>, C: Counter>(
    items: &[T],
    base: usize,
    size: usize,
    window: usize,
    item: &T,
    count: &mut C,
) -> (usize, usize)
    requires strict { IsStrict T.order items.now }
    requires inside { base + size ≤ length items.now }
    requires twice { size ≤ 2 * window }
    requires within { IsWithin T.same items.now item.now base size }
    ensures inside { result.0 + result.1 ≤ length items.now }
    ensures window { result.1 ≤ window }
    ensures within { IsWithin T.same items.now item.now result.0 result.1 }
    ensures cost { C.counted count.new ≤ C.counted count.old + 1 }
    ensures free { size ≤ window
        → (C.counted count.new ≡ C.counted count.old) × (result.1 ≡ size) }
{
    if size <= window {
        return (base, size);
    }
    let step = size - window;
    (
        base + step * reached(items, base + step, item, count),
        window,
    )
}

/// Returns the one position of at most sixteen from `base` on where an item can equal the one
/// sought. Of at most 2^j positions, it compares with at most j.
///
/// Four halvings one after the other and no loop, so that a compiler makes no branch of a
/// comparison.
#[inline(always)]
fn last_steps<T: CountedOrd<C>, C: Counter>(
    items: &[T],
    base: usize,
    size: usize,
    item: &T,
    count: &mut C,
) -> usize
    requires strict { IsStrict T.order items.now }
    requires inside { base + size ≤ length items.now }
    requires few { size ≤ 16 }
    requires within { IsWithin T.same items.now item.now base size }
    ensures place { (k : ℕ) → k < length items.now
        → HoldsAt (λ y. T.same y item.now ≡ true) items.now k → result ≡ k }
    ensures cost { (j : ℕ) → size ≤ 2 ^ j → C.counted count.new ≤ C.counted count.old + j }
{
    let (base, size) = half(items, base, size, 8, item, count);
    let (base, size) = half(items, base, size, 4, item, count);
    let (base, size) = half(items, base, size, 2, item, count);
    let (place, _) = half(items, base, size, 1, item, count);
    place
}

/// The most items for which the search halves rather than quarters.
const FEW: usize = 16;

/// Quarters the `size` places from `base` on, which are more than `FEW`. It returns where those
/// that are left begin, and how many they are: after three comparisons at most (size + 9) / 4.
///
/// It compares with the items at three places, which divide the others in four, and adds up the
/// results: what follows depends on no branch that a processor could mispredict.
#[inline(always)]
fn quartering_step<T: CountedOrd<C>, C: Counter>(
    items: &[T],
    base: usize,
    size: usize,
    item: &T,
    count: &mut C,
) -> (usize, usize)
    requires strict { IsStrict T.order items.now }
    requires inside { base + size ≤ length items.now }
    requires many { 16 < size }
    requires within { IsWithin T.same items.now item.now base size }
    ensures inside { result.0 + result.1 ≤ length items.now }
    ensures within { IsWithin T.same items.now item.now result.0 result.1 }
    ensures cost { (C.counted count.new ≤ C.counted count.old + 3)
        × (4 * result.1 ≤ size + 9) }
{
    let quarter = size / 4;
    let passed = reached(items, base + quarter, item, count)
        + reached(items, base + 2 * quarter, item, count)
        + reached(items, base + 3 * quarter, item, count);
    (base + quarter * passed, size - 3 * quarter)
}

/// Returns the position of the item that equals the one sought, or `None` where none does.
///
/// A step that quarters takes one and a half comparisons where halving takes one, so the last few
/// are halved.
#[inline(always)]
fn narrowed<T: CountedOrd<C>, C: Counter>(items: &[T], item: &T, count: &mut C) -> Option<usize>
    requires { IsStrict T.order items.now }
    ensures place { IsPlaceOf T.same items.now item.now result }
    ensures cost { IsLookUpCost (length items.now)
        (C.counted count.old) (C.counted count.new) }
{
    let mut base = 0;
    let mut size = items.len();
    while size > FEW {
        let (next, left) = quartering_step(items, base, size, item, count);
        base = next;
        size = left;
    }
    let place = last_steps(items, base, size, item, count);
    if place >= items.len() {
        return None;
    }
    if eq_at(items, place, item, count) {
        Some(place)
    } else {
        None
    }
}

/// Halves the `size` places from `base` on, which are two or more. It returns where those that are
/// left begin, and how many they are: after one comparison at most half, rounded up.
#[inline(always)]
fn halving_step<T: CountedOrd<C>, C: Counter>(
    items: &[T],
    base: usize,
    size: usize,
    item: &T,
    count: &mut C,
) -> (usize, usize)
    requires strict { IsStrict T.order items.now }
    requires inside { base + size ≤ length items.now }
    requires many { 1 < size }
    requires within { IsWithin T.same items.now item.now base size }
    ensures inside { result.0 + result.1 ≤ length items.now }
    ensures some { 1 ≤ result.1 }
    ensures within { IsWithin T.same items.now item.now result.0 result.1 }
    ensures cost { (C.counted count.new ≤ C.counted count.old + 1)
        × (2 * result.1 ≤ size + 1) }
{
    let step = size / 2;
    let middle = base + step;
    if cmp_from(items, middle, item, count).is_gt() {
        (base, size - step)
    } else {
        (middle, size - step)
    }
}

/// Returns the same position, by halving the list.
#[inline]
fn halved<T: CountedOrd<C>, C: Counter>(items: &[T], item: &T, count: &mut C) -> Option<usize>
    requires { IsStrict T.order items.now }
    ensures place { IsPlaceOf T.same items.now item.now result }
    ensures cost { (k : ℕ) → length items.now ≤ 2 ^ k
        → C.counted count.new ≤ C.counted count.old + k + 1 }
{
    let mut size = items.len();
    if size == 0 {
        return None;
    }
    let mut base = 0;
    while size > 1 {
        let (next, left) = halving_step(items, base, size, item, count);
        base = next;
        size = left;
    }
    if cmp_from(items, base, item, count).is_eq() {
        Some(base)
    } else {
        None
    }
}

/// The most bytes of an item whose comparison costs less than a mispredicted branch.
const NARROW: usize = 8;

/// The size of a public key or of a digest, which is compared by a few words.
const KEY: usize = 32;

/// The most keys that are compared three at a time: 65,536 bytes of them. That many fit a near
/// cache, so that three comparisons take as long as one.
const NEAR: usize = 2048;

/// Returns the same position. Narrow items, and a few keys, are compared three at a time until few
/// are left; a list of other items is halved, since each of their comparisons is expensive.
///
/// Of n items, where n has k binary digits, it makes at most 1 + 3k/2 comparisons.
#[inline(always)]
pub(crate) fn place_of<T: CountedOrd<C>, C: Counter>(
    items: &[T],
    item: &T,
    count: &mut C,
) -> Option<usize>
    requires { IsStrict T.order items.now }
    ensures place { IsPlaceOf T.same items.now item.now result }
    ensures cost { IsLookUpCost (length items.now)
        (C.counted count.old) (C.counted count.new) }
{
    // The borrow checker takes the size of a type parameter only as a factor. The other factor is 1
    // but for an empty list, of which either search returns `None`.
    let size = items.len().min(1) * size_of::<T>();
    let are_near_keys = size == KEY && items.len() <= NEAR;
    if size <= NARROW || are_near_keys {
        narrowed(items, item, count)
    } else {
        halved(items, item, count)
    }
}
