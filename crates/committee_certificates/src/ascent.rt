//! A walk along two lists of rising indices, side by side. The walk has no index at hand: its
//! places are compared only by a call that counts it, and what it writes is of a type that it can't
//! compare.
ghost use Rattle.std.specs.Prelude.{◌≡◌, ◌<◌, ◌≤◌, ◌^◌, ◌+◌, ◌++◌, ℕ, IsFalse, IsTrue, List};
ghost use Rattle.std.specs.Prelude.{[], ◌∷◌, length, suc};
ghost use Rattle.std.specs.Ordering.{MatchOrdering, nat_cmp};
ghost use Rattle.commonware_ordered.specs.Strict.{IsStrict};
ghost use Rattle.committee_certificates.specs.InPlace.{AreWrittenBoth, written};
ghost use Rattle.committee_certificates.specs.WalkCosts.{IsWalkedToAnEnd};

use commonware_ordered::Counter;
use std::cmp::Ordering;

/// A place among rising indices that is compared with another by a call that counts it, and by no
/// other: a function whose only bound on its places is this one can't compare two of them without
/// the counter, and has no counter but the one that it was passed.
pub(crate) trait Ascent<C: Counter>: Copy {
    /// What an index is written as, which no bound compares.
    type Number;

    /// How many indices are left, the one at this place among them.
    ghost left: { Self → ℕ };

    /// The index at this place, where one is left.
    ghost index: { Self → ℕ };

    /// The indices that are left are these.
    ghost is_at: { Self → List ℕ → Type 0 };

    /// The indices that a room holds.
    ghost indices: { List Self.Number → List ℕ };

    /// Whether no index is left.
    fn is_over(&self) -> bool
        ensures is_true { IsTrue result → left self.now ≡ 0 }
        ensures is_false { IsFalse result → 0 < left self.now };

    /// Returns the order of the indices at two places, and counts it.
    fn order(&self, other: &Self, count: &mut C) -> Ordering
        ensures value { MatchOrdering result (index self.now < index other.now)
            (index self.now ≡ index other.now) (index other.now < index self.now) }
        ensures count { C.counted count.new ≡ C.counted count.old + C.step }
        ensures cost { C.counted count.new ≤ C.counted count.old + 1 };

    /// Returns the place after this one, which has an index.
    fn next(&self) -> Self
        requires { 0 < left self.now }
        ensures fewer { left result < left self.now }
        ensures at { (i : ℕ) (more : List ℕ) → is_at self.now (i ∷ more) → is_at result more };

    /// Writes the index to a place of the room, where it has that place.
    fn put(&self, place: usize, out: &mut [Self::Number])
        ensures { (before room : List ℕ) → place ≡ length before
            → indices out.old ≡ written before room
            → indices out.new ≡ written (before ++ index self.now ∷ []) room };

    /// At the end none is left.
    ghost at_end: { (place : Self) → is_at place [] → left place ≡ 0 };

    /// Elsewhere the index is the first of those that are left.
    ghost at_index: { (place : Self) (i : ℕ) (more : List ℕ) → is_at place (i ∷ more)
        → (left place ≡ suc (length more)) × (index place ≡ i) };
}

/// Writes the indices that are left at both places to the start of the room, in order, as many as
/// it has places for, and returns how many there are. Each comparison walks past an index of one of
/// the two, or past one of both, and the walk goes to the end of one of them: so there are at least
/// as many as one of them has indices.
#[inline(always)]
pub(crate) fn write_common<P: Ascent<C>, C: Counter>(
    first: P,
    second: P,
    out: &mut [P::Number],
    count: &mut C,
) -> usize
    requires { P.left first < 2 ^ 64 }
    ensures both { (firsts seconds : List ℕ) → IsStrict nat_cmp firsts → IsStrict nat_cmp seconds
        → P.is_at first firsts → P.is_at second seconds
        → AreWrittenBoth firsts seconds result (P.indices out.old) (P.indices out.new) }
    ensures cost { C.counted count.new + result
        ≤ C.counted count.old + P.left first + P.left second }
    ensures least { (firsts seconds : List ℕ) → IsStrict nat_cmp firsts → IsStrict nat_cmp seconds
        → P.is_at first firsts → P.is_at second seconds
        → IsWalkedToAnEnd C.step (length firsts) (length seconds)
        (C.counted count.old) (C.counted count.new) }
{
    let mut one = first;
    let mut two = second;
    let mut found = 0;
    while !one.is_over() && !two.is_over() {
        let order = one.order(&two, count);
        if order.is_lt() {
            one = one.next();
        } else if order.is_gt() {
            two = two.next();
        } else {
            one.put(found, out);
            found += 1;
            one = one.next();
            two = two.next();
        }
    }
    found
}
