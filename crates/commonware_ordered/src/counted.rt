//! Items that can be compared only by a call that counts it. Each comparison of the library is one
//! of the two calls below.
ghost use Rattle.std.specs.Prelude.{◌≡◌, ◌+◌, ◌≤◌, Bool};
ghost use Rattle.std.specs.Cmp.{IsTotalOrder};
ghost use Rattle.std.specs.declared.cmp.Ordering.{Ordering};
ghost use Rattle.std.specs.Ordering.{is_eq};

use crate::counter::Counter;
use std::cmp::Ordering;

/// An order that proofs know and no code can ask: what a type of ordered items needs for its
/// invariant.
pub trait Order {
    /// The order of the items.
    ghost order: { Self → Self → Ordering };

    /// Which items are equal.
    ghost same: { Self → Self → Bool };
}

impl<T: Ord> Order for T {
    ghost order = { T.cmp };

    ghost same = { T.eq };
}

/// Items in order that are compared by a call that counts it, and by no other: a function whose
/// only bound on its items is this one can't compare two of them without the counter, and has no
/// counter but the one that it was passed.
///
/// Every `T: Ord` is such an item, with each counter.
pub trait CountedOrd<K: Counter>: Order {
    /// Compares two items, and counts it.
    fn counted_cmp(&self, other: &Self, count: &mut K) -> Ordering
        ensures value { result ≡ Self.order self.now other.now }
        ensures count { K.counted count.new ≡ K.counted count.old + K.step }
        ensures cost { K.counted count.new ≤ K.counted count.old + 1 };

    /// Whether two items are equal, counted as one comparison.
    fn counted_eq(&self, other: &Self, count: &mut K) -> bool
        ensures value { result ≡ Self.same self.now other.now }
        ensures count { K.counted count.new ≡ K.counted count.old + K.step }
        ensures cost { K.counted count.new ≤ K.counted count.old + 1 };

    /// It is an order.
    ghost total: { IsTotalOrder Self.order };

    /// The equal items are those that the order calls equal.
    ghost ties: { (x y : Self) → Self.same x y ≡ is_eq (Self.order x y) };
}

impl<T: Ord, K: Counter> CountedOrd<K> for T {
    #[inline(always)]
    fn counted_cmp(&self, other: &T, count: &mut K) -> Ordering {
        count.tick();
        self.cmp(other)
    }

    #[inline(always)]
    fn counted_eq(&self, other: &T, count: &mut K) -> bool {
        count.tick();
        self.eq(other)
    }

    ghost total = { T.total };

    ghost ties = { T.matches_eq };
}
