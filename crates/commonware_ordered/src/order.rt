//! The check of the order of a list.
ghost use Rattle.std.specs.Prelude.{◌+◌, ◌<◌, ◌≤◌, ◌↔◌, ℕ, IsTrue, length};
ghost use Rattle.commonware_ordered.specs.Costs.{IsOrderCost, IsWholeOrderCost, StopsAtFault};
ghost use Rattle.commonware_ordered.specs.Strict.{IsStrict};

use crate::at::cmp_next;
use crate::counted::CountedOrd;
use crate::counter::Counter;

/// Whether the items are strictly increasing: each is less than the next. Each is compared with the
/// next, in order, up to the first that isn't less.
pub(crate) fn are_strict<T: CountedOrd<C>, C: Counter>(items: &[T], count: &mut C) -> bool
    ensures strict { IsTrue result ↔ IsStrict T.order items.now }
    ensures cost { IsOrderCost (length items.now) (C.counted count.old) (C.counted count.new) }
    ensures stops { StopsAtFault T.order items.now (C.counted count.old) (C.counted count.new) }
    ensures least { IsTrue result → IsWholeOrderCost C.step (length items.now)
        (C.counted count.old) (C.counted count.new) }
{
    let mut i = 1;
    while i < items.len() {
        if !cmp_next(items, i - 1, count).is_lt() {
            return false;
        }
        i += 1;
    }
    true
}
