//! Whether keys are strictly increasing. Only a counted call compares them.
ghost use Rattle.std.specs.Prelude.{◌≡◌, ◌↔◌, ◌+◌, ◌-◌, ◌<◌, ◌≤◌, ℕ, IsTrue, length};
ghost use Rattle.std.specs.List.{AllAdjacentBelow};
ghost use Rattle.std.specs.declared.cmp.Ordering.TheVariants.{Less};
ghost use Rattle.commonware_ordered.specs.Costs.{IsWholeOrderCost};
ghost use Rattle.commonware_ordered.specs.Strict.{IsLessThanNext, IsStrict};
ghost use Rattle.commonware_sequence.specs.FixedBytes.{bytes_cmp};

use crate::counted::{CountedKey, Keys};
use commonware_ordered::Counter;

/// Whether the keys are strictly increasing: each is less than the next. What is read of each once
/// mostly tells the order; from the first keys on of which it doesn't, a loop of its own compares
/// the whole keys.
///
/// Each key is compared with the next, in order, up to the first that isn't less; the first two
/// whose order isn't told at once are compared twice.
#[inline(always)]
pub(crate) fn are_strict<K: Keys<C>, C: Counter>(keys: &K, counter: &mut C) -> bool
    ensures strict { IsTrue result ↔ IsStrict bytes_cmp (K.keys keys.now) }
    ensures cost { C.counted counter.new ≤ C.counted counter.old + length (K.keys keys.now) }
    ensures stops { (k : ℕ) → k + 1 < length (K.keys keys.now)
        → ¬ IsLessThanNext bytes_cmp (K.keys keys.now) k
        → C.counted counter.new ≤ C.counted counter.old + k + 2 }
    ensures least { IsTrue result → IsWholeOrderCost C.step (length (K.keys keys.now))
        (C.counted counter.old) (C.counted counter.new) }
{
    let count = keys.count();
    if count < 2 {
        return true;
    }
    let mut last = keys.key_at(0);
    let mut i = 1;
    while i < count {
        let next = keys.key_at(i);
        match last.order_by_prefix(&next, counter) {
            Some(order) if order.is_lt() => {}
            Some(_) => return false,
            None => return are_strict_from(keys, i, counter),
        }
        last = next;
        i += 1;
    }
    true
}

/// Whether the keys are strictly increasing, where those before a place are.
#[inline(never)]
fn are_strict_from<K: Keys<C>, C: Counter>(keys: &K, from: usize, counter: &mut C) -> bool
    requires second { 0 < from }
    requires inside { from < length (K.keys keys.now) }
    requires before { AllAdjacentBelow (λ x y. bytes_cmp x y ≡ Less) (K.keys keys.now) from }
    ensures strict { IsTrue result ↔ IsStrict bytes_cmp (K.keys keys.now) }
    ensures cost { C.counted counter.new
        ≤ C.counted counter.old + (length (K.keys keys.now) - from) }
    ensures stops { (k : ℕ) → k + 1 < length (K.keys keys.now)
        → ¬ IsLessThanNext bytes_cmp (K.keys keys.now) k
        → C.counted counter.new + from ≤ C.counted counter.old + k + 2 }
    ensures least { IsTrue result → C.step ≡ 1
        → C.counted counter.old + (length (K.keys keys.now) - from) ≤ C.counted counter.new }
{
    let count = keys.count();
    let mut last = keys.key_at(from - 1);
    let mut i = from;
    while i < count {
        let next = keys.key_at(i);
        if !last.order(&next, counter).is_lt() {
            return false;
        }
        last = next;
        i += 1;
    }
    true
}
