//! Keys that are looked up by halving. What is searched has keys that only a counted call compares.
ghost use Rattle.std.specs.Prelude.{◌≡◌, ◌↔◌, ◌+◌, ◌-◌, ◌*◌, ◌<◌, ◌≤◌, ℕ};
ghost use Rattle.std.specs.Prelude.{IfErr, IfOk, List, Some, length, slice_index_or};
ghost use Rattle.std.specs.List.{slice_get};
ghost use Rattle.std.specs.declared.result.Result.TheVariants.{Ok};
ghost use Rattle.commonware_ordered.specs.Strict.{IsStrict};
ghost use Rattle.commonware_sequence.specs.FixedBytes.{bytes_cmp};
ghost use Rattle.commonware_views.specs.Costs.{IsHalvingCost, IsLookUpCounted};
ghost use Rattle.commonware_views.specs.Lists.{IsGapFor};

use crate::counted::{CountedKey, Keys};
use commonware_ordered::Counter;
use std::cmp::Ordering;

/// Compares the key in the middle of the places from `low` up to `high` with another. It returns
/// this place, and the order of the key and the other. At most half of the places are before it,
/// and at most half are after it.
#[inline(always)]
fn compare_middle<K: Keys<C>, C: Counter>(
    keys: &K,
    low: usize,
    high: usize,
    key: &K::Key,
    counter: &mut C,
) -> (usize, Ordering)
    requires some { low < high }
    requires inside { high ≤ length (K.keys keys.now) }
    ensures inside { (low ≤ result.0) × (result.0 < high) }
    ensures value { (d : List ℕ) → result.1
        ≡ bytes_cmp (slice_index_or (K.keys keys.now) result.0 d) (K.Key.bytes key.now) }
    ensures count { C.counted counter.new ≡ C.counted counter.old + C.step }
    ensures cost { (C.counted counter.new ≤ C.counted counter.old + 1)
        × (2 * (result.0 - low) ≤ high - low)
        × (2 * (high - (result.0 + 1)) ≤ high - low) }
{
    let middle = low + (high - low) / 2;
    (middle, keys.key_at(middle).order(key, counter))
}

/// Returns the place of a key that is the one sought, or a gap between two neighbours of which the
/// first is less than it and the second is greater. Of fewer than 2^k keys it compares at most k
/// with it.
#[inline(always)]
pub(crate) fn place_of<K: Keys<C>, C: Counter>(
    keys: &K,
    key: &K::Key,
    counter: &mut C,
) -> Result<usize, usize>
    ensures found { IfOk result (λ p.
        slice_get (K.keys keys.now) p ≡ Some (K.Key.bytes key.now)) }
    ensures absent { IfErr result (IsGapFor (K.Key.bytes key.now) (K.keys keys.now)) }
    ensures exactly { IsStrict bytes_cmp (K.keys keys.now) → (p : ℕ)
        → (result ≡ Ok p) ↔ (slice_get (K.keys keys.now) p ≡ Some (K.Key.bytes key.now)) }
    ensures cost { IsHalvingCost (length (K.keys keys.now))
        (C.counted counter.old) (C.counted counter.new) }
    ensures least { IsLookUpCounted C.step (length (K.keys keys.now))
        (C.counted counter.old) (C.counted counter.new) }
{
    let mut low = 0;
    let mut high = keys.count();
    while low < high {
        let (middle, order) = compare_middle(keys, low, high, key, counter);
        match order {
            Ordering::Less => low = middle + 1,
            Ordering::Greater => high = middle,
            Ordering::Equal => return Ok(middle),
        }
    }
    Err(low)
}
