//! What a look-up costs at most, in numbers.
ghost use Rattle.std.specs.Prelude.{◌+◌, ◌*◌, ◌/◌, ◌<◌, ◌≤◌, ◌^◌, ℕ};
ghost use Rattle.commonware_ordered.specs.Costs.{IsLookUpCost};

/// Whatever the items are and whichever one is sought: a look-up among fewer than 2^k items makes
/// at most 1 + 3k/2 comparisons, so among fewer than 1,024 at most 16, and none makes more than 97.
/// A bound for some items is one for more of them.
pub fn look_up_law()
    ensures most { (n old new k : ℕ) → IsLookUpCost n old new → n < 2 ^ k
        → new ≤ old + (3 * k + 2) / 2 }
    ensures thousand { (n old new : ℕ) → IsLookUpCost n old new → n < 1024 → new ≤ old + 16 }
    ensures any { (n old new : ℕ) → IsLookUpCost n old new → n < 2 ^ 64 → new ≤ old + 97 }
    ensures more { (n m old new : ℕ) → IsLookUpCost n old new → n ≤ m → IsLookUpCost m old new }
{}
