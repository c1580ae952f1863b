//! The least weight, or number of signers, of the usual rules, and what two of them outlast.
ghost use Rattle.std.specs.Prelude.{◌+◌, ◌*◌, ◌<◌, ◌≤◌, ◌↔◌, ℕ, IfNone, IfSome};

/// Returns the least weight that is more than two thirds of a total, as CometBFT asks: 67 of 100, 3
/// of 3, 1 of 0.
pub fn more_than_two_thirds(total: u64) -> u64
    ensures { (w : ℕ) → (result ≤ w) ↔ (2 * total < 3 * w) }
{
    if total % 3 == 0 {
        total - total / 3 + 1
    } else {
        total - total / 3
    }
}

/// Returns the least weight that is at least two thirds of a total, as Casper FFG asks: 67 of 100,
/// 2 of 3, 0 of 0.
pub fn at_least_two_thirds(total: u64) -> u64
    ensures least { (w : ℕ) → (result ≤ w) ↔ (2 * total ≤ 3 * w) }
    ensures at_most { result ≤ total }
{
    total - total / 3
}

/// Returns the greatest weight of faulty participants that any two lists outlast, of which one
/// weighs at least `first_least` and the other at least `second_least`: whichever weigh so much,
/// one that is in both lists isn't among them. `None` where the lists may share nobody.
///
/// Of 100 in all, lists of 67 and 67 outlast 33, lists of 67 and 34 outlast 0, and lists of 50 and
/// 50 may share nobody.
pub fn outlasted(total: u64, first_least: u64, second_least: u64) -> Option<u64>
    requires first { first_least ≤ total }
    requires second { second_least ≤ total }
    ensures greatest { IfSome result (λ most. (f : ℕ) → (f ≤ most)
        ↔ (total + f < first_least + second_least)) }
    ensures none { IfNone result (first_least + second_least ≤ total) }
{
    let missing = total - first_least;
    if second_least <= missing {
        return None;
    }
    Some(second_least - missing - 1)
}
