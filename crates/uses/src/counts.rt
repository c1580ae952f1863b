//! A count of comparisons that takes no bytes, begun with none.
ghost use Rattle.std.specs.Prelude.{◌≡◌, ◌+◌, ◌*◌, ◌<◌, ◌≤◌, ◌^◌, ℕ, length};
ghost use Rattle.std.specs.List.{list_any};

use commonware_utils::ordered::{Comparisons, Set};
use std::alloc::Global;
use std::marker::Brand;
use std::sync::ledger::{Blank, Ledger};

/// Whether a key is in a set, and how many comparisons that took: at most 1 + 3k/2, where k binary
/// digits are enough for the set's length. It requires that the blank is that of the ledger, of any
/// parts.
pub fn looked_up<L: Ledger, T: Ord>(
    blank: Blank,
    set: &Set<T, Global>,
    key: &T,
) -> (bool, Comparisons<L>)
    requires name { blank.name ≡ L.name }
    requires parts { blank.parts ≡ L.parts }
    requires some { 0 < blank.parts }
    ensures value { result.0 ≡ list_any (λ y. T.eq y key.now) set.now }
    ensures cost { (k : ℕ) → length set.now < 2 ^ k → 2 * result.1 ≤ 3 * k + 2 }
{
    let mut count = Comparisons::<L>::none(blank);
    let found = set.contains_counted(key, &mut count);
    (found, count)
}

/// Whether a key is in a set, with a count that stays here: a ledger that a caller picks can't be
/// named in what is returned.
fn is_found<L: Ledger, T: Ord>(blank: Blank, set: &Set<T, Global>, key: &T) -> bool
    requires name { blank.name ≡ L.name }
    requires parts { blank.parts ≡ L.parts }
    requires some { 0 < blank.parts }
    ensures { result ≡ list_any (λ y. T.eq y key.now) set.now }
{
    let (found, _count) = looked_up::<L, T>(blank, set, key);
    found
}

/// Whether a key is in a set. The blank that the count begins with is made here, of one part, and
/// needs no handle.
pub fn is_in<T: Ord>(set: &Set<T, Global>, key: &T) -> bool
    ensures { result ≡ list_any (λ y. T.eq y key.now) set.now }
{
    is_found::<Brand, T>(Blank::new(1), set, key)
}
