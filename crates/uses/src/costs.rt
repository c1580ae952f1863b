//! A bound of a caller's own on what a peer can cost it, from the clause of each look-up.
ghost use Rattle.std.specs.Prelude.{◌≡◌, ◌+◌, ◌*◌, ◌<◌, ◌≤◌, ◌^◌, length};
ghost use Rattle.std.specs.List.{filter, list_any};

use commonware_utils::ordered::{Counter, Set};
use std::alloc::Global;

/// Returns how many of the keys that a peer sent are members of a committee of fewer than 1,024: at
/// most 16 comparisons a key, whatever the keys are.
pub fn members_among<T: Ord, C: Counter>(
    committee: &Set<T, Global>,
    keys: &[T],
    count: &mut C,
) -> usize
    requires few { length committee.now < 2 ^ 10 }
    ensures value { result
        ≡ length (filter (λ key. list_any (λ y. T.eq y key) committee.now) keys.now) }
    ensures cost { C.counted count.new ≤ C.counted count.old + 16 * length keys.now }
{
    let mut members = 0;
    let mut i = 0;
    while i < keys.len() {
        if committee.contains_counted(&keys[i], count) {
            members += 1;
        }
        i += 1;
    }
    members
}
