//! Totals about each power of two that a number may wrap at or be rounded at, and lists of which
//! the sum is one too many.
use crate::lists::weights_of;
use committee_weights::{Weights, WeightsError, tolerated_weight, total_weight};
use std::alloc::Global;

/// The resiliences of the table.
const RESILIENCES: [u32; 4] = [2, 3, 5, 4294967295];

/// A total, and the greatest f with kf + 1 at most the total for each k in turn.
static TOTALS: [(u64, [u64; 4]); 7] = [
    (1, [0, 0, 0, 0]),
    (4, [1, 1, 0, 0]),
    (7, [3, 2, 1, 0]),
    (4294967296, [2147483647, 1431655765, 858993459, 1]),
    (
        9007199254740993,
        [
            4503599627370496,
            3002399751580330,
            1801439850948198,
            2097152,
        ],
    ),
    (
        9223372036854775808,
        [
            4611686018427387903,
            3074457345618258602,
            1844674407370955161,
            2147483648,
        ],
    ),
    (
        18446744073709551615,
        [
            9223372036854775807,
            6148914691236517204,
            3689348814741910322,
            4294967296,
        ],
    ),
];

/// Whether weights of this total tolerate f at a k, and all but f is a quorum.
fn are_numbers(weights: &Weights<Global>, total: u64, k: u32, faulty: u64) -> bool {
    if k < 2 {
        return false;
    }
    let smaller = faulty.checked_mul(2).and_then(|twice| twice.checked_add(1));
    weights.total() == total
        && total_weight(weights.as_slice()).is_ok_and(|it| it == total)
        && weights.max_faulty_weight(k) == faulty
        && total > 0
        && tolerated_weight(k, total) == faulty
        && total.checked_sub(faulty) == Some(weights.quorum_weight(k))
        && smaller == Some(weights.smaller_quorum_weight(k))
}

/// Whether these weights have this total, and tolerate these at each k.
fn have_numbers(alloc: Global, items: &[u64], total: u64, faulty: &[u64; 4]) -> bool {
    let Some(weights) = weights_of(alloc, items) else {
        return false;
    };
    let mut rows = RESILIENCES.iter().zip(faulty);
    rows.all(|(k, faulty)| are_numbers(&weights, total, *k, *faulty))
}

#[test]
fn each_total_has_its_numbers(rt: HostRuntime) {
    for (total, faulty) in &TOTALS {
        assert!(rt;
            have_numbers(rt.alloc(), &[*total], *total, faulty),
            "{total}"
        );
        let Some(rest) = total.checked_sub(6).filter(|rest| *rest > 0) else {
            continue;
        };
        let first = [rest, 1, 2, 3];
        assert!(rt;
            have_numbers(rt.alloc(), first.as_slice(), *total, faulty),
            "{total}"
        );
        let last = [3, 1, 2, rest];
        assert!(rt;
            have_numbers(rt.alloc(), last.as_slice(), *total, faulty),
            "{total}"
        );
    }
}

/// Numbers that aren't the weights of a committee, and why. 9223372036854775808 is half of 2^64.
static REFUSED: [(&[u64], WeightsError); 5] = [
    (&[], WeightsError::Empty),
    (&[5, 0, 0], WeightsError::Zero(1)),
    (&[0, u64::MAX, u64::MAX], WeightsError::Zero(0)),
    (&[u64::MAX, 1, 0], WeightsError::Overflow(1)),
    (
        &[9223372036854775808, 9223372036854775807, 1],
        WeightsError::Overflow(2),
    ),
];

/// Whether these are refused for this.
fn are_refused(alloc: Global, items: &[u64], wanted: WeightsError) -> bool {
    if !total_weight(items).is_err_and(|error| error == wanted) {
        return false;
    }
    match Vec::from_slice(alloc, items) {
        Ok(items) => Weights::new(items).is_err_and(|error| error == wanted),
        Err(_) => false,
    }
}

#[test]
fn other_numbers_are_refused(rt: HostRuntime) {
    for (items, error) in &REFUSED {
        assert!(rt; are_refused(rt.alloc(), items, *error), "{items:?}");
    }
}
