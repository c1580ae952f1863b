//! The members that signed both of two certificates for different values, where quorums are by
//! weight, with each allocation failing in turn.
use crate::lists::{are, certificate, weights_of};
use committee_certificates::Certificate;
use committee_weights::{WeightedConflictError, Weights, weighted_conflict};
use commonware_base::Participant;
use commonware_ordered::Set;
use std::alloc::Allocator;
use test_equipment::walk::{Heap, Outcome, Refusable, full, refused, requests};

/// Weights, and the signers of two certificates for different values.
#[derive(Clone, Copy)]
struct Row {
    k: u32,
    weights: &'static [u64],
    first: &'static [u32],
    second: &'static [u32],
    /// Those of both, or the error.
    answer: Result<&'static [u32], WeightedConflictError>,
}

/// At a k of 3 of 100 in all, 33 are tolerated, and a quorum weighs 67.
const FOUR: &[u64] = &[40, 30, 20, 10];

static ROWS: [Row; 7] = [
    Row {
        k: 3,
        weights: FOUR,
        first: &[0, 1],
        second: &[0, 2, 3],
        answer: Ok(&[0]),
    },
    // The members 1, 2 and 3 weigh 60.
    Row {
        k: 3,
        weights: FOUR,
        first: &[0, 1],
        second: &[1, 2, 3],
        answer: Err(WeightedConflictError::TooLight),
    },
    // 4 is no member, and that comes before weight.
    Row {
        k: 3,
        weights: FOUR,
        first: &[0, 1],
        second: &[0, 1, 4],
        answer: Err(WeightedConflictError::Outside),
    },
    // At a k of 2 of 100 in all, a quorum weighs 51.
    Row {
        k: 2,
        weights: FOUR,
        first: &[1, 2, 3],
        second: &[0, 2],
        answer: Ok(&[2]),
    },
    // At the greatest k none are tolerated.
    Row {
        k: 4294967295,
        weights: FOUR,
        first: &[0, 1, 2, 3],
        second: &[0, 1, 2, 3],
        answer: Ok(&[0, 1, 2, 3]),
    },
    // Of 2^64 - 1 in all 6148914691236517204 are tolerated. The first weighs a quorum, and then
    // one less.
    Row {
        k: 3,
        weights: &[12297829382473034411, 6148914691236517204],
        first: &[0],
        second: &[0, 1],
        answer: Ok(&[0]),
    },
    Row {
        k: 3,
        weights: &[12297829382473034410, 6148914691236517205],
        first: &[0],
        second: &[0, 1],
        answer: Err(WeightedConflictError::TooLight),
    },
];

/// The members that signed both. `None` where the values are the same, or `k` is below 2.
pub(super) fn conflict_of<A: Allocator>(
    alloc: A,
    k: u32,
    weights: &Weights<A>,
    first: &Certificate<A>,
    second: &Certificate<A>,
) -> Option<Result<Set<Participant, A>, WeightedConflictError>> {
    if k < 2 || first.value == second.value {
        return None;
    }
    Some(weighted_conflict(alloc, k, weights, first, second))
}

/// The outcome of a result where the wanted one is this.
fn outcome_of<H: Heap>(
    both: Option<Result<Set<Participant, H>, WeightedConflictError>>,
    wanted: Result<&[u32], WeightedConflictError>,
) -> Outcome {
    match (both, wanted) {
        (Some(Ok(both)), Ok(wanted)) => full(are(&both, wanted)),
        (Some(Err(WeightedConflictError::Memory)), Ok(_)) => refused(true),
        (Some(Err(error)), Err(wanted)) => full(error == wanted),
        _ => Outcome::Wrong,
    }
}

impl Row {
    /// The outcome among participants of these weights.
    fn outcome_among<H: Heap>(&self, heap: H, granted: u64, weights: &Weights<H>) -> Outcome {
        let first = certificate(heap, b"\xaa", self.first);
        let second = certificate(heap, b"\xbb", self.second);
        let (Ok(first), Ok(second)) = (first, second) else {
            return Outcome::Wrong;
        };
        heap.restart(granted);
        let both = conflict_of(heap, self.k, weights, &first, &second);
        outcome_of(both, self.answer)
    }
}

impl Refusable for Row {
    fn outcome<H: Heap>(&self, heap: H, granted: u64) -> Outcome {
        match weights_of(heap, self.weights) {
            Some(weights) => self.outcome_among(heap, granted, &weights),
            None => Outcome::Wrong,
        }
    }
}

/// A result takes one allocation, and an error that isn't an allocation failure takes none.
#[test]
fn signers_of_both_are_named(rt: HostRuntime) {
    for (at, row) in ROWS.iter().enumerate() {
        let asked = row.answer.is_ok() as u64;
        assert!(rt; requests(rt.alloc(), row) == Some(asked), "{at}");
    }
}
