//! Weights that refute a number above what their total tolerates, with each allocation failing in
//! turn: what is returned is summed again.
use committee_weights::{WeightRefutation, weight_refutation};
use std::alloc::{AllocError, Allocator};
use test_equipment::walk::{Heap, Outcome, Refusable, full, makes_requests, refused};

/// What is asked: a total, a number above what it tolerates, and how many participants have it.
#[derive(Clone, Copy)]
struct Row {
    k: u32,
    total: u64,
    greater: u64,
    participants: u32,
    /// Whether there is a refutation.
    refuted: bool,
}

/// At a `k` of 3 a total of 7 tolerates 2, and one of 2^64 - 1, three times 6148914691236517205,
/// tolerates 6148914691236517204. At a `k` of 2 a total of 6 tolerates 2.
static ROWS: [(u32, u64, u64, u32, bool); 24] = [
    (3, 7, 3, 3, true),
    (3, 7, 3, 5, true),
    (3, 7, 3, 7, true),
    (3, 7, 4, 3, true),
    (3, 7, 6, 3, true),
    (3, 7, 7, 3, true),
    (3, 7, 9, 7, true),
    (3, 3, 1, 3, true),
    (2, 6, 3, 3, true),
    (2, 6, 3, 6, true),
    (3, 18446744073709551615, 6148914691236517205, 3, true),
    (3, 18446744073709551615, 6148914691236517205, 100, true),
    (2, 18446744073709551615, 18446744073709551615, 100, true),
    (4294967295, 18446744073709551615, 4294967297, 3, true),
    (3, 18446744073709551615, 6148914691236517205, 70_000, true),
    (2, 18446744073709551615, 9223372036854775808, 70_000, true),
    (3, 70_000, 23_334, 70_000, true),
    (3, 7, 2, 3, false),
    (3, 7, 0, 3, false),
    (3, 7, 3, 2, false),
    (3, 7, 3, 8, false),
    (3, 70_000, 23_333, 70_000, false),
    (3, 0, 3, 0, false),
    (4294967295, 18446744073709551615, 4294967296, 3, false),
];

/// Returns what those weigh that are in both of two subsets. `None` where the sum overflows, or
/// where a subset doesn't say of each participant whether it is one.
fn shared(weights: &[u64], one: &[bool], other: &[bool]) -> Option<u64> {
    if one.len() != weights.len() || other.len() != weights.len() {
        return None;
    }
    let mut sum: u64 = 0;
    for (weight, (first, second)) in weights.iter().zip(one.iter().zip(other)) {
        if *first && *second {
            sum = sum.checked_add(*weight)?;
        }
    }
    Some(sum)
}

impl Row {
    fn new(row: &(u32, u64, u64, u32, bool)) -> Row {
        Row {
            k: row.0,
            total: row.1,
            greater: row.2,
            participants: row.3,
            refuted: row.4,
        }
    }

    /// Whether two subsets that weigh this and share this much refute the number.
    fn refutes(&self, one: u64, other: u64, both: u64) -> bool {
        let quorum = self.total.saturating_sub(self.greater);
        let needed = u128::from(self.k.saturating_sub(2)) * u128::from(self.greater) + 1;
        one >= quorum && other >= quorum && u128::from(both) < needed
    }

    /// Whether what is returned refutes the number.
    fn is_refuted_by<A: Allocator>(&self, found: &WeightRefutation<A>) -> bool {
        let weights = found.weights.as_slice();
        let one = shared(weights, &found.one, &found.one);
        let other = shared(weights, &found.other, &found.other);
        let both = shared(weights, &found.one, &found.other);
        let (Some(one), Some(other), Some(both)) = (one, other, both) else {
            return false;
        };
        let sum = weights
            .iter()
            .try_fold(0u64, |sum, weight| sum.checked_add(*weight));
        sum == Some(self.total)
            && weights.len() == self.participants as usize
            && weights.iter().all(|weight| *weight > 0)
            && self.refutes(one, other, both)
    }

    fn outcome_of<A: Allocator>(
        &self,
        found: Result<Option<WeightRefutation<A>>, AllocError>,
    ) -> Outcome {
        match found {
            Ok(Some(found)) => full(self.refuted && self.is_refuted_by(&found)),
            Ok(None) => full(!self.refuted),
            Err(AllocError) => refused(self.refuted),
        }
    }
}

impl Refusable for Row {
    fn outcome<H: Heap>(&self, heap: H, granted: u64) -> Outcome {
        if self.k < 2 {
            return Outcome::Wrong;
        }
        heap.restart(granted);
        let found = weight_refutation(heap, self.k, self.total, self.greater, self.participants);
        self.outcome_of(found)
    }
}

/// A refutation takes memory for its weights and for both subsets, and where there is none, none.
#[test]
fn greater_numbers_are_refuted(rt: HostRuntime) {
    for row in &ROWS {
        let row = Row::new(row);
        let least = if row.refuted { 3 } else { 0 };
        assert!(rt;
            makes_requests(rt.alloc(), &row, least),
            "{} {} {} {}",
            row.k,
            row.total,
            row.greater,
            row.participants
        );
    }
}
