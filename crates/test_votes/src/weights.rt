//! Votes by weight: all pairs of lists of three members under all thresholds, and each allocation
//! refused.
use crate::made::{are, at, signers};
use crate::traps::is_answer;
use committee_vote_weights::{WeightedOverlapError, weighted_equivocation, weighted_overlap};
use committee_votes::{Verdict, VoteAt};
use committee_weights::Weights;
use commonware_base::Participant;
use commonware_ordered::Set;
use std::alloc::{AllocError, Global};
use std::process::Abort;
use test_equipment::walk::{Heap, Outcome, Refusable, full, refused, requests};

/// The members of each set of three bits.
static SETS: [&[u32]; 8] = [&[], &[0], &[1], &[0, 1], &[2], &[0, 2], &[1, 2], &[0, 1, 2]];

/// Returns the members of a set of bits.
fn members_of(set: usize) -> &'static [u32] {
    SETS[set % 8]
}

/// What the members of a set of bits weigh.
fn sum_of(weights: [u64; 3], set: usize) -> u64 {
    let mut sum = 0u64;
    for index in 0..3usize {
        if (set >> index) & 1 == 1 {
            sum = sum.wrapping_add(weights[index]);
        }
    }
    sum
}

/// Whether the answers about two sets of members are right under all thresholds.
fn are_right(
    alloc: Global,
    list: [u64; 3],
    votes: (VoteAt<'_>, VoteAt<'_>),
    first: usize,
    second: usize,
) -> Result<bool, AllocError> {
    let Ok(weights) = Weights::new(Vec::from_slice(alloc, &list)?) else {
        return Ok(false);
    };
    let (one, two) = (
        signers(alloc, members_of(first))?,
        signers(alloc, members_of(second))?,
    );
    let (all, both) = (sum_of(list, 7), sum_of(list, first & second));
    for a in 0..9u64 {
        for b in 0..9u64 {
            let right = sum_of(list, first) >= a && sum_of(list, second) >= b;
            let answer = weighted_overlap(alloc, &weights, a, votes.0, &one, b, votes.1, &two);
            let is_right = match &answer {
                Ok(named) => {
                    right
                        && are(named, members_of(first & second))
                        && both.wrapping_add(all) >= a.wrapping_add(b)
                }
                Err(error) => !right && *error == WeightedOverlapError::TooLight,
            };
            if !is_right {
                return Ok(false);
            }
        }
    }
    Ok(true)
}

/// Whether the answers about all sets of members of these weights are right.
fn all_are_right(alloc: Global, list: [u64; 3]) -> Result<bool, AllocError> {
    let votes = (at((b"d", b"s", b"A")), at((b"d", b"s", b"B")));
    for first in 0..8usize {
        for second in 0..8usize {
            if !are_right(alloc, list, votes, first, second)? {
                return Ok(false);
            }
        }
    }
    Ok(true)
}

#[test]
fn every_pair_of_lists_by_weight(rt: HostRuntime) {
    for number in 0..64u64 {
        let list = [number % 4 + 1, number / 4 % 4 + 1, number / 16 + 1];
        assert!(rt; all_are_right(rt.alloc(), list) == Ok(true), "{list:?}");
    }
}

/// Weights, the signers of A and those of B for one slot, the least weight on each side, and what
/// is named.
struct Row {
    weights: &'static [u64],
    first: &'static [u32],
    second: &'static [u32],
    least: (u64, u64),
    answer: Result<&'static [u32], WeightedOverlapError>,
}

static ROWS: [Row; 7] = [
    // More than two thirds of 100 on both sides.
    Row {
        weights: &[40, 30, 20, 10],
        first: &[0, 1],
        second: &[0, 2, 3],
        least: (67, 67),
        answer: Ok(&[0]),
    },
    Row {
        weights: &[40, 30, 20, 10],
        first: &[0, 1],
        second: &[1, 2, 3],
        least: (67, 67),
        answer: Err(WeightedOverlapError::TooLight),
    },
    // A quorum and a single vote.
    Row {
        weights: &[40, 30, 20, 10],
        first: &[0, 1],
        second: &[1],
        least: (67, 0),
        answer: Ok(&[1]),
    },
    Row {
        weights: &[40, 30, 20, 10],
        first: &[0, 1],
        second: &[4],
        least: (67, 0),
        answer: Err(WeightedOverlapError::Outside),
    },
    // At least two thirds of 3 is 2, and more than two thirds is 3.
    Row {
        weights: &[1, 1, 1],
        first: &[0, 1],
        second: &[1, 2],
        least: (2, 2),
        answer: Ok(&[1]),
    },
    Row {
        weights: &[1, 1, 1],
        first: &[0, 1],
        second: &[1, 2],
        least: (3, 3),
        answer: Err(WeightedOverlapError::TooLight),
    },
    Row {
        weights: &[5],
        first: &[],
        second: &[],
        least: (0, 0),
        answer: Ok(&[]),
    },
];

impl Refusable for Row {
    fn outcome<H: Heap>(&self, heap: H, granted: u64) -> Outcome {
        let (one, two) = (signers(heap, self.first), signers(heap, self.second));
        let (Ok(one), Ok(two), Ok(list)) = (one, two, Vec::from_slice(heap, self.weights)) else {
            return Outcome::Wrong;
        };
        let Ok(weights) = Weights::new(list) else {
            return Outcome::Wrong;
        };
        let (a, b) = (at((b"c", b"7", b"A")), at((b"c", b"7", b"B")));
        heap.restart(granted);
        let named = weighted_overlap(heap, &weights, self.least.0, a, &one, self.least.1, b, &two);
        match (&named, self.answer) {
            (Ok(named), Ok(wanted)) => full(are(named, wanted)),
            (Err(WeightedOverlapError::Memory), Ok(_)) => refused(are(&one, self.first)),
            (Err(error), Err(wanted)) => full(*error == wanted),
            _ => Outcome::Wrong,
        }
    }
}

#[test]
fn names_by_weight_take_one_allocation(rt: HostRuntime) {
    for (place, row) in ROWS.iter().enumerate() {
        let asked = (row.answer.is_ok() && !row.first.is_empty()) as u64;
        assert!(rt; requests(rt.alloc(), row) == Some(asked), "{place}");
    }
}

/// The resilience, the signers of A and those of B for one slot, of the weights 40, 30, 20 and 10,
/// and what is named where each side needs a quorum: 51 at 2, 67 at 3 and 81 at 5.
static QUORUMS: [(u32, &[u32], &[u32], Result<&[u32], WeightedOverlapError>); 9] = [
    (3, &[0, 1], &[0, 2, 3], Ok(&[0])),
    (3, &[0, 1], &[1, 2, 3], Err(WeightedOverlapError::TooLight)),
    (3, &[1, 2, 3], &[0, 1], Err(WeightedOverlapError::TooLight)),
    (2, &[0, 1], &[1, 2, 3], Ok(&[1])),
    (
        2,
        &[0, 3],
        &[0, 1, 2, 3],
        Err(WeightedOverlapError::TooLight),
    ),
    (5, &[0, 1, 2], &[0, 1, 2, 3], Ok(&[0, 1, 2])),
    (
        5,
        &[0, 1, 2],
        &[0, 1, 3],
        Err(WeightedOverlapError::TooLight),
    ),
    (3, &[4], &[0, 1], Err(WeightedOverlapError::Outside)),
    (
        3,
        &[0, 1, 2, 3],
        &[3, 4],
        Err(WeightedOverlapError::Outside),
    ),
];

/// Whether these signers are named, or this error is returned.
fn is_named(
    alloc: Global,
    k: u32,
    lists: (&[u32], &[u32]),
    wanted: Result<&[u32], WeightedOverlapError>,
) -> Result<bool, AllocError> {
    if k < 2 {
        return Ok(false);
    }
    let Ok(weights) = Weights::new(Vec::from_slice(alloc, &[40u64, 30, 20, 10])?) else {
        return Ok(false);
    };
    let (one, two) = (signers(alloc, lists.0)?, signers(alloc, lists.1)?);
    let (a, b) = (at((b"c", b"7", b"A")), at((b"c", b"7", b"B")));
    let named = weighted_equivocation(alloc, k, &weights, a, &one, b, &two);
    Ok(is_answer(&named, wanted))
}

#[test]
fn two_quorums_by_weight_are_needed(rt: HostRuntime) {
    for (place, row) in QUORUMS.iter().enumerate() {
        let found = is_named(rt.alloc(), row.0, (row.1, row.2), row.3);
        assert!(rt; found == Ok(true), "{place}");
    }
}

/// What two votes name, of the weights 1, 1, 1 and 1, of which 0, 1 and 2 signed the first, and 1,
/// 2 and 3 the second.
fn judged(
    alloc: Global,
    first: VoteAt<'_>,
    second: VoteAt<'_>,
) -> Result<Result<Set<Participant, Global>, WeightedOverlapError>, AllocError> {
    let one = signers(alloc, &[0, 1, 2])?;
    let two = signers(alloc, &[1, 2, 3])?;
    let Ok(weights) = Weights::new(Vec::from_slice(alloc, &[1u64, 1, 1, 1])?) else {
        return Err(AllocError);
    };
    Ok(weighted_equivocation(alloc, 3, &weights, first, &one, second, &two))
}

#[test]
fn what_is_no_offence_is_told_in_order(rt: HostRuntime) {
    let vote = at((b"c", b"7", b"A"));
    let named = judged(rt.alloc(), vote, at((b"c", b"7", b"B")));
    assert!(rt; matches!(&named, Ok(Ok(named)) if are(named, &[1, 2])));
    let errors = [
        ((b"d", b"8", b"A"), WeightedOverlapError::OtherDomain),
        ((b"c", b"8", b"A"), WeightedOverlapError::OtherSlot),
        ((b"c", b"7", b"A"), WeightedOverlapError::SameDecision),
    ];
    for (fields, wanted) in &errors {
        let other = at((
            fields.0.as_slice(),
            fields.1.as_slice(),
            fields.2.as_slice(),
        ));
        let found = judged(rt.alloc(), vote, other);
        assert!(rt;
            matches!(&found, Ok(Err(error)) if error == wanted),
            "{fields:?}"
        );
        assert!(rt; wanted.verdict() == Verdict::NoOffenceByThisRule);
    }
    assert!(rt; WeightedOverlapError::TooLight.verdict() == Verdict::CannotJudge);
    assert!(rt; WeightedOverlapError::Outside.verdict() == Verdict::CannotJudge);
    assert!(rt; WeightedOverlapError::Memory.verdict() == Verdict::Failed);
}
