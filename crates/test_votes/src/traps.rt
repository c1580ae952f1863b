//! Votes that a framing of bytes took for contradictions, or not for any.
//!
//! There is no call that takes the bytes that a node signed for a vote: the caller says which bytes
//! are the domain, the slot and the decision. So signed bytes of one kind are read as another only
//! where the caller does so.
use crate::made::{Fields, are, at, signers, vote};
use committee_vote_weights::{WeightedOverlapError, weighted_overlap};
use committee_votes::{
    DoubleSignersError, OverlapError, Verdict, VotesError, check_votes, double_signers,
    equivocation_among, overlap,
};
use committee_weights::Weights;
use commonware_base::Participant;
use commonware_ordered::Set;
use std::alloc::{AllocError, Allocator, Global};
use std::process::Abort;

/// Two votes of a committee of 4, their signers, and the double signers, or why there are none.
pub(super) struct Row {
    pub(super) first: (Fields, &'static [u32]),
    pub(super) second: (Fields, &'static [u32]),
    pub(super) answer: Result<&'static [u32], DoubleSignersError>,
}

pub(super) static ROWS: [Row; 16] = [
    // A quorum for A, and one validator that signs B beside it.
    Row {
        first: ((b"chain/7", b"\x07\x00\x02", b"A"), &[0, 1, 2]),
        second: ((b"chain/7", b"\x07\x00\x02", b"B"), &[1]),
        answer: Ok(&[1]),
    },
    // Two attestations that share a member.
    Row {
        first: ((b"chain/7", b"\x07\x00\x02", b"A"), &[0, 3]),
        second: ((b"chain/7", b"\x07\x00\x02", b"B"), &[2, 3]),
        answer: Ok(&[3]),
    },
    // Two single votes of one member.
    Row {
        first: ((b"chain/7", b"\x07\x00\x02", b"A"), &[2]),
        second: ((b"chain/7", b"\x07\x00\x02", b"B"), &[2]),
        answer: Ok(&[2]),
    },
    // Nobody in both is no error, and acquits nobody.
    Row {
        first: ((b"chain/7", b"\x07\x00\x02", b"A"), &[0, 1]),
        second: ((b"chain/7", b"\x07\x00\x02", b"B"), &[2, 3]),
        answer: Ok(&[]),
    },
    // A prevote and a precommit of one height and round: kinds are apart.
    Row {
        first: ((b"chain/7", b"\x07\x00\x01", b"A"), &[0, 1, 2]),
        second: ((b"chain/7", b"\x07\x00\x02", b""), &[0, 1, 2]),
        answer: Err(DoubleSignersError::OtherSlot),
    },
    // Two rounds of one height, of one committee: honest members may sign both.
    Row {
        first: ((b"chain/7", b"\x07\x00\x02", b"A"), &[0, 1, 2]),
        second: ((b"chain/7", b"\x07\x01\x02", b"B"), &[0, 1, 2]),
        answer: Err(DoubleSignersError::OtherSlot),
    },
    // Amnesia: 1 and 2 forgot the lock of round 0, and two blocks of one height are final. The rule
    // of slots finds no offence, and so names nobody. Another rule, of locks, has to find them.
    Row {
        first: ((b"chain/7", b"\x07\x00\x02", b"A"), &[0, 1, 2]),
        second: ((b"chain/7", b"\x07\x01\x02", b"B"), &[1, 2, 3]),
        answer: Err(DoubleSignersError::OtherSlot),
    },
    // A precommit of A, and one of nothing, at one height and round.
    Row {
        first: ((b"chain/7", b"\x07\x00\x02", b"A"), &[0, 1, 2]),
        second: ((b"chain/7", b"\x07\x00\x02", b""), &[2, 3]),
        answer: Ok(&[2]),
    },
    // Two committees: the epochs 7 and 8.
    Row {
        first: ((b"chain/7", b"\x07\x00\x02", b"A"), &[0, 1, 2]),
        second: ((b"chain/8", b"\x07\x00\x02", b"B"), &[0, 1, 2]),
        answer: Err(DoubleSignersError::OtherDomain),
    },
    // The domain comes before the slot, the slot before the decision, the decision before signers.
    Row {
        first: ((b"chain/7", b"\x07", b"A"), &[9]),
        second: ((b"chain/8", b"\x08", b"A"), &[9]),
        answer: Err(DoubleSignersError::OtherDomain),
    },
    Row {
        first: ((b"chain/7", b"\x07", b"A"), &[9]),
        second: ((b"chain/7", b"\x08", b"A"), &[9]),
        answer: Err(DoubleSignersError::OtherSlot),
    },
    Row {
        first: ((b"chain/7", b"\x07", b"A"), &[9]),
        second: ((b"chain/7", b"\x07", b"A"), &[9]),
        answer: Err(DoubleSignersError::SameDecision),
    },
    Row {
        first: ((b"chain/7", b"\x07", b"A"), &[]),
        second: ((b"chain/7", b"\x07", b"B"), &[4]),
        answer: Err(DoubleSignersError::Outside),
    },
    Row {
        first: ((b"chain/7", b"\x07", b"A"), &[0, 4]),
        second: ((b"chain/7", b"\x07", b"B"), &[0]),
        answer: Err(DoubleSignersError::Outside),
    },
    // Nobody signed one of the votes.
    Row {
        first: ((b"chain/7", b"\x07", b"A"), &[]),
        second: ((b"chain/7", b"\x07", b"B"), &[0, 3]),
        answer: Ok(&[]),
    },
    // The same bytes in all, cut in other places: no framing joins them.
    Row {
        first: ((b"\x01\x07", b"A", b""), &[0, 1, 2]),
        second: ((b"\x01", b"\x07A", b""), &[0, 1, 2]),
        answer: Err(DoubleSignersError::OtherDomain),
    },
];

/// Returns the refusal of the same votes where each has a least number of signers.
pub(super) fn by_number(error: DoubleSignersError) -> OverlapError {
    match error {
        DoubleSignersError::OtherDomain => OverlapError::OtherDomain,
        DoubleSignersError::OtherSlot => OverlapError::OtherSlot,
        DoubleSignersError::SameDecision => OverlapError::SameDecision,
        DoubleSignersError::Outside => OverlapError::Outside,
        DoubleSignersError::Memory => OverlapError::Memory,
    }
}

/// Returns the refusal of the same votes where the signers of each have a least weight.
fn by_weight(error: DoubleSignersError) -> WeightedOverlapError {
    match error {
        DoubleSignersError::OtherDomain => WeightedOverlapError::OtherDomain,
        DoubleSignersError::OtherSlot => WeightedOverlapError::OtherSlot,
        DoubleSignersError::SameDecision => WeightedOverlapError::SameDecision,
        DoubleSignersError::Outside => WeightedOverlapError::Outside,
        DoubleSignersError::Memory => WeightedOverlapError::Memory,
    }
}

/// Whether these are named, or this error is returned.
pub(super) fn is_answer<A: Allocator, E: PartialEq + Drop>(
    named: &Result<Set<Participant, A>, E>,
    wanted: Result<&[u32], E>,
) -> bool {
    match (named, wanted) {
        (Ok(named), Ok(wanted)) => are(named, wanted),
        (Err(error), Err(wanted)) => *error == wanted,
        _ => false,
    }
}

/// Whether the row's answer is given.
fn is_answered(alloc: Global, row: &Row) -> Result<bool, AllocError> {
    let first = vote(alloc, row.first.0)?;
    let (one, two) = (signers(alloc, row.first.1)?, signers(alloc, row.second.1)?);
    let second = at(row.second.0);
    let named = double_signers(alloc, 4, first.at(), &one, second, &two);
    Ok(is_answer(&named, row.answer))
}

/// Whether the row's answer is given, and the same refusals, where no signers and no weight are
/// asked for, and where all members may be faulty: each call has an order of its own.
fn is_answered_by_all(alloc: Global, row: &Row) -> Result<bool, AllocError> {
    let Ok(weights) = Weights::new(Vec::from_slice(alloc, &[1u64, 2, 3, 4])?) else {
        return Ok(false);
    };
    let (one, two) = (signers(alloc, row.first.1)?, signers(alloc, row.second.1)?);
    let (a, b) = (at(row.first.0), at(row.second.0));
    let by_any = overlap(alloc, 4, 0, a, &one, 0, b, &two);
    let among = equivocation_among(alloc, 4, 4, a, &one, b, &two);
    let weighed = weighted_overlap(alloc, &weights, 0, a, &one, 0, b, &two);
    let wanted = row.answer.map_err(by_number);
    Ok(
        is_answer(&by_any, wanted)
            && is_answer(&among, wanted)
            && is_answer(&weighed, row.answer.map_err(by_weight)),
    )
}

/// Whether the row's refusal comes before one of too few signers, or of too light ones.
fn is_refused_first(alloc: Global, row: &Row) -> Result<bool, AllocError> {
    let Ok(weights) = Weights::new(Vec::from_slice(alloc, &[1u64, 2, 3, 4])?) else {
        return Ok(false);
    };
    let (one, two) = (signers(alloc, row.first.1)?, signers(alloc, row.second.1)?);
    let (a, b) = (at(row.first.0), at(row.second.0));
    let few = row.answer.map_err(by_number).err();
    let light = row.answer.map_err(by_weight).err();
    let by_many = overlap(alloc, 4, 5, a, &one, 5, b, &two).err();
    let weighed = weighted_overlap(alloc, &weights, 11, a, &one, 11, b, &two).err();
    Ok(
        by_many == Some(few.unwrap_or(OverlapError::TooFew))
            && weighed == Some(light.unwrap_or(WeightedOverlapError::TooLight)),
    )
}

#[test]
fn double_signers_are_named(rt: HostRuntime) {
    for (place, row) in ROWS.iter().enumerate() {
        assert!(rt; is_answered(rt.alloc(), row) == Ok(true), "{place}");
    }
}

#[test]
fn double_signers_are_named_by_all_calls(rt: HostRuntime) {
    for (place, row) in ROWS.iter().enumerate() {
        assert!(rt; is_answered_by_all(rt.alloc(), row) == Ok(true), "{place}");
        assert!(rt; is_refused_first(rt.alloc(), row) == Ok(true), "{place}");
    }
}

/// What is said of two votes where no signers are given.
fn votes_error(answer: Result<&[u32], DoubleSignersError>) -> Option<VotesError> {
    match answer {
        Err(DoubleSignersError::OtherDomain) => Some(VotesError::OtherDomain),
        Err(DoubleSignersError::OtherSlot) => Some(VotesError::OtherSlot),
        Err(DoubleSignersError::SameDecision) => Some(VotesError::SameDecision),
        _ => None,
    }
}

#[test]
fn votes_alone_are_checked(rt: HostRuntime) {
    for (place, row) in ROWS.iter().enumerate() {
        let error = check_votes(at(row.first.0), at(row.second.0)).err();
        assert!(rt; error == votes_error(row.answer), "{place}");
        let kind = error.map(|it| it.verdict());
        assert!(rt;
            kind == error.map(|_| Verdict::NoOffenceByThisRule),
            "{place}"
        );
    }
}
