//! The texts of votes and errors, and which kind of refusal each error is.
use crate::made::{at, signers, vote};
use committee_vote_weights::WeightedOverlapError;
use committee_votes::{DoubleSignersError, OverlapError, Verdict, VoteCertificate, VotesError};
use std::alloc::{AllocError, Global};
use std::fmt;
use std::process::Abort;

/// Whether a certificate and a borrowed vote have their `Debug` texts.
fn are_shown(alloc: Global) -> Result<bool, AllocError> {
    let fields = (b"\x01".as_slice(), b"\x07".as_slice(), b"".as_slice());
    let certificate = VoteCertificate {
        vote: vote(alloc, fields)?,
        signers: signers(alloc, &[2, 0])?,
    };
    let shown = format!(in alloc; "{certificate:?}")?;
    let wanted = "VoteCertificate { vote: Vote { domain: [1], slot: [7], decision: [] }, \
        signers: Set([Participant(0), Participant(2)]) }";
    let borrowed = format!(in alloc; "{:?}", at(fields))?;
    let text = "VoteAt { domain: [1], slot: [7], decision: [] }";
    Ok(shown.as_str() == wanted && borrowed.as_str() == text)
}

#[test]
fn votes_are_shown(rt: HostRuntime) {
    assert!(rt; are_shown(rt.alloc()) == Ok(true));
}

/// Errors of `overlap`, those of the same votes where no number or a weight is asked for, their
/// kinds and their words.
static KINDS: [(OverlapError, Option<DoubleSignersError>, Verdict, &str); 6] = [
    (
        OverlapError::OtherDomain,
        Some(DoubleSignersError::OtherDomain),
        Verdict::NoOffenceByThisRule,
        "two different domains",
    ),
    (
        OverlapError::OtherSlot,
        Some(DoubleSignersError::OtherSlot),
        Verdict::NoOffenceByThisRule,
        "two different slots",
    ),
    (
        OverlapError::SameDecision,
        Some(DoubleSignersError::SameDecision),
        Verdict::NoOffenceByThisRule,
        "the same decision for the same slot",
    ),
    (
        OverlapError::Outside,
        Some(DoubleSignersError::Outside),
        Verdict::CannotJudge,
        "a signer is no member of the committee",
    ),
    (
        OverlapError::TooFew,
        None,
        Verdict::CannotJudge,
        "fewer signers than asked for",
    ),
    (
        OverlapError::Memory,
        Some(DoubleSignersError::Memory),
        Verdict::Failed,
        "out of memory",
    ),
];

/// Errors by weight, their kinds and their words.
static WEIGHTED: [(WeightedOverlapError, Verdict, &str); 6] = [
    (
        WeightedOverlapError::OtherDomain,
        Verdict::NoOffenceByThisRule,
        "two different domains",
    ),
    (
        WeightedOverlapError::OtherSlot,
        Verdict::NoOffenceByThisRule,
        "two different slots",
    ),
    (
        WeightedOverlapError::SameDecision,
        Verdict::NoOffenceByThisRule,
        "the same decision for the same slot",
    ),
    (
        WeightedOverlapError::Outside,
        Verdict::CannotJudge,
        "a signer is no member of the committee",
    ),
    (
        WeightedOverlapError::TooLight,
        Verdict::CannotJudge,
        "the signers weigh less than asked for",
    ),
    (
        WeightedOverlapError::Memory,
        Verdict::Failed,
        "out of memory",
    ),
];

/// Whether the error has this text.
fn says<E: fmt::Display + Drop>(alloc: Global, error: E, words: &str) -> Result<bool, AllocError> {
    Ok(format!(in alloc; "{error}")?.as_str() == words)
}

#[test]
fn errors_are_of_three_kinds(rt: HostRuntime) {
    for (error, single, kind, words) in &KINDS {
        assert!(rt; error.verdict() == *kind, "{words}");
        assert!(rt; says(rt.alloc(), *error, *words) == Ok(true), "{words}");
        if let Some(single) = single {
            assert!(rt; single.verdict() == *kind, "{words}");
            assert!(rt; says(rt.alloc(), *single, *words) == Ok(true), "{words}");
        }
    }
    for (error, kind, words) in &WEIGHTED {
        assert!(rt; error.verdict() == *kind, "{words}");
        assert!(rt; says(rt.alloc(), *error, *words) == Ok(true), "{words}");
    }
}

#[test]
fn errors_of_votes_alone_are_shown(rt: HostRuntime) {
    let errors = [
        (VotesError::OtherDomain, "two different domains"),
        (VotesError::OtherSlot, "two different slots"),
        (
            VotesError::SameDecision,
            "the same decision for the same slot",
        ),
    ];
    for (error, words) in &errors {
        assert!(rt; says(rt.alloc(), *error, *words) == Ok(true), "{words}");
    }
}
