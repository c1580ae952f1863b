//! Slots of values, and the members that equivocated, with each allocation failing in turn.
use crate::signers::{are, certificate};
use committee_certificates::{
    Certificate, EquivocationError, QuorumError, check_quorum, check_quorum_among, equivocation,
    equivocation_among, slot_of,
};
use commonware_utils::faults::{N3f1, N5f1};
use commonware_utils::ordered::Set;
use commonware_utils::{Participant, union_unique};
use std::alloc::{AllocError, Global};
use std::process::Abort;
use test_equipment::walk::{Heap, Outcome, Refusable, full, refused, requests};

/// Values, each with its slot and its decision, or nothing.
static VALUES: [(&[u8], Option<(&[u8], &[u8])>); 9] = [
    (b"\x02\x07\x01\xaa", Some((b"\x07\x01", b"\xaa"))),
    (b"\x01\x07", Some((b"\x07", b""))),
    (b"\x00\xaa", Some((b"", b"\xaa"))),
    (b"\x00", Some((b"", b""))),
    (b"", None),
    (b"\x02\x07", None),
    (b"\x80", None),
    (b"\x80\x00", None),
    (b"\xff\xff\xff\xff\x0f\x07", None),
];

#[test]
fn values_have_slots(rt: HostRuntime) {
    for (value, parts) in &VALUES {
        assert!(rt; slot_of(value) == *parts, "{value:?}");
    }
}

/// Whether the slot and the decision of which `union_unique` makes a value are found in it.
fn is_found(alloc: Global, slot: &[u8], decision: &[u8]) -> Result<bool, AllocError> {
    if slot.len() > u32::MAX as usize {
        return Ok(false);
    }
    let value = union_unique(alloc, slot, decision)?;
    Ok(slot_of(&value) == Some((slot, decision)))
}

#[test]
fn slots_of_each_length_are_found(rt: HostRuntime) {
    let bytes = [0x5au8; 70_000];
    for length in [
        0,
        1,
        127,
        128,
        255,
        300,
        16_383,
        16_384,
        65_536,
        70_000usize,
    ] {
        let slot = &bytes[..length];
        for decision in [&bytes[..0], &bytes[..1], &bytes[..300]] {
            assert!(rt;
                is_found(rt.alloc(), slot, decision) == Ok(true),
                "{length}"
            );
        }
    }
}

/// The value and the signers of a certificate.
type Signed = (&'static [u8], &'static [u32]);

/// Two certificates in a committee of 4 members under `N3f1`, and what comes of them.
#[derive(Clone, Copy)]
struct Row {
    first: Signed,
    second: Signed,
    answer: Result<&'static [u32], EquivocationError>,
}

static ROWS: [Row; 11] = [
    // View 7: A and B.
    Row {
        first: (b"\x01\x07A", &[0, 1, 2]),
        second: (b"\x01\x07B", &[1, 2, 3]),
        answer: Ok(&[1, 2]),
    },
    // Two heights, which honest members sign both.
    Row {
        first: (b"\x01\x01A", &[0, 1, 2]),
        second: (b"\x01\x02B", &[0, 1, 2]),
        answer: Err(EquivocationError::OtherSlot),
    },
    // Slots of two lengths, in values of one length.
    Row {
        first: (b"\x02\x01\x07A", &[0, 1, 2]),
        second: (b"\x01\x01\x07A", &[0, 1, 2]),
        answer: Err(EquivocationError::OtherSlot),
    },
    Row {
        first: (b"\x01\x07A", &[0, 1, 2]),
        second: (b"\x01\x07A", &[1, 2, 3]),
        answer: Err(EquivocationError::SameDecision),
    },
    Row {
        first: (b"\x09", &[0, 1, 2]),
        second: (b"\x01\x07B", &[1, 2, 3]),
        answer: Err(EquivocationError::NoSlot),
    },
    Row {
        first: (b"\x01\x07A", &[0, 1, 2]),
        second: (b"", &[]),
        answer: Err(EquivocationError::NoSlot),
    },
    // The values come before the signers.
    Row {
        first: (b"\x01\x07A", &[9]),
        second: (b"\x01\x08B", &[]),
        answer: Err(EquivocationError::OtherSlot),
    },
    Row {
        first: (b"\x01\x07A", &[9]),
        second: (b"\x01\x07B", &[]),
        answer: Err(EquivocationError::Outside),
    },
    Row {
        first: (b"\x01\x07A", &[]),
        second: (b"\x01\x07B", &[0, 1, 4]),
        answer: Err(EquivocationError::Outside),
    },
    Row {
        first: (b"\x01\x07A", &[0, 1, 2]),
        second: (b"\x01\x07B", &[2, 3]),
        answer: Err(EquivocationError::TooFew),
    },
    // A slot of no bytes, of a protocol that decides once.
    Row {
        first: (b"\x00A", &[0, 1, 2, 3]),
        second: (b"\x00", &[0, 1, 2, 3]),
        answer: Ok(&[0, 1, 2, 3]),
    },
];

/// Returns the certificate.
fn signed<H: Heap>(heap: H, signed: Signed) -> Result<Certificate<H>, AllocError> {
    let mut made = certificate(heap, 0, signed.1)?;
    made.value = Vec::from_slice(heap, signed.0)?;
    Ok(made)
}

/// The outcome of a result where the wanted one is this.
fn outcome_of<H: Heap>(
    named: Result<Set<Participant, H>, EquivocationError>,
    wanted: Result<&[u32], EquivocationError>,
) -> Outcome {
    match (named, wanted) {
        (Ok(named), Ok(wanted)) => full(are(&named, wanted)),
        (Err(EquivocationError::Memory), Ok(_)) => refused(true),
        (Err(error), Err(wanted)) => full(error == wanted),
        _ => Outcome::Wrong,
    }
}

impl Row {
    /// The outcome in this committee of 4 members, which has to be that among 4 with 1 faulty.
    fn outcome_among<H: Heap>(&self, heap: H, granted: u64, committee: &Set<u32, H>) -> Outcome {
        let (Ok(first), Ok(second)) = (signed(heap, self.first), signed(heap, self.second)) else {
            return Outcome::Wrong;
        };
        if committee.len() != 4 {
            return Outcome::Wrong;
        }
        heap.restart(granted);
        let among = outcome_of(equivocation_among(heap, 4, 1, &first, &second), self.answer);
        heap.restart(granted);
        let named = equivocation::<N3f1, _, _>(heap, committee, &first, &second);
        let outcome = outcome_of(named, self.answer);
        if outcome == among {
            outcome
        } else {
            Outcome::Wrong
        }
    }
}

impl Refusable for Row {
    fn outcome<H: Heap>(&self, heap: H, granted: u64) -> Outcome {
        match Set::from_iter_dedup(heap, 0..4u32) {
            Ok(committee) => self.outcome_among(heap, granted, &committee),
            Err(_) => Outcome::Wrong,
        }
    }
}

/// A result takes one allocation, and an error that isn't an allocation failure takes none.
#[test]
fn members_that_equivocated_are_named(rt: HostRuntime) {
    for (at, row) in ROWS.iter().enumerate() {
        let asked = row.answer.is_ok() as u64;
        assert!(rt; requests(rt.alloc(), row) == Some(asked), "{at}");
    }
}

/// Whether these signers are a quorum of 6 members by both models, or why they aren't.
fn checked(alloc: Global, signers: &[u32]) -> Result<[Result<(), QuorumError>; 3], AllocError> {
    let committee = Set::from_iter_dedup(alloc, 0..6u32)?;
    let one = certificate(alloc, 0xaa, signers)?;
    let none = Err(QuorumError::TooFew);
    if committee.len() != 6 {
        return Ok([none, none, none]);
    }
    Ok([
        check_quorum::<N3f1, _, _>(&committee, &one),
        check_quorum::<N5f1, _, _>(&committee, &one),
        check_quorum_among(6, 0, &one),
    ])
}

#[test]
fn quorums_are_checked(rt: HostRuntime) {
    let few = Err(QuorumError::TooFew);
    let outside = Err(QuorumError::Outside);
    let rows: [(&[u32], [Result<(), QuorumError>; 3]); 6] = [
        (&[0, 1, 2, 3, 4, 5], [Ok(()), Ok(()), Ok(())]),
        (&[0, 1, 2, 3, 5], [Ok(()), Ok(()), few]),
        (&[0, 1, 2, 3], [few, few, few]),
        (&[], [few, few, few]),
        (&[0, 1, 2, 3, 4, 6], [outside, outside, outside]),
        (&[4294967295], [outside, outside, outside]),
    ];
    for (signers, wanted) in &rows {
        assert!(rt; checked(rt.alloc(), signers) == Ok(*wanted), "{signers:?}");
    }
}
