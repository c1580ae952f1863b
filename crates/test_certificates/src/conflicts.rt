//! The members that signed both of two certificates, with each allocation failing in turn.
use crate::signers::{are, certificate};
use committee_certificates::{Certificate, ConflictError, conflict, conflict_among};
use commonware_utils::Participant;
use commonware_utils::faults::{Faults, N3f1, N5f1};
use commonware_utils::ordered::Set;
use std::alloc::{AllocError, Allocator};
use test_equipment::walk::{Heap, Outcome, Refusable, full, refused, requests};

/// A fault model, or the number of faults that one tolerates.
#[derive(Clone, Copy)]
enum Model {
    N3f1,
    N5f1,
    Faults(u32),
}

/// A committee and two certificates for different values.
#[derive(Clone, Copy)]
struct Row {
    /// How many members the committee has.
    members: u32,
    model: Model,
    /// The signers of one certificate.
    first: &'static [u32],
    /// The signers of the other.
    second: &'static [u32],
    /// Those of both, or the error.
    answer: Result<&'static [u32], ConflictError>,
}

static ROWS: [Row; 12] = [
    Row {
        members: 4,
        model: Model::N3f1,
        first: &[0, 1, 2],
        second: &[1, 2, 3],
        answer: Ok(&[1, 2]),
    },
    Row {
        members: 4,
        model: Model::N5f1,
        first: &[0, 1, 2],
        second: &[1, 2, 3],
        answer: Err(ConflictError::TooFew),
    },
    Row {
        members: 6,
        model: Model::N5f1,
        first: &[0, 1, 2, 3, 4],
        second: &[1, 2, 3, 4, 5],
        answer: Ok(&[1, 2, 3, 4]),
    },
    Row {
        members: 4,
        model: Model::N3f1,
        first: &[0, 1],
        second: &[0, 1, 4],
        answer: Err(ConflictError::Outside),
    },
    Row {
        members: 4,
        model: Model::N3f1,
        first: &[0, 1, 2],
        second: &[4294967295],
        answer: Err(ConflictError::Outside),
    },
    Row {
        members: 4,
        model: Model::N3f1,
        first: &[0, 1, 2],
        second: &[2, 3],
        answer: Err(ConflictError::TooFew),
    },
    Row {
        members: 1,
        model: Model::N3f1,
        first: &[0],
        second: &[0],
        answer: Ok(&[0]),
    },
    Row {
        members: 4,
        model: Model::N3f1,
        first: &[],
        second: &[],
        answer: Err(ConflictError::TooFew),
    },
    Row {
        members: 5,
        model: Model::Faults(2),
        first: &[0, 1, 2],
        second: &[2, 3, 4],
        answer: Ok(&[2]),
    },
    Row {
        members: 5,
        model: Model::Faults(1),
        first: &[0, 1, 2],
        second: &[1, 2, 3, 4],
        answer: Err(ConflictError::TooFew),
    },
    Row {
        members: 5,
        model: Model::Faults(5),
        first: &[5],
        second: &[],
        answer: Err(ConflictError::Outside),
    },
    Row {
        members: 5,
        model: Model::Faults(5),
        first: &[4],
        second: &[3],
        answer: Ok(&[]),
    },
];

/// The members that signed both. `None` where the values are the same, or the committee has no
/// members or too many.
pub(super) fn conflict_of<M: Faults, A: Allocator + Copy>(
    alloc: A,
    committee: &Set<u32, A>,
    first: &Certificate<A>,
    second: &Certificate<A>,
) -> Option<Result<Set<Participant, A>, ConflictError>> {
    let members = committee.len();
    if first.value == second.value || members == 0 || members > u32::MAX as usize {
        return None;
    }
    Some(conflict::<M, _, _>(alloc, committee, first, second))
}

/// The outcome of a result where the wanted one is this.
fn outcome_of<H: Heap>(
    both: Option<Result<Set<Participant, H>, ConflictError>>,
    wanted: Result<&[u32], ConflictError>,
) -> Outcome {
    match both {
        Some(Ok(both)) => full(matches!(wanted, Ok(wanted) if are(&both, wanted))),
        Some(Err(error)) => outcome_of_error(error, wanted),
        None => Outcome::Wrong,
    }
}

/// The outcome of an error where the wanted result is this.
fn outcome_of_error(error: ConflictError, wanted: Result<&[u32], ConflictError>) -> Outcome {
    match (error, wanted) {
        (ConflictError::Memory, Ok(_)) => refused(true),
        (error, Err(wanted)) => full(error == wanted),
        _ => Outcome::Wrong,
    }
}

/// Two certificates.
type Both<H> = (Certificate<H>, Certificate<H>);

impl Row {
    /// The row's certificates.
    fn certificates<H: Heap>(&self, heap: H) -> Result<Both<H>, AllocError> {
        let first = certificate(heap, 0xaa, self.first)?;
        Ok((first, certificate(heap, 0xbb, self.second)?))
    }

    /// The outcome in this committee.
    fn outcome_among<H: Heap>(&self, heap: H, granted: u64, committee: &Set<u32, H>) -> Outcome {
        match self.certificates(heap) {
            Ok((first, second)) => {
                heap.restart(granted);
                outcome_of(self.conflict(heap, committee, &first, &second), self.answer)
            }
            Err(_) => Outcome::Wrong,
        }
    }

    /// The members that signed both certificates, under the row's model.
    fn conflict<H: Heap>(
        &self,
        heap: H,
        committee: &Set<u32, H>,
        first: &Certificate<H>,
        second: &Certificate<H>,
    ) -> Option<Result<Set<Participant, H>, ConflictError>> {
        match self.model {
            Model::N3f1 => conflict_of::<N3f1, _>(heap, committee, first, second),
            Model::N5f1 => conflict_of::<N5f1, _>(heap, committee, first, second),
            Model::Faults(faults) => {
                if first.value == second.value || faults > self.members {
                    return None;
                }
                Some(conflict_among(heap, self.members as usize, faults, first, second))
            }
        }
    }
}

impl Refusable for Row {
    fn outcome<H: Heap>(&self, heap: H, granted: u64) -> Outcome {
        match Set::from_iter_dedup(heap, 0..self.members) {
            Ok(committee) => self.outcome_among(heap, granted, &committee),
            Err(_) => Outcome::Wrong,
        }
    }
}

/// A result takes one allocation, and an error that isn't an allocation failure takes none.
#[test]
fn signers_of_both_are_named(rt: HostRuntime) {
    for (at, row) in ROWS.iter().enumerate() {
        let asked = row.answer.is_ok() as u64;
        assert!(rt; requests(rt.alloc(), row) == Some(asked), "{at}");
    }
}
