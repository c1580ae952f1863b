//! Certificates of committees of four and of six members, as a user of both models calls them.
use crate::signers::{are, certificate};
use committee_certificates::{Certificate, ConflictError};
use commonware_utils::ordered::Set;
use commonware_utils::{N3f1, N5f1, Participant};
use std::alloc::Global;
use std::process::Abort;
use uses::{accused, conflict_under};

/// The signers of two certificates for different values, of a committee of this many members; those
/// of both, or the error, under `N3f1` and under `N5f1`.
struct Row {
    members: u32,
    first: &'static [u32],
    second: &'static [u32],
    thirds: Result<&'static [u32], ConflictError>,
    fifths: Result<&'static [u32], ConflictError>,
}

static ROWS: [Row; 3] = [
    Row {
        members: 4,
        first: &[0, 1, 2],
        second: &[1, 2, 3],
        thirds: Ok(&[1, 2]),
        fifths: Err(ConflictError::TooFew),
    },
    Row {
        members: 6,
        first: &[0, 1, 2, 3, 4],
        second: &[1, 2, 3, 4, 5],
        thirds: Ok(&[1, 2, 3, 4]),
        fifths: Ok(&[1, 2, 3, 4]),
    },
    Row {
        members: 4,
        first: &[0, 1],
        second: &[0, 1, 4],
        thirds: Err(ConflictError::Outside),
        fifths: Err(ConflictError::Outside),
    },
];

/// Whether these participants are returned, or this error.
fn answers(
    answer: Result<Set<Participant, Global>, ConflictError>,
    wanted: Result<&[u32], ConflictError>,
) -> bool {
    match answer {
        Ok(both) => matches!(wanted, Ok(indices) if are(&both, indices)),
        Err(error) => wanted.err() == Some(error),
    }
}

/// Whether the wanted number of participants is counted, or the wanted error is returned.
fn counts(answer: Result<usize, ConflictError>, wanted: Result<&[u32], ConflictError>) -> bool {
    match answer {
        Ok(count) => matches!(wanted, Ok(indices) if count == indices.len()),
        Err(error) => wanted.err() == Some(error),
    }
}

/// Whether the signers of both are named under each model, and counted. `None` where there is no
/// committee, or the values are the same.
fn are_named(
    alloc: Global,
    members: &Set<u32, Global>,
    first: &Certificate<Global>,
    second: &Certificate<Global>,
    row: &Row,
) -> Option<bool> {
    let count = members.len();
    if first.value == second.value || count == 0 || count > 4294967295 {
        return None;
    }
    let named = answers(
        conflict_under::<N3f1>(alloc, members, first, second),
        row.thirds,
    ) && answers(
        conflict_under::<N5f1>(alloc, members, first, second),
        row.fifths,
    );
    let counted = counts(accused(alloc, members, first, second), row.thirds)
        && accused(alloc, members, first, first) == Ok(0);
    Some(named && counted)
}

/// Whether the row's signers of both are named and counted.
fn is_answered(rt: &impl Abort, alloc: Global, row: &Row) -> bool {
    let members = Set::from_iter_dedup(alloc, 0..row.members).expect(rt, "memory");
    let first = certificate(alloc, 0xaa, row.first).expect(rt, "memory");
    let second = certificate(alloc, 0xbb, row.second).expect(rt, "memory");
    are_named(alloc, &members, &first, &second, row) == Some(true)
}

#[test]
fn signers_of_both_are_named_and_counted(rt: HostRuntime) {
    for (at, row) in ROWS.iter().enumerate() {
        assert!(rt; is_answered(&rt, rt.alloc(), row), "{at}");
    }
}
