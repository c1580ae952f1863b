//! Quorums on both sides of two votes, by numbers and by a fault model, and what is counted.
use crate::made::{at, signers};
use crate::traps::is_answer;
use committee_votes::{
    OverlapError, equivocation, equivocation_among, equivocation_among_counted,
    equivocation_counted, overlap_counted,
};
use commonware_base::Participant;
use commonware_faults::{Faults, N3f1, N5f1};
use commonware_ordered::{Counter, Set};
use std::alloc::{AllocError, Global};
use std::process::Abort;

/// Counts while the program runs, and for no proof.
#[derive(Drop)]
struct Tally {
    made: u64,
}

impl Counter for Tally {
    ghost counted = { λ _. 0 };

    ghost step = { 0 };

    fn tick(&mut self) {
        self.made = self.made.wrapping_add(1);
    }
}

/// The members, the signers of A and those of B for one slot, what is named under `N3f1` and under
/// `N5f1`, and how many comparisons the former takes.
struct Row {
    members: u32,
    first: &'static [u32],
    second: &'static [u32],
    thirds: Result<&'static [u32], OverlapError>,
    fifths: Result<&'static [u32], OverlapError>,
    comparisons: u64,
}

static ROWS: [Row; 5] = [
    // n - f is 3 under the former, and 4 under the latter. 0 with 1, 1 with 1, 2 with 2.
    Row {
        members: 4,
        first: &[0, 1, 2],
        second: &[1, 2, 3],
        thirds: Ok(&[1, 2]),
        fifths: Err(OverlapError::TooFew),
        comparisons: 3,
    },
    // A quorum and a single vote.
    Row {
        members: 4,
        first: &[0, 1, 2],
        second: &[1],
        thirds: Err(OverlapError::TooFew),
        fifths: Err(OverlapError::TooFew),
        comparisons: 0,
    },
    // n - f is 5 under both.
    Row {
        members: 6,
        first: &[0, 1, 2, 3, 4],
        second: &[1, 2, 3, 4, 5],
        thirds: Ok(&[1, 2, 3, 4]),
        fifths: Ok(&[1, 2, 3, 4]),
        comparisons: 5,
    },
    Row {
        members: 4,
        first: &[0, 1],
        second: &[0, 1, 4],
        thirds: Err(OverlapError::Outside),
        fifths: Err(OverlapError::Outside),
        comparisons: 0,
    },
    Row {
        members: 1,
        first: &[0],
        second: &[0],
        thirds: Ok(&[0]),
        fifths: Ok(&[0]),
        comparisons: 1,
    },
];

/// Whether a model gives this answer.
fn is_answered<M: Faults>(
    alloc: Global,
    row: &Row,
    wanted: Result<&[u32], OverlapError>,
) -> Result<bool, AllocError> {
    let committee = Set::from_iter_dedup(alloc, 0..row.members)?;
    let members = committee.len();
    if members == 0 || members > u32::MAX as usize {
        return Ok(false);
    }
    let (one, two) = (signers(alloc, row.first)?, signers(alloc, row.second)?);
    let (a, b) = (at((b"c", b"7", b"A")), at((b"c", b"7", b"B")));
    let named = equivocation::<M, _, _>(alloc, &committee, a, &one, b, &two);
    let faults = M::max_faults(members);
    let again = equivocation_among(alloc, members, faults, a, &one, b, &two);
    Ok(is_answer(&named, wanted) && is_answer(&again, wanted))
}

#[test]
fn two_quorums_are_needed(rt: HostRuntime) {
    for (place, row) in ROWS.iter().enumerate() {
        let thirds = is_answered::<N3f1>(rt.alloc(), row, row.thirds);
        assert!(rt; thirds == Ok(true), "{place}");
        let fifths = is_answered::<N5f1>(rt.alloc(), row, row.fifths);
        assert!(rt; fifths == Ok(true), "{place}");
    }
}

/// How many comparisons each call that counts takes for the row, where one of four or six, and none
/// of one, may be faulty.
fn comparisons(alloc: Global, row: &Row) -> Result<(u64, u64, u64), AllocError> {
    let (one, two) = (signers(alloc, row.first)?, signers(alloc, row.second)?);
    let (a, b) = (at((b"c", b"7", b"A")), at((b"c", b"7", b"B")));
    let members = row.members as usize;
    let faults = (row.members > 1) as u32;
    let committee = Set::from_iter_dedup(alloc, 0..row.members)?;
    let length = committee.len();
    if faults as usize > members || length == 0 || length > u32::MAX as usize {
        return Err(AllocError);
    }
    let least = members - faults as usize;
    let mut count = Tally { made: 0 };
    let _ = overlap_counted(alloc, members, least, a, &one, least, b, &two, &mut count);
    let by_number = count.made;
    let _ = equivocation_among_counted(alloc, members, faults, a, &one, b, &two, &mut count);
    let among = count.made.wrapping_sub(by_number);
    let mut count = Tally { made: 0 };
    let _ = equivocation_counted::<N3f1, _, _, _>(alloc, &committee, a, &one, b, &two, &mut count);
    Ok((by_number, among, count.made))
}

#[test]
fn comparisons_are_counted(rt: HostRuntime) {
    for (place, row) in ROWS.iter().enumerate() {
        let wanted = (row.comparisons, row.comparisons, row.comparisons);
        assert!(rt; comparisons(rt.alloc(), row) == Ok(wanted), "{place}");
    }
}
