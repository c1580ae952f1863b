//! The participants in both of two sets of signers, and whether signers are members.
use crate::signers::are;
use committee_certificates::{are_members, signers_of_both_counted};
use commonware_ordered::{Counter, Uncounted};
use commonware_utils::Participant;
use commonware_utils::ordered::Set;
use std::alloc::{AllocError, Allocator, Global};
use std::process::Abort;
use test_equipment::walk::{Heap, Outcome, Refusable, full, refused, requests};

/// Counts comparisons while the program runs, and for no proof.
#[derive(Drop)]
struct Tally {
    made: u64,
}

impl Counter for Tally {
    ghost counted = { λ _. 0 };

    ghost step = { 0 };

    fn tick(&mut self) {
        self.made = self.made.wrapping_add(1);
    }
}

/// Two sets of signers, those in both, and how many comparisons find them.
struct Row {
    first: &'static [u32],
    second: &'static [u32],
    both: &'static [u32],
    comparisons: u64,
}

static ROWS: [Row; 6] = [
    // 0 with 1, 1 with 1, 2 with 2: then the first set is at its end.
    Row {
        first: &[0, 1, 2],
        second: &[1, 2, 3],
        both: &[1, 2],
        comparisons: 3,
    },
    // 0 with 1, 2 with 1, 2 with 3, 4 with 3: then the second is.
    Row {
        first: &[0, 2, 4],
        second: &[1, 3],
        both: &[],
        comparisons: 4,
    },
    Row {
        first: &[4294967295],
        second: &[4294967295],
        both: &[4294967295],
        comparisons: 1,
    },
    // 9 with 7, 9 with 8, 9 with 9.
    Row {
        first: &[9],
        second: &[7, 8, 9, 10],
        both: &[9],
        comparisons: 3,
    },
    Row {
        first: &[],
        second: &[5],
        both: &[],
        comparisons: 0,
    },
    Row {
        first: &[5],
        second: &[],
        both: &[],
        comparisons: 0,
    },
];

/// Returns the signers of these indices.
fn signers<A: Allocator + Copy>(
    alloc: A,
    indices: &[u32],
) -> Result<Set<Participant, A>, AllocError> {
    Set::from_iter_dedup(alloc, indices.iter().copied().map(Participant::new))
}

/// Whether those in both are returned, after so many comparisons.
fn is_counted(alloc: Global, row: &Row) -> Result<bool, AllocError> {
    let first = signers(alloc, row.first)?;
    let second = signers(alloc, row.second)?;
    let mut count = Tally { made: 0 };
    let both = signers_of_both_counted(alloc, &first, &second, &mut count)?;
    Ok(are(&both, row.both) && count.made == row.comparisons)
}

#[test]
fn participants_in_both_are_returned_and_counted(rt: HostRuntime) {
    for (at, row) in ROWS.iter().enumerate() {
        assert!(rt; is_counted(rt.alloc(), row) == Ok(true), "{at}");
    }
}

impl Refusable for Row {
    fn outcome<H: Heap>(&self, heap: H, granted: u64) -> Outcome {
        match (signers(heap, self.first), signers(heap, self.second)) {
            (Ok(first), Ok(second)) => {
                heap.restart(granted);
                match signers_of_both_counted(heap, &first, &second, &mut Uncounted) {
                    Ok(both) => full(are(&both, self.both)),
                    Err(_) => refused(are(&first, self.first) && are(&second, self.second)),
                }
            }
            _ => Outcome::Wrong,
        }
    }
}

/// One allocation is made, and none where a set is empty.
#[test]
fn participants_in_both_take_one_allocation(rt: HostRuntime) {
    for (at, row) in ROWS.iter().enumerate() {
        let asked = (!row.first.is_empty() && !row.second.is_empty()) as u64;
        assert!(rt; requests(rt.alloc(), row) == Some(asked), "{at}");
    }
}

/// Signers, and the least number of members among whom all of them are.
static LEAST: [(&[u32], usize); 4] = [
    (&[], 0),
    (&[0], 1),
    (&[0, 3], 4),
    (&[4294967295], 4294967296),
];

#[test]
fn members_have_indices_below_the_length(rt: HostRuntime) {
    for (at, (indices, least)) in LEAST.iter().enumerate() {
        let signers = signers(rt.alloc(), *indices).expect(&rt, "memory");
        assert!(rt; are_members(*least, &signers), "{at}");
        assert!(rt; *least == 0 || !are_members(*least - 1, &signers), "{at}");
    }
}
