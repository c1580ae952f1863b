//! Sets as committees: the indices of members, and the numbers of the fault models.
use crate::ordered::{Quorum, Set, count_members};
use crate::{N3f1, N5f1, Participant};
use std::alloc::Global;

/// Whether the members of {1, 3, 5, 9} are at their indices, and no others are.
fn has_members(committee: &Set<u32, Global>) -> bool {
    committee.key(Participant::new(0)) == Some(&1)
        && committee.key(Participant::new(2)) == Some(&5)
        && committee.key(Participant::new(4)) == None
        && committee.key(Participant::new(u32::MAX)) == None
}

/// Whether the members of {1, 3, 5, 9}, which are four, have their indices, and no others have one.
fn has_indices(committee: &Set<u32, Global>) -> bool {
    committee.len() == 4
        && committee.index(&5) == Some(Participant::new(2))
        && committee.index(&9) == Some(Participant::new(3))
        && committee.index(&4) == None
        && committee.index(&10) == None
}

/// Whether nobody is at the first index, and 0 has none.
fn has_nobody(committee: &Set<u32, Global>) -> bool {
    committee.key(Participant::new(0)) == None && committee.index(&0) == None
}

#[test]
fn members_have_indices(rt: HostRuntime) {
    let committee = Set::from_iter_dedup(rt.alloc(), [9u32, 3, 5, 1]).expect(&rt, "memory");
    assert!(rt; has_members(&committee) && has_indices(&committee));
    assert!(rt; has_nobody(&Set::empty(rt.alloc())));
}

/// How many may be faulty, and the quorum.
type Pair = (u32, u32);

/// The last of the members, who are the numbers from 0 on, and the numbers of each fault model.
static COMMITTEES: [(u32, Pair, Pair); 4] = [
    (0, (0, 1), (0, 1)),
    (3, (1, 3), (0, 4)),
    (5, (1, 5), (1, 5)),
    (20, (6, 15), (4, 17)),
];

/// Whether a committee of 1 to 21 members has these numbers by each fault model.
fn has_numbers(committee: &Set<u32, Global>, thirds: Pair, fifths: Pair) -> bool {
    0 < committee.len()
        && committee.len() <= 21
        && (committee.max_faults::<N3f1>(), committee.quorum::<N3f1>()) == thirds
        && (committee.max_faults::<N5f1>(), committee.quorum::<N5f1>()) == fifths
}

#[test]
fn a_set_has_the_numbers_of_its_length(rt: HostRuntime) {
    for (last, thirds, fifths) in &COMMITTEES {
        let committee = Set::from_iter_dedup(rt.alloc(), 0..=*last).expect(&rt, "memory");
        assert!(rt; has_numbers(&committee, *thirds, *fifths));
    }
}

/// How many members a committee has, and how many of them are among the voters 0, 2, 3, 7 and 300.
static COUNTS: [(usize, usize); 8] = [
    (0, 0),
    (1, 1),
    (2, 1),
    (4, 3),
    (7, 3),
    (8, 4),
    (300, 4),
    (301, 5),
];

#[test]
fn members_among_voters_are_counted(rt: HostRuntime) {
    let indices = [300u32, 7, 0, 3, 2].map(Participant::new);
    let voters = Set::from_iter_dedup(rt.alloc(), indices).expect(&rt, "memory");
    for (members, count) in &COUNTS {
        assert!(rt; count_members(*members, &voters) == *count);
    }
    assert!(rt; count_members(4, &Set::empty(rt.alloc())) == 0);
}
