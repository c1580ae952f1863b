//! Voters of a message as a quorum, and accused participants that aren't known yet.
use crate::signers::certificate;
use committee_certificates::{Certificate, first_new};
use commonware_utils::codec::{EncodeSize, RangeCfg, Write};
use commonware_utils::ordered::Set;
use commonware_utils::{N3f1, N5f1, Participant};
use std::alloc::Global;
use std::process::Abort;
use uses::{has_quorum, new_accused};

/// The encodings of voters, and whether three of the members 0 to 3 are among them; `None` where
/// there is an error.
static VOTES: [(&[u8], Option<bool>); 7] = [
    (&[3, 0, 1, 2], Some(true)),
    (&[3, 0, 1, 4], Some(false)),
    (&[4, 0, 1, 3, 9, 0xff], Some(true)),
    (&[2, 2, 3], Some(false)),
    (&[0], Some(false)),
    (&[3, 2, 1, 0], None),
    (&[3, 0, 1], None),
];

#[test]
fn voters_are_a_quorum(rt: HostRuntime) {
    for (at, (votes, wanted)) in VOTES.iter().enumerate() {
        let answer = has_quorum::<N3f1>(rt.alloc(), 4, *votes, RangeCfg::from(0..=8));
        assert!(rt; answer.ok() == *wanted, "{at}");
    }
}

/// The encoding of the voters from 0 on, this many.
fn votes_of(rt: &impl Abort, alloc: Global, count: u32) -> Vec<u8> {
    let indices = (0..count).map(Participant::new);
    let voters = Set::from_iter_dedup(alloc, indices).expect(rt, "memory");
    let mut bytes = Vec::new(alloc);
    if voters.is_writable() {
        voters.write(&mut bytes).expect(rt, "memory");
    }
    bytes
}

#[test]
fn two_hundred_of_three_hundred_are_no_quorum(rt: HostRuntime) {
    let range = RangeCfg::from(0..=300);
    let few = votes_of(&rt, rt.alloc(), 200);
    let enough = votes_of(&rt, rt.alloc(), 201);
    assert!(rt; has_quorum::<N3f1>(rt.alloc(), 300, &few, range).ok() == Some(false));
    assert!(rt; has_quorum::<N3f1>(rt.alloc(), 300, &enough, range).ok() == Some(true));
    assert!(rt; has_quorum::<N5f1>(rt.alloc(), 300, &enough, range).ok() == Some(false));
}

/// The set of these participants.
fn participants(rt: &impl Abort, alloc: Global, indices: &[u32]) -> Set<Participant, Global> {
    let indices = indices.iter().copied().map(Participant::new);
    Set::from_iter_dedup(alloc, indices).expect(rt, "memory")
}

/// Participants that are known, and the first of 2, 3 and 4 that isn't.
static KNOWN: [(&[u32], Option<u32>); 5] = [
    (&[], Some(2)),
    (&[2, 4], Some(3)),
    (&[2, 3], Some(4)),
    (&[3, 300], Some(2)),
    (&[0, 2, 3, 4], None),
];

/// Returns the member that is accused beside those known by the signers 0 to 4 and 2 to 6 of
/// different values, in a committee of seven; `None` where three or more are known.
fn accused_beside(
    alloc: Global,
    known: &Set<Participant, Global>,
    members: &Set<u32, Global>,
    first: &Certificate<Global>,
    second: &Certificate<Global>,
) -> Option<Participant> {
    if members.len() != 7 || known.len() > 2 || first.value == second.value {
        return None;
    }
    new_accused(alloc, members, known, first, second).ok()
}

#[test]
fn the_first_that_is_not_known_is_accused(rt: HostRuntime) {
    let alloc = rt.alloc();
    let members = Set::from_iter_dedup(alloc, 0u32..7).expect(&rt, "memory");
    let first = certificate(alloc, 0xaa, &[0, 1, 2, 3, 4]).expect(&rt, "memory");
    let second = certificate(alloc, 0xbb, &[2, 3, 4, 5, 6]).expect(&rt, "memory");
    let both = participants(&rt, alloc, &[2, 3, 4]);
    for (at, (indices, wanted)) in KNOWN.iter().enumerate() {
        let known = participants(&rt, alloc, *indices);
        let wanted = wanted.map(Participant::new);
        assert!(rt; first_new(&both, &known) == wanted, "{at}");
        assert!(rt;
            accused_beside(alloc, &known, &members, &first, &second) == wanted,
            "{at}"
        );
    }
}
