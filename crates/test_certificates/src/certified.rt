//! Whether a quorum signed each of two certificates, and votes that are read back.
use crate::signers::certificate;
use committee_certificates::{Certificate, both_certified, both_certified_among};
use commonware_utils::faults::{N3f1, N5f1};
use commonware_utils::ordered::Set;
use std::alloc::{AllocError, Global};
use uses::{
    OneTraitor, both_final, both_stand, check_both, is_read_back, is_same_vote, named_either_way,
};

/// The value A or B for view 7, and who signed it.
fn vote(alloc: Global, decision: u8, signers: &[u32]) -> Result<Certificate<Global>, AllocError> {
    let mut made = certificate(alloc, 1, signers)?;
    made.value.extend_from_slice(&[7, decision])?;
    Ok(made)
}

/// Of four members three are a quorum under `N3f1`, and all four under `N5f1`.
#[test]
fn both_need_a_quorum(rt: HostRuntime) {
    let committee = Set::from_iter_dedup(rt.alloc(), [10u32, 20, 30, 40]).expect(&rt, "memory");
    assert!(rt; committee.len() == 4);
    let first = vote(rt.alloc(), 0x41, &[0, 1, 2]).expect(&rt, "memory");
    let second = vote(rt.alloc(), 0x42, &[1, 2, 3]).expect(&rt, "memory");
    assert!(rt; both_certified::<N3f1, OneTraitor, _, _>(&committee, &first, &second));
    assert!(rt; !both_certified::<N5f1, OneTraitor, _, _>(&committee, &first, &second));
    assert!(rt; both_final::<OneTraitor>(&committee, &first, &second));
    assert!(rt; check_both::<OneTraitor>(&committee, &first, &second).is_ok());
    assert!(rt; both_stand(&second, &first));
    let few = vote(rt.alloc(), 0x42, &[1, 2]).expect(&rt, "memory");
    let outside = vote(rt.alloc(), 0x42, &[1, 2, 4]).expect(&rt, "memory");
    for other in [&few, &outside] {
        assert!(rt; !both_certified_among::<OneTraitor, _>(4, 1, &first, other));
        assert!(rt; !both_certified_among::<OneTraitor, _>(4, 1, other, &first));
    }
    assert!(rt; both_certified_among::<OneTraitor, _>(4, 2, &few, &first));
    assert!(rt; both_certified_among::<OneTraitor, _>(5, 2, &first, &outside));
}

/// Whom two certificates name is the same, whichever of them is first.
#[test]
fn either_may_be_first(rt: HostRuntime) {
    let alloc = rt.alloc();
    let first = vote(rt.alloc(), 0x41, &[0, 1, 2]).expect(&rt, "memory");
    for signers in [[0u32, 1, 2], [1, 2, 3], [2, 3, 4], [3, 3, 3]] {
        let second = vote(rt.alloc(), 0x42, &signers).expect(&rt, "memory");
        assert!(rt; first.value != second.value);
        let (one, other) = named_either_way(alloc, 4, 1, &first, &second);
        match (one, other) {
            (Ok(one), Ok(other)) => assert!(rt; one == other && one.len() >= 2),
            (Err(one), Err(other)) => assert!(rt; one == other && signers[2] >= 3),
            _ => assert!(rt; false),
        }
    }
}

/// `02 07 01 aa` is the decision `aa` for the slot `07 01`, and no other vote.
#[test]
fn votes_are_read_back(rt: HostRuntime) {
    let alloc = rt.alloc();
    let votes: [(&[u8], &[u8]); 4] = [
        (b"\x07\x01", b"\xaa"),
        (b"\x07", b"\x01\xaa"),
        (b"", b"\x07\x01\xaa"),
        (b"\x07\x01", b""),
    ];
    for (i, vote) in votes.iter().enumerate() {
        assert!(rt; vote.0.len() < 4);
        assert!(rt; is_read_back(alloc, vote.0, vote.1) == Ok(true));
        for (j, other) in votes.iter().enumerate() {
            assert!(rt; other.0.len() < 4);
            assert!(rt; is_same_vote(alloc, vote.0, vote.1, other.0, other.1) == Ok(i == j));
        }
    }
}
