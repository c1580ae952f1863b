//! The numbers of a fault model of one's own, and a conflict under it.
use crate::conflicts::conflict_of;
use crate::own_model::N4f1;
use crate::signers::{are, certificate};
use commonware_utils::headline::{Numbers, resilience_numbers};
use commonware_utils::ordered::Set;
use std::alloc::Global;
use std::num::NonZeroU32;
use std::process::Abort;

/// n, how many of them may be faulty, and how many are a quorum: 4 · 24 + 1 is 97.
static NUMBERS: [(u32, u32, u32); 5] = [
    (1, 0, 1),
    (4, 0, 4),
    (5, 1, 4),
    (96, 23, 73),
    (97, 24, 73),
];

#[test]
fn a_model_of_ones_own_has_its_numbers(rt: HostRuntime) {
    for (n, max_faults, quorum) in &NUMBERS {
        let n = NonZeroU32::new(*n).expect(&rt, "one at least");
        let numbers = Numbers {
            max_faults: *max_faults,
            quorum: *quorum,
        };
        assert!(rt; resilience_numbers::<N4f1>(n.get()) == numbers, "{n}");
    }
}

/// Whether of five members, four of whom are a quorum, the three that signed both are named: with
/// one faulty, 2f + 1.
fn are_named(rt: &impl Abort, alloc: Global) -> bool {
    let committee = Set::from_iter_dedup(alloc, 0..5u32).expect(rt, "memory");
    let first = certificate(alloc, 1, &[0, 1, 2, 3]).expect(rt, "memory");
    let second = certificate(alloc, 2, &[1, 2, 3, 4]).expect(rt, "memory");
    match conflict_of::<N4f1, _>(alloc, &committee, &first, &second) {
        Some(Ok(both)) => are(&both, &[1, 2, 3]),
        _ => false,
    }
}

#[test]
fn a_conflict_under_it_is_named(rt: HostRuntime) {
    assert!(rt; are_named(&rt, rt.alloc()));
}
