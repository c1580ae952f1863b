//! Fault models: their numbers, for numbers of participants of every type.
ghost use Rattle.std.proofs.Common.{arith};

use crate::bench::is_debugged_as;
use crate::faults::Count;
use crate::{Faults, N3f1, N5f1};

/// n, then f and the quorum of `N3f1`, then f, the quorum and the smaller quorum of `N5f1`.
static NUMBERS: [(u32, (u32, u32), (u32, u32, u32)); 23] = [
    (1, (0, 1), (0, 1, 1)),
    (2, (0, 2), (0, 2, 1)),
    (3, (0, 3), (0, 3, 1)),
    (4, (1, 3), (0, 4, 1)),
    (5, (1, 4), (0, 5, 1)),
    (6, (1, 5), (1, 5, 3)),
    (7, (2, 5), (1, 6, 3)),
    (8, (2, 6), (1, 7, 3)),
    (9, (2, 7), (1, 8, 3)),
    (10, (3, 7), (1, 9, 3)),
    (11, (3, 8), (2, 9, 5)),
    (12, (3, 9), (2, 10, 5)),
    (13, (4, 9), (2, 11, 5)),
    (14, (4, 10), (2, 12, 5)),
    (15, (4, 11), (2, 13, 5)),
    (16, (5, 11), (3, 13, 7)),
    (17, (5, 12), (3, 14, 7)),
    (18, (5, 13), (3, 15, 7)),
    (19, (6, 13), (3, 16, 7)),
    (20, (6, 14), (3, 17, 7)),
    (21, (6, 15), (4, 17, 9)),
    (256, (85, 171), (51, 205, 103)),
    (
        4294967295,
        (1431655764, 2863311531),
        (858993458, 3435973837, 1717986917),
    ),
];

/// f and the quorum of a model for `n` participants, of whom there is at least one.
fn numbers_of<M: Faults, N: Count + Copy>(n: N) -> Option<(u32, u32)> {
    match n.to_u32() {
        Some(1..) => Some((M::max_faults(n), M::quorum(n))),
        _ => None,
    }
}

/// f, the larger and the smaller quorum of `N5f1` for `n` participants, of whom there is at least
/// one.
fn quorums_of<N: Count + Copy>(n: N) -> Option<(u32, u32, u32)> {
    match n.to_u32() {
        Some(1..) => Some((N5f1::max_faults(n), N5f1::l_quorum(n), N5f1::m_quorum(n))),
        _ => None,
    }
}

#[test]
fn test_bft3f1_quorum_and_max_faults(rt: HostRuntime) {
    for (n, (faults, quorum), _) in &NUMBERS {
        assert!(rt;
            numbers_of::<N3f1, u32>(*n) == Some((*faults, *quorum))
                && u64::from(*n) == u64::from(*faults) + u64::from(*quorum)
        );
    }
}

#[test]
fn test_bft5f1_quorums(rt: HostRuntime) {
    for (n, _, (faults, larger, smaller)) in &NUMBERS {
        assert!(rt;
            numbers_of::<N5f1, u32>(*n) == Some((*faults, *larger))
                && quorums_of(*n) == Some((*faults, *larger, *smaller))
                && u64::from(*n) == u64::from(*faults) + u64::from(*larger)
                && u64::from(*smaller) == 2 * u64::from(*faults) + 1
        );
    }
}

/// Whether ten participants have the numbers that they have, whatever the type of ten.
fn are_of_ten<N: Count + Copy>(ten: N) -> bool {
    numbers_of::<N3f1, N>(ten) == Some((3, 7))
        && numbers_of::<N5f1, N>(ten) == Some((1, 9))
        && quorums_of(ten) == Some((1, 9, 3))
}

#[test]
fn test_generic_integer_types(rt: HostRuntime) {
    assert!(rt;
        are_of_ten(10u8)
            && are_of_ten(10u16)
            && are_of_ten(10u32)
            && are_of_ten(10u64)
            && are_of_ten(10u128)
            && are_of_ten(10usize)
            && are_of_ten(10i8)
            && are_of_ten(10i16)
            && are_of_ten(10i32)
            && are_of_ten(10i64)
            && are_of_ten(10i128)
            && are_of_ten(10isize)
    );
}

/// Whether each number is the count beside it, or none.
fn are_counted<N: Count + Copy>(rows: &[(N, Option<u32>)]) -> bool {
    for (number, count) in rows {
        if number.to_u32() != *count {
            return false;
        }
    }
    true
}

#[test]
fn counts_are_the_numbers_that_fit(rt: HostRuntime) {
    assert!(rt;
        are_counted(&[(255u8, Some(255))])
            && are_counted(&[(65535u16, Some(65535))])
            && are_counted(&[(0u32, Some(0)), (u32::MAX, Some(4294967295))])
            && are_counted(&[(4294967295u64, Some(4294967295)), (4294967296, None)])
            && are_counted(&[(4294967295usize, Some(4294967295)), (usize::MAX, None)])
            && are_counted(&[(127i8, Some(127)), (-1, None)])
            && are_counted(&[(32767i16, Some(32767)), (-1, None)])
            && are_counted(&[(i32::MAX, Some(2147483647)), (i32::MIN, None), (-1, None)])
            && are_counted(&[
                (4294967295i64, Some(4294967295)),
                (4294967296, None),
                (-1, None)
            ])
            && are_counted(&[(0isize, Some(0)), (-1, None)])
            && are_counted(&[
                (4294967295u128, Some(4294967295)),
                (4294967296, None),
                (u128::MAX, None),
            ])
            && are_counted(&[
                (4294967295i128, Some(4294967295)),
                (4294967296, None),
                (-4294967295, None),
            ])
    );
}

/// At every value that the test of the Rust crate draws from.
#[test]
fn test_n5f1_quorum_relationships(rt: HostRuntime) {
    for n in 6..10_000u32 {
        let (larger, smaller) = (N5f1::l_quorum(n), N5f1::m_quorum(n));
        assert!(rt; smaller < larger && larger <= n);
    }
}

/// At every value that the test of the Rust crate draws from.
#[test]
fn test_bft_model_safety_property(rt: HostRuntime) {
    for n in 1..10_000u32 {
        let (of_thirds, of_fifths) = (N3f1::quorum(n), N5f1::quorum(n));
        assert!(rt;
            2 * of_thirds > n + N3f1::max_faults(n) && 2 * of_fifths > n + N5f1::max_faults(n)
        );
    }
}

#[test]
fn models_are_shown_by_their_names(rt: HostRuntime) {
    let (thirds, fifths) = (N3f1, N5f1::default());
    assert!(rt;
        is_debugged_as(rt.alloc(), &thirds, "N3f1")
            && is_debugged_as(rt.alloc(), &fifths, "N5f1")
            && thirds == N3f1::default()
            && fifths == fifths.clone().expect(&rt, "memory")
    );
}

/// A model under which no participant is faulty.
struct Trusting;

impl Faults for Trusting {
    ghost faults = { λ n. 0 };

    ghost at_most = { λ n h k. Prim.omega arith };

    fn max_faults<N: Count>(_n: N) -> u32 {
        0
    }
}

#[test]
fn a_model_of_ones_own(rt: HostRuntime) {
    assert!(rt;
        numbers_of::<Trusting, u32>(7) == Some((0, 7))
            && numbers_of::<Trusting, u8>(255) == Some((0, 255))
            && numbers_of::<Trusting, i64>(1) == Some((0, 1))
    );
}
