//! The reports of the command `bounds`, and what refutes other numbers.
use committee_core::Refutation;
use committee_core::refutation::{m_refutation, refutation};
use std::ops::Range;

/// The report on the bounds for one member.
pub const ONE: &str = "n 1\n\
    N3f1 faults 0 quorum 1\n\
    N3f1 refuted 1 first 0..0 second 1..1 shared 0 needed 2\n\
    N5f1 faults 0 quorum 1 m-quorum 1\n\
    N5f1 refuted 1 first 0..0 second 1..1 shared 0 needed 4\n\
    N5f1 m-refuted 0 first 0..1 second 1..1 shared 0 needed 1\n";

/// The report on the bounds for six members.
pub const SIX: &str = "n 6\n\
    N3f1 faults 1 quorum 5\n\
    N3f1 refuted 2 first 0..4 second 2..6 shared 2 needed 3\n\
    N5f1 faults 1 quorum 5 m-quorum 3\n\
    N5f1 refuted 2 first 0..4 second 2..6 shared 2 needed 7\n\
    N5f1 m-refuted 2 first 0..5 second 4..6 shared 1 needed 2\n";

/// The report on the bounds for ten members.
pub const TEN: &str = "n 10\n\
    N3f1 faults 3 quorum 7\n\
    N3f1 refuted 4 first 0..6 second 4..10 shared 2 needed 5\n\
    N5f1 faults 1 quorum 9 m-quorum 3\n\
    N5f1 refuted 2 first 0..8 second 2..10 shared 6 needed 7\n\
    N5f1 m-refuted 2 first 0..9 second 8..10 shared 1 needed 2\n";

/// The report on the bounds for the most members there can be.
pub const MOST: &str = "n 4294967295\n\
    N3f1 faults 1431655764 quorum 2863311531\n\
    N3f1 refuted 1431655765 first 0..2863311530 second 1431655765..4294967295 \
    shared 1431655765 needed 1431655766\n\
    N5f1 faults 858993458 quorum 3435973837 m-quorum 1717986917\n\
    N5f1 refuted 858993459 first 0..3435973836 second 858993459..4294967295 \
    shared 2576980377 needed 2576980378\n\
    N5f1 m-refuted 1717986916 first 0..3435973837 second 2576980379..4294967295 \
    shared 858993458 needed 858993459\n";

/// Two ranges, and how many positions they share.
fn ranges(first: Range<u32>, second: Range<u32>, shared: u32) -> Refutation {
    Refutation {
        first,
        second,
        shared,
    }
}

/// Faults that are too many, the greatest that are not, and quorums that are too small.
#[test]
fn two_ranges_share_as_many_positions_as_stand_in_both(rt: HostRuntime) {
    for (answer, wanted) in [
        (refutation(10, 4), ranges(0..6, 4..10, 2)),
        (refutation(1, 1), ranges(0..0, 1..1, 0)),
        (refutation(10, 3), ranges(0..7, 3..10, 4)),
        (refutation(21, 4), ranges(0..17, 4..21, 13)),
        (m_refutation(21, 8), ranges(0..17, 13..21, 4)),
        (m_refutation(1, 0), ranges(0..1, 1..1, 0)),
    ] {
        assert!(rt; answer == wanted, "{answer:?}");
    }
}
