//! Ranges of lengths and numbers.
use crate::NZUsize;
use crate::codec::RangeCfg;
use std::num::NonZeroUsize;

/// Whether the range holds the first numbers, and none of the others.
fn holds(range: &RangeCfg<usize>, held: &[usize], others: &[usize]) -> bool {
    for number in held {
        if !range.contains(number) {
            return false;
        }
    }
    for number in others {
        if range.contains(number) {
            return false;
        }
    }
    true
}

#[test]
fn ranges_hold_what_is_between_their_bounds(rt: HostRuntime) {
    for (range, held, others) in [
        (
            RangeCfg::from(..),
            [0, usize::MAX].as_slice(),
            [].as_slice(),
        ),
        (RangeCfg::from(3..), &[3, 4], &[2]),
        (RangeCfg::from(..3), &[0, 2], &[3]),
        (RangeCfg::from(..=3), &[0, 3], &[4]),
        (RangeCfg::from(1..3), &[1, 2], &[0, 3]),
        (RangeCfg::from(1..=3), &[1, 3], &[0, 4]),
        (RangeCfg::from(3..3), &[], &[0, 2, 3, 4, usize::MAX]),
        (RangeCfg::from(5..=2), &[], &[0, 2, 3, 5, usize::MAX]),
        (RangeCfg::exact(2), &[2], &[1, 3]),
    ] {
        assert!(rt; holds(&range, held, others));
    }
}

#[test]
fn ranges_that_leave_zero_out_keep_their_bounds(rt: HostRuntime) {
    let (one, two, ten) = (NZUsize!(1), NZUsize!(2), NZUsize!(10));
    let below_ten: RangeCfg<NonZeroUsize> = RangeCfg::from(..ten);
    let from_one: RangeCfg<NonZeroUsize> = RangeCfg::from(one..ten);
    let exactly_two = RangeCfg::exact(two);
    assert!(rt;
        holds(&RangeCfg::from(below_ten), &[0, 9], &[10])
            && holds(&RangeCfg::from(from_one), &[1, 9], &[0, 10])
            && from_one.contains(&two)
            && !from_one.contains(&ten)
            && exactly_two.contains(&two)
            && !exactly_two.contains(&one)
    );
}
