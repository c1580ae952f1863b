//! Numbers that aren't 0, written out where they are used.
use crate::{NZU8, NZU16, NZU32, NZU64, NZUsize};
use std::num::{NonZeroU8, NonZeroU16, NonZeroU32, NonZeroU64, NonZeroUsize};

/// 1, 2, 3, 4 and 5, each of a type of its own.
type Numbers = (NonZeroUsize, NonZeroU8, NonZeroU16, NonZeroU32, NonZeroU64);

/// Whether they are these numbers.
fn are_one_to_five((one, two, three, four, five): Numbers) -> bool {
    one.get() == 1 && two.get() == 2 && three.get() == 3 && four.get() == 4 && five.get() == 5
}

#[test]
fn test_non_zero_macros_compile_time(rt: HostRuntime) {
    let written = (NZUsize!(1), NZU8!(2), NZU16!(3), NZU32!(4), NZU64!(5));
    assert!(rt; are_one_to_five(written));
}

#[test]
fn test_non_zero_macros_runtime(rt: HostRuntime) {
    let (one, two, three, four, five) = (1usize, 2u8, 3u16, 4u32, 5u64);
    let computed = (
        NZUsize!(one),
        NZU8!(two),
        NZU16!(three),
        NZU32!(four),
        NZU64!(five),
    );
    assert!(rt; are_one_to_five(computed));
}
