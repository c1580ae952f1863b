//! The root: unions of bytes, sizes, wider numbers and the constants.
use crate::{
    GOLDEN_RATIO, MAX_ALLOCATION_BYTES, Widen, golden_ratio_law, max, max_allocation_law, union,
    union_unique,
};
use std::num::{NonZeroU8, NonZeroU16, NonZeroU32, NonZeroU64};

/// Two lists of bytes, and the one after the other.
static UNIONS: [(&[u8], &[u8], &[u8]); 4] = [
    (b"", b"", b""),
    (b"", b"\x01\x02\x03", b"\x01\x02\x03"),
    (b"\x01\x02\x03", b"", b"\x01\x02\x03"),
    (
        b"\x01\x02\x03",
        b"\x04\x05\x06",
        b"\x01\x02\x03\x04\x05\x06",
    ),
];

/// A namespace and a message, and what is made of both.
static UNIQUE_UNIONS: [(&[u8], &[u8], &[u8]); 3] = [
    (b"namespace", b"message", b"\x09namespacemessage"),
    (b"a", b"bc", b"\x01abc"),
    (b"ab", b"c", b"\x02abc"),
];

/// Two sizes, and the larger.
static SIZES: [(usize, usize, usize); 6] = [
    (3, 7, 7),
    (7, 3, 7),
    (5, 5, 5),
    (0, 0, 0),
    (usize::MAX, 0, usize::MAX),
    (0, usize::MAX, usize::MAX),
];

#[test]
fn test_union(rt: HostRuntime) {
    for (a, b, whole) in &UNIONS {
        assert!(rt; union(rt.alloc(), a, b).expect(&rt, "memory").as_slice() == *whole);
    }
}

#[test]
fn test_union_unique(rt: HostRuntime) {
    for (namespace, msg, whole) in &UNIQUE_UNIONS {
        assert!(rt;
            union_unique(rt.alloc(), namespace, msg)
                .expect(&rt, "memory")
                .as_slice()
                == *whole
        );
    }
}

#[test]
fn test_union_unique_zero_length(rt: HostRuntime) {
    let whole = union_unique(rt.alloc(), b"", b"message").expect(&rt, "memory");
    assert!(rt; whole.as_slice() == b"\x00message".as_slice());
}

#[test]
fn test_union_unique_long_length(rt: HostRuntime) {
    let namespace = [b'n'; 256];
    let whole = union_unique(rt.alloc(), &namespace, b"message").expect(&rt, "memory");
    let rest = whole.strip_prefix(b"\x80\x02").expect(&rt, "another count");
    assert!(rt; rest.strip_prefix(&namespace) == Some(b"message".as_slice()));
}

#[test]
fn test_max(rt: HostRuntime) {
    for (a, b, larger) in &SIZES {
        assert!(rt; max(*a, *b) == *larger);
    }
}

/// The number as one of the wider type.
fn wide<T, N: Widen<T>>(number: N) -> T {
    number.widen()
}

/// Whether the number is the same in each wider type.
fn is_small(small: NonZeroU8, n: u8) -> bool {
    wide::<u16, NonZeroU8>(small) == n as u16
        && wide::<u32, NonZeroU8>(small) == n as u32
        && wide::<u64, NonZeroU8>(small) == n as u64
        && wide::<u128, NonZeroU8>(small) == n as u128
        && wide::<usize, NonZeroU8>(small) == n as usize
}

/// Whether the number is the same in each wider type.
fn is_word(word: NonZeroU16, n: u16) -> bool {
    wide::<u32, NonZeroU16>(word) == n as u32
        && wide::<u64, NonZeroU16>(word) == n as u64
        && wide::<u128, NonZeroU16>(word) == n as u128
        && wide::<usize, NonZeroU16>(word) == n as usize
}

/// Whether the number is the same in each wider type.
fn is_long(long: NonZeroU32, n: u32) -> bool {
    wide::<u64, NonZeroU32>(long) == n as u64
        && wide::<u128, NonZeroU32>(long) == n as u128
        && wide::<usize, u32>(n) == n as usize
}

/// Whether the number is the same in the wider type, and as a size.
fn is_longest(longest: NonZeroU64, n: u64) -> bool {
    wide::<u128, NonZeroU64>(longest) == n as u128 && wide::<u64, usize>(n as usize) == n
}

#[test]
fn wider_numbers_are_the_same(rt: HostRuntime) {
    for (n8, n16) in &[(1, 1), (200, 513), (u8::MAX, 65535)] {
        assert!(rt;
            is_small(NonZeroU8::new(*n8).expect(&rt, "zero"), *n8)
                && is_word(NonZeroU16::new(*n16).expect(&rt, "zero"), *n16)
        );
    }
    for (n32, n64) in &[(1, 1), (u32::MAX, u64::MAX)] {
        assert!(rt;
            is_long(NonZeroU32::new(*n32).expect(&rt, "zero"), *n32)
                && is_longest(NonZeroU64::new(*n64).expect(&rt, "zero"), *n64)
        );
    }
}

#[test]
fn the_constants_are_known(rt: HostRuntime) {
    assert!(rt;
        MAX_ALLOCATION_BYTES == 0x7fff_ffff_ffff_ffff && GOLDEN_RATIO == 11_400_714_819_323_198_485
    );
    max_allocation_law();
    golden_ratio_law(1, 2);
    assert!(rt; GOLDEN_RATIO.wrapping_mul(17_428_512_612_931_826_493) == 1);
}
