//! Bytes, words, varints and numbers in a range.
use crate::bench::{is_coded_as, is_read_as, is_written_as, refuses};
use crate::codec::{EncodeSize, Error, MaxEncodeSize, RangeCfg, UInt, varint_law};

/// Numbers and the bytes that encode them.
static VARINTS: [(u32, &[u8]); 16] = [
    (0, b"\x00"),
    (1, b"\x01"),
    (9, b"\x09"),
    (127, b"\x7f"),
    (128, b"\x80\x01"),
    (255, b"\xff\x01"),
    (256, b"\x80\x02"),
    (300, b"\xac\x02"),
    (16383, b"\xff\x7f"),
    (16384, b"\x80\x80\x01"),
    (2097151, b"\xff\xff\x7f"),
    (2097152, b"\x80\x80\x80\x01"),
    (268435455, b"\xff\xff\xff\x7f"),
    (268435456, b"\x80\x80\x80\x80\x01"),
    (4026531840, b"\x80\x80\x80\x80\x0f"),
    (4294967295, b"\xff\xff\xff\xff\x0f"),
];

/// Inputs that encode no number.
static NO_VARINTS: [(&[u8], Error); 8] = [
    (b"", Error::EndOfBuffer),
    (b"\x80", Error::EndOfBuffer),
    (b"\x80\x80\x80\x80", Error::EndOfBuffer),
    (b"\x80\x00", Error::InvalidVarint),
    (b"\xff\x80\x00", Error::InvalidVarint),
    (b"\x80\x80\x80\x80\x00", Error::InvalidVarint),
    (b"\x80\x80\x80\x80\x10", Error::InvalidVarint),
    (b"\x80\x80\x80\x80\x80", Error::InvalidVarint),
];

#[test]
fn varints_are_written_and_read_and_overlong_ones_refused(rt: HostRuntime) {
    let alloc = rt.alloc();
    varint_law();
    for (number, bytes) in &VARINTS {
        assert!(rt; is_coded_as(alloc, &UInt(*number), &(), bytes));
    }
    assert!(rt;
        is_read_as(alloc, b"\x00\x07", &(), &UInt(0), 1)
            && refuses::<UInt, _>(alloc, &(), &NO_VARINTS)
    );
}

#[test]
fn words_and_bytes_have_a_fixed_length(rt: HostRuntime) {
    let alloc = rt.alloc();
    assert!(rt;
        is_coded_as(alloc, &258u32, &(), b"\x00\x00\x01\x02")
            && is_coded_as(alloc, &7u8, &(), b"\x07")
            && refuses::<u32, _>(alloc, &(), &[(b"\x00\x00\x01", Error::EndOfBuffer)])
            && refuses::<u8, _>(alloc, &(), &[(b"", Error::EndOfBuffer)])
            && (
                u8::MAX_ENCODE_SIZE,
                u32::MAX_ENCODE_SIZE,
                UInt::MAX_ENCODE_SIZE
            ) == (1, 4, 5)
    );
}

#[test]
fn numbers_stay_in_their_range(rt: HostRuntime) {
    let alloc = rt.alloc();
    let up_to_ten = RangeCfg::from(..=10);
    assert!(rt;
        is_written_as(alloc, &300usize, b"\xac\x02")
            && is_read_as(alloc, b"\x0a", &up_to_ten, &10usize, 1)
            && refuses::<usize, _>(alloc, &up_to_ten, &[(b"\x0b", Error::InvalidLength(11))])
            && 4294967295usize.is_writable()
            && !4294967296usize.is_writable()
    );
}
