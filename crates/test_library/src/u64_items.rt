//! Numbers of eight bytes: their bytes, their texts, their order, and one and many of them written
//! and read, with each allocation failing in turn.
use crate::many_at_once::{MANY, Row, are_appended_to_each, lowest, read, written};
use crate::refused_codec::{Act, Trial};
use commonware_sequence::U64;
use commonware_utils::codec::{MaxEncodeSize, Read, Source};
use std::alloc::{AllocError, Global};
use test_equipment::walk::{Heap, Outcome, Refusable, makes_requests, requests};

/// A number, its bytes and its text.
struct Known(u64, [u8; 8], &'static str);

static KNOWN: [Known; 6] = [
    Known(0, [0, 0, 0, 0, 0, 0, 0, 0], "0"),
    Known(1, [0, 0, 0, 0, 0, 0, 0, 1], "1"),
    Known(255, [0, 0, 0, 0, 0, 0, 0, 0xff], "255"),
    Known(256, [0, 0, 0, 0, 0, 0, 1, 0], "256"),
    Known(1 << 32, [0, 0, 0, 1, 0, 0, 0, 0], "4294967296"),
    Known(u64::MAX, [0xff; 8], "18446744073709551615"),
];

/// An act on a number of these bytes.
#[derive(Clone, Copy)]
struct Call([u8; 8], Act);

impl Refusable for Call {
    fn outcome<H: Heap>(&self, heap: H, granted: u64) -> Outcome {
        Trial::new(self.1, heap, granted).on::<U64>(&self.0, &())
    }
}

/// Whether the number is written, read and cloned with each request refused. Only a sink that has
/// to grow makes one.
fn is_kept(alloc: Global, bytes: [u8; 8]) -> bool {
    makes_requests(alloc, &Call(bytes, Act::Write), 1)
        && makes_requests(alloc, &Call(bytes, Act::Read), 0)
        && makes_requests(alloc, &Call(bytes, Act::Clone), 0)
        && makes_requests(alloc, &Call(bytes, Act::RoundTrip), 1)
}

/// Whether the item of a number is shown by this text.
fn is_shown(alloc: Global, it: U64, text: &str) -> bool {
    match (format!(in alloc; "{it}"), format!(in alloc; "{it:?}")) {
        (Ok(shown), Ok(debug)) => shown.as_str() == text && debug.as_str() == text,
        _ => false,
    }
}

/// Whether the item is read from these bytes.
fn is_read(alloc: Global, bytes: &[u8], it: U64) -> bool {
    let mut src = Source::new(bytes);
    match U64::read_cfg(alloc, &mut src, &()) {
        Ok(read) => read == it && src.remaining() == 0,
        Err(_) => false,
    }
}

#[test]
fn numbers_have_their_bytes_and_texts(rt: HostRuntime) {
    let alloc = rt.alloc();
    for Known(number, bytes, text) in &KNOWN {
        let it = U64::new(*number);
        assert!(rt;
            it.get() == *number && u64::from(U64::from(*number)) == *number,
            "{text}"
        );
        assert!(rt; is_read(alloc, bytes, it), "{text}");
        assert!(rt;
            is_kept(alloc, *bytes) && is_shown(alloc, it, text),
            "{text}"
        );
    }
    assert!(rt; KNOWN.iter().map(|known| U64::new(known.0)).is_sorted());
    assert!(rt; <U64 as MaxEncodeSize>::MAX_ENCODE_SIZE == 8);
}

/// Many numbers, each with the same bytes at both ends.
fn many(alloc: Global) -> Result<Row<U64>, AllocError> {
    let mut row = Row::new(alloc)?;
    for number in 0..MANY {
        let [higher, lower] = lowest(number);
        let bytes = [lower, higher, 0, 0, 0, 0, higher, lower];
        row.push(U64::new(u64::from_be_bytes(bytes)), &bytes)?;
    }
    Ok(row)
}

/// Many numbers written at once, or read.
#[derive(Drop)]
struct AtOnce<'a> {
    row: &'a Row<U64>,
    is_write: bool,
}

impl<'r> Refusable for AtOnce<'r> {
    fn outcome<H: Heap>(&self, heap: H, granted: u64) -> Outcome {
        if self.is_write {
            written(heap, granted, self.row)
        } else {
            read(heap, granted, self.row, &())
        }
    }
}

#[test]
fn many_numbers_take_one_request(rt: HostRuntime) {
    let alloc = rt.alloc();
    let row = many(alloc).expect(&rt, "memory");
    for is_write in [true, false] {
        let call = AtOnce {
            row: &row,
            is_write,
        };
        assert!(rt; requests(alloc, &call) == Some(1));
    }
    for count in [0, 1, 2, 3, 33, MANY as usize] {
        assert!(rt;
            are_appended_to_each(alloc, &row, count, 8) == Ok(true),
            "{count}"
        );
    }
}
