//! Bytes of several lengths: made of slices, compared, shown, written and read, one and many, with
//! each allocation failing in turn. And the order of slices, beside that of std.
ghost use Rattle.std.specs.Prelude.{◌≤◌};

use crate::many_at_once::{MANY, Row, are_appended_to_each, lowest, read, written};
use crate::refused_codec::{Act, Trial};
use commonware_sequence::{FixedBytes, Prefixed, bytes_order};
use std::alloc::{AllocError, Global};
use std::cmp::Ordering;
use std::convert::AsSlice;
use test_equipment::walk::{Heap, Outcome, Refusable, makes_requests, requests};

/// `N` bytes, from this one on, each greater than the one before by 37, modulo 256.
fn bytes<const N: usize>(first: u8) -> [u8; N] {
    let mut bytes = [0; N];
    let mut next = first;
    for byte in &mut bytes {
        *byte = next;
        next = next.wrapping_add(37);
    }
    bytes
}

/// Whether bytes of this length are made of a slice, exactly where it has that length.
fn are_made_of<const N: usize>(slice: &[u8]) -> bool
    requires { N ≤ 96 }
{
    let actual = slice.len();
    match FixedBytes::<N>::try_from(slice) {
        Ok(made) => {
            let bytes = made.as_bytes();
            actual == N && bytes.as_slice() == slice && made.as_slice() == slice
        }
        Err(error) => actual != N && error.expected == N && error.actual == actual,
    }
}

/// Whether bytes of this length are made of an array, and of slices of 0 to 100 bytes.
fn are_made<const N: usize>() -> bool
    requires { N ≤ 96 }
{
    let longest: [u8; 100] = bytes(5);
    for length in 0..=100 {
        if !are_made_of::<N>(&longest[..length]) {
            return false;
        }
    }
    FixedBytes::from(bytes::<N>(5)) == FixedBytes::new(bytes(5))
}

/// Whether the items of this length are in the order of their slices.
fn are_in_order<const N: usize>() -> bool
    requires { N ≤ 96 }
{
    let (mine, others): ([u8; N], [u8; N]) = (bytes(0), bytes(1));
    let (it, other) = (FixedBytes::new(mine), FixedBytes::new(others));
    it.cmp(&other) == mine[..].cmp(&others[..])
        && other.cmp(&it) == others[..].cmp(&mine[..])
        && it.cmp(&it).is_eq()
        && (it == other) == (N == 0)
}

/// An act on `N` bytes.
#[derive(Drop)]
struct Call<const N: usize> {
    act: Act,
    // A value of more than 2 ^ 63 bytes has no place in memory.
    ghost short: { N ≤ 96 },
}

impl<const N: usize> Refusable for Call<N> {
    fn outcome<H: Heap>(&self, heap: H, granted: u64) -> Outcome {
        Trial::new(self.act, heap, granted).on::<FixedBytes<N>>(&bytes::<N>(5), &())
    }
}

/// Whether one item of this length is written, read and cloned with each request refused. Only a
/// sink that has to grow makes one.
fn is_kept<const N: usize>(alloc: Global) -> bool
    requires { N ≤ 96 }
{
    let written = if N == 0 { 0 } else { 1 };
    for (act, least) in [
        (Act::Write, written),
        (Act::Read, 0),
        (Act::Clone, 0),
        (Act::RoundTrip, 1),
    ] {
        if !makes_requests(alloc, &Call::<N> { act }, least) {
            return false;
        }
    }
    true
}

/// Many items of `N` bytes, of which each has the same first byte as the 256th after it.
fn many<const N: usize>(alloc: Global) -> Result<Row<FixedBytes<N>>, AllocError> {
    let mut row = Row::new(alloc)?;
    for number in 0..MANY {
        let [_, first] = lowest(number);
        let item = bytes::<N>(first);
        row.push(FixedBytes::new(item), &item)?;
    }
    Ok(row)
}

/// Many items written at once, or read.
#[derive(Drop)]
struct AtOnce<'a, const N: usize> {
    row: &'a Row<FixedBytes<N>>,
    is_write: bool,
    // The same of the items.
    ghost short: { N ≤ 96 },
}

impl<'r, const N: usize> Refusable for AtOnce<'r, N> {
    fn outcome<H: Heap>(&self, heap: H, granted: u64) -> Outcome {
        if self.is_write {
            written(heap, granted, self.row)
        } else {
            read(heap, granted, self.row, &())
        }
    }
}

/// Whether many items of this length take one request to write and one to read, and are written
/// after others. To write no bytes takes none; to read items without bytes does, for their list.
fn are_many<const N: usize>(alloc: Global) -> bool
    requires { N ≤ 96 }
{
    let Ok(row) = many::<N>(alloc) else {
        return false;
    };
    let written = if N == 0 { 0 } else { 1 };
    for (is_write, asked) in [(true, written), (false, 1)] {
        let call = AtOnce {
            row: &row,
            is_write,
        };
        if requests(alloc, &call) != Some(asked) {
            return false;
        }
    }
    [0, 1, 2, 3, 33].iter().all(|count| are_appended_to_each(alloc, &row, *count, N) == Ok(true))
}

/// Whether all of this holds of `N` bytes.
fn holds<const N: usize>(alloc: Global) -> bool
    requires { N ≤ 96 }
{
    are_made::<N>() && are_in_order::<N>() && is_kept::<N>(alloc) && are_many::<N>(alloc)
}

#[test]
fn bytes_of_each_length(rt: HostRuntime) {
    let alloc = rt.alloc();
    assert!(rt; holds::<0>(alloc) && holds::<1>(alloc));
    assert!(rt; holds::<7>(alloc) && holds::<8>(alloc) && holds::<9>(alloc));
    assert!(rt; holds::<20>(alloc) && holds::<32>(alloc) && holds::<33>(alloc));
    assert!(rt; holds::<48>(alloc) && holds::<96>(alloc));
}

/// The order that two slices have by their first eight bytes, or `None` where these don't tell it.
fn order_of_starts(slice: &[u8], other: &[u8]) -> Option<Ordering> {
    let starts = (slice.first_chunk::<8>(), other.first_chunk::<8>());
    let (Some(start), Some(others)) = starts else {
        return None;
    };
    Some(start.cmp(others)).filter(|order| order.is_ne())
}

/// Whether a slice is in its order, both ways, with the same where a byte is another.
fn is_in_order(slice: &[u8], others: &[u8; 41], at: usize) -> bool {
    let mut changed = *others;
    if let Some(byte) = changed.get_mut(at) {
        *byte = byte.wrapping_add(100);
    }
    for length in 0..=41 {
        let other = &changed[..length];
        let order = bytes_order(slice, other);
        if order != slice.cmp(other) || order.reverse() != bytes_order(other, slice) {
            return false;
        }
        let by_prefix = Prefixed::new(slice).order_by_prefix(&Prefixed::new(other));
        if by_prefix != order_of_starts(slice, other) {
            return false;
        }
    }
    true
}

/// Slices of 0 to 41 bytes, beside slices of 0 to 41 bytes that differ at each place, or at none.
#[test]
fn slices_are_in_the_order_of_std(rt: HostRuntime) {
    let bytes: [u8; 41] = bytes(5);
    for length in 0..=41 {
        for at in 0..=41 {
            assert!(rt; is_in_order(&bytes[..length], &bytes, at), "{length}, {at}");
        }
    }
}

#[test]
fn bytes_are_shown_in_lowercase_hexadecimal(rt: HostRuntime) {
    let alloc = rt.alloc();
    let it = FixedBytes::new([0u8, 0x0f, 0xa0, 0xff]);
    let shown = format!(in alloc; "{it} {it:?}").expect(&rt, "memory");
    assert_eq!(&rt; shown.as_str(), "000fa0ff 000fa0ff");
    let none = FixedBytes::new([]);
    let shown = format!(in alloc; "<{none}{none:?}>").expect(&rt, "memory");
    assert_eq!(&rt; shown.as_str(), "<>");
    let error = FixedBytes::<4>::try_from(b"abc".as_slice())
        .err()
        .expect(&rt, "an error");
    let shown = format!(in alloc; "{error}").expect(&rt, "memory");
    assert_eq!(&rt; shown.as_str(), "expected 4 bytes, got 3");
}
