//! The worked rows and vectors, and the tests of the Rust crate under the names that they have
//! there, through the facade: a file a subject, a table a kind.
ghost use Rattle.std.specs.Prelude.{IfOk, ◌≡◌, OnErr};

mod carried;
mod items;
mod rows;

use crate::codec::{EncodeSize, Error, Read, Source, Write};
use std::alloc::{AllocError, Allocator};
use std::cmp::Ordering;
use std::fmt::{Debug, Display};
use std::hash::{DefaultHasher, Hash, Hasher};

/// What the reader returns for the bytes, and how many of them it took.
fn read<T: Read<A>, A: Allocator + Copy>(
    alloc: A,
    bytes: &[u8],
    cfg: &T::Cfg,
) -> (Result<T, Error>, usize)
    ensures writable { IfOk result.0 T.writable }
    ensures allowed { IfOk result.0 (T.allowed cfg.now) }
{
    let mut src = Source::new(bytes);
    let result = T::read_cfg(alloc, &mut src, cfg);
    (result, src.position())
}

/// Whether each input is refused with the fault beside it, and the source is where it was.
fn refuses<T: Read<A> + Drop, A: Allocator + Copy>(
    alloc: A,
    cfg: &T::Cfg,
    rows: &[(&[u8], Error)],
) -> bool {
    for (bytes, fault) in rows {
        let (result, taken) = read::<T, A>(alloc, bytes, cfg);
        match result {
            Err(error) if error == *fault && taken == 0 => {}
            _ => return false,
        }
    }
    true
}

/// Whether the value is written as these bytes, and its size is their number.
fn is_written_as<T: Write<A>, A: Allocator>(alloc: A, value: &T, bytes: &[u8]) -> bool {
    let mut sink = Vec::new(alloc);
    value.is_writable()
        && value.write(&mut sink).is_ok()
        && sink.as_slice() == bytes
        && value.encode_size() == bytes.len()
}

/// Whether the reader returns an equal value for the bytes, and takes `taken` of them.
fn is_read_as<T: Read<A> + PartialEq + Drop, A: Allocator + Copy>(
    alloc: A,
    bytes: &[u8],
    cfg: &T::Cfg,
    value: &T,
    taken: usize,
) -> bool {
    let (result, position) = read::<T, A>(alloc, bytes, cfg);
    match result {
        Ok(again) => again == *value && position == taken,
        Err(_) => false,
    }
}

/// Whether the value is written as these bytes, and they are read as it.
fn is_coded_as<T: Read<A> + Write<A> + PartialEq + Drop, A: Allocator + Copy>(
    alloc: A,
    value: &T,
    cfg: &T::Cfg,
    bytes: &[u8],
) -> bool {
    is_written_as(alloc, value, bytes) && is_read_as(alloc, bytes, cfg, value, bytes.len())
}

/// Whether the value, once it is written, is read as an equal one with no byte left.
fn comes_back<T: Read<A> + Write<A> + PartialEq + Drop, A: Allocator + Copy>(
    alloc: A,
    value: &T,
    cfg: &T::Cfg,
) -> bool {
    let mut sink = Vec::new(alloc);
    if !value.is_writable() || value.write(&mut sink).is_err() {
        return false;
    }
    is_read_as(alloc, &sink, cfg, value, sink.len())
}

/// Whether the value has this `Display` text.
fn is_shown_as<T: Display, A: Allocator + Copy>(alloc: A, value: &T, text: &str) -> bool {
    match format!(in alloc; "{value}") {
        Ok(shown) => shown.as_str() == text,
        Err(_) => false,
    }
}

/// Whether the value has this `Debug` text.
fn is_debugged_as<T: Debug, A: Allocator + Copy>(alloc: A, value: &T, text: &str) -> bool {
    match format!(in alloc; "{value:?}") {
        Ok(shown) => shown.as_str() == text,
        Err(_) => false,
    }
}

/// The value's hash by the standard hasher.
fn hash_of<T: Hash>(value: &T) -> u64 {
    let mut hasher = DefaultHasher::new();
    value.hash(&mut hasher);
    hasher.finish()
}

/// Whether the two are equal or not, as is said, and so are their hashes.
fn are_equal<T: Eq + Hash>(a: &T, b: &T, equal: bool) -> bool {
    (*a == *b) == equal && (hash_of(a) == hash_of(b)) == equal
}

/// Whether the two are in this order, by each comparison, and their hashes are equal where they
/// are.
fn are_ordered<T: Ord + Hash>(a: &T, b: &T, order: Ordering) -> bool {
    a.cmp(b) == order
        && (*a < *b) == (order == Ordering::Less)
        && (*a > *b) == (order == Ordering::Greater)
        && are_equal(a, b, order == Ordering::Equal)
}
