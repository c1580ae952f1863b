//! What is said of an input that is decoded, and of bytes that are written.
use commonware_utils::codec::{Error, Read, Source};
use std::alloc::{AllocError, Allocator};
use test_equipment::walk::{Outcome, full, refused};

/// What is said of a reading: the error, if there is one, and how many bytes were read.
pub(super) fn outcome<T: Read<A> + Drop, A: Allocator>(
    alloc: A,
    bytes: &[u8],
    cfg: &T::Cfg,
) -> (Option<Error>, usize) {
    let mut src = Source::new(bytes);
    let read: Result<T, Error> = T::read_cfg(alloc, &mut src, cfg);
    (read.err(), src.position())
}

/// The outcome of a reading that gave what is right or not: the source has to be read to its end.
pub(super) fn read_whole(right: bool, src: &Source<'_>) -> Outcome {
    full(right && src.remaining() == 0)
}

/// The outcome of a reading that failed: there has to be no memory, and the source has to stay.
pub(super) fn read_refused(error: Error, src: &Source<'_>) -> Outcome {
    refused(error == Error::Memory && src.position() == 0)
}

/// A sink of `held` bytes, with no room for more.
pub(super) fn full_sink<A: Allocator>(alloc: A, held: usize) -> Result<Vec<u8, A>, AllocError> {
    vec![in alloc; 0xaa; held]
}

/// Whether a sink holds the bytes that it held before, and then these.
pub(super) fn are_after(sink: &[u8], held: usize, bytes: &[u8]) -> bool {
    match sink.split_at_checked(held) {
        Some((before, added)) => before.iter().all(|byte| *byte == 0xaa) && added == bytes,
        None => false,
    }
}
