//! Lines that the judge answers without an allocation, and the first that need one.

use crate::judge::{WHOLE, held, of};
use std::alloc::{AllocError, Global};

/// Whether a session on this input ends with this status, writes these answers, and makes no
/// allocation.
fn allocates_nothing(
    alloc: Global,
    text: &[u8],
    answers: &[u8],
    status: u8,
) -> Result<bool, AllocError> {
    for step in [WHOLE, 1, 4096] {
        let mut wanted = of(text, step);
        wanted.granted = 0;
        let outcome = held(alloc, &wanted)?;
        if outcome.refused || outcome.status != status || outcome.written.as_slice() != answers {
            return Ok(false);
        }
    }
    Ok(true)
}

/// Whether a session on this input is stopped by its first allocation.
fn allocates(alloc: Global, text: &[u8]) -> Result<bool, AllocError> {
    let mut wanted = of(text, WHOLE);
    wanted.granted = 0;
    let outcome = held(alloc, &wanted)?;
    Ok(outcome.refused && outcome.status == 3 && outcome.written.is_empty())
}

/// An input of `length` bytes that starts with these, all others of which are this byte.
fn padded(alloc: Global, start: &[u8], byte: u8, length: usize) -> Result<Vec<u8>, AllocError> {
    let mut text = start.to_vec(alloc)?;
    text.resize(length, byte)?;
    Ok(text)
}

/// The line that comes in pieces is kept without an allocation up to 4096 bytes, and the bytes of
/// a question up to 64.
#[test]
fn the_first_lengths_that_allocate(rt: HostRuntime) {
    let alloc = rt.alloc();
    let line = padded(alloc, b"u9 ", b'0', 4096).expect(&rt, "memory");
    assert!(rt; allocates_nothing(alloc, &line, b"unreadable type\n", 1) == Ok(true));
    let longer = padded(alloc, b"u9 ", b'0', 4097).expect(&rt, "memory");
    assert!(rt; allocates(alloc, &longer) == Ok(true));
    let bytes = padded(alloc, b"u8 ", b'0', 3 + 128).expect(&rt, "memory");
    assert!(rt; allocates_nothing(alloc, &bytes, b"accepted 1 63\n", 0) == Ok(true));
    let more = padded(alloc, b"u8 ", b'0', 3 + 130).expect(&rt, "memory");
    assert!(rt; allocates(alloc, &more) == Ok(true));
    assert!(rt; allocates(alloc, b"vec<u8> .. 0107\n") == Ok(true));
    assert!(rt; allocates(alloc, b"weights n3f1 010000000000000001\n") == Ok(true));
}

/// Lines for which there is nothing to allocate: weights of none, certificates of empty values that
/// no one signed, and what isn't read because of what comes before it.
const NOTHING: &[u8] = b"weights n3f1 00\nweights n3f1 01\nweighted-quorum n3f1 00 01aa0100\n\
weighted-conflict n3f1 00 01aa0100 01bb0100\n\
weighted-equivocation n3f1 00 030107aa0100 030107bb0100\n\
quorum n3f1 4 0000\nquorum n3f1 4 01\n\
conflict n3f1 4 0000 0000\nconflict n3f1 4 00 01aa0100\nconflict n3f1 4 0000 01\n\
equivocation n3f1 4 0000 0000\nequivocation n3f1 4 00 030107aa0100\n\
position set<u8> 00 07\nposition set<set<u8>> 01 0107\n";

/// Their answers.
const NOTHING_ANSWERS: &[u8] = b"NoWeights\nEndOfBuffer\nNoWeights\nNoWeights\nNoWeights\n\
TooFew\nEndOfBuffer\nEqualValues\nEndOfBuffer\nEndOfBuffer\nNoSlot\nEndOfBuffer\nnone\n\
EndOfBuffer\n";

/// A verdict for which there is nothing to allocate is given without memory; one item more, and an
/// allocation that fails stops the session.
#[test]
fn a_verdict_of_nothing_needs_no_memory(rt: HostRuntime) {
    let alloc = rt.alloc();
    assert!(rt; allocates_nothing(alloc, NOTHING, NOTHING_ANSWERS, 0) == Ok(true));
    assert!(rt; allocates(alloc, b"weights n3f1 010000000000000000\n") == Ok(true));
    assert!(rt; allocates(alloc, b"quorum n3f1 4 010000\n") == Ok(true));
    assert!(rt; allocates(alloc, b"conflict n3f1 4 0000 000100\n") == Ok(true));
    assert!(rt; allocates(alloc, b"equivocation n3f1 4 0000 000100\n") == Ok(true));
}
