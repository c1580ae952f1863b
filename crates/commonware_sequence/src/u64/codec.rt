//! The encoding of a number, which is its eight bytes, the highest first.
ghost use Rattle.std.specs.Prelude.{◌≡◌, ◌+◌, ◌≤◌, ◌++◌, length, vec_capacity, vec_len};
ghost use Rattle.commonware_base.specs.Source.{rest_of, Consumes};
ghost use Rattle.commonware_sequence.specs.laws.U64Laws.{u64_canonical, u64_laws, u64_length, u64_prefix_free, u64_text};
ghost use Rattle.commonware_sequence.specs.U64.{IsU64, u64_bytes, u64_fault};

use super::U64;
use crate::fixed_bytes::take_bytes;
use commonware_base::codec::{Canonical, EncodeSize, Error, MaxEncodeSize, Read, Source, Write};
use std::alloc::{AllocError, Allocator};

impl EncodeSize for U64 {
    ghost enc = { u64_bytes };

    ghost writable = { IsU64 };

    ghost prefix_free = { u64_prefix_free };

    ghost text_of_bytes = { λ it h. u64_text it };

    fn encode_size(&self) -> usize {
        8
    }

    fn is_writable(&self) -> bool {
        // The prover knows the range of a value only once the body reads it: each value in the
        // range of its type is writable.
        let _number = self.0;
        true
    }
}

impl<A: Allocator> Write<A> for U64 {
    fn write(&self, sink: &mut Vec<u8, A>) -> Result<(), AllocError> {
        sink.extend_from_slice(&self.0.to_be_bytes())
    }

    /// The numbers go into room that is reserved for all of them.
    #[inline(always)]
    fn write_at_once(items: &[U64], sink: &mut Vec<u8, A>) -> Option<Result<(), AllocError>> {
        if let Err(error) = sink.reserve(items.len() * 8) {
            return Some(Err(error));
        }
        let start = sink.len();
        for item in items {
            if let Err(error) = sink.extend_from_slice(&item.0.to_be_bytes()) {
                sink.truncate(start);
                return Some(Err(error));
            }
        }
        Some(Ok(()))
    }
}

impl MaxEncodeSize for U64 {
    ghost MAX_ENCODE_SIZE = { 8 };

    const MAX_ENCODE_SIZE: usize = 8;

    ghost bounded = { λ it h. u64_length it };
}

impl<A: Allocator> Read<A> for U64 {
    type Cfg = ();

    ghost allowed = { λ _ _. Unit {0} };

    ghost fault = { λ _ s f. u64_fault s f };

    ghost memory_free = { λ _ _. Unit {0} };

    ghost read_laws = { λ _ _. u64_laws };

    fn read_cfg(_alloc: A, src: &mut Source<'_>, _cfg: &()) -> Result<U64, Error> {
        if src.remaining() < 8 {
            return Err(Error::EndOfBuffer);
        }
        Ok(take_u64(src))
    }

    /// The numbers are taken into room for exactly `count`. Where fewer are left, none is taken,
    /// and nothing is allocated.
    #[inline(always)]
    fn read_at_once(
        alloc: A,
        src: &mut Source<'_>,
        count: usize,
        _cfg: &(),
    ) -> Option<Result<Vec<U64, A>, Error>> {
        if src.remaining() / 8 < count {
            return Some(Err(Error::EndOfBuffer));
        }
        let Ok(mut items) = Vec::with_capacity(alloc, count) else {
            return Some(Err(Error::Memory));
        };
        let mut here = *src;
        for _ in 0..count {
            items.push_reserved(take_u64(&mut here));
        }
        *src = here;
        Some(Ok(items))
    }
}

/// Takes the number that comes next, whose bytes are there.
#[inline(always)]
fn take_u64(src: &mut Source<'_>) -> U64
    requires { 8 ≤ length (rest_of src.old) }
    ensures consumed { Consumes src.old src.new (u64_bytes result) }
    ensures fits { IsU64 result }
{
    let item = take_bytes::<8>(src);
    let bytes = item.as_bytes();
    U64(u64::from_be_bytes(*bytes))
}

impl Canonical for U64 {
    ghost canonical = { u64_canonical };
}
