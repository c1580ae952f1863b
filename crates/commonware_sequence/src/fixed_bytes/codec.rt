//! The encoding of bytes of one length, which is these bytes.
ghost use Rattle.std.specs.Prelude.{◌≡◌, ◌≤◌, ◌++◌, IsOk, OnErr, OnOk, length};
ghost use Rattle.commonware_base.specs.Source.{rest_of, Consumes};
ghost use Rattle.commonware_sequence.specs.laws.FixedBytesLaws.{fixed_canonical, fixed_laws, fixed_length, fixed_prefix_free};
ghost use Rattle.commonware_sequence.specs.FixedBytes.{IsOfSize, own_bytes, size_fault};

use super::FixedBytes;
use commonware_base::codec::{Canonical, EncodeSize, Error, MaxEncodeSize, Read, Source, Write};
use std::alloc::{AllocError, Allocator};

impl<const N: usize> EncodeSize for FixedBytes<N> {
    ghost enc = { own_bytes };

    ghost writable = { IsOfSize N };

    ghost prefix_free = { fixed_prefix_free N };

    ghost text_of_bytes = { λ it h. h.bytes };

    fn encode_size(&self) -> usize {
        self.0.len()
    }

    fn is_writable(&self) -> bool {
        // The prover knows of a `Source` that it holds bytes, each below 256: so these bytes are
        // writable. Nothing else is done with it.
        let _ = Source::new(&self.0).position();
        true
    }
}

impl<A: Allocator, const N: usize> Write<A> for FixedBytes<N> {
    /// Appends the bytes. After an allocation failure the sink is as it was; no bytes at all are
    /// appended without one.
    fn write(&self, sink: &mut Vec<u8, A>) -> Result<(), AllocError>
        ensures ok { OnOk result (sink.new.items ≡ sink.old.items ++ own_bytes self.now) }
        ensures err { OnErr result (sink.new.items ≡ sink.old.items) }
        ensures nothing { N ≡ 0 → IsOk result }
    {
        sink.extend_from_slice(&self.0)
    }

    /// The bytes go into room that is reserved for all of them.
    #[inline(always)]
    fn write_at_once(
        items: &[FixedBytes<N>],
        sink: &mut Vec<u8, A>,
    ) -> Option<Result<(), AllocError>> {
        if let Err(error) = sink.reserve(items.len() * N) {
            return Some(Err(error));
        }
        let start = sink.len();
        for item in items {
            if let Err(error) = sink.extend_from_slice(&item.0) {
                sink.truncate(start);
                return Some(Err(error));
            }
        }
        Some(Ok(()))
    }
}

impl<const N: usize> MaxEncodeSize for FixedBytes<N> {
    ghost MAX_ENCODE_SIZE = { N };

    const MAX_ENCODE_SIZE: usize = N;

    ghost bounded = { fixed_length N };
}

impl<A: Allocator, const N: usize> Read<A> for FixedBytes<N> {
    type Cfg = ();

    ghost allowed = { λ _ _. Unit {0} };

    ghost fault = { λ _ s f. size_fault N s f };

    ghost memory_free = { λ _ _. Unit {0} };

    ghost read_laws = { λ _ _. fixed_laws N };

    fn read_cfg(_alloc: A, src: &mut Source<'_>, _cfg: &()) -> Result<FixedBytes<N>, Error> {
        if src.remaining() < N {
            return Err(Error::EndOfBuffer);
        }
        Ok(take_bytes::<N>(src))
    }

    /// The items are taken into room for exactly `count`. Where fewer are left, none is taken, and
    /// nothing is allocated.
    #[inline(always)]
    fn read_at_once(
        alloc: A,
        src: &mut Source<'_>,
        count: usize,
        _cfg: &(),
    ) -> Option<Result<Vec<FixedBytes<N>, A>, Error>> {
        let left = src.remaining();
        let Some(room) = count.checked_mul(N) else {
            return Some(Err(Error::EndOfBuffer));
        };
        if left < room {
            return Some(Err(Error::EndOfBuffer));
        }
        let Ok(mut items) = Vec::with_capacity(alloc, count) else {
            return Some(Err(Error::Memory));
        };
        let mut here = *src;
        for _ in 0..count {
            items.push_reserved(take_bytes::<N>(&mut here));
        }
        *src = here;
        Some(Ok(items))
    }
}

/// Takes the bytes that come next, which are there.
#[inline(always)]
pub(crate) fn take_bytes<const N: usize>(src: &mut Source<'_>) -> FixedBytes<N>
    requires { N ≤ length (rest_of src.old) }
    ensures consumed { Consumes src.old src.new (own_bytes result) }
    ensures of_size { IsOfSize N result }
{
    match src.rest().first_chunk::<N>() {
        None => unreachable!(),
        Some(bytes) => {
            let item = FixedBytes(*bytes);
            src.advance(N);
            item
        }
    }
}

impl<const N: usize> Canonical for FixedBytes<N> {
    ghost canonical = { fixed_canonical N };
}
