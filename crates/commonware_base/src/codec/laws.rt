//! Laws of the encodings, each the contract of a call that a proof can cite.
ghost use Rattle.std.specs.Prelude.{◌≡◌, ℕ, ◌<◌, ◌^◌, List, length, true, IfOk, IfErr};
ghost use Rattle.commonware_base.specs.Fault.{Fault};
ghost use Rattle.commonware_base.specs.Lists.{ListFault, list_case};
ghost use Rattle.commonware_base.specs.Varint.{IsVarint, varint};

use crate::codec::config::RangeCfg;
use crate::codec::error::Error;
use crate::codec::source::Source;
use crate::codec::traits::{Canonical, Read, Write};
use std::alloc::Allocator;

/// Each number below 2^32 has one varint encoding, the one that is written, and no other number
/// has it.
pub fn varint_law()
    ensures encoded { (n : ℕ) → n < 2 ^ 32 → IsVarint n (varint n) }
    ensures only { (n : ℕ) (bytes : List ℕ) → IsVarint n bytes → bytes ≡ varint n }
{}

/// The error cases in which an input is no list exclude one another: no input is in two of them.
pub fn list_fault_law<T: Read<A>, A: Allocator>(alloc: A, range: RangeCfg<usize>, item: &T::Cfg)
    ensures { (s : List ℕ) (f g : Fault)
        (v : ListFault T.enc T.writable (T.allowed item.now) (T.fault item.now) range s f)
        (w : ListFault T.enc T.writable (T.allowed item.now) (T.fault item.now) range s g)
        → list_case v ≡ list_case w }
{
    // They are named so that no parameter is unused: only the contract speaks of them.
    let _ = (alloc, range);
}

/// Encodes a value, with any bytes after it, and decodes it again. It returns an equal value and
/// how many bytes are left, which are those after it; or `Memory`.
///
/// It requires that the value is writable, and that the configuration allows it.
pub fn round_trip<T: Read<A> + Write<A> + Canonical + Drop, A: Allocator + Copy>(
    alloc: A,
    value: &T,
    after: &[u8],
    cfg: &T::Cfg,
) -> Result<(T, usize), Error>
    requires writable { T.writable value.now }
    requires allowed { T.allowed cfg.now value.now }
    ensures equal { IfOk result (λ p. T.eq p.0 value.now ≡ true) }
    ensures left { IfOk result (λ p. p.1 ≡ length after.now) }
    ensures memory { IfErr result (λ error. error ≡ Error.Memory) }
{
    let mut sink = Vec::new(alloc);
    if value.write(&mut sink).is_err() || sink.extend_from_slice(after).is_err() {
        return Err(Error::Memory);
    }
    let mut src = Source::new(&sink);
    let again = T::read_cfg(alloc, &mut src, cfg)?;
    Ok((again, src.remaining()))
}
