//! Module `sequence`: the weights of members whose keys have 20 bytes.
ghost use Rattle.std.specs.Prelude.{IfErr, IfOk};
ghost use Rattle.commonware_utils.specs.Codec.{Accepts, Refuses};
ghost use Rattle.commonware_utils.specs.Ordered.{IsAllowedMap, IsWritableMap, map_enc};
ghost use Rattle.commonware_utils.specs.Sequence.{IsOfSize, IsU64, bytes_cmp, own_bytes, u64_bytes};

use commonware_utils::codec::{Error, RangeCfg, Read, Source};
use commonware_utils::ordered::Map;
use commonware_utils::sequence::{FixedBytes, U64};
use std::alloc::Global;

/// The weights of members by their addresses.
pub type Weights = Map<FixedBytes<20>, U64, Global>;

/// Decodes the weights at the start of the bytes, of as many members as are allowed, and returns
/// what follows them; or the first fault.
pub fn read_weights<'a>(
    alloc: Global,
    bytes: &'a [u8],
    allowed: RangeCfg<usize>,
) -> Result<(Weights, &'a [u8]), Error>
    ensures accepted { IfOk result (λ p. Accepts (map_enc own_bytes u64_bytes)
        (IsWritableMap (IsOfSize 20) bytes_cmp IsU64)
        (IsAllowedMap allowed (λ _. Unit {0}) (λ _. Unit {0})) bytes.now p.0 p.1.now) }
    ensures refused { IfErr result (Refuses
        (⟦<Map<FixedBytes<20>, U64, Global> as Read<Global>>⟧.fault (allowed, tt, tt) bytes.now)
        (⟦<Map<FixedBytes<20>, U64, Global> as Read<Global>>⟧.memory_free (allowed, tt, tt)
        bytes.now)) }
{
    let mut source = Source::new(bytes);
    let weights = Map::read_cfg(alloc, &mut source, &(allowed, (), ()))?;
    Ok((weights, source.rest()))
}
