//! Weights with their keys, as a map from keys to weights is encoded.
ghost use Rattle.std.specs.Prelude.{◌≡◌, IfErr, IfOk, OnErr};
ghost use Rattle.std.specs.Map.{values_of};
ghost use Rattle.commonware_base.specs.Lists.{IsListMemoryFree};
ghost use Rattle.commonware_base.specs.Source.{rest_of, Consumes};
ghost use Rattle.commonware_base.specs.Text.{Accepts};
ghost use Rattle.committee_weights.specs.Keyed.{keyed_enc, AreKeyedWeights, IsAllowedKeyed, IsKeyedFault, KeyedLaws, RefusesKeyed};

use crate::weights::{MapWeightsError, Weights, WeightsError};
use commonware_base::codec::{Canonical, Error, RangeCfg, Read, Source};
use commonware_map::Map;
use commonware_sequence::U64;
use std::alloc::Allocator;

/// Why an input doesn't begin with weights and their keys.
#[derive(Debug, PartialEq, Eq, Drop, thiserror::Error)]
pub enum ReadWeightsError {
    /// The input doesn't begin with a map within the limits; or an allocation failed, which is
    /// `Error::Memory` and says nothing of the input.
    #[error("{0}")]
    Undecodable(Error),
    /// It does, and the values of the map aren't the weights of a committee.
    #[error("{0}")]
    Refused(WeightsError),
}

/// Decodes weights with their keys, which are encoded as a map from keys to `U64`: returns the map,
/// and its values as weights. `Map::write` is their writer.
///
/// The limits are those of the map: the range of its length, and the limits of the keys. Allocation
/// failures aside, exactly the encodings of maps within the limits are accepted, whose values are
/// the weights of a committee. The first fault of every other input is returned: that of the map as
/// its reader has it, and last the reason why the values aren't weights. What follows the map is
/// left. After an error the source is where it was.
///
/// Of keys of one byte, `02 03 07 02`, and 40 and 10 in eight bytes each, are the weights 40 and 10
/// of the keys 3 and 7.
pub fn read_weights<K: Ord + Canonical + Read<A> + Drop, A: Allocator + Copy>(
    alloc: A,
    src: &mut Source<'_>,
    limits: &(RangeCfg<usize>, K::Cfg, ()),
) -> Result<(Map<K, U64, A>, Weights<A>), ReadWeightsError>
    ensures accepted { IfOk result (λ read. Accepts (keyed_enc K.enc)
        (AreKeyedWeights K.writable K.cmp)
        (IsAllowedKeyed limits.now.0 (K.allowed limits.now.1))
        (rest_of src.old) read.0 (rest_of src.new)) }
    ensures weights { IfOk result (λ read. read.1 ≡ values_of read.0) }
    ensures consumed { IfOk result (λ read.
        Consumes src.old src.new (keyed_enc K.enc read.0)) }
    ensures refused { let text = rest_of src.old in IfErr result (RefusesKeyed
        (IsKeyedFault K.enc K.writable K.cmp (K.allowed limits.now.1) (K.fault limits.now.1)
        limits.now.0 text)
        (IsListMemoryFree (K.fault limits.now.1) (K.memory_free limits.now.1)
        limits.now.0 text)) }
    ensures stays { OnErr result (src.new ≡ src.old) }
{
    let mut here = *src;
    let map = match Map::<K, U64, A>::read_cfg(alloc, &mut here, limits) {
        Ok(map) => map,
        Err(error) => return Err(ReadWeightsError::Undecodable(error)),
    };
    match Weights::from_map(alloc, &map) {
        Ok(weights) => {
            *src = here;
            Ok((map, weights))
        }
        Err(MapWeightsError::Refused(reason)) => Err(ReadWeightsError::Refused(reason)),
        Err(MapWeightsError::Memory) => Err(ReadWeightsError::Undecodable(Error::Memory)),
    }
}

/// Of all inputs: one that begins with weights and their keys has no fault, each other has exactly
/// one; and maps of one encoding have one list of weights.
pub fn read_weights_law<K: Ord + Canonical + Read<A>, A: Allocator>(
    alloc: A,
    range: RangeCfg<usize>,
    key: &K::Cfg,
)
    ensures { KeyedLaws K.enc K.writable K.cmp (K.allowed key.now) (K.fault key.now) range }
{
    // They are named so that no parameter is unused: only the contract speaks of them.
    let _ = (alloc, range);
}
