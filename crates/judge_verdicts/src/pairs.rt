//! What a builder makes of pairs in any order.
ghost use Rattle.std.specs.Prelude.{◌≡◌, IfErr, IfOk, length, zip};
ghost use Rattle.commonware_utils.specs.Codec.{IsWritableList};
ghost use Rattle.commonware_utils.specs.Ordered.{IsDedup, on_keys};
ghost use Rattle.judge_verdicts.specs.Builds.{IsBiMapBuilt, IsBiMapMade, IsMapBuilt, IsMapMade};
ghost use Rattle.judge_verdicts.specs.Builds.{MayFailToAllocateToBuild};
ghost use Rattle.judge_verdicts.specs.Columns.{columns_of};
ghost use Rattle.judge_verdicts.specs.Readings.{reading_by};
ghost use Rattle.judge_verdicts.specs.Whole.{items_of};

use crate::columns::{pairs_of, read_columns};
use crate::sets::{NotBuilt, bytes_of};
use commonware_utils::codec::{RangeCfg, Read, Write};
use commonware_utils::ordered::{BiMap, Error, Map};
use std::alloc::{AllocError, Allocator};
use std::hash::Hash;

/// The bytes of the map of the pairs that the input lists in any order, the keys and then the
/// values: of equal keys the first pair stays, or they are refused. The error is an allocation
/// failure.
pub fn build_map<K, V, A: Allocator + Copy>(
    alloc: A,
    unique: bool,
    text: &[u8],
    cfg: &(RangeCfg<usize>, K::Cfg, V::Cfg),
) -> Result<Result<Vec<u8, A>, NotBuilt>, AllocError>
where
    K: Ord + Read<A> + Write<A> + Drop,
    V: Read<A> + Write<A> + Drop,
    ensures built { let key = reading_by K.enc K.writable (K.allowed cfg.now.1)
        (K.fault cfg.now.1) (K.memory_free cfg.now.1) in
        let value = reading_by V.enc V.writable (V.allowed cfg.now.2)
        (V.fault cfg.now.2) (V.memory_free cfg.now.2) in IfOk result (λ built.
        IsMapBuilt unique cfg.now.0 key value K.eq K.cmp text.now (items_of built)) }
    ensures memory { let key = reading_by K.enc K.writable (K.allowed cfg.now.1)
        (K.fault cfg.now.1) (K.memory_free cfg.now.1) in
        let value = reading_by V.enc V.writable (V.allowed cfg.now.2)
        (V.fault cfg.now.2) (V.memory_free cfg.now.2) in IfErr result (λ _.
        MayFailToAllocateToBuild (columns_of cfg.now.0 key value) text.now) }
{
    match read_columns::<K, V, A>(alloc, text, cfg)? {
        Ok((keys, values)) => make_map(alloc, unique, pairs_of(alloc, keys, values)?),
        Err(what) => Ok(Err(NotBuilt::Unread(what))),
    }
}

/// The bytes of the map of the pairs.
fn make_map<K: Ord + Write<A> + Drop, V: Write<A> + Drop, A: Allocator + Copy>(
    alloc: A,
    unique: bool,
    pairs: Vec<(K, V), A>,
) -> Result<Result<Vec<u8, A>, NotBuilt>, AllocError>
    requires { IsWritableList (λ p. K.writable p.0 × V.writable p.1) pairs.items }
    ensures { IfOk result (λ built.
        IsMapMade unique K.enc V.enc K.eq K.cmp pairs.items (items_of built)) }
{
    if unique {
        return match Map::try_from_vec(pairs) {
            Ok(map) => Ok(Ok(bytes_of(alloc, &map)?)),
            Err(Error::DuplicateKey) => Ok(Err(NotBuilt::DuplicateKey)),
            Err(Error::DuplicateValue) => Ok(Err(NotBuilt::DuplicateValue)),
            Err(Error::Memory) => Err(AllocError),
        };
    }
    let map = dedup_map(alloc, pairs)?;
    Ok(Ok(bytes_of(alloc, &map)?))
}

/// The map of the pairs, where of equal keys the first pair stays.
fn dedup_map<K: Ord + Drop, V: Drop, A: Allocator + Copy>(
    alloc: A,
    pairs: Vec<(K, V), A>,
) -> Result<Map<K, V, A>, AllocError>
    ensures { IfOk result (IsDedup (on_keys K.eq) (on_keys K.cmp) pairs.items) }
{
    Map::from_iter_dedup(alloc, pairs)
}

/// The bytes of the bimap of the pairs that the input lists in any order, the keys and then the
/// values: equal keys are refused, and then equal values. The error is an allocation failure.
pub fn build_bimap<K, V, A: Allocator + Copy>(
    alloc: A,
    text: &[u8],
    cfg: &(RangeCfg<usize>, K::Cfg, V::Cfg),
) -> Result<Result<Vec<u8, A>, NotBuilt>, AllocError>
where
    K: Ord + Read<A> + Write<A> + Drop,
    V: Eq + Hash + Read<A> + Write<A> + Drop,
    ensures built { let key = reading_by K.enc K.writable (K.allowed cfg.now.1)
        (K.fault cfg.now.1) (K.memory_free cfg.now.1) in
        let value = reading_by V.enc V.writable (V.allowed cfg.now.2)
        (V.fault cfg.now.2) (V.memory_free cfg.now.2) in IfOk result (λ built.
        IsBiMapBuilt cfg.now.0 key value K.eq K.cmp V.eq text.now (items_of built)) }
    ensures memory { let key = reading_by K.enc K.writable (K.allowed cfg.now.1)
        (K.fault cfg.now.1) (K.memory_free cfg.now.1) in
        let value = reading_by V.enc V.writable (V.allowed cfg.now.2)
        (V.fault cfg.now.2) (V.memory_free cfg.now.2) in IfErr result (λ _.
        MayFailToAllocateToBuild (columns_of cfg.now.0 key value) text.now) }
{
    match read_columns::<K, V, A>(alloc, text, cfg)? {
        Ok((keys, values)) => make_bimap(alloc, pairs_of(alloc, keys, values)?),
        Err(misread) => Ok(Err(NotBuilt::Unread(misread))),
    }
}

/// The bytes of the bimap of the pairs.
fn make_bimap<K: Ord + Write<A> + Drop, V: Eq + Hash + Write<A> + Drop, A: Allocator + Copy>(
    alloc: A,
    pairs: Vec<(K, V), A>,
) -> Result<Result<Vec<u8, A>, NotBuilt>, AllocError>
    requires { IsWritableList (λ p. K.writable p.0 × V.writable p.1) pairs.items }
    ensures { IfOk result (λ built.
        IsBiMapMade K.enc V.enc K.eq K.cmp V.eq pairs.items (items_of built)) }
{
    match BiMap::try_from_vec(pairs) {
        Ok(map) => Ok(Ok(bytes_of(alloc, &map)?)),
        Err(Error::DuplicateKey) => Ok(Err(NotBuilt::DuplicateKey)),
        Err(Error::DuplicateValue) => Ok(Err(NotBuilt::DuplicateValue)),
        Err(Error::Memory) => Err(AllocError),
    }
}
