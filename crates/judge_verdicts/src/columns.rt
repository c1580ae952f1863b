//! An input that lists keys and then as many values, in any order.
ghost use Rattle.std.specs.Prelude.{◌≡◌, IfErr, IfOk, MatchResult, zip};
ghost use Rattle.commonware_utils.specs.Codec.{Accepts, IsListMemoryFree, Refuses, rest_of};
ghost use Rattle.judge_verdicts.specs.Columns.{columns_of};
ghost use Rattle.judge_verdicts.specs.Readings.{reading_by};
ghost use Rattle.judge_verdicts.specs.Whole.{IsMisread, IsWhole};

use crate::whole::Misread;
use commonware_base::codec::{Error, RangeCfg, Read, Source, read_list};
use std::alloc::{AllocError, Allocator};

/// The keys and the values that the input lists, or why it lists none. The error is an allocation
/// failure, and comes only where the reading isn't memory-free.
pub(crate) fn read_columns<K: Read<A> + Drop, V: Read<A> + Drop, A: Allocator + Copy>(
    alloc: A,
    text: &[u8],
    cfg: &(RangeCfg<usize>, K::Cfg, V::Cfg),
) -> Result<Result<(Vec<K, A>, Vec<V, A>), Misread>, AllocError>
    ensures read { let key = reading_by K.enc K.writable (K.allowed cfg.now.1)
        (K.fault cfg.now.1) (K.memory_free cfg.now.1) in
        let value = reading_by V.enc V.writable (V.allowed cfg.now.2)
        (V.fault cfg.now.2) (V.memory_free cfg.now.2) in IfOk result (λ read. MatchResult read
        (λ columns. IsWhole (columns_of cfg.now.0 key value) text.now
        (columns.0.items, columns.1.items))
        (IsMisread (columns_of cfg.now.0 key value) text.now)) }
    ensures memory { IfErr result (λ _.
        ¬ IsListMemoryFree (K.fault cfg.now.1) (K.memory_free cfg.now.1) cfg.now.0 text.now) }
{
    let mut source = Source::new(text);
    match next_columns::<K, V, A>(alloc, &mut source, cfg) {
        Ok(columns) => match source.remaining() {
            0 => Ok(Ok(columns)),
            left => Ok(Err(Misread::LeftOver(left))),
        },
        Err(Error::Memory) => Err(AllocError),
        Err(fault) => Ok(Err(Misread::Fault(fault))),
    }
}

/// The keys and then the values that come next, or the first fault; `Memory` only where the reading
/// isn't memory-free.
fn next_columns<K: Read<A> + Drop, V: Read<A> + Drop, A: Allocator + Copy>(
    alloc: A,
    source: &mut Source<'_>,
    cfg: &(RangeCfg<usize>, K::Cfg, V::Cfg),
) -> Result<(Vec<K, A>, Vec<V, A>), Error>
    ensures accepted { let key = reading_by K.enc K.writable (K.allowed cfg.now.1)
        (K.fault cfg.now.1) (K.memory_free cfg.now.1) in
        let value = reading_by V.enc V.writable (V.allowed cfg.now.2)
        (V.fault cfg.now.2) (V.memory_free cfg.now.2) in
        let columns = columns_of cfg.now.0 key value in
        IfOk result (λ read. Accepts columns.enc columns.Writable columns.Allowed
        (rest_of source.old) (read.0.items, read.1.items) (rest_of source.new)) }
    ensures refused { let key = reading_by K.enc K.writable (K.allowed cfg.now.1)
        (K.fault cfg.now.1) (K.memory_free cfg.now.1) in
        let value = reading_by V.enc V.writable (V.allowed cfg.now.2)
        (V.fault cfg.now.2) (V.memory_free cfg.now.2) in
        let columns = columns_of cfg.now.0 key value in
        IfErr result (Refuses (columns.HasFault (rest_of source.old))
        (columns.MemoryFree (rest_of source.old))) }
{
    let keys = read_list::<K, A>(alloc, source, cfg.0, &cfg.1)?;
    let values = read_list::<V, A>(alloc, source, RangeCfg::exact(keys.len()), &cfg.2)?;
    Ok((keys, values))
}

/// The keys, each with the value at its position.
pub(crate) fn pairs_of<K: Drop, V: Drop, A: Allocator + Copy>(
    alloc: A,
    keys: Vec<K, A>,
    values: Vec<V, A>,
) -> Result<Vec<(K, V), A>, AllocError>
    ensures { IfOk result (λ pairs. pairs.items ≡ zip keys.items values.items) }
{
    let mut pairs = Vec::with_capacity(alloc, keys.len())?;
    for (key, value) in keys.into_iter().zip(values) {
        pairs.push((key, value))?;
    }
    Ok(pairs)
}
