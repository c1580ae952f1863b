//! Weights of 70,000 keys, taken from a map and read behind a prefix, with ample memory.
use committee_weights::{ReadWeightsError, Weights, read_weights};
use commonware_base::codec::{EncodeSize, RangeCfg, Source, Write};
use commonware_map::Map;
use commonware_sequence::U64;
use std::alloc::Global;

/// How many keys there are.
const COUNT: u32 = 70_000;

/// How many bytes stand before the encoding of a map.
const PREFIX: usize = 100_000;

/// The keys 0, 3, 6 and so on with the weights 1, 2, 3 and so on, given in an order that is neither
/// that of the keys nor its reverse: 27,449 is prime and no divisor of the count.
fn stakes(alloc: Global) -> Option<Map<u32, U64, Global>> {
    let pairs = (0..COUNT).map(|position| {
        let index = (u64::from(position) * 27_449 % u64::from(COUNT)) as u32;
        (index * 3, U64::new(u64::from(index) + 1))
    });
    Map::from_iter_dedup(alloc, pairs).ok()
}

/// Whether these are the weights 1, 2, 3 and so on: 2,450,035,000 in all.
fn are_counted(weights: &Weights<Global>) -> bool {
    let counted = (0..COUNT).map(|index| u64::from(index) + 1);
    weights.total() == 2_450_035_000 && weights.iter().copied().eq(counted)
}

#[test]
fn values_of_many_keys_are_weights(rt: HostRuntime) {
    let alloc = rt.alloc();
    let map = stakes(alloc).expect(&rt, "memory");
    let weights = Weights::from_map(alloc, &map).expect(&rt, "weights");
    assert!(rt; are_counted(&weights));
    let clone = weights.clone().expect(&rt, "memory");
    assert!(rt; clone == weights && are_counted(&clone));
}

/// The encoding of a map behind a prefix, with three bytes after it.
fn encoded(alloc: Global, map: &Map<u32, U64, Global>) -> Option<Vec<u8, Global>> {
    if !map.is_writable() {
        return None;
    }
    let mut bytes = vec![in alloc; 0x80; PREFIX].ok()?;
    map.write(&mut bytes).ok()?;
    bytes.extend_from_slice(&[1, 2, 3]).ok()?;
    Some(bytes)
}

/// What is read behind the prefix of these bytes, and how many bytes are left then.
fn read_behind(alloc: Global, bytes: &[u8]) -> (Result<bool, ReadWeightsError>, usize) {
    let mut source = Source::new(bytes);
    if source.remaining() < PREFIX {
        return (Ok(false), 0);
    }
    source.advance(PREFIX);
    let limits = (RangeCfg::from(..), (), ());
    let read = read_weights::<u32, Global>(alloc, &mut source, &limits);
    let counted = read.map(|read| are_counted(&read.1) && read.0.len() == read.1.len());
    (counted, source.remaining())
}

/// The length 70,000 takes three bytes and is written twice, a key four bytes, and a weight eight.
#[test]
fn many_keys_are_read_behind_a_prefix(rt: HostRuntime) {
    let alloc = rt.alloc();
    let map = stakes(alloc).expect(&rt, "memory");
    let bytes = encoded(alloc, &map).expect(&rt, "memory");
    assert!(rt; bytes.len() == 100_000 + 840_006 + 3);
    let (read, left) = read_behind(alloc, &bytes);
    assert!(rt; read == Ok(true) && left == 3);
}
