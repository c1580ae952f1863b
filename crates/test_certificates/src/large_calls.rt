//! What is done with collections of each small number of entries, and of 70,000, more than every
//! buffer and every first room of the library: with ample memory each call succeeds.
use crate::large_inputs::{COUNT, EACH, are_all, are_at, pairs};
use committee_certificates::Certificate;
use commonware_utils::codec::{RangeCfg, Read, Source, Write};
use commonware_utils::ordered::{BiMap, Map, MapError, Set};
use commonware_utils::vec::{Bounded, NonEmptyVec};
use commonware_utils::{Participant, TryFromIterator, vec};
use std::alloc::Global;
use std::num::NonZeroUsize;
use std::process::Abort;

/// Whether a value is written, and read back equal.
fn comes_back<T: Read<Global> + Write<Global> + PartialEq + Drop>(
    alloc: Global,
    value: &T,
    cfg: &T::Cfg,
) -> bool {
    let mut bytes = Vec::new(alloc);
    if !value.is_writable() || value.write(&mut bytes).is_err() {
        return false;
    }
    is_read(alloc, &bytes, value, cfg)
}

/// Whether the bytes are read to their end, as this value.
fn is_read<T: Read<Global> + PartialEq + Drop>(
    alloc: Global,
    bytes: &[u8],
    value: &T,
    cfg: &T::Cfg,
) -> bool {
    let mut src = Source::new(bytes);
    match T::read_cfg(alloc, &mut src, cfg) {
        Ok(again) => again == *value && src.remaining() == 0,
        Err(_) => false,
    }
}

/// Whether the set of these keys is made in other ways, cloned, and read back.
fn are_a_set(rt: &impl Abort, alloc: Global, keys: &[u32], count: u32) -> bool {
    let set = Set::try_from_slice(alloc, keys).expect(rt, "a set");
    let list = Vec::from_slice(alloc, keys).expect(rt, "memory");
    let taken = Set::try_from_vec(list).expect(rt, "a set");
    let cloned = set.clone().expect(rt, "memory");
    are_all(taken.as_slice(), count)
        && are_all(cloned.as_slice(), count)
        && comes_back(alloc, &set, &(RangeCfg::from(..), ()))
}

/// Whether the map of these pairs is made in other ways, cloned, and read back.
fn are_a_map(rt: &impl Abort, alloc: Global, pairs: &[(u32, u32)]) -> bool {
    let map = Map::try_from_slice(alloc, pairs).expect(rt, "a map");
    let cloned = map.clone().expect(rt, "memory");
    let cloned = cloned.into_pairs().expect(rt, "memory");
    cloned.len() == pairs.len() && comes_back(alloc, &map, &(RangeCfg::from(..), (), ()))
}

/// Whether the bimap of these pairs is cloned and read back.
fn are_a_bimap(rt: &impl Abort, alloc: Global, pairs: &[(u32, u32)]) -> bool {
    let bimap = BiMap::try_from_iter(alloc, pairs.iter().copied()).expect(rt, "a bimap");
    let cloned = bimap.clone().expect(rt, "memory");
    let cloned = cloned.into_pairs().expect(rt, "memory");
    cloned.len() == pairs.len() && comes_back(alloc, &bimap, &(RangeCfg::from(..), (), ()))
}

#[test]
fn entries_are_cloned_and_read_back(rt: HostRuntime) {
    let alloc = rt.alloc();
    for count in (0..=EACH).chain([5_000, COUNT]) {
        let pairs = pairs(alloc, count).expect(&rt, "memory");
        let keys = pairs.iter().map(|pair| pair.0);
        let keys: Vec<u32> = keys.collect(alloc).expect(&rt, "memory");
        assert!(rt; are_a_set(&rt, alloc, &keys, count), "{count}");
        assert!(rt; are_a_map(&rt, alloc, &pairs), "{count}");
        assert!(rt; are_a_bimap(&rt, alloc, &pairs), "{count}");
    }
}

/// Whether a certificate of a value of this length and as many signers is cloned and read back.
fn is_certified(rt: &impl Abort, alloc: Global, length: u32, count: u32) -> bool {
    let value = (0..length).map(|number| (number % 251) as u8);
    let value = value.collect(alloc).expect(rt, "memory");
    let signers = Set::from_iter_dedup(alloc, (0..count).map(Participant::new));
    let signers = signers.expect(rt, "memory");
    let certificate = Certificate { value, signers };
    let cloned = certificate.clone().expect(rt, "memory");
    let all = RangeCfg::from(..);
    cloned == certificate && comes_back(alloc, &certificate, &(all, all))
}

#[test]
fn certificates_are_cloned_and_read_back(rt: HostRuntime) {
    for count in (0..=EACH).chain([5_000, COUNT]) {
        for (length, signers) in [(0, count), (count, 4), (count, count)] {
            let certified = is_certified(&rt, rt.alloc(), length, signers);
            assert!(rt; certified, "{length} {signers}");
        }
    }
}

/// Whether the value maps that borrow the map are right, where each value is the position of its
/// key.
fn are_mapped(map: &Map<u32, u32, Global>, count: u32) -> Result<bool, MapError<u32>> {
    let keys = map.keys().as_slice();
    let mapped = map.map_values(|_, value| *value)?;
    let tried = map.try_map_values(|_, value| Ok(*value))?;
    Ok(are_at(keys, mapped.values(), count) && are_at(keys, tried.values(), count))
}

/// The same of those that consume the map.
fn are_mapped_into(map: Map<u32, u32, Global>, count: u32) -> Result<bool, MapError<u32>> {
    let taken = map.map_values_into(|_, value| value)?;
    let keys = taken.keys().clone()?;
    let last = taken.try_map_values_into(|_, value| Ok(value))?;
    Ok(are_at(keys.as_slice(), last.values(), count))
}

#[test]
fn values_are_mapped(rt: HostRuntime) {
    for count in (0..=EACH).chain([5_000, COUNT]) {
        let pairs = pairs(rt.alloc(), count).expect(&rt, "memory");
        let map = Map::try_from_vec(pairs).expect(&rt, "memory");
        assert!(rt; are_mapped(&map, count) == Ok(true), "{count}");
        assert!(rt; are_mapped_into(map, count) == Ok(true), "{count}");
    }
}

/// Whether a list of this many items is made, and gets longer in each way.
fn gets_longer(alloc: Global, count: u32) -> Result<bool, vec::Error> {
    let list = NonEmptyVec::try_from_iter(alloc, 0..count)?;
    let same = list.map(|item| *item)?;
    let mut longer = list.map_into(|item| item)?;
    Ok(are_all(same.as_slice(), count) && is_made_longer(&mut longer, count)?)
}

/// Whether a list of this many items gets longer in each way.
fn is_made_longer(list: &mut NonEmptyVec<u32, Global>, count: u32) -> Result<bool, vec::Error> {
    list.extend(0..count)?;
    let Some(third) = NonZeroUsize::new(3 * count as usize) else {
        return Ok(false);
    };
    list.resize(third, 7)?;
    let Some(fourth) = NonZeroUsize::new(4 * count as usize) else {
        return Ok(false);
    };
    list.resize_with(fourth, || 8)?;
    Ok(list.len() == fourth && *list.last() == 8)
}

#[test]
fn lists_get_longer(rt: HostRuntime) {
    for count in (1..=EACH).chain([5_000, COUNT]) {
        assert!(rt; gets_longer(rt.alloc(), count) == Ok(true), "{count}");
    }
}

/// Whether a queue of this capacity takes as many, and then gives up the first for each that comes.
fn is_full_at_its_capacity(alloc: Global, count: u32) -> bool {
    let Some(capacity) = NonZeroUsize::new(count as usize) else {
        return false;
    };
    let mut queue = Bounded::new(alloc, capacity);
    for item in 0..count {
        if queue.push(item) != Ok(None) {
            return false;
        }
    }
    queue.push(count) == Ok(Some(0)) && queue.len() == count as usize
}

#[test]
fn full_queues_give_up_the_first(rt: HostRuntime) {
    for count in (1..=EACH).chain([5_000, COUNT]) {
        assert!(rt; is_full_at_its_capacity(rt.alloc(), count), "{count}");
    }
}
