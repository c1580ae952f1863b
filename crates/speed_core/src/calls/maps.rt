//! Maps of numbers to numbers.

use crate::bench::{Bench, Work};
use crate::calls::codec::{read, written};
use crate::error::Failure;
use commonware_utils::codec::RangeCfg;
use commonware_utils::ordered::Map;
use std::alloc::{AllocError, Global};
use std::io::Write;
use std::time::Clock;

/// The lines of maps in which each number of a list has itself as its value.
pub(crate) fn time_maps<C: Clock, W: Write>(
    bench: &mut Bench<C, W>,
    numbers: &[u32],
    rounds: u64,
) -> Result<(), Failure> {
    let alloc = bench.alloc();
    let work = Work::new("map_dedup", numbers.len(), rounds);
    let sum = bench.line(work, 0, || Ok(map_of(alloc, numbers)?.len() as u64))?;
    let map = map_of(alloc, numbers)?;
    let sum = time_lookups(bench, &map, numbers, sum, rounds)?;
    time_read(bench, &map, work, sum)?;
    time_values(bench, &map, rounds)?;
    time_walks(bench, &map, rounds)
}

/// The map in which each of the numbers has itself as its value.
fn map_of(alloc: Global, numbers: &[u32]) -> Result<Map<u32, u32, Global>, AllocError> {
    Map::from_iter_dedup(alloc, numbers.iter().map(|number| (*number, *number)))
}

/// The line of the value of each number looked up. It returns the check sum.
fn time_lookups<C: Clock, W: Write>(
    bench: &mut Bench<C, W>,
    map: &Map<u32, u32, Global>,
    numbers: &[u32],
    sum: u64,
    rounds: u64,
) -> Result<u64, Failure> {
    let work = Work::new("map_get_value", numbers.len(), rounds);
    bench.folded(work, sum, |sum| Ok(sum_of_values(map, numbers, sum)))
}

/// The sum with the values of the numbers, modulo 2^64, where one that has none counts 1.
///
/// It is a function of its own, so that it shares no registers with the lines around it.
#[inline(never)]
fn sum_of_values(map: &Map<u32, u32, Global>, numbers: &[u32], sum: u64) -> u64 {
    let mut sum = sum;
    for number in numbers {
        let value = match map.get_value(number) {
            Some(value) => u64::from(*value),
            None => 1,
        };
        sum = sum.wrapping_add(value);
    }
    sum
}

/// The line of the map read.
fn time_read<C: Clock, W: Write>(
    bench: &mut Bench<C, W>,
    map: &Map<u32, u32, Global>,
    work: Work<'_>,
    sum: u64,
) -> Result<(), Failure> {
    let alloc = bench.alloc();
    let bytes = written(alloc, map)?;
    let work = Work {
        name: "map_read",
        ..work
    };
    bench.line(work, sum, || count_read(alloc, &bytes))?;
    Ok(())
}

/// How many pairs the map at the start of the bytes has, or 1 where they are refused.
fn count_read(alloc: Global, bytes: &[u8]) -> Result<u64, Failure> {
    let limits = (RangeCfg::from(..), (), ());
    match read::<Map<u32, u32, Global>>(alloc, bytes, &limits)? {
        Some(map) => Ok(map.len() as u64),
        None => Ok(1),
    }
}

/// The line of the map with other values, which a closure makes.
fn time_values<C: Clock, W: Write>(
    bench: &mut Bench<C, W>,
    map: &Map<u32, u32, Global>,
    rounds: u64,
) -> Result<(), Failure> {
    let work = Work::new("value_map", map.len(), rounds);
    bench.line(work, 0, || {
        let other = map.map_values(|_, value| value.wrapping_add(1))?;
        Ok(other.len() as u64)
    })?;
    Ok(())
}

/// The line of the pairs of maps that are given up, one a round.
fn time_walks<C: Clock, W: Write>(
    bench: &mut Bench<C, W>,
    map: &Map<u32, u32, Global>,
    rounds: u64,
) -> Result<(), Failure> {
    let mut maps = Vec::new(bench.alloc());
    for _ in 0..rounds {
        maps.push(map.clone()?)?;
    }
    let work = Work::new("map_into_iter", map.len(), rounds);
    bench.line(work, 0, || match maps.pop() {
        Some(map) => Ok(sum_of_pairs(map)),
        None => Ok(0),
    })?;
    Ok(())
}

/// The sum of the keys and the values, modulo 2^64.
fn sum_of_pairs(map: Map<u32, u32, Global>) -> u64 {
    let mut sum = 0u64;
    for (key, value) in map {
        sum = sum
            .wrapping_add(u64::from(key))
            .wrapping_add(u64::from(value));
    }
    sum
}
