//! Bimaps of numbers and numbers.

use crate::bench::{Bench, Work};
use crate::calls::built::count_built;
use crate::error::Failure;
use crate::numbers::random;
use commonware_utils::TryFromIterator;
use commonware_utils::ordered::{BiMap, Error};
use std::alloc::Global;
use std::io::Write;
use std::time::Clock;

/// The lines of bimaps in which each of `count` random numbers has itself as its value.
pub fn time_bimaps<C: Clock, W: Write>(
    bench: &mut Bench<C, W>,
    count: u32,
    rounds: u64,
) -> Result<(), Failure> {
    let alloc = bench.alloc();
    let numbers = random(alloc, count)?;
    let work = Work::new("bimap_try_iter", count as usize, rounds);
    bench.line(work, 0, || {
        count_built(bimap_of(alloc, &numbers).map(|bimap| bimap.len()))
    })?;
    match bimap_of(alloc, &numbers) {
        Ok(bimap) => time_keys(bench, &bimap, &numbers, work),
        Err(Error::Memory) => Err(Failure::Memory),
        Err(_) => Ok(()),
    }
}

/// The bimap in which each of the numbers has itself as its value.
fn bimap_of(alloc: Global, numbers: &[u32]) -> Result<BiMap<u32, u32, Global>, Error> {
    BiMap::try_from_iter(alloc, numbers.iter().map(|number| (*number, *number)))
}

/// The line of the key of each value looked up, for which all values are compared.
fn time_keys<C: Clock, W: Write>(
    bench: &mut Bench<C, W>,
    bimap: &BiMap<u32, u32, Global>,
    values: &[u32],
    work: Work<'_>,
) -> Result<(), Failure> {
    let work = Work {
        name: "bimap_get_key",
        ..work
    };
    bench.folded(work, 0, |sum| Ok(sum_of_keys(bimap, values, sum)))?;
    Ok(())
}

/// The sum with the keys of the values, modulo 2^64, where one that has none counts 1.
fn sum_of_keys(bimap: &BiMap<u32, u32, Global>, values: &[u32], sum: u64) -> u64 {
    let mut sum = sum;
    for value in values {
        let key = match bimap.get_key(value) {
            Some(key) => u64::from(*key),
            None => 1,
        };
        sum = sum.wrapping_add(key);
    }
    sum
}
