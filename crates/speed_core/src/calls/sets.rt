//! Sets of numbers.

use crate::bench::{Bench, Work};
use crate::calls::built::count_built;
use crate::calls::codec::{read, written};
use crate::error::Failure;
use crate::numbers::rising;
use commonware_utils::codec::RangeCfg;
use commonware_utils::ordered::Set;
use std::alloc::{AllocError, Global};
use std::hash::{DefaultHasher, Hash, Hasher};
use std::io::Write;
use std::time::Clock;

/// What the lines of sets go over.
#[derive(Drop)]
pub(crate) struct Timed {
    rising: Vec<u32>,
    same: Vec<u32>,
    set: Set<u32, Global>,
    bytes: Vec<u8>,
}

impl Timed {
    /// Rising numbers, equal ones, and the set of the random ones with its bytes.
    fn new(alloc: Global, random: &[u32]) -> Result<Self, AllocError> {
        let count = random.len();
        let rising = rising(alloc, count.min(u32::MAX as usize) as u32)?;
        let same = vec![in alloc; 5u32; count]?;
        let set = set_of(alloc, random)?;
        let bytes = written(alloc, &set)?;
        Ok(Timed {
            rising,
            same,
            set,
            bytes,
        })
    }
}

/// The lines of sets that are built of random numbers, of rising ones and of equal ones, and those
/// of the set of the random ones.
///
/// The result is to be kept while the other lines are timed. The C library gives large blocks that
/// nobody holds back to the kernel, and the next line would be counted the new pages.
pub(crate) fn time_sets<C: Clock, W: Write>(
    bench: &mut Bench<C, W>,
    random: &[u32],
    rounds: u64,
) -> Result<Timed, Failure> {
    let timed = Timed::new(bench.alloc(), random)?;
    time_builders(bench, random, &timed, rounds)?;
    time_lookups(bench, &timed.set, random, rounds)?;
    time_codec(bench, &timed, rounds)?;
    time_clones(bench, &timed.set, rounds)?;
    time_hashes(bench, &timed.set, rounds)?;
    Ok(timed)
}

/// The set of the numbers.
pub(crate) fn set_of(alloc: Global, numbers: &[u32]) -> Result<Set<u32, Global>, AllocError> {
    Set::from_iter_dedup(alloc, numbers.iter().copied())
}

/// The lines of the builders.
fn time_builders<C: Clock, W: Write>(
    bench: &mut Bench<C, W>,
    random: &[u32],
    timed: &Timed,
    rounds: u64,
) -> Result<(), Failure> {
    time_dedup(bench, "set_dedup_random", random, rounds)?;
    time_dedup(bench, "set_dedup_rising", &timed.rising, rounds)?;
    time_dedup(bench, "set_dedup_same", &timed.same, rounds)?;
    time_try_vec(bench, "set_try_vec_rising", &timed.rising, rounds)?;
    time_try_vec(bench, "set_try_vec_random", random, rounds)
}

/// The line of sets of which equal numbers are left out.
fn time_dedup<C: Clock, W: Write>(
    bench: &mut Bench<C, W>,
    name: &str,
    numbers: &[u32],
    rounds: u64,
) -> Result<(), Failure> {
    let alloc = bench.alloc();
    let work = Work::new(name, numbers.len(), rounds);
    bench.line(work, 0, || Ok(set_of(alloc, numbers)?.len() as u64))?;
    Ok(())
}

/// The line of sets that are refused for equal numbers, each of a list that is copied.
fn time_try_vec<C: Clock, W: Write>(
    bench: &mut Bench<C, W>,
    name: &str,
    numbers: &[u32],
    rounds: u64,
) -> Result<(), Failure> {
    let alloc = bench.alloc();
    let work = Work::new(name, numbers.len(), rounds);
    bench.line(work, 0, || {
        let copy = Vec::from_slice(alloc, numbers)?;
        count_built(Set::try_from_vec(copy).map(|set| set.len()))
    })?;
    Ok(())
}

/// The line of each number looked up.
fn time_lookups<C: Clock, W: Write>(
    bench: &mut Bench<C, W>,
    set: &Set<u32, Global>,
    numbers: &[u32],
    rounds: u64,
) -> Result<(), Failure> {
    let work = Work::new("set_position", numbers.len(), rounds);
    bench.folded(work, 0, |sum| Ok(sum_of_places(set, numbers, sum)))?;
    Ok(())
}

/// The sum with the places of the numbers, modulo 2^64, where one that has none counts 1.
///
/// It is a function of its own, so that it shares no registers with the lines around it.
#[inline(never)]
fn sum_of_places(set: &Set<u32, Global>, numbers: &[u32], sum: u64) -> u64 {
    let mut sum = sum;
    for number in numbers {
        let place = match set.position(number) {
            Some(place) => place as u64,
            None => 1,
        };
        sum = sum.wrapping_add(place);
    }
    sum
}

/// The lines of the set written and read.
fn time_codec<C: Clock, W: Write>(
    bench: &mut Bench<C, W>,
    timed: &Timed,
    rounds: u64,
) -> Result<(), Failure> {
    let alloc = bench.alloc();
    let entries = timed.set.len();
    let work = Work::new("set_write", entries, rounds);
    bench.line(work, 0, || Ok(written(alloc, &timed.set)?.len() as u64))?;
    let work = Work::new("set_read", entries, rounds);
    bench.line(work, 0, || count_read(alloc, &timed.bytes))?;
    Ok(())
}

/// How many numbers the set at the start of the bytes has, or 1 where they are refused.
fn count_read(alloc: Global, bytes: &[u8]) -> Result<u64, Failure> {
    let limits = (RangeCfg::from(..), ());
    match read::<Set<u32, Global>>(alloc, bytes, &limits)? {
        Some(set) => Ok(set.len() as u64),
        None => Ok(1),
    }
}

/// The lines of the set cloned, and compared with its clone.
fn time_clones<C: Clock, W: Write>(
    bench: &mut Bench<C, W>,
    set: &Set<u32, Global>,
    rounds: u64,
) -> Result<(), Failure> {
    let entries = set.len();
    let work = Work::new("set_clone", entries, rounds);
    bench.line(work, 0, || Ok(set.clone()?.len() as u64))?;
    let other = set.clone()?;
    let work = Work::new("set_equal", entries, rounds);
    bench.folded(work, 0, |sum| {
        // By turns with the clone and with itself.
        let beside = if sum % 2 == 0 { &other } else { set };
        Ok(sum.wrapping_add(u64::from(*set == *beside)))
    })?;
    Ok(())
}

/// The line of the set hashed.
fn time_hashes<C: Clock, W: Write>(
    bench: &mut Bench<C, W>,
    set: &Set<u32, Global>,
    rounds: u64,
) -> Result<(), Failure> {
    let work = Work::new("set_hash", set.len(), rounds);
    bench.line(work, 0, || {
        let mut hasher = DefaultHasher::new();
        set.hash(&mut hasher);
        Ok(hasher.finish())
    })?;
    Ok(())
}
