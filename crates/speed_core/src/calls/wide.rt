//! Sets of items of 32 and of 48 bytes.
ghost use Rattle.std.specs.Prelude.{◌≡◌, ◌-◌, ◌++◌, ◌≤◌, replicate};
ghost use Rattle.commonware_utils.specs.Codec.{word_bytes};

use crate::bench::{Bench, Work};
use crate::calls::codec::{read, written};
use crate::error::Failure;
use crate::numbers::wide_bytes;
use commonware_utils::codec::RangeCfg;
use commonware_utils::ordered::Set;
use commonware_utils::sequence::FixedBytes;
use std::alloc::{AllocError, Global};
use std::io::Write;
use std::time::Clock;

/// The lines of sets of items of 32 bytes, as hashes and keys of Ed25519 have, and of 48, as keys
/// of BLS12-381 in G1 have.
pub(crate) fn time_wide<C: Clock, W: Write>(
    bench: &mut Bench<C, W>,
    numbers: &[u32],
    rounds: u64,
) -> Result<(), Failure> {
    let alloc = bench.alloc();
    let items = items_of::<32>(alloc, numbers)?;
    let names = ("wide_dedup", "wide_write");
    let (set, bytes) = time_built(bench, names, &items, rounds)?;
    let work = Work::new("wide_read", set.len(), rounds);
    bench.line(work, 0, || count_read::<32>(alloc, &bytes))?;
    let work = Work::new("wide_position", items.len(), rounds);
    bench.folded(work, 0, |sum| Ok(sum_of_places(&set, &items, sum)))?;
    let items = items_of::<48>(alloc, numbers)?;
    let names = ("wide48_dedup", "wide48_write");
    let (set, bytes) = time_built(bench, names, &items, rounds)?;
    let work = Work::new("wide48_read", set.len(), rounds);
    bench.line(work, 0, || count_read::<48>(alloc, &bytes))?;
    let work = Work::new("wide48_position", items.len(), rounds);
    bench.folded(work, 0, |sum| Ok(sum_of_places(&set, &items, sum)))?;
    Ok(())
}

/// The lines of a set that is built of the items and written, by these names; and the set and its
/// bytes.
fn time_built<const N: usize, C: Clock, W: Write>(
    bench: &mut Bench<C, W>,
    names: (&'static str, &'static str),
    items: &[FixedBytes<N>],
    rounds: u64,
) -> Result<(Set<FixedBytes<N>, Global>, Vec<u8>), Failure> {
    let alloc = bench.alloc();
    let work = Work::new(names.0, items.len(), rounds);
    bench.line(work, 0, || Ok(set_of(alloc, items)?.len() as u64))?;
    let set = set_of(alloc, items)?;
    let bytes = written(alloc, &set)?;
    let work = Work::new(names.1, set.len(), rounds);
    bench.line(work, 0, || Ok(written(alloc, &set)?.len() as u64))?;
    Ok((set, bytes))
}

/// The items that begin with the numbers.
fn items_of<const N: usize>(
    alloc: Global,
    numbers: &[u32],
) -> Result<Vec<FixedBytes<N>>, AllocError>
    requires { 4 ≤ N }
{
    let mut items = Vec::new(alloc);
    for number in numbers {
        items.push(wide(*number))?;
    }
    Ok(items)
}

/// The item whose first four bytes are the number, the most significant first, and the rest zeros.
fn wide<const N: usize>(number: u32) -> FixedBytes<N>
    requires { 4 ≤ N }
    ensures { result ≡ word_bytes number ++ replicate (N - 4) 0 }
{
    FixedBytes::new(wide_bytes(number))
}

/// The set of the items.
fn set_of<const N: usize>(
    alloc: Global,
    items: &[FixedBytes<N>],
) -> Result<Set<FixedBytes<N>, Global>, AllocError> {
    Set::from_iter_dedup(alloc, items.iter().copied())
}

/// How many items the set at the start of the bytes has, or 1 where they are refused.
fn count_read<const N: usize>(alloc: Global, bytes: &[u8]) -> Result<u64, Failure>
    requires { N ≤ 96 }
{
    let limits = (RangeCfg::from(..), ());
    match read::<Set<FixedBytes<N>, Global>>(alloc, bytes, &limits)? {
        Some(set) => Ok(set.len() as u64),
        None => Ok(1),
    }
}

/// The sum with the places of the items, modulo 2^64, where one that has none counts 1.
fn sum_of_places<const N: usize>(
    set: &Set<FixedBytes<N>, Global>,
    items: &[FixedBytes<N>],
    sum: u64,
) -> u64 {
    let mut sum = sum;
    for item in items {
        let place = match set.position(item) {
            Some(place) => place as u64,
            None => 1,
        };
        sum = sum.wrapping_add(place);
    }
    sum
}
