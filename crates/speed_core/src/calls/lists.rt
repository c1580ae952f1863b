//! Non-empty lists.

use crate::bench::{Bench, Work};
use crate::calls::codec::{read, written};
use crate::error::Failure;
use commonware_utils::codec::RangeCfg;
use commonware_utils::vec::{Error, NonEmptyVec};
use std::alloc::Global;
use std::io::Write;
use std::time::Clock;

/// The lines of the list of the numbers, of which there is one at least, read and mapped.
pub(crate) fn time_lists<C: Clock, W: Write>(
    bench: &mut Bench<C, W>,
    numbers: &[u32],
    rounds: u64,
) -> Result<(), Failure> {
    match NonEmptyVec::try_from_slice(bench.alloc(), numbers) {
        Ok(list) => {
            time_read(bench, &list, rounds)?;
            time_maps(bench, &list, rounds)
        }
        Err(Error::Memory) => Err(Failure::Memory),
        Err(Error::Empty) => Ok(()),
    }
}

/// The line of the list read.
fn time_read<C: Clock, W: Write>(
    bench: &mut Bench<C, W>,
    list: &NonEmptyVec<u32, Global>,
    rounds: u64,
) -> Result<(), Failure> {
    let alloc = bench.alloc();
    let bytes = written(alloc, list)?;
    let work = Work::new("non_empty_read", list.len().get(), rounds);
    bench.line(work, 0, || count_read(alloc, &bytes))?;
    Ok(())
}

/// How many numbers the list at the start of the bytes has, or 1 where they are refused.
fn count_read(alloc: Global, bytes: &[u8]) -> Result<u64, Failure> {
    let limits = (RangeCfg::from(..), ());
    match read::<NonEmptyVec<u32, Global>>(alloc, bytes, &limits)? {
        Some(list) => Ok(list.len().get() as u64),
        None => Ok(1),
    }
}

/// The line of the list of other numbers, which a closure makes.
fn time_maps<C: Clock, W: Write>(
    bench: &mut Bench<C, W>,
    list: &NonEmptyVec<u32, Global>,
    rounds: u64,
) -> Result<(), Failure> {
    let work = Work::new("non_empty_map", list.len().get(), rounds);
    bench.line(
        work,
        0,
        || match list.map(|number| number.wrapping_add(1)) {
            Ok(other) => Ok(other.len().get() as u64),
            Err(_) => Err(Failure::Memory),
        },
    )?;
    Ok(())
}
