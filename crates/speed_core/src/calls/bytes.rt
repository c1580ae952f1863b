//! Lists of bytes, written and read.

use crate::bench::{Bench, Work};
use crate::calls::codec::{read, written};
use crate::error::Failure;
use commonware_utils::codec::RangeCfg;
use std::alloc::{AllocError, Global};
use std::io::Write;
use std::time::Clock;

/// The lines of a list of `entries` bytes written and read.
pub(crate) fn time_bytes<C: Clock, W: Write>(
    bench: &mut Bench<C, W>,
    entries: u32,
    rounds: u64,
) -> Result<(), Failure> {
    let alloc = bench.alloc();
    let list = bytes(alloc, entries)?;
    let work = Work::new("bytes_write", entries as usize, rounds);
    let sum = bench.line(work, 0, || Ok(written(alloc, &list)?.len() as u64))?;
    let text = written(alloc, &list)?;
    let work = Work {
        name: "bytes_read",
        ..work
    };
    bench.line(work, sum, || count_read(alloc, &text))?;
    Ok(())
}

/// Returns this number of bytes, which count from 0 modulo 256.
fn bytes(alloc: Global, count: u32) -> Result<Vec<u8>, AllocError> {
    (0..count).map(|index| (index % 256) as u8).collect(alloc)
}

/// How many bytes the list at the start of the input has, or 1 where it is refused.
fn count_read(alloc: Global, text: &[u8]) -> Result<u64, Failure> {
    let limits = (RangeCfg::from(..), ());
    match read::<Vec<u8>>(alloc, text, &limits)? {
        Some(list) => Ok(list.len() as u64),
        None => Ok(1),
    }
}
