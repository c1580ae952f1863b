//! All lines, size by size.

use crate::bench::Bench;
use crate::calls::bimaps::time_bimaps;
use crate::calls::bytes::time_bytes;
use crate::calls::certificates::time_committees;
use crate::calls::lists::time_lists;
use crate::calls::maps::time_maps;
use crate::calls::sets::time_sets;
use crate::calls::wide::time_wide;
use crate::error::Failure;
use crate::numbers::random;
use crate::timer::Timer;
use std::io::Write;
use std::time::Clock;

/// How many entries one round goes over, and how many rounds there are.
const SIZES: [(u32, u64); 4] = [(10, 100_000), (1_000, 1_000), (100_000, 10), (1_000_000, 1)];

/// How many entries one round of a bimap goes over, and how many rounds there are.
const BIMAPS: [(u32, u64); 3] = [(100, 1_000), (1_000, 30), (10_000, 1)];

/// The calls of the collections, with committees, certificates and wide items.
///
/// Up to a size of 10 they are 27, a line each, the first of which is `set_dedup_random`.
pub struct Calls;

impl Timer for Calls {
    fn time_sizes<C: Clock, W: Write>(
        bench: &mut Bench<C, W>,
        greatest: u32,
    ) -> Result<(), Failure> {
        for (size, rounds) in SIZES {
            if size <= greatest {
                time_size(bench, size, rounds)?;
            }
        }
        time_bimap_sizes(bench, greatest)
    }
}

/// The lines of bimaps of every size that is at most the greatest.
fn time_bimap_sizes<C: Clock, W: Write>(
    bench: &mut Bench<C, W>,
    greatest: u32,
) -> Result<(), Failure> {
    for (size, rounds) in BIMAPS {
        if size <= greatest {
            time_bimaps(bench, size, rounds)?;
        }
    }
    Ok(())
}

/// The lines of a size, but for those of bimaps.
pub fn time_size<C: Clock, W: Write>(
    bench: &mut Bench<C, W>,
    size: u32,
    rounds: u64,
) -> Result<(), Failure> {
    let numbers = random(bench.alloc(), size)?;
    // Kept to the end, as `time_sets` says.
    let _kept = time_sets(bench, &numbers, rounds)?;
    time_bytes(bench, size, rounds)?;
    time_maps(bench, &numbers, rounds)?;
    time_lists(bench, &numbers, rounds)?;
    time_committees(bench, &numbers, rounds)?;
    time_wide(bench, &numbers, rounds)
}
