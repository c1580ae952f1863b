//! Whose calls are timed.

use crate::bench::Bench;
use crate::error::Failure;
use std::io::Write;
use std::time::Clock;

/// The calls that a session times.
///
/// For the word `10` the greatest size is 10. One round of a call `greatest` over 10 entries, which
/// takes a millisecond and returns 10, writes the line `greatest 10 10 10000000`.
pub trait Timer {
    /// The lines of every size that is at most the greatest.
    fn time_sizes<C: Clock, W: Write>(
        bench: &mut Bench<C, W>,
        greatest: u32,
    ) -> Result<(), Failure>;
}
