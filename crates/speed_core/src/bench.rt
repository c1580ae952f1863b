//! The clock, and the lines that it fills.
ghost use Rattle.std.specs.Prelude.{◌≡◌, ◌*◌, ◌/◌, ◌≤◌};
ghost use Rattle.std.specs.Duration.{as_nanos};

use crate::error::Failure;
use program_io::{Watched, write_whole};
use std::alloc::Global;
use std::io::Write;
use std::time::{Clock, Duration, Instant};

/// The bytes of a block that is large to the C library.
const LARGE: usize = 65_536;

/// What every line is filled with: a heap, a clock, and where the lines go.
///
/// Two rounds over 10 entries that take a millisecond, with the check sum 20, write the line
/// `set_read 10 20 5000000`: the cost of an entry is in hundredths of a nanosecond.
#[derive(Drop)]
pub struct Bench<C: Clock, W: Write> {
    alloc: Global,
    /// The last large block that was allocated.
    large: Vec<u8>,
    clock: C,
    output: Watched<W>,
}

/// What a line is about.
///
/// `Work::new("set_read", 10, 2)` is what two rounds over 10 entries are.
#[derive(Clone, Copy)]
pub struct Work<'a> {
    /// The name of the call.
    pub name: &'a str,
    /// How many entries one round goes over.
    pub entries: usize,
    /// How many rounds there are.
    pub rounds: u64,
}

impl<'a> Work<'a> {
    /// The work of the call of this name.
    pub fn new(name: &'a str, entries: usize, rounds: u64) -> Self
        ensures name { result.name.now ≡ name.now }
        ensures size { (result.entries ≡ entries) × (result.rounds ≡ rounds) }
    {
        Work {
            name,
            entries,
            rounds,
        }
    }
}

impl<C: Clock, W: Write> Bench<C, W> {
    /// A bench with this heap, this clock and this output.
    pub fn new(alloc: Global, clock: C, output: W) -> Self {
        Bench {
            alloc,
            large: Vec::new(alloc),
            clock,
            output: Watched::new(output),
        }
    }

    /// The heap.
    pub fn alloc(&self) -> Global {
        self.alloc
    }

    /// Makes the call once a round and writes the line. It returns the check sum, which goes on
    /// from `sum` with what each call returns, modulo 2^64.
    ///
    /// A large block is allocated before the clock starts. At such a request the C library
    /// merges the small ones that were given back, as the nodes of a tree, whoever makes it.
    pub fn line<F: FnMut() -> Result<u64, Failure>>(
        &mut self,
        work: Work<'_>,
        sum: u64,
        call: F,
    ) -> Result<u64, Failure>
        requires { F.IsAlwaysCallable call }
    {
        self.large = Vec::with_capacity(self.alloc, LARGE)?;
        let (sum, elapsed) = timed(&self.clock, work.rounds, sum, call)?;
        self.write(work, sum, elapsed)?;
        Ok(sum)
    }

    /// The same of a call that changes nothing, and takes and returns the sum. Where each call
    /// goes on from what the one before returned, a compiler can't make one call for all.
    pub fn folded<F: FnMut(u64) -> Result<u64, Failure>>(
        &mut self,
        work: Work<'_>,
        sum: u64,
        call: F,
    ) -> Result<u64, Failure>
        requires { F.IsAlwaysCallable call }
    {
        self.large = Vec::with_capacity(self.alloc, LARGE)?;
        let (sum, elapsed) = timed_in_turn(&self.clock, work.rounds, sum, call)?;
        self.write(work, sum, elapsed)?;
        Ok(sum)
    }

    /// Writes the line of a work.
    fn write(&mut self, work: Work<'_>, sum: u64, elapsed: Duration) -> Result<(), Failure> {
        let cost = hundredths(elapsed, (work.entries as u128 * work.rounds as u128).max(1));
        let (name, entries) = (work.name, work.entries);
        let line = format!(in self.alloc; "{name} {entries} {sum} {cost}\n")?;
        Ok(write_whole(&mut self.output, line.as_bytes())?)
    }
}

/// The check sum after `rounds` calls, and how long they took.
fn timed<C: Clock, F: FnMut() -> Result<u64, Failure>>(
    clock: &C,
    rounds: u64,
    sum: u64,
    mut call: F,
) -> Result<(u64, Duration), Failure>
    requires { F.IsAlwaysCallable call }
{
    let mut sum = sum;
    let Ok(start) = Instant::now(clock) else {
        return Err(Failure::Clock);
    };
    for _ in 0..rounds {
        sum = sum.wrapping_add(call()?);
    }
    match start.elapsed(clock) {
        Ok(elapsed) => Ok((sum, elapsed)),
        Err(_) => Err(Failure::Clock),
    }
}

/// The check sum after calls that each go on from it, and how long they took.
fn timed_in_turn<C: Clock, F: FnMut(u64) -> Result<u64, Failure>>(
    clock: &C,
    rounds: u64,
    sum: u64,
    mut call: F,
) -> Result<(u64, Duration), Failure>
    requires { F.IsAlwaysCallable call }
{
    let mut sum = sum;
    let Ok(start) = Instant::now(clock) else {
        return Err(Failure::Clock);
    };
    for _ in 0..rounds {
        sum = call(sum)?;
    }
    match start.elapsed(clock) {
        Ok(elapsed) => Ok((sum, elapsed)),
        Err(_) => Err(Failure::Clock),
    }
}

/// The hundredths of a nanosecond that each of the entries took, rounded down.
pub(crate) fn hundredths(elapsed: Duration, entries: u128) -> u128
    requires { 1 ≤ entries }
    ensures { result ≡ as_nanos elapsed * 100 / entries }
{
    let nanos = elapsed.as_secs() as u128 * 1_000_000_000 + elapsed.subsec_nanos() as u128;
    nanos * 100 / entries
}
