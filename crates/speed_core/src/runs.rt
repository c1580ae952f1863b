//! What a command does.
ghost use Rattle.std.specs.Prelude.{◌≡◌, IfErr};

use crate::bench::Bench;
use crate::command::Command;
use crate::error::Failure;
use crate::timer::Timer;
use program_io::{Watched, write_whole};
use std::alloc::Global;
use std::io::Write;
use std::time::Clock;

/// What `--help` says.
const HELP: &str = "\
usage: speed <greatest n>

speed <greatest n>  times the calls at sizes from 10 up to n, a line a call
speed --help        says this
speed --version     says the version
";

/// What `--version` says.
const VERSION: &str = "speed 2.0.0\n";

/// Does what the command asks for.
pub(crate) fn run<T: Timer, C: Clock + Drop, W: Write + Drop>(
    alloc: Global,
    command: Command,
    clock: C,
    output: W,
) -> Result<(), Failure> {
    match command {
        Command::Help => write(output, HELP),
        Command::Version => write(output, VERSION),
        Command::Time(greatest) => T::time_sizes(&mut Bench::new(alloc, clock, output), greatest),
    }
}

/// Writes the text, and flushes.
fn write<W: Write + Drop>(output: W, text: &str) -> Result<(), Failure>
    ensures { IfErr result (λ failure. failure ≡ Failure.Write) }
{
    Ok(write_whole(&mut Watched::new(output), text.as_bytes())?)
}
