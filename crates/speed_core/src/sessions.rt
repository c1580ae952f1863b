//! A session: what the words after the program's name ask for, and the exit status.
ghost use Rattle.std.specs.Prelude.{◌≡◌, ◌≤◌, ◌↔◌, map, string_bytes};
ghost use Rattle.speed_core.specs.Command.{AskForNone};

use crate::command::parse_args;
use crate::runs::run;
use crate::timer::Timer;
use program_io::say;
use std::alloc::Global;
use std::io::Write;
use std::time::Clock;

/// The line on the words that the program takes.
const USAGE: &str = "usage: speed <greatest n>";

/// The status of a run that has stopped.
pub(crate) const FAILED: u8 = 3;

/// Does what the words after the program's name ask for, and returns the exit status.
///
/// It is 0 where all that was asked for was written, 2 where the words ask for nothing, and 3 where
/// an allocation, the clock or the writer failed. Unless it is 0, a line on `errors` says why;
/// where `errors` fails, the status is the same.
pub fn session<T: Timer, C: Clock + Drop, W: Write + Drop, E: Write>(
    alloc: Global,
    words: &[String],
    clock: C,
    output: W,
    errors: &mut E,
) -> u8
    ensures usage { (result ≡ 2) ↔ AskForNone (map string_bytes words.now) }
    ensures statuses { result ≤ 3 }
{
    let Some(command) = parse_args(words) else {
        return misuse(errors);
    };
    match run::<T, _, _>(alloc, command, clock, output) {
        Ok(()) => 0,
        Err(failure) => {
            say(errors, &failure);
            FAILED
        }
    }
}

/// Says which words there are, and returns the exit status of others.
pub(crate) fn misuse<E: Write>(errors: &mut E) -> u8
    ensures { result ≡ 2 }
{
    say(errors, &USAGE);
    2
}
