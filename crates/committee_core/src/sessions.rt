//! A whole run of the program: what it writes, and its exit status.
ghost use Rattle.std.specs.Prelude.{◌≡◌, ◌≢◌, ◌↔◌, ◌≤◌, ◌⊎◌, map, string_bytes, true, false};
ghost use Rattle.std.specs.Io.KnownBytes.{Appends};
ghost use Rattle.program_io.specs.Streams.{Gave};
ghost use Rattle.committee_core.specs.Command.{AskForNone, IsAskedFor};
ghost use Rattle.committee_core.specs.Run.{IsDone, IsRefused, MayFailToAllocate, status_of};
ghost use Rattle.committee_core.specs.declared.command.Command.{Command};

use crate::command::{Command, parse_args};
use crate::error::RunError;
use crate::runs::run;
use program_io::{Watched, say};
use std::alloc::Allocator;
use std::io::{Read, Write};

/// Executes the command that the words after the program's name give, and returns the exit status.
///
/// The status is 0 where the report was written, 1 where the bytes were refused, 2 where the words
/// give no command, and 3 where an allocation, the reader or the writer failed. Unless it is 0, one
/// line on `errors` says why, in one write where `errors` takes it whole. Where `errors` fails, the
/// status is the same. Where the words give `Command::Bounds`, or no command, nothing is read. No
/// call of a device is made again after a failure.
pub fn session<A: Allocator + Copy, R: Read, W: Write, E: Write>(
    alloc: A,
    words: &[String<A>],
    input: &mut Watched<R>,
    output: &mut Watched<W>,
    errors: &mut E,
) -> u8
    // The status is 0 only where the report of the command has been written.
    ensures done { result ≡ 0 → IsDone (map string_bytes words.now)
        (Gave (R.remaining input.old.inner) (R.remaining input.new.inner))
        (Appends (W.contents output.old.inner) (W.contents output.new.inner)) }
    ensures refused { result ≡ 1 →
        IsRefused (Gave (R.remaining input.old.inner) (R.remaining input.new.inner))
        × (output.new ≡ output.old) }
    ensures usage { (result ≡ 2) ↔ AskForNone (map string_bytes words.now) }
    ensures untouched { result ≡ 2 → (input.new ≡ input.old) × (output.new ≡ output.old) }
    ensures bounds { (n : _) → IsAskedFor (map string_bytes words.now) (Command.Bounds n)
        → (input.new ≡ input.old) × (result ≢ 1) }
    ensures statuses { result ≤ 3 }
    ensures failures { input.old.failed ≡ false → output.old.failed ≡ false → result ≡ 3
        → (input.new.failed ≡ true) ⊎ (output.new.failed ≡ true)
        ⊎ ((command : Command) × IsAskedFor (map string_bytes words.now) command
        × MayFailToAllocate command
        (R.remaining input.old.inner) (R.remaining input.new.inner)) }

    // The devices.
    ensures silent { result ≡ 0 → errors.new ≡ errors.old }
    ensures nothing_written { result ≢ 0 → output.new.failed ≡ false → output.new ≡ output.old }
    ensures ended { IsAskedFor (map string_bytes words.now) Command.Read
        → result ≤ 1 → input.new.ended ≡ true }
    ensures read_failed { input.old.failed ≡ false → input.new.failed ≡ true → result ≡ 3 }
    ensures write_failed { output.old.failed ≡ false → output.new.failed ≡ true → result ≡ 3 }
{
    let Some(command) = parse_args(words) else {
        return misuse(errors);
    };
    match run(alloc, command, input, output) {
        Ok(()) => 0,
        Err(error) => refuse(errors, &error),
    }
}

/// Writes the line on the words that there are to `errors`, and returns the exit status of other
/// words.
pub(crate) fn misuse<E: Write>(errors: &mut E) -> u8
    ensures { result ≡ 2 }
{
    say(errors, &"usage: committee read, or committee bounds <n>");
    2
}

/// Writes why there is no report to `errors`, and returns the exit status.
pub(crate) fn refuse<E: Write>(errors: &mut E, error: &RunError) -> u8
    ensures { result ≡ status_of error.now }
{
    say(errors, error);
    match error {
        RunError::Refused(_) | RunError::LeftOver(_) => 1,
        RunError::Memory | RunError::ReadFailed | RunError::WriteFailed => 3,
    }
}
