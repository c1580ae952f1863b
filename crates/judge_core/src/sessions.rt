//! A session: what the words after the program's name ask for, and the exit status.
ghost use Rattle.std.specs.Prelude.{◌≡◌, ◌≢◌, ◌==◌, ◌↔◌, ◌⊎◌, ◌≤◌, map, string_bytes, true, false};
ghost use Rattle.std.specs.Io.KnownBytes.{Appends};
ghost use Rattle.program_io.specs.Streams.{Gave};
ghost use Rattle.judge_core.specs.Command.{AskForNone, AskToJudge, IsAskedFor};
ghost use Rattle.judge_core.specs.Session.{IsDone, IsTooLong, NeedsMemory};
ghost use Rattle.judge_core.specs.declared.command.Command.{Command};

use crate::command::parse_args;
use crate::error::Failure;
use crate::runs::run;
use program_io::{Watched, say};
use std::alloc::Allocator;
use std::io::{Read, Write};

/// Does what the words after the program's name ask for, and returns the exit status.
///
/// The status is 0 where each line that asks for an answer got a verdict, or the types, the help or
/// the version were written; 1 where some line couldn't be read; 2 where the words ask for no
/// command; and 3 where an allocation, the reader or the writer failed, or after 2^64 - 1 reads.
/// Each line that can't be read is noted on `errors` with its number. Where the status is 2 or 3,
/// one line more there says why. Each of these lines is one write where `errors` takes it whole,
/// and where `errors` fails, the status is the same. No call of a device is tried again.
pub fn session<A: Allocator + Copy, R: Read, W: Write, E: Write>(
    alloc: A,
    words: &[String<A>],
    input: &mut Watched<R>,
    output: &mut Watched<W>,
    errors: &mut E,
) -> u8
    ensures done { result ≤ 1 → (command : Command)
        × IsAskedFor (map string_bytes words.now) command
        × IsDone command (Gave (R.remaining input.old.inner) (R.remaining input.new.inner))
        (Appends (W.contents output.old.inner) (W.contents output.new.inner))
        (Appends (E.contents errors.old) (E.contents errors.new)) (result == 0) }
    ensures usage { (result ≡ 2) ↔ AskForNone (map string_bytes words.now) }
    ensures untouched { result ≡ 2 → (input.new ≡ input.old) × (output.new ≡ output.old) }
    ensures says { ¬ AskToJudge (map string_bytes words.now)
        → (input.new ≡ input.old) × (result ≢ 1) }
    ensures statuses { result ≤ 3 }
    ensures failures { let failed = (input.new.failed ≡ true) ⊎ (output.new.failed ≡ true) in
        let stopped = AskToJudge (map string_bytes words.now)
        × (NeedsMemory (R.remaining input.old.inner) (R.remaining input.new.inner)
        ⊎ IsTooLong (R.remaining input.old.inner) (R.remaining input.new.inner)) in
        input.old.failed ≡ false → output.old.failed ≡ false → result ≡ 3 → failed ⊎ stopped }

    // The devices.
    ensures silent { result ≡ 0 → errors.new ≡ errors.old }
    ensures ended { AskToJudge (map string_bytes words.now)
        → result ≤ 1 → input.new.ended ≡ true }
    ensures read_failed { input.old.failed ≡ false → input.new.failed ≡ true → result ≡ 3 }
    ensures write_failed { output.old.failed ≡ false → output.new.failed ≡ true → result ≡ 3 }
{
    let Some(command) = parse_args(words) else {
        return misuse(errors);
    };
    match run(alloc, command, input, output, errors) {
        Ok(true) => 0,
        Ok(false) => 1,
        Err(failure) => fail(errors, failure),
    }
}

/// Says which words there are, and returns the exit status of others.
pub(crate) fn misuse<E: Write>(errors: &mut E) -> u8
    ensures { result ≡ 2 }
{
    say(
        errors,
        &"usage: judge, judge --number, judge types, judge --help, or judge --version",
    );
    2
}

/// Says why a run has stopped, and returns the exit status.
pub(crate) fn fail<E: Write>(errors: &mut E, failure: Failure) -> u8
    ensures { result ≡ 3 }
{
    say(errors, &failure);
    3
}
