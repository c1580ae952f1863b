//! What a command does.
ghost use Rattle.std.specs.Prelude.{◌≡◌, ◌≢◌, ◌↔◌, true, false, Err, IfOk, IfErr, OnOk};
ghost use Rattle.std.specs.Io.KnownBytes.{Appends};
ghost use Rattle.program_io.specs.Streams.{Gave};
ghost use Rattle.judge_core.specs.Command.{IsJudging};
ghost use Rattle.judge_core.specs.Session.{IsDone, IsStopped, IsTooLong, NeedsMemory};

use crate::command::Command;
use crate::error::Failure;
use crate::help::{say_help, say_version};
use crate::stream::{answer_all, say_types};
use program_io::Watched;
use std::alloc::Allocator;
use std::io::{Read, Write};

/// Does what the command asks for: answers the lines of the reader, and notes those that can't be
/// read on `errors`; or writes the names of the types, the help or the version, for which neither
/// the reader nor `errors` is touched, and which takes no allocation. Returns whether all answers
/// are verdicts.
pub fn run<A: Allocator + Copy, R: Read, W: Write, E: Write>(
    alloc: A,
    command: Command,
    input: &mut Watched<R>,
    output: &mut Watched<W>,
    errors: &mut E,
) -> Result<bool, Failure>
    ensures done { IfOk result (IsDone command
        (Gave (R.remaining input.old.inner) (R.remaining input.new.inner))
        (Appends (W.contents output.old.inner) (W.contents output.new.inner))
        (Appends (E.contents errors.old) (E.contents errors.new))) }
    ensures quiet { result ≡ Ok true → errors.new ≡ errors.old }
    ensures stopped { IfErr result (λ failure. failure ≢ Failure.WriteFailed → IsStopped command
        (R.remaining input.old.inner) (R.remaining input.new.inner)
        (W.contents output.old.inner) (W.contents output.new.inner)) }
    ensures memory { result ≡ Err Failure.Memory → IsJudging command
        × NeedsMemory (R.remaining input.old.inner) (R.remaining input.new.inner) }
    ensures too_long { result ≡ Err Failure.TooLong → IsJudging command
        × IsTooLong (R.remaining input.old.inner) (R.remaining input.new.inner) }

    // The devices.
    ensures read_failed { input.old.failed ≡ false
        → ((result ≡ Err Failure.ReadFailed) ↔ (input.new.failed ≡ true)) }
    ensures write_failed { output.old.failed ≡ false
        → ((result ≡ Err Failure.WriteFailed) ↔ (output.new.failed ≡ true)) }
    ensures ended { IsJudging command → OnOk result (input.new.ended ≡ true) }
    ensures untouched { ¬ IsJudging command
        → (input.new ≡ input.old) × (errors.new ≡ errors.old) }
{
    match command {
        Command::Judge { numbered } => answer_all(alloc, numbered, input, output, errors),
        Command::Types => {
            say_types(output)?;
            Ok(true)
        }
        Command::Help => {
            say_help(output)?;
            Ok(true)
        }
        Command::Version => {
            say_version(output)?;
            Ok(true)
        }
    }
}
