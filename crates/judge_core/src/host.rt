//! The program from its arguments to its exit status.
ghost use Rattle.std.specs.Prelude.{◌≡◌, ◌≢◌, ◌==◌, ◌≤◌, ◌⊎◌, true, false, IfErr};
ghost use Rattle.std.specs.Io.KnownBytes.{Appends};
ghost use Rattle.program_io.specs.Arguments.{AreNotUnicode, HasWords};
ghost use Rattle.program_io.specs.Streams.{Gave};
ghost use Rattle.judge_core.specs.Command.{AskForNone, AskToJudge, IsAskedFor};
ghost use Rattle.judge_core.specs.Session.{IsDone};
ghost use Rattle.judge_core.specs.declared.command.Command.{Command};

use crate::command::Command;
use crate::error::Failure;
use crate::sessions::{fail, misuse, session};
use program_io::{NotTaken, Watched, after_first, take_arguments};
use std::alloc::Allocator;
use std::env::Args;
use std::io::{Read, Write};
use std::process::ExitCode;
use std::{env, io};

/// The session of the words that follow the first argument, which is the program's name.
///
/// An argument that is no UTF-8 text counts as words that ask for nothing: it says the usage line,
/// and the status is 2. Where the arguments can't be taken for any other cause, that counts as an
/// allocation failure: it says so, and the status is 3.
pub fn start<A: Allocator + Copy, R: Read, W: Write, E: Write>(
    alloc: A,
    arguments: io::Result<Args<A>>,
    input: &mut Watched<R>,
    output: &mut Watched<W>,
    errors: &mut E,
) -> u8
    ensures done { result ≤ 1 → HasWords arguments (λ words. (command : Command)
        × IsAskedFor words command
        × IsDone command (Gave (R.remaining input.old.inner) (R.remaining input.new.inner))
        (Appends (W.contents output.old.inner) (W.contents output.new.inner))
        (Appends (E.contents errors.old) (E.contents errors.new)) (result == 0)) }
    ensures usage { result ≡ 2 → AreNotUnicode arguments ⊎ HasWords arguments AskForNone }
    ensures not_unicode { AreNotUnicode arguments → result ≡ 2 }
    ensures untouched { result ≡ 2 → (input.new ≡ input.old) × (output.new ≡ output.old) }
    ensures not_taken { IfErr arguments (λ _. (¬ AreNotUnicode arguments → result ≡ 3)
        × (input.new ≡ input.old) × (output.new ≡ output.old)) }
    ensures statuses { result ≤ 3 }

    // The devices.
    ensures silent { result ≡ 0 → errors.new ≡ errors.old }
    ensures ended { result ≤ 1 → HasWords arguments (λ words.
        AskToJudge words → input.new.ended ≡ true) }
    ensures read_failed { input.old.failed ≡ false → input.new.failed ≡ true → result ≡ 3 }
    ensures write_failed { output.old.failed ≡ false → output.new.failed ≡ true → result ≡ 3 }
{
    match take_arguments(alloc, arguments) {
        Ok(texts) => session(alloc, after_first(&texts), input, output, errors),
        Err(NotTaken::NotUnicode) => misuse(errors),
        Err(NotTaken::Memory) => fail(errors, Failure::Memory),
    }
}

/// The program on its host, with its arguments and its three standard streams.
///
/// What a process is given and what its streams take no contract can say; runs of the program
/// show it.
pub fn on_host(rt: &HostRuntime) -> ExitCode {
    ExitCode::from(start(
        rt.alloc(),
        env::args(rt),
        &mut Watched::new(rt.stdin()),
        &mut Watched::new(rt.stdout()),
        &mut rt.stderr(),
    ))
}
