//! The program on its host.

use crate::calls::Calls;
use crate::error::Failure;
use crate::sessions::{FAILED, misuse, session};
use program_io::{NotTaken, after_first, say, take_arguments};
use std::env;
use std::process::ExitCode;

/// The program on its host, with its arguments and its two standard streams for output. An argument
/// that is no UTF-8 text counts as words that ask for nothing. Where the arguments can't be taken
/// for any other cause, that counts as an allocation failure.
pub fn on_host(rt: &HostRuntime) -> ExitCode {
    let mut errors = rt.stderr();
    let status = match take_arguments(rt.alloc(), env::args(rt)) {
        Ok(arguments) => session::<Calls, _, _, _>(
            rt.alloc(),
            after_first(&arguments),
            rt,
            rt.stdout(),
            &mut errors,
        ),
        Err(NotTaken::NotUnicode) => misuse(&mut errors),
        Err(NotTaken::Memory) => {
            say(&mut errors, &Failure::Memory);
            FAILED
        }
    };
    ExitCode::from(status)
}
