//! The arguments that a process gets.
ghost use Rattle.std.specs.Prelude.{◌≡◌, ◌↔◌, Err, drop, IfOk};
ghost use Rattle.program_io.specs.Arguments.{AreArguments, AreNotUnicode};
ghost use Rattle.program_io.specs.declared.arguments.NotTaken.{NotTaken};

use std::alloc::Allocator;
use std::env::Args;
use std::io;
use std::io::ErrorKind;

/// Why the arguments of a process can't be taken.
///
/// Of the words `committee` and `read`, with a byte `ff` after it, it is `NotUnicode`.
#[derive(Clone, Copy, Debug, PartialEq, Eq)]
pub enum NotTaken {
    /// One of them is no UTF-8 text.
    NotUnicode,
    /// An allocation failed, or they were refused for another cause.
    Memory,
}

/// Returns all the arguments, of which the first is the program's name, or why they can't be taken:
/// `NotUnicode` exactly where the host refuses them as data that is invalid, which it does where
/// one of them is no UTF-8 text, and else `Memory`.
pub fn take_arguments<A: Allocator + Copy>(
    alloc: A,
    arguments: io::Result<Args<A>>,
) -> Result<Vec<String<A>, A>, NotTaken>
    ensures taken { IfOk result (λ texts. AreArguments arguments texts.items) }
    ensures not_unicode { (result ≡ Err NotTaken.NotUnicode) ↔ AreNotUnicode arguments }
{
    let arguments = match arguments {
        Ok(arguments) => arguments,
        Err(error) => return Err(refusal(error.kind())),
    };
    match arguments.collect(alloc) {
        Ok(texts) => Ok(texts),
        Err(_) => Err(NotTaken::Memory),
    }
}

/// Returns why arguments that the host refuses with an error of this kind can't be taken.
fn refusal(kind: ErrorKind) -> NotTaken
    ensures { (result ≡ NotTaken.NotUnicode) ↔ (kind ≡ ErrorKind.InvalidData) }
{
    match kind {
        ErrorKind::InvalidData => NotTaken::NotUnicode,
        _ => NotTaken::Memory,
    }
}

/// Returns what follows the first string: nothing where there is no string.
pub fn after_first<A: Allocator>(texts: &[String<A>]) -> &[String<A>]
    ensures { result.now ≡ drop 1 texts.now }
{
    match texts {
        [_, words @ ..] => words,
        [] => texts,
    }
}
