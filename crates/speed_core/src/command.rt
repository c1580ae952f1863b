//! What the words after the program's name ask for.
ghost use Rattle.std.specs.Prelude.{IfNone, IfSome, map, string_bytes, ℕ};
ghost use Rattle.speed_core.specs.Command.{AskForNone, AsksFor, IsAskedFor, IsSize};

use std::alloc::Allocator;

/// The least size at which calls are timed.
const LEAST_SIZE: u32 = 10;

/// What the program is asked to do.
///
/// The word `10` is `Command::Time(10)`, and `9` is no command.
#[derive(Clone, Copy)]
pub enum Command {
    /// Say what words it takes.
    Help,
    /// Say its version.
    Version,
    /// Time the calls at sizes up to this one.
    Time(u32),
}

/// The command that the words ask for: `--help` or `--version` alone, or a number alone, which is
/// `Command::Time`: decimal digits, from 10 to 4294967295. It returns `None` exactly where the
/// words ask for no command.
pub(crate) fn parse_args<A: Allocator>(words: &[String<A>]) -> Option<Command>
    ensures asked { IfSome result (IsAskedFor (map string_bytes words.now)) }
    ensures other { IfNone result (AskForNone (map string_bytes words.now)) }
{
    match words {
        [word] => parse_word(word.as_str()),
        _ => None,
    }
}

/// The command that the word asks for.
fn parse_word(word: &str) -> Option<Command>
    ensures asked { IfSome result (AsksFor word.now) }
    ensures other { IfNone result ((command : Command) → ¬ AsksFor word.now command) }
{
    if word == "--help" {
        return Some(Command::Help);
    }
    if word == "--version" {
        return Some(Command::Version);
    }
    match parse_size(word) {
        Some(greatest) => Some(Command::Time(greatest)),
        None => None,
    }
}

/// The size that the word writes.
fn parse_size(word: &str) -> Option<u32>
    ensures size { IfSome result (IsSize word.now) }
    ensures other { IfNone result ((n : ℕ) → ¬ IsSize word.now n) }
{
    if word.starts_with('+') {
        return None;
    }
    match word.parse() {
        Ok(size) if size >= LEAST_SIZE => Some(size),
        _ => None,
    }
}
