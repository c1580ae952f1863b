//! What the words after the program's name ask for.
ghost use Rattle.std.specs.Prelude.{◌≡◌, Some, map, string_bytes, IfSome, IfNone};
ghost use Rattle.judge_core.specs.Command.{AsksFor, IsAskedFor};

use std::alloc::Allocator;

/// What the program is asked to do.
///
/// No word at all is `Command::Judge { numbered: false }`, and the word `types` is
/// `Command::Types`.
#[derive(Clone, Copy, PartialEq, Eq)]
pub enum Command {
    /// Answer the lines of standard input. `numbered`: each answer begins with the number of its
    /// line.
    Judge { numbered: bool },
    /// Print the names of the types.
    Types,
    /// Say what words and what lines the program takes.
    Help,
    /// Say its version.
    Version,
}

/// The command that the words ask for: no word at all is `Command::Judge`, and `--number` alone is
/// that with numbers; `types`, `--help` or `--version` alone is what it says. It returns `None`
/// exactly where the words ask for no command.
pub fn parse_args<A: Allocator>(words: &[String<A>]) -> Option<Command>
    ensures asked { IfSome result (IsAskedFor (map string_bytes words.now)) }
    ensures other { IfNone result ((command : Command)
        → ¬ IsAskedFor (map string_bytes words.now) command) }
{
    match words {
        [] => Some(Command::Judge { numbered: false }),
        [word] => parse_word(word.as_str()),
        _ => None,
    }
}

/// The command that the one word asks for.
fn parse_word(word: &str) -> Option<Command>
    ensures asked { IfSome result (AsksFor word.now) }
    ensures other { IfNone result ((command : Command) → ¬ AsksFor word.now command) }
{
    match word {
        "--number" => Some(Command::Judge { numbered: true }),
        "types" => Some(Command::Types),
        "--help" => Some(Command::Help),
        "--version" => Some(Command::Version),
        _ => None,
    }
}
