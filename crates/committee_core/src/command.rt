//! The command that the words after the program's name give.
ghost use Rattle.std.specs.Prelude.{◌≡◌, Some, map, string_bytes, IfSome, IfNone};
ghost use Rattle.committee_core.specs.Command.{IsAskedFor, IsCount};

use std::alloc::Allocator;
use std::num::NonZeroU32;

/// What the program has to do.
///
/// The word `read` gives `Command::Read`; `bounds` and `6` give `Command::Bounds` of 6.
#[derive(Clone, Copy, Debug, PartialEq, Eq)]
pub enum Command {
    /// Read a committee, and report on its members.
    Read,
    /// Report on the numbers of the fault models for this number of members, and on why no better
    /// ones hold.
    Bounds(NonZeroU32),
}

/// Returns the command that the words give: `read`, and no other word, is `Command::Read`; `bounds`
/// and a number, and no other word, is `Command::Bounds`. The number is 1 to 10 ASCII digits with
/// a value from 1 to 4294967295.
///
/// It returns `None` exactly where the words give no command.
pub fn parse_args<A: Allocator>(words: &[String<A>]) -> Option<Command>
    ensures asked { IfSome result (IsAskedFor (map string_bytes words.now)) }
    ensures given { (command : Command) → IsAskedFor (map string_bytes words.now) command
        → result ≡ Some command }
    ensures other { IfNone result ((command : Command)
        → ¬ IsAskedFor (map string_bytes words.now) command) }
{
    match words {
        [word] if word.as_str() == "read" => Some(Command::Read),
        [word, count] if word.as_str() == "bounds" => {
            Some(Command::Bounds(parse_count(count.as_str())?))
        }
        _ => None,
    }
}

/// Returns the number of members that a word writes.
fn parse_count(word: &str) -> Option<NonZeroU32>
    ensures count { IfSome result (IsCount word.now) }
    ensures other { IfNone result ((n : NonZeroU32) → ¬ IsCount word.now n) }
{
    if word.len() > 10 || !word.bytes().all(|b| b.is_ascii_digit()) {
        return None;
    }
    NonZeroU32::new(word.parse::<u32>().ok()?)
}
