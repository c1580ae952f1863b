//! What is noted on standard error: the number of each line that can't be read.
ghost use Rattle.std.specs.Prelude.{◌≡◌, ◌++◌, ℕ, List, codes, decimal};
ghost use Rattle.std.specs.Io.KnownBytes.{Appends};
ghost use Rattle.judge_core.specs.Answered.{answer_line};
ghost use Rattle.judge_core.specs.declared.answer.Answer.{Answer};

use crate::answer::unreadable_text;
use crate::room::Room;
use itoa::Buffer;
use judge_questions::Unreadable;
use program_io::write_bytes;
use std::io::Write;

/// Notes that the line of this number can't be read, in one write where the writer takes it whole.
///
/// It takes no allocation. No call is tried again, and a writer that fails is left: that is no
/// error, since nobody could be told.
#[tactic(auto, unfolding(crate::specs::Answered::answer_line))]
pub(crate) fn note<E: Write>(errors: &mut E, number: u128, what: Unreadable)
    ensures { (prefix back : List ℕ)
        × (codes "line " ++ (decimal number ++ (codes ": " ++ answer_line (Answer.Unread what)))
        ≡ prefix ++ back)
        × Appends (E.contents errors.old) (E.contents errors.new) prefix }
{
    let mut room = Room::new();
    let mut digits = Buffer::new();
    let whole = room.push(b"line ")
        && room.push(digits.format(number).as_bytes())
        && room.push(b": ")
        && room.push(unreadable_text(what).as_bytes())
        && room.push(b"\n");
    if whole {
        let _ = write_bytes(errors, room.as_slice());
    }
}
