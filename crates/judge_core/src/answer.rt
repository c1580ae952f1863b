//! The answer to a line that asks for a reading.
ghost use Rattle.std.specs.Prelude.{◌≡◌, IfErr, IfOk};
ghost use Rattle.judge_core.specs.Answered.{IsAnswer, is_judged, unreadable_text};
ghost use Rattle.judge_core.specs.Memory.{IsReadingMemoryFree};

use judge_questions::{Unreadable, read_question};
use judge_verdicts::{Verdict, judge};
use std::alloc::{AllocError, Allocator};

/// The answer to a line that asks for a reading.
///
/// That to `u8 07` is `Judged`, with one item and no byte left, and that to `u9 00` is
/// `Unread(Unreadable::Name)`.
#[derive(PartialEq, Eq, Drop)]
pub enum Answer {
    /// The line asks for a reading, and this is the verdict.
    Judged(Verdict),
    /// This of the line can't be read.
    Unread(Unreadable),
}

/// The answer to a line that asks for a reading, or what of it can't be read. The error is an
/// allocation failure, which no line meets whose reading is memory-free.
pub fn answer_to<A: Allocator + Copy>(alloc: A, line: &[u8]) -> Result<Answer, AllocError>
    ensures answer { IfOk result (IsAnswer line.now) }
    ensures memory { IfErr result (λ _. ¬ IsReadingMemoryFree line.now) }
{
    match read_question(alloc, line)? {
        Ok(question) => {
            let verdict = judge(
                alloc,
                question.form,
                &question.limits,
                question.text.as_slice(),
            )?;
            Ok(Answer::Judged(verdict))
        }
        Err(what) => Ok(Answer::Unread(what)),
    }
}

/// What says that this of a line can't be read.
pub(crate) fn unreadable_text(what: Unreadable) -> &'static str
    ensures { result.now ≡ unreadable_text what }
{
    match what {
        Unreadable::Name => "unreadable type",
        Unreadable::Ranges => "unreadable ranges",
        Unreadable::Bytes => "unreadable bytes",
        Unreadable::Model => "unreadable model",
        Unreadable::Number => "unreadable number",
    }
}

impl Answer {
    /// Whether it is a verdict.
    pub fn is_judged(&self) -> bool
        ensures { result ≡ is_judged self.now }
    {
        match self {
            Answer::Judged(_) => true,
            Answer::Unread(_) => false,
        }
    }
}
