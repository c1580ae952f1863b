//! An input that is the encoding of one value.
ghost use Rattle.std.specs.Prelude.{◌≡◌, IfErr, IfOk, MatchResult};
ghost use Rattle.judge_verdicts.specs.Readings.{reading_by};
ghost use Rattle.judge_verdicts.specs.Whole.{IsMisread, IsWhole};

use commonware_utils::codec::{Error, Read, Source};
use std::alloc::{AllocError, Allocator};

/// Why an input is not the encoding of one value.
///
/// `[0, 0xff]` is that of a list without items and a byte, so as a list it is `LeftOver(1)`.
#[derive(PartialEq, Eq, Drop)]
pub enum Misread {
    /// It doesn't begin with that of a value, and this is its first fault. It is never `Memory`.
    Fault(Error),
    /// It begins with one, and this many bytes follow.
    LeftOver(usize),
}

/// The value whose encoding the input is, or why it is that of none. The error is an allocation
/// failure, and comes only where the reading isn't memory-free.
pub fn read_whole<T: Read<A> + Drop, A: Allocator>(
    alloc: A,
    text: &[u8],
    cfg: &T::Cfg,
) -> Result<Result<T, Misread>, AllocError>
    ensures read { let reading = reading_by T.enc T.writable (T.allowed cfg.now)
        (T.fault cfg.now) (T.memory_free cfg.now) in
        IfOk result (λ read. MatchResult read (IsWhole reading text.now)
        (IsMisread reading text.now)) }
    ensures memory { IfErr result (λ _. ¬ T.memory_free cfg.now text.now) }
{
    let mut source = Source::new(text);
    match T::read_cfg(alloc, &mut source, cfg) {
        Ok(value) => match source.remaining() {
            0 => Ok(Ok(value)),
            left => Ok(Err(Misread::LeftOver(left))),
        },
        Err(Error::Memory) => Err(AllocError),
        Err(fault) => Ok(Err(Misread::Fault(fault))),
    }
}
