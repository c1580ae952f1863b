//! Certificates, each the whole of an input.
ghost use Rattle.std.specs.Prelude.{◌⊎◌, ℕ, IfErr, IfOk, List, MatchResult};
ghost use Rattle.committee_certificates.specs.Certificates.{parts};
ghost use Rattle.judge_questions.specs.Limits.{full};
ghost use Rattle.judge_verdicts.specs.Conflicts.{AreMisread, AreWhole};
ghost use Rattle.judge_verdicts.specs.Readings.{a_certificate};
ghost use Rattle.judge_verdicts.specs.Whole.{IsMisread, IsWhole};

use crate::whole::{Misread, read_whole};
use committee_certificates::Certificate;
use judge_questions::Limit;
use std::alloc::{AllocError, Allocator};

/// The certificate whose encoding the input is, or why it is that of none. The error is an
/// allocation failure, and comes only where the reading isn't memory-free.
pub(crate) fn read_certificate<A: Allocator + Copy>(
    alloc: A,
    text: &[u8],
) -> Result<Result<Certificate<A>, Misread>, AllocError>
    ensures read { IfOk result (λ read. MatchResult read
        (λ certificate. IsWhole (a_certificate full full) text.now (parts certificate))
        (IsMisread (a_certificate full full) text.now)) }
    ensures memory { IfErr result (λ _. ¬ (a_certificate full full).MemoryFree text.now) }
{
    let full = Limit::full().range();
    read_whole::<Certificate<A>, A>(alloc, text, &(full, full))
}

/// The certificates whose encodings the inputs are, or why one of them is that of none, the first
/// before the second. The error is an allocation failure, and comes only where the reading of the
/// first isn't memory-free, or where it is a certificate and the reading of the second isn't.
pub(crate) fn read_both<A: Allocator + Copy>(
    alloc: A,
    first: &[u8],
    second: &[u8],
) -> Result<Result<(Certificate<A>, Certificate<A>), Misread>, AllocError>
    ensures read { IfOk result (λ read. MatchResult read
        (λ both. AreWhole first.now second.now (parts both.0) (parts both.1))
        (AreMisread first.now second.now)) }
    ensures memory { IfErr result (λ _. (¬ (a_certificate full full).MemoryFree first.now)
        ⊎ ((one : List ℕ × List ℕ) × IsWhole (a_certificate full full) first.now one
        × (¬ (a_certificate full full).MemoryFree second.now))) }
{
    let one = match read_certificate(alloc, first)? {
        Ok(one) => one,
        Err(what) => return Ok(Err(what)),
    };
    match read_certificate(alloc, second)? {
        Ok(other) => Ok(Ok((one, other))),
        Err(what) => Ok(Err(what)),
    }
}
