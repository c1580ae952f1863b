//! The bytes of a reader up to its end, of which the first are kept.
//!
//! No call that fails is made again: an interrupted one is a failure like every other.
ghost use Rattle.std.specs.Prelude.{◌≡◌, ◌≢◌, ◌+◌, ◌^◌, ◌<◌, ◌≤◌, ℕ, List, length, take, true};
ghost use Rattle.std.specs.Prelude.{Err, IfErr, IfOk, OnOk};
ghost use Rattle.std.specs.Io.KnownBytes.{Consumes, IsAtEnd};
ghost use Rattle.commonware_base.specs.Prefixes.{IsLongPrefix};
ghost use Rattle.program_io.specs.Streams.{Gave};

use crate::error::RunError;
use program_io::Watched;
use std::io::Read;

/// How many bytes one read takes at most, where they are only counted.
const CHUNK: usize = 65_536;

/// How many bytes a reader gave up to its end, and how many of them were kept.
#[derive(Drop)]
pub(crate) struct Counted {
    /// How many of the first bytes were kept.
    pub(crate) kept: usize,
    /// How many bytes there were, the kept ones among them.
    pub(crate) total: usize,
}

/// Reads up to the reader's end, and keeps the first bytes in `room`: all, or as many as it has
/// places.
///
/// The error is `ReadFailed` at the first read that fails, or `Memory` where there are more bytes
/// than a `usize` counts.
pub(crate) fn read_prefix<R: Read>(
    input: &mut Watched<R>,
    room: &mut [u8],
) -> Result<Counted, RunError>
    ensures within { IfOk result (λ counted. counted.kept ≤ length room.new) }
    ensures bytes { IfOk result (λ counted. (s : List ℕ)
        × Gave (R.remaining input.old.inner) (R.remaining input.new.inner) s
        × IsLongPrefix (length room.new) s (take counted.kept room.new)
        × (length s ≡ counted.total)) }
    ensures ended { OnOk result (input.new.ended ≡ true) }
    ensures sound { OnOk result (input.new.failed ≡ input.old.failed) }

    // Where it fails.
    ensures memory { result ≡ Err RunError.Memory → input.new.failed ≡ input.old.failed }
    ensures too_many { result ≡ Err RunError.Memory → (s : List ℕ)
        × Consumes (R.remaining input.old.inner) (R.remaining input.new.inner) s
        × (2 ^ 64 ≤ length s) }
    ensures failed { IfErr result (λ e. e ≢ RunError.Memory
        → (e ≡ RunError.ReadFailed) × (input.new.failed ≡ true)) }
{
    let kept = fill(input, room)?;
    if kept < room.len() {
        return Ok(Counted { kept, total: kept });
    }
    let total = count_rest(input, kept)?;
    Ok(Counted { kept, total })
}

/// Reads until `room` is full or the reader is at its end, and returns how many bytes there were.
///
/// The error is `ReadFailed`, at the first read that fails.
fn fill<R: Read>(input: &mut Watched<R>, room: &mut [u8]) -> Result<usize, RunError>
    ensures within { IfOk result (λ n. n ≤ length room.new) }
    ensures room { length room.new ≡ length room.old }
    ensures bytes { IfOk result (λ n.
        Consumes (R.remaining input.old.inner) (R.remaining input.new.inner) (take n room.new)) }
    ensures ended { IfOk result (λ n. n < length room.new
        → IsAtEnd (R.remaining input.new.inner) × (input.new.ended ≡ true)) }
    ensures sound { OnOk result (input.new.failed ≡ input.old.failed) }
    ensures failed { IfErr result (λ e. (e ≡ RunError.ReadFailed) × (input.new.failed ≡ true)) }
{
    let mut kept = 0;
    while kept < room.len() {
        let n = match input.read(&mut room[kept..]) {
            Ok(n) => n,
            Err(_) => return Err(RunError::ReadFailed),
        };
        if n == 0 {
            return Ok(kept);
        }
        kept += n;
    }
    Ok(kept)
}

/// Reads up to the reader's end, and returns how many bytes there were, plus `before`.
///
/// The error is `ReadFailed` at the first read that fails, or `Memory` where a `usize` can't
/// count them.
fn count_rest<R: Read>(input: &mut Watched<R>, before: usize) -> Result<usize, RunError>
    ensures bytes { IfOk result (λ total. (rest : List ℕ)
        × Gave (R.remaining input.old.inner) (R.remaining input.new.inner) rest
        × (before + length rest ≡ total)) }
    ensures ended { OnOk result (input.new.ended ≡ true) }
    ensures sound { OnOk result (input.new.failed ≡ input.old.failed) }

    // Where it fails.
    ensures memory { result ≡ Err RunError.Memory → input.new.failed ≡ input.old.failed }
    ensures too_many { result ≡ Err RunError.Memory → (rest : List ℕ)
        × Consumes (R.remaining input.old.inner) (R.remaining input.new.inner) rest
        × (2 ^ 64 ≤ before + length rest) }
    ensures failed { IfErr result (λ e. e ≢ RunError.Memory
        → (e ≡ RunError.ReadFailed) × (input.new.failed ≡ true)) }
{
    let mut chunk = [0u8; CHUNK];
    let mut total = before;
    loop {
        let n = fill(input, &mut chunk)?;
        total = match total.checked_add(n) {
            Some(total) => total,
            None => return Err(RunError::Memory),
        };
        if n < CHUNK {
            return Ok(total);
        }
    }
}
