//! A command, from the bytes that are read to the bytes that are written.
ghost use Rattle.std.specs.Prelude.{◌≡◌, ◌≢◌, ◌↔◌, ◌^◌, ◌<◌, ◌≤◌, ◌⊎◌, ℕ, List, [], length, true, false};
ghost use Rattle.std.specs.Prelude.{Err, IfErr, IfOk, OnErr, OnOk, string_bytes};
ghost use Rattle.std.specs.Io.KnownBytes.{Appends};
ghost use Rattle.commonware_base.specs.Prefixes.{IsLongPrefix};
ghost use Rattle.program_io.specs.Streams.{Gave};
ghost use Rattle.committee_core.specs.Run.{IsCommittee, IsCommitteeMemoryFree, IsRefusal, IsReport, NeedsMemory};
ghost use Rattle.committee_core.specs.Run.{prefix_size};

use crate::bounds_report::bounds_report;
use crate::command::Command;
use crate::error::RunError;
use crate::input::read_prefix;
use crate::member::Member;
use crate::report::committee_report;
use commonware_base::codec;
use commonware_base::codec::{RangeCfg, Source};
use commonware_ordered::Set;
use program_io::{Watched, write_whole};
use std::alloc::Allocator;
use std::io::{Read, Write};

/// The most members that a committee has.
const MOST_MEMBERS: usize = 256;

/// How many first bytes determine what all are: a length has at most five, and each member has 32.
const PREFIX_SIZE: usize = 5 + MOST_MEMBERS * 32;

/// Executes the command: writes its report, and flushes.
///
/// With `Command::Read` the reader is read to its end. The bytes have to be the encoding of a set
/// of 1 to 256 [`Member`]s, and no more: else it returns the first fault of the bytes, or how many
/// bytes are left over. Only the prefix that determines this is kept, and the rest is counted. Only
/// the members and the report are allocated, and `Memory` is returned only where the bytes can't be
/// judged without an allocation, or are more than a `usize` counts. With `Command::Bounds` the
/// reader isn't touched, and no fault of bytes is returned.
///
/// The report is complete in memory before the first write, so nothing is written unless it returns
/// `Ok` or `WriteFailed`; after `WriteFailed` nothing is said of how much was written. No call of a
/// device is made again after a failure.
pub fn run<A: Allocator + Copy, R: Read, W: Write>(
    alloc: A,
    command: Command,
    input: &mut Watched<R>,
    output: &mut Watched<W>,
) -> Result<(), RunError>
    // The outcome, of the bytes that the reader gave.
    ensures done { OnOk result ((text : List ℕ)
        × Appends (W.contents output.old.inner) (W.contents output.new.inner) text
        × IsReport (Gave (R.remaining input.old.inner) (R.remaining input.new.inner))
        command text) }
    ensures refused { IfErr result
        (IsRefusal (Gave (R.remaining input.old.inner) (R.remaining input.new.inner))) }
    ensures memory { command ≡ Command.Read → result ≡ Err RunError.Memory
        → NeedsMemory (R.remaining input.old.inner) (R.remaining input.new.inner) }

    // The devices.
    ensures nothing_written { OnErr result
        (result ≢ Err RunError.WriteFailed → output.new ≡ output.old) }
    ensures broken { result ≡ Err RunError.WriteFailed → output.new.failed ≡ true }
    ensures read_failed { input.old.failed ≡ false
        → ((result ≡ Err RunError.ReadFailed) ↔ (input.new.failed ≡ true)) }
    ensures write_failed { output.old.failed ≡ false
        → ((result ≡ Err RunError.WriteFailed) ↔ (output.new.failed ≡ true)) }
    ensures ended { command ≡ Command.Read → result ≢ Err RunError.ReadFailed
        → result ≢ Err RunError.Memory → input.new.ended ≡ true }

    // With `Command::Bounds` nothing is read.
    ensures untouched { (n : _) → command ≡ Command.Bounds n → input.new ≡ input.old }
    ensures no_fault { (n : _) → command ≡ Command.Bounds n
        → IfErr result (λ error. (error ≡ RunError.Memory) ⊎ (error ≡ RunError.WriteFailed)) }
{
    let text = match command {
        Command::Read => read_report(alloc, input)?,
        Command::Bounds(n) => match bounds_report(alloc, n) {
            Ok(text) => text,
            Err(_) => return Err(RunError::Memory),
        },
    };
    Ok(write_whole(output, text.as_bytes())?)
}

/// Returns the report on the committee that the reader gives, with nothing after it.
///
/// The first bytes determine whether they are one: these are kept, and the rest is read and
/// counted. So only the members and the report are allocated.
fn read_report<A: Allocator + Copy, R: Read>(
    alloc: A,
    input: &mut Watched<R>,
) -> Result<String<A>, RunError>
    ensures done { IfOk result (λ text.
        IsReport (Gave (R.remaining input.old.inner) (R.remaining input.new.inner))
        Command.Read (string_bytes text)) }
    ensures refused { IfErr result
        (IsRefusal (Gave (R.remaining input.old.inner) (R.remaining input.new.inner))) }
    ensures memory { result ≡ Err RunError.Memory
        → NeedsMemory (R.remaining input.old.inner) (R.remaining input.new.inner) }
    ensures sound { result ≢ Err RunError.ReadFailed → input.new.failed ≡ input.old.failed }
    ensures failed { result ≡ Err RunError.ReadFailed → input.new.failed ≡ true }
    ensures reads { result ≢ Err RunError.WriteFailed }
    ensures ended { result ≢ Err RunError.ReadFailed → result ≢ Err RunError.Memory
        → input.new.ended ≡ true }
{
    let mut room = [0u8; PREFIX_SIZE];
    let counted = read_prefix(input, &mut room)?;
    let members = read_members(alloc, &room[..counted.kept], counted.total)?;
    match committee_report(alloc, members.as_slice()) {
        Ok(text) => Ok(text),
        Err(_) => Err(RunError::Memory),
    }
}

/// Returns the committee that the bytes encode, with nothing after it. Of these bytes the prefix is
/// given, and how many they are.
fn read_members<A: Allocator + Copy>(
    alloc: A,
    prefix: &[u8],
    total: usize,
) -> Result<Set<Member, A>, RunError>
    requires { length prefix.now ≤ total }
    ensures accepted { (s : List ℕ) → IsLongPrefix prefix_size s prefix.now → length s ≡ total
        → IfOk result (λ members. IsCommittee s members []) }
    ensures some { IfOk result (λ members. 1 ≤ length members) }
    ensures few { IfOk result (λ members. length members < 2 ^ 32) }
    ensures refused { (s : List ℕ) → IsLongPrefix prefix_size s prefix.now → length s ≡ total
        → IfErr result (IsRefusal (λ t. t ≡ s)) }
    ensures memory { (s : List ℕ) → IsLongPrefix prefix_size s prefix.now
        → result ≡ Err RunError.Memory → ¬ IsCommitteeMemoryFree s }
    ensures device { (result ≢ Err RunError.ReadFailed) × (result ≢ Err RunError.WriteFailed) }
{
    let mut src = Source::new(prefix);
    let limits = (RangeCfg::from(1..=MOST_MEMBERS), ());
    let members: Set<Member, A> = codec::Read::read_cfg(alloc, &mut src, &limits)?;
    let left = total - src.position();
    if left > 0 {
        return Err(RunError::LeftOver(left));
    }
    Ok(members)
}
