//! Reads a set of 1 to 256 bytes from standard input, and prints its members and their quorums.
#![tactic(auto)]

mod lines;

ghost use Rattle.std.specs.Prelude.{◌≡◌, ◌≤◌, ◌++◌, ℕ, List, [], length, IfErr, IfOk, string_bytes};
ghost use Rattle.quickstart.specs.Report.{IsRefusal, IsReport, IsSet};

use crate::lines::{write_member, write_members, write_n3f1, write_n5f1};
use commonware_utils::codec::{self, RangeCfg, Source};
use commonware_utils::faults::Faults;
use commonware_utils::ordered::Set;
use commonware_utils::{N3f1, N5f1};
use std::alloc::{AllocError, Global};
use std::io::{self, Read};
use std::process::ExitCode;

/// Why an input is refused.
#[derive(Debug, Drop)]
enum Refusal {
    /// It begins with no set, by this error; or an allocation failed.
    NoSet(codec::Error),
    /// This number of bytes follows the set.
    LeftOver(usize),
}

/// Returns the set that the input encodes, with nothing after it.
fn read_set(alloc: Global, input: &[u8]) -> Result<Set<u8, Global>, Refusal>
    ensures accepted { IfOk result (λ members. IsSet input.now members []) }
    ensures refused { IfErr result (IsRefusal input.now) }
{
    let mut source = Source::new(input);
    // The number of members is limited; a byte has no limits of its own.
    let limits = (RangeCfg::from(1..=256), ());
    match codec::Read::read_cfg(alloc, &mut source, &limits) {
        Ok(members) if source.rest().is_empty() => Ok(members),
        Ok(_) => Err(Refusal::LeftOver(source.rest().len())),
        Err(error) => Err(Refusal::NoSet(error)),
    }
}

/// Returns a line for each member, behind its position, and the numbers of both fault models.
fn report(alloc: Global, members: &[u8]) -> Result<String<Global>, AllocError>
    requires some { 1 ≤ length members.now }
    requires few { length members.now ≤ 256 }
    ensures { IfOk result (λ text. IsReport members.now (string_bytes text)) }
{
    let n = members.len();
    let mut text = String::new(alloc);
    write_members(&mut text, n)?;
    for (position, member) in members.iter().enumerate() {
        write_member(&mut text, position, *member)?;
    }
    let (faults, quorum) = (N3f1::max_faults(n), N3f1::quorum(n));
    write_n3f1(&mut text, faults, quorum)?;
    let (faults, quorum, m) = (N5f1::max_faults(n), N5f1::quorum(n), N5f1::m_quorum(n));
    write_n5f1(&mut text, faults, quorum, m)?;
    Ok(text)
}

/// Returns what the program prints of the input, or why it refuses the input.
fn run(alloc: Global, input: &[u8]) -> Result<String<Global>, Refusal>
    ensures printed { IfOk result (λ text. (members : List ℕ)
        × IsSet input.now members [] × IsReport members (string_bytes text)) }
    ensures refused { IfErr result (IsRefusal input.now) }
{
    let members = read_set(alloc, input)?;
    match report(alloc, members.as_slice()) {
        Ok(text) => Ok(text),
        Err(_) => Err(Refusal::NoSet(codec::Error::Memory)),
    }
}

fn main(rt: HostRuntime) -> io::Result<ExitCode> {
    let mut input = Vec::new(rt.alloc());
    rt.stdin().read_to_end(&mut input)?;
    match run(rt.alloc(), &input) {
        Ok(text) => {
            print!(rt; "{text}")?;
            return Ok(ExitCode::SUCCESS);
        }
        Err(Refusal::LeftOver(count)) => eprintln!(rt; "refused: {count} bytes left over")?,
        Err(Refusal::NoSet(error)) => eprintln!(rt; "refused: {error}")?,
    }
    Ok(ExitCode::FAILURE)
}
