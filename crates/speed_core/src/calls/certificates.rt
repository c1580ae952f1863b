//! Sets as committees, and certificates that all members signed.

use crate::bench::{Bench, Work};
use crate::calls::sets::set_of;
use crate::error::Failure;
use committee_certificates::{Certificate, ConflictError, conflict};
use commonware_utils::ordered::{Quorum, Set};
use commonware_utils::{N3f1, Participant};
use std::alloc::{AllocError, Global};
use std::io::Write;
use std::time::Clock;

/// The lines of the committee of the numbers: each member, each index, and two certificates.
pub(crate) fn time_committees<C: Clock, W: Write>(
    bench: &mut Bench<C, W>,
    numbers: &[u32],
    rounds: u64,
) -> Result<(), Failure> {
    let committee = set_of(bench.alloc(), numbers)?;
    let work = Work::new("committee_key", committee.len(), rounds);
    bench.folded(work, 0, |sum| Ok(sum_of_members(&committee, sum)))?;
    let work = Work::new("committee_index", numbers.len(), rounds);
    bench.folded(work, 0, |sum| {
        Ok(sum_of_indices(&committee, numbers, sum))
    })?;
    time_conflicts(bench, &committee, rounds)
}

/// The sum with the members, modulo 2^64, each looked up by its index.
fn sum_of_members(committee: &Set<u32, Global>, sum: u64) -> u64 {
    let mut sum = sum;
    for index in 0..size(committee) {
        let member = match committee.key(Participant::new(index)) {
            Some(member) => u64::from(*member),
            None => 1,
        };
        sum = sum.wrapping_add(member);
    }
    sum
}

/// How many members the committee has, or `u32::MAX` where it has more.
fn size(committee: &Set<u32, Global>) -> u32 {
    committee.len().min(u32::MAX as usize) as u32
}

/// The sum with the indices of the numbers, modulo 2^64, where one that has none counts 1.
///
/// It is a function of its own, so that it shares no registers with the lines around it.
#[inline(never)]
fn sum_of_indices(committee: &Set<u32, Global>, numbers: &[u32], sum: u64) -> u64 {
    let mut sum = sum;
    if committee.len() > u32::MAX as usize {
        return sum;
    }
    for number in numbers {
        let index = match committee.index(number) {
            Some(index) => u64::from(index.get()),
            None => 1,
        };
        sum = sum.wrapping_add(index);
    }
    sum
}

/// The line of two certificates for different values, which all members signed.
fn time_conflicts<C: Clock, W: Write>(
    bench: &mut Bench<C, W>,
    committee: &Set<u32, Global>,
    rounds: u64,
) -> Result<(), Failure> {
    let alloc = bench.alloc();
    let first = certificate(alloc, 1, size(committee))?;
    let second = certificate(alloc, 2, size(committee))?;
    let work = Work::new("conflict", committee.len(), rounds);
    bench.line(work, 0, || count_both(alloc, committee, &first, &second))?;
    Ok(())
}

/// The certificate for a value of one byte that the first `signers` members signed.
fn certificate(alloc: Global, value: u8, signers: u32) -> Result<Certificate<Global>, AllocError> {
    Ok(Certificate {
        value: Vec::from_slice(alloc, &[value])?,
        signers: Set::from_iter_dedup(alloc, (0..signers).map(Participant::new))?,
    })
}

/// How many members signed both certificates, or 1 where that is refused. Of two certificates
/// for one value, and in a committee of none or of more than `u32::MAX`, none are looked for.
fn count_both(
    alloc: Global,
    committee: &Set<u32, Global>,
    first: &Certificate<Global>,
    second: &Certificate<Global>,
) -> Result<u64, Failure> {
    let count = committee.len();
    if first.value == second.value || count == 0 || count > u32::MAX as usize {
        return Ok(0);
    }
    match conflict::<N3f1, _, _>(alloc, committee, first, second) {
        Ok(both) => Ok(both.len() as u64),
        Err(ConflictError::Memory) => Err(Failure::Memory),
        Err(_) => Ok(1),
    }
}
