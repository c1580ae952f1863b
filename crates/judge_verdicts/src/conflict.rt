//! The members that signed both of two certificates.
ghost use Rattle.std.specs.Prelude.{◌≤◌, ◌≢◌, IfErr, IfOk};
ghost use Rattle.std.specs.Ordering.{nat_cmp};
ghost use Rattle.committee_certificates.specs.Certificates.{parts};
ghost use Rattle.commonware_utils.specs.Codec.{IsWord};
ghost use Rattle.commonware_utils.specs.Ordered.{IsWritableSet};
ghost use Rattle.judge_verdicts.specs.Conflicts.{AreBothOfQuorums, IsConflict, IsConflictOf};
ghost use Rattle.judge_verdicts.specs.Conflicts.{MayFailToAllocateToJudgeBoth};
ghost use Rattle.judge_verdicts.specs.Whole.{items_of};

use crate::certificates::read_both;
use crate::sets::bytes_of;
use crate::whole::Misread;
use committee_certificates::{Certificate, ConflictError, conflict_among};
use commonware_utils::faults::tolerated_faults;
use std::alloc::{AllocError, Allocator};

/// Why two certificates, which are encodings, name no members that signed both.
///
/// Of 4 members at a resilience 3, 3 are a quorum: where 2 signed one of them, it is `TooFew`.
#[derive(PartialEq, Eq, Drop)]
pub enum NoConflict {
    /// Both are for one value.
    EqualValues,
    /// The values differ, and a signer of one of them is no member.
    Outside,
    /// All signers are members, and fewer than a quorum signed one of them.
    TooFew,
    /// An input is no certificate.
    Unread(Misread),
}

/// The bytes of the set of the members of a committee of `n`, at a resilience `k`, that signed both
/// of two certificates for different values, or why there are none. What is wrong with the first
/// comes first. The error is an allocation failure, and comes only where the reading of the first
/// isn't memory-free, or where it is a certificate and the reading of the second isn't. `k` is at
/// least 2 and `n` at least 1.
pub fn conflict_of<A: Allocator + Copy>(
    alloc: A,
    k: u32,
    n: u32,
    first: &[u8],
    second: &[u8],
) -> Result<Result<Vec<u8, A>, NoConflict>, AllocError>
    requires resilience { 2 ≤ k }
    requires some { 1 ≤ n }
    ensures members { IfOk result (λ members.
        IsConflict k n first.now second.now (items_of members)) }
    ensures memory { IfErr result (λ _. MayFailToAllocateToJudgeBoth first.now second.now) }
{
    match read_both(alloc, first, second)? {
        Ok((one, other)) => among(alloc, k, n, &one, &other),
        Err(what) => Ok(Err(NoConflict::Unread(what))),
    }
}

/// The members of a committee of `n` that signed both certificates, or why there are none. The
/// error is an allocation failure, and comes only where the values differ and quorums signed both.
fn among<A: Allocator + Copy>(
    alloc: A,
    k: u32,
    n: u32,
    first: &Certificate<A>,
    second: &Certificate<A>,
) -> Result<Result<Vec<u8, A>, NoConflict>, AllocError>
    requires resilience { 2 ≤ k }
    requires some { 1 ≤ n }
    requires writable { IsWritableSet IsWord nat_cmp first.now.signers }
    ensures members { IfOk result (λ members.
        IsConflictOf k n (parts first.now) (parts second.now) (items_of members)) }
    ensures memory { IfErr result (λ _. (first.now.value.items ≢ second.now.value.items)
        × AreBothOfQuorums k n (parts first.now) (parts second.now)) }
{
    if first.value.as_slice() == second.value.as_slice() {
        return Ok(Err(NoConflict::EqualValues));
    }
    match conflict_among(alloc, n as usize, tolerated_faults(k, n), first, second) {
        Ok(both) => Ok(Ok(bytes_of(alloc, &both)?)),
        Err(ConflictError::Outside) => Ok(Err(NoConflict::Outside)),
        Err(ConflictError::TooFew) => Ok(Err(NoConflict::TooFew)),
        Err(ConflictError::Memory) => Err(AllocError),
    }
}
