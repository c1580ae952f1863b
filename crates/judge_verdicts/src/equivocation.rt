//! Accountability: the members that signed two different decisions for one slot.
ghost use Rattle.std.specs.Prelude.{◌≤◌, IfErr, IfOk};
ghost use Rattle.std.specs.Ordering.{nat_cmp};
ghost use Rattle.committee_certificates.specs.Certificates.{parts};
ghost use Rattle.committee_certificates.specs.Slots.{Contradict};
ghost use Rattle.commonware_utils.specs.Codec.{IsWord};
ghost use Rattle.commonware_utils.specs.Ordered.{IsWritableSet};
ghost use Rattle.judge_verdicts.specs.Conflicts.{AreBothOfQuorums, MayFailToAllocateToJudgeBoth};
ghost use Rattle.judge_verdicts.specs.Equivocations.{IsEquivocation, IsEquivocationOf};
ghost use Rattle.judge_verdicts.specs.Whole.{items_of};

use crate::certificates::read_both;
use crate::sets::bytes_of;
use crate::whole::Misread;
use committee_certificates::{Certificate, EquivocationError, equivocation_among};
use commonware_utils::faults::tolerated_faults;
use std::alloc::{AllocError, Allocator};

/// Why two certificates, which are encodings, prove no equivocation.
///
/// Of 4 members at a resilience 3, view 7: A and view 8: B, each signed by 0, 1 and 2, give
/// `OtherSlot`: honest members sign both.
#[derive(PartialEq, Eq, Drop)]
pub enum NoEquivocation {
    /// The value of one of them has no slot.
    NoSlot,
    /// The values are for two different slots.
    OtherSlot,
    /// The values are the same decision for one slot.
    SameDecision,
    /// The decisions for one slot differ, and a signer of one of them is no member.
    Outside,
    /// They differ, all signers are members, and fewer than a quorum signed one of them.
    TooFew,
    /// An input is no certificate.
    Unread(Misread),
}

/// The bytes of the set of the members of a committee of `n`, at a resilience `k`, that signed two
/// different decisions for one slot, each with a quorum; or why there are none. What is wrong with
/// the first comes first. The error is an allocation failure, and comes only where the reading of
/// the first isn't memory-free, or where it is a certificate and the reading of the second isn't.
/// `k` is at least 2 and `n` at least 1.
pub fn equivocation_of<A: Allocator + Copy>(
    alloc: A,
    k: u32,
    n: u32,
    first: &[u8],
    second: &[u8],
) -> Result<Result<Vec<u8, A>, NoEquivocation>, AllocError>
    requires resilience { 2 ≤ k }
    requires some { 1 ≤ n }
    ensures members { IfOk result (λ members.
        IsEquivocation k n first.now second.now (items_of members)) }
    ensures memory { IfErr result (λ _. MayFailToAllocateToJudgeBoth first.now second.now) }
{
    match read_both(alloc, first, second)? {
        Ok((one, other)) => by_slot(alloc, k, n, &one, &other),
        Err(what) => Ok(Err(NoEquivocation::Unread(what))),
    }
}

/// The members of a committee of `n` that signed both certificates, which contradict one another,
/// or why there are none. The error is an allocation failure, and comes only where the values
/// contradict one another and quorums signed both.
fn by_slot<A: Allocator + Copy>(
    alloc: A,
    k: u32,
    n: u32,
    first: &Certificate<A>,
    second: &Certificate<A>,
) -> Result<Result<Vec<u8, A>, NoEquivocation>, AllocError>
    requires resilience { 2 ≤ k }
    requires some { 1 ≤ n }
    requires writable { IsWritableSet IsWord nat_cmp first.now.signers }
    ensures members { IfOk result (λ members.
        IsEquivocationOf k n (parts first.now) (parts second.now) (items_of members)) }
    ensures memory { IfErr result (λ _. Contradict first.now.value.items second.now.value.items
        × AreBothOfQuorums k n (parts first.now) (parts second.now)) }
{
    match equivocation_among(alloc, n as usize, tolerated_faults(k, n), first, second) {
        Ok(both) => Ok(Ok(bytes_of(alloc, &both)?)),
        Err(EquivocationError::NoSlot) => Ok(Err(NoEquivocation::NoSlot)),
        Err(EquivocationError::OtherSlot) => Ok(Err(NoEquivocation::OtherSlot)),
        Err(EquivocationError::SameDecision) => Ok(Err(NoEquivocation::SameDecision)),
        Err(EquivocationError::Outside) => Ok(Err(NoEquivocation::Outside)),
        Err(EquivocationError::TooFew) => Ok(Err(NoEquivocation::TooFew)),
        Err(EquivocationError::Memory) => Err(AllocError),
    }
}
