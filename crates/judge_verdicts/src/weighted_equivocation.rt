//! Accountability: the members that signed two different decisions for one slot, where quorums are
//! by weight.
ghost use Rattle.std.specs.Prelude.{◌≤◌, IfErr, IfOk};
ghost use Rattle.std.specs.Ordering.{nat_cmp};
ghost use Rattle.committee_certificates.specs.Certificates.{parts};
ghost use Rattle.committee_certificates.specs.Slots.{Contradict};
ghost use Rattle.commonware_utils.specs.Codec.{IsWord};
ghost use Rattle.commonware_utils.specs.Ordered.{IsWritableSet};
ghost use Rattle.judge_verdicts.specs.WeightedConflicts.{AreBothOfWeightedQuorums, weighed_of};
ghost use Rattle.judge_verdicts.specs.WeightedEquivocations.{IsWeightedEquivocation, IsWeightedEquivocationOf};
ghost use Rattle.judge_verdicts.specs.Weights.{MayFailToAllocateToWeigh};

use crate::certificates::read_both;
use crate::weighted_members::{WeightedMembers, weighed};
use crate::weights::{NoWeights, read_weights};
use crate::whole::Misread;
use committee_certificates::Certificate;
use committee_weights::{WeightedEquivocationError, Weights, weighted_equivocation};
use std::alloc::{AllocError, Allocator};

/// Why two certificates, which are encodings, prove no equivocation, where quorums are by weight.
///
/// Of the weights 40, 30, 20 and 10 at a resilience 3, view 7: A signed by 0 and 1, and view 7: B
/// signed by 1, 2 and 3, who weigh 60, give `TooLight`.
#[derive(PartialEq, Eq, Drop)]
pub enum NoWeightedEquivocation {
    /// The value of one of them has no slot.
    NoSlot,
    /// The values are for two different slots.
    OtherSlot,
    /// The values are the same decision for one slot.
    SameDecision,
    /// The decisions for one slot differ, and a signer of one of them is no member.
    Outside,
    /// They differ, all signers are members, and those of one of them weigh less than a quorum.
    TooLight,
    /// The first input lists no weights.
    Unlisted(NoWeights),
    /// The second or the third input is no certificate.
    Unread(Misread),
}

/// The members that signed two different decisions for one slot, each with a quorum by weight at a
/// resilience `k`, and what they weigh; or why there are none. What is wrong with the weights comes
/// first, and then what is wrong with the first certificate. The error is an allocation failure,
/// and comes only where the reading of the weights isn't memory-free. `k` is at least 2.
pub fn weighted_equivocation_of<A: Allocator + Copy>(
    alloc: A,
    k: u32,
    list: &[u8],
    first: &[u8],
    second: &[u8],
) -> Result<Result<WeightedMembers<A>, NoWeightedEquivocation>, AllocError>
    requires resilience { 2 ≤ k }
    ensures members { IfOk result (λ named.
        IsWeightedEquivocation k list.now first.now second.now (weighed_of named)) }
    ensures memory { IfErr result (λ _. MayFailToAllocateToWeigh list.now) }
{
    let weights = match read_weights(alloc, list)? {
        Ok(weights) => weights,
        Err(why) => return Ok(Err(NoWeightedEquivocation::Unlisted(why))),
    };
    match read_both(alloc, first, second)? {
        Ok((one, other)) => by_slot(alloc, k, &weights, &one, &other),
        Err(what) => Ok(Err(NoWeightedEquivocation::Unread(what))),
    }
}

/// The members that signed both certificates, which contradict one another, and what they weigh, or
/// why there are none. The error is an allocation failure, and comes only where the values
/// contradict one another and the signers of each weigh a quorum.
fn by_slot<A: Allocator + Copy>(
    alloc: A,
    k: u32,
    weights: &Weights<A>,
    first: &Certificate<A>,
    second: &Certificate<A>,
) -> Result<Result<WeightedMembers<A>, NoWeightedEquivocation>, AllocError>
    requires resilience { 2 ≤ k }
    requires writable { IsWritableSet IsWord nat_cmp first.now.signers }
    ensures members { IfOk result (λ named.
        IsWeightedEquivocationOf k weights.now (parts first.now) (parts second.now)
        (weighed_of named)) }
    ensures memory { IfErr result (λ _. Contradict first.now.value.items second.now.value.items
        × AreBothOfWeightedQuorums k weights.now (parts first.now) (parts second.now)) }
{
    match weighted_equivocation(alloc, k, weights, first, second) {
        Ok(both) => Ok(Ok(weighed(alloc, weights, &both)?)),
        Err(WeightedEquivocationError::NoSlot) => Ok(Err(NoWeightedEquivocation::NoSlot)),
        Err(WeightedEquivocationError::OtherSlot) => Ok(Err(NoWeightedEquivocation::OtherSlot)),
        Err(WeightedEquivocationError::SameDecision) => {
            Ok(Err(NoWeightedEquivocation::SameDecision))
        }
        Err(WeightedEquivocationError::Outside) => Ok(Err(NoWeightedEquivocation::Outside)),
        Err(WeightedEquivocationError::TooLight) => Ok(Err(NoWeightedEquivocation::TooLight)),
        Err(WeightedEquivocationError::Memory) => Err(AllocError),
    }
}
