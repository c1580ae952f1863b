//! The members that signed both of two certificates, where quorums are by weight.
ghost use Rattle.std.specs.Prelude.{◌≤◌, ◌≢◌, IfErr, IfOk};
ghost use Rattle.std.specs.Ordering.{nat_cmp};
ghost use Rattle.committee_certificates.specs.Certificates.{parts};
ghost use Rattle.commonware_utils.specs.Codec.{IsWord};
ghost use Rattle.commonware_utils.specs.Ordered.{IsWritableSet};
ghost use Rattle.judge_verdicts.specs.WeightedConflicts.{AreBothOfWeightedQuorums, IsWeightedConflict, IsWeightedConflictOf, weighed_of};
ghost use Rattle.judge_verdicts.specs.Weights.{MayFailToAllocateToWeigh};

use crate::certificates::read_both;
use crate::weighted_members::{WeightedMembers, weighed};
use crate::weights::{NoWeights, read_weights};
use crate::whole::Misread;
use committee_certificates::Certificate;
use committee_weights::{WeightedConflictError, Weights, weighted_conflict};
use std::alloc::{AllocError, Allocator};

/// Why two certificates, which are encodings, name no members that signed both, where quorums are
/// by weight.
///
/// Of the weights 40, 30, 20 and 10 at a resilience 3, a quorum weighs 67: where 1, 2 and 3 signed
/// one of them, it is `TooLight`.
#[derive(PartialEq, Eq, Drop)]
pub enum NoWeightedConflict {
    /// Both are for one value.
    EqualValues,
    /// The values differ, and a signer of one of them is no member.
    Outside,
    /// All signers are members, and those of one of them weigh less than a quorum.
    TooLight,
    /// The first input lists no weights.
    Unlisted(NoWeights),
    /// The second or the third input is no certificate.
    Unread(Misread),
}

/// The members that signed both of two certificates for different values, and what they weigh, or
/// why there are none, at a resilience `k`. What is wrong with the weights comes first, and then
/// what is wrong with the first certificate. The error is an allocation failure, and comes only
/// where the reading of the weights isn't memory-free. `k` is at least 2.
pub fn weighted_conflict_of<A: Allocator + Copy>(
    alloc: A,
    k: u32,
    list: &[u8],
    first: &[u8],
    second: &[u8],
) -> Result<Result<WeightedMembers<A>, NoWeightedConflict>, AllocError>
    requires resilience { 2 ≤ k }
    ensures members { IfOk result (λ named.
        IsWeightedConflict k list.now first.now second.now (weighed_of named)) }
    ensures memory { IfErr result (λ _. MayFailToAllocateToWeigh list.now) }
{
    let weights = match read_weights(alloc, list)? {
        Ok(weights) => weights,
        Err(why) => return Ok(Err(NoWeightedConflict::Unlisted(why))),
    };
    match read_both(alloc, first, second)? {
        Ok((one, other)) => among(alloc, k, &weights, &one, &other),
        Err(what) => Ok(Err(NoWeightedConflict::Unread(what))),
    }
}

/// The members that signed both certificates, and what they weigh, or why there are none. The
/// error is an allocation failure, and comes only where the values differ and the signers of each
/// weigh a quorum.
fn among<A: Allocator + Copy>(
    alloc: A,
    k: u32,
    weights: &Weights<A>,
    first: &Certificate<A>,
    second: &Certificate<A>,
) -> Result<Result<WeightedMembers<A>, NoWeightedConflict>, AllocError>
    requires resilience { 2 ≤ k }
    requires writable { IsWritableSet IsWord nat_cmp first.now.signers }
    ensures members { IfOk result (λ named.
        IsWeightedConflictOf k weights.now (parts first.now) (parts second.now)
        (weighed_of named)) }
    ensures memory { IfErr result (λ _. (first.now.value.items ≢ second.now.value.items)
        × AreBothOfWeightedQuorums k weights.now (parts first.now) (parts second.now)) }
{
    if first.value.as_slice() == second.value.as_slice() {
        return Ok(Err(NoWeightedConflict::EqualValues));
    }
    match weighted_conflict(alloc, k, weights, first, second) {
        Ok(both) => Ok(Ok(weighed(alloc, weights, &both)?)),
        Err(WeightedConflictError::Outside) => Ok(Err(NoWeightedConflict::Outside)),
        Err(WeightedConflictError::TooLight) => Ok(Err(NoWeightedConflict::TooLight)),
        Err(WeightedConflictError::Memory) => Err(AllocError),
    }
}
