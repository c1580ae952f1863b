//! Accountability by weight: the members that signed both of two certificates for different values,
//! and what they weigh.
ghost use Rattle.std.specs.Prelude.{◌≡◌, ◌≢◌, ◌+◌, ◌-◌, ◌*◌, ◌≤◌, ◌⊎◌, ◌↔◌, IfErr, IfOk, IsErrOf, OnOk, length, sum};
ghost use Rattle.committee_certificates.specs.Signers.{AreInBoth, AreMembers, HasOutsider};
ghost use Rattle.committee_weights.specs.Members.{AreTooLight, AreWeightedQuorum, faulty_weight, weight_of};
ghost use Rattle.committee_weights.specs.Members.{LeavesOneOutsideWeight};
ghost use Rattle.committee_weights.specs.declared.conflicts.WeightedConflictError.TheVariants.{Memory, Outside, TooLight};

use crate::weights::Weights;
use committee_certificates::{Certificate, ConflictError, conflict_among};
use commonware_base::Participant;
use commonware_ordered::Set;
use std::alloc::Allocator;

/// Why two certificates name no one, where quorums are by weight.
///
/// Of the weights 40, 30, 20 and 10, at a `k` of 3, the signers 0 and 1 with 1, 2 and 3 give
/// `TooLight`, since the latter weigh 60, and with 0 and 4294967295 they give `Outside`.
#[derive(Clone, Copy, Debug, PartialEq, Eq, thiserror::Error)]
pub enum WeightedConflictError {
    /// A signer of one of them is at or past the number of weights.
    #[error("a signer is no member of the committee")]
    Outside,
    /// All signers are members, and those of one of them weigh less than a quorum.
    #[error("the signers weigh less than a quorum")]
    TooLight,
    /// An allocation failed. It says nothing of the certificates.
    #[error("out of memory")]
    Memory,
}

/// Returns the members that signed both of two certificates for different values, where quorums are
/// by weight: exactly the signers of both. It requires that the values differ, and that `k` is at
/// least 2.
///
/// To sign two values is a fault only where both are for one slot (chain, committee, height, round
/// and kind of vote, say), which `weighted_equivocation` asks: honest members sign many values, at
/// most one a slot.
///
/// **Warning.** No signature is looked at. Whoever doesn't verify them first may accuse an innocent
/// member.
///
/// A signer that is no member gives the error `Outside`; else, where every signer is a member, a
/// certificate whose signers weigh less than a quorum gives `TooLight`. Both are checked before
/// anything is allocated, so `Memory` comes after them.
///
/// With f the greatest weight that is safe for all weights of this total, (total - 1) / k, those
/// that are returned weigh at least (k - 2)f + 1. At a `k` of 3 or more, whichever participants are
/// faulty (Byzantine), if they weigh at most f together, one that is returned isn't among them.
///
/// Of the weights 40, 30, 20 and 10, at a `k` of 3, the signers 0 and 1 with 0, 2 and 3 give 0, who
/// weighs 40, and f is 33.
pub fn weighted_conflict<A: Allocator, B: Allocator>(
    alloc: A,
    k: u32,
    weights: &Weights<B>,
    first: &Certificate<A>,
    second: &Certificate<A>,
) -> Result<Set<Participant, A>, WeightedConflictError>
    requires differ { first.now.value.items ≢ second.now.value.items }
    requires resilience { 2 ≤ k }
    ensures outside { let n = length weights.now in IsErrOf result Outside
        ↔ (HasOutsider n first.now.signers ⊎ HasOutsider n second.now.signers) }
    ensures too_light { let n = length weights.now in IsErrOf result TooLight
        ↔ (AreMembers n first.now.signers × AreMembers n second.now.signers
        × (AreTooLight k weights.now first.now.signers
        ⊎ AreTooLight k weights.now second.now.signers)) }
    ensures memory { IsErrOf result Memory
        → (AreWeightedQuorum k weights.now first.now.signers
        × AreWeightedQuorum k weights.now second.now.signers) }
    ensures quorums { OnOk result (AreWeightedQuorum k weights.now first.now.signers
        × AreWeightedQuorum k weights.now second.now.signers) }
    ensures both { IfOk result (AreInBoth first.now.signers second.now.signers) }
    ensures members { IfOk result (AreMembers (length weights.now)) }
    ensures shared { let total = sum weights.now in IfOk result (λ both.
        total ≤ 2 * faulty_weight k total + weight_of weights.now both) }
    ensures weigh { let f = faulty_weight k (sum weights.now) in
        IfOk result (λ both. (k - 2) * f + 1 ≤ weight_of weights.now both) }
    ensures leaves { let f = faulty_weight k (sum weights.now) in
        3 ≤ k → IfOk result (LeavesOneOutsideWeight weights.now f) }
{
    check_signers(k, weights, &first.signers, &second.signers)?;
    let members = weights.len();
    // With as many faults as members it asks for no number of signers.
    match conflict_among(alloc, members, members as u32, first, second) {
        Ok(both) => Ok(both),
        Err(ConflictError::Outside) => Err(WeightedConflictError::Outside),
        Err(ConflictError::TooFew) => Err(WeightedConflictError::TooLight),
        Err(ConflictError::Memory) => Err(WeightedConflictError::Memory),
    }
}

/// Refuses a signer of either set that is no member, and then a set that weighs less than a quorum.
fn check_signers<A: Allocator, B: Allocator>(
    k: u32,
    weights: &Weights<B>,
    first: &Set<Participant, A>,
    second: &Set<Participant, A>,
) -> Result<(), WeightedConflictError>
    requires { 2 ≤ k }
    ensures outside { IsErrOf result Outside
        ↔ (HasOutsider (length weights.now) first.now
        ⊎ HasOutsider (length weights.now) second.now) }
    ensures too_light { let n = length weights.now in IsErrOf result TooLight
        ↔ (AreMembers n first.now × AreMembers n second.now
        × (AreTooLight k weights.now first.now ⊎ AreTooLight k weights.now second.now)) }
    ensures quorums { OnOk result (AreWeightedQuorum k weights.now first.now
        × AreWeightedQuorum k weights.now second.now) }
    ensures only { IfErr result (λ error. (error ≡ Outside) ⊎ (error ≡ TooLight)) }
{
    let Some(one) = weights.weight_of(first) else {
        return Err(WeightedConflictError::Outside);
    };
    let Some(two) = weights.weight_of(second) else {
        return Err(WeightedConflictError::Outside);
    };
    let quorum = weights.quorum_weight(k);
    if one < quorum || two < quorum {
        return Err(WeightedConflictError::TooLight);
    }
    Ok(())
}
