//! Whether signers that weigh a quorum signed a certificate.
ghost use Rattle.std.specs.Prelude.{◌≤◌, IfErr, IfOk, length};
ghost use Rattle.committee_certificates.specs.Certificates.{parts};
ghost use Rattle.committee_weights.specs.Members.{AreWeightedQuorum};
ghost use Rattle.judge_verdicts.specs.WeightedQuorums.{IsCheckedByWeight, IsWeightChecked, weight_checked_of};
ghost use Rattle.judge_verdicts.specs.Weights.{MayFailToAllocateToWeigh};

use crate::certificates::read_certificate;
use crate::quorum::{SlotAndDecision, copied_slot};
use crate::weighted_members::weigh;
use crate::weights::{NoWeights, read_weights};
use crate::whole::Misread;
use committee_certificates::Certificate;
use committee_weights::{WeightedQuorumError, Weights, check_weight};
use std::alloc::{AllocError, Allocator};

/// A certificate whose signers weigh a quorum.
///
/// Of the weights 40, 30, 20 and 10 at a resilience 3, `03 01 07 aa 02 00 01` has 2 signers, who
/// weigh 70, the slot `07` and the decision `aa`.
#[derive(Drop)]
pub struct WeightChecked<A: Allocator> {
    /// How many signed it.
    pub signers: usize,
    /// What they weigh.
    pub weight: u64,
    /// The slot and the decision that its value is, or `None` where it has no slot.
    pub slot: Option<SlotAndDecision<A>>,
}

/// Why a certificate, which is an encoding, isn't one of a quorum by weight.
///
/// Of the weights 40, 30, 20 and 10 at a resilience 3, a quorum weighs 67: where 1, 2 and 3 signed
/// it, it is `TooLight`.
#[derive(PartialEq, Eq, Drop)]
pub enum NoWeightedQuorum {
    /// A signer is no member.
    Outside,
    /// All signers are members, and they weigh less than a quorum.
    TooLight,
    /// The first input lists no weights.
    Unlisted(NoWeights),
    /// The second input is no certificate.
    Unread(Misread),
}

/// What signers that weigh a quorum, at a resilience `k`, signed by the certificate, or why none
/// did. What is wrong with the weights comes first. The error is an allocation failure, and comes
/// only where the reading of the weights isn't memory-free. `k` is at least 2.
pub fn weighted_quorum_of<A: Allocator + Copy>(
    alloc: A,
    k: u32,
    list: &[u8],
    text: &[u8],
) -> Result<Result<WeightChecked<A>, NoWeightedQuorum>, AllocError>
    requires resilience { 2 ≤ k }
    ensures checked { IfOk result (λ checked.
        IsWeightChecked k list.now text.now (weight_checked_of checked)) }
    ensures memory { IfErr result (λ _. MayFailToAllocateToWeigh list.now) }
{
    let weights = match read_weights(alloc, list)? {
        Ok(weights) => weights,
        Err(why) => return Ok(Err(NoWeightedQuorum::Unlisted(why))),
    };
    match read_certificate(alloc, text)? {
        Ok(certificate) => checked(alloc, k, &weights, &certificate),
        Err(what) => Ok(Err(NoWeightedQuorum::Unread(what))),
    }
}

/// What signers that weigh a quorum signed by the certificate, or why none did. The error is an
/// allocation failure, and comes only where they weigh a quorum and the value has two bytes or
/// more.
fn checked<A: Allocator + Copy>(
    alloc: A,
    k: u32,
    weights: &Weights<A>,
    certificate: &Certificate<A>,
) -> Result<Result<WeightChecked<A>, NoWeightedQuorum>, AllocError>
    requires resilience { 2 ≤ k }
    ensures checked { IfOk result (λ checked.
        IsCheckedByWeight k weights.now (parts certificate.now) (weight_checked_of checked)) }
    ensures memory { IfErr result (λ _. AreWeightedQuorum k weights.now certificate.now.signers
        × (2 ≤ length certificate.now.value.items)) }
{
    match check_weight(k, weights, certificate) {
        Ok(()) => Ok(Ok(WeightChecked {
            signers: certificate.signers.len(),
            weight: weigh(weights, &certificate.signers),
            slot: copied_slot(alloc, &certificate.value)?,
        })),
        Err(WeightedQuorumError::Outside) => Ok(Err(NoWeightedQuorum::Outside)),
        Err(WeightedQuorumError::TooLight) => Ok(Err(NoWeightedQuorum::TooLight)),
    }
}
