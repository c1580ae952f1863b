//! Whether members that weigh a quorum signed one certificate.
ghost use Rattle.std.specs.Prelude.{◌≡◌, ◌≤◌, ◌↔◌, IsErrOf, IsOk, IsTrue, length};
ghost use Rattle.committee_certificates.specs.Signers.{AreMembers, HasOutsider};
ghost use Rattle.committee_weights.specs.Members.{AreTooLight, AreWeightedQuorum};
ghost use Rattle.committee_weights.specs.declared.quorums.WeightedQuorumError.TheVariants.{Outside, TooLight};

use crate::weights::Weights;
use committee_certificates::Certificate;
use std::alloc::Allocator;

/// Why the signers of a certificate are no quorum by weight.
///
/// Of the weights 40, 30, 20 and 10, at a `k` of 3, the signers 0, 1 and 4 give `Outside`, and 1, 2
/// and 3 give `TooLight`: they weigh 60, and a quorum weighs 67.
#[derive(Clone, Copy, Debug, PartialEq, Eq, thiserror::Error)]
pub enum WeightedQuorumError {
    /// A signer is at or past the number of weights.
    #[error("a signer is no member of the committee")]
    Outside,
    /// All signers are members, and they weigh less than a quorum.
    #[error("the signers weigh less than a quorum")]
    TooLight,
}

/// Whether the signers of a certificate are members of the committee, and weigh a quorum or more.
/// Nothing is allocated. It requires that `k` is at least 2.
///
/// **Warning.** It looks at no signature: whoever doesn't verify them knows nothing of who signed.
pub fn check_weight<A: Allocator, B: Allocator>(
    k: u32,
    weights: &Weights<B>,
    certificate: &Certificate<A>,
) -> Result<(), WeightedQuorumError>
    requires resilience { 2 ≤ k }
    ensures quorum { IsOk result ↔ AreWeightedQuorum k weights.now certificate.now.signers }
    ensures outside { IsErrOf result Outside
        ↔ HasOutsider (length weights.now) certificate.now.signers }
    ensures too_light { IsErrOf result TooLight
        ↔ (AreMembers (length weights.now) certificate.now.signers
        × AreTooLight k weights.now certificate.now.signers) }
{
    let Some(weight) = weights.weight_of(&certificate.signers) else {
        return Err(WeightedQuorumError::Outside);
    };
    if weight < weights.quorum_weight(k) {
        return Err(WeightedQuorumError::TooLight);
    }
    Ok(())
}

/// Whether the signers of both of two certificates are members that weigh a quorum or more.
pub(crate) fn are_quorums<A: Allocator, B: Allocator>(
    k: u32,
    weights: &Weights<B>,
    first: &Certificate<A>,
    second: &Certificate<A>,
) -> bool
    requires { 2 ≤ k }
    ensures { IsTrue result ↔ (AreWeightedQuorum k weights.now first.now.signers
        × AreWeightedQuorum k weights.now second.now.signers) }
{
    weights.is_quorum(k, &first.signers) && weights.is_quorum(k, &second.signers)
}
