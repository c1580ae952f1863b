//! Whether a quorum of a committee signed one certificate.
ghost use Rattle.std.specs.Prelude.{◌≡◌, ◌≤◌, ◌↔◌, IsErrOf, IsOk, length, pos};
ghost use Rattle.committee_certificates.specs.declared.quorums.QuorumError.TheVariants.{Outside, TooFew};
ghost use Rattle.committee_certificates.specs.Signers.{AreMembers, AreQuorum, AreTooFew};
ghost use Rattle.committee_certificates.specs.Signers.{HasOutsider};
ghost use Rattle.commonware_faults.specs.Counts.{IsCommitteeSize};

use crate::certificate::Certificate;
use crate::signers::are_members;
use commonware_faults::Faults;
use commonware_ordered::{Quorum, Set};
use std::alloc::Allocator;

/// Why the signers of a certificate are no quorum.
///
/// In a committee of 4 under `N3f1`, 0, 1 and 4 give `Outside`, and 2 and 3 give `TooFew`.
#[derive(Clone, Copy, Debug, PartialEq, Eq, thiserror::Error)]
pub enum QuorumError {
    /// A signer is at or past the committee's length.
    #[error("a signer is no member of the committee")]
    Outside,
    /// All signers are members, and they are fewer than a quorum.
    #[error("fewer signers than a quorum")]
    TooFew,
}

/// Whether the signers of a certificate are members of the committee, and at least a quorum of the
/// fault model. Nothing is allocated. It requires that the committee has 1 to `u32::MAX` members.
///
/// **Warning.** It looks at no signature: whoever doesn't verify them knows nothing of who signed.
pub fn check_quorum<M: Faults, T: Ord, A: Allocator>(
    committee: &Set<T, A>,
    certificate: &Certificate<A>,
) -> Result<(), QuorumError>
    requires some { IsCommitteeSize (pos (length committee.now)) }
    ensures quorum { let n = length committee.now in IsOk result
        ↔ AreQuorum M.faults n certificate.now.signers }
    ensures outside { let n = length committee.now in IsErrOf result Outside
        ↔ HasOutsider n certificate.now.signers }
    ensures too_few { let n = length committee.now in IsErrOf result TooFew
        ↔ (AreMembers n certificate.now.signers × AreTooFew M.faults n certificate.now.signers) }
{
    let members = committee.len();
    check_quorum_among(members, M::max_faults(members), certificate)
}

/// What `check_quorum` says for a committee of `members` members and a model that tolerates
/// `faults` of them. It requires that `faults` is at most `members`.
pub fn check_quorum_among<A: Allocator>(
    members: usize,
    faults: u32,
    certificate: &Certificate<A>,
) -> Result<(), QuorumError>
    requires at_most { faults ≤ members }
    ensures quorum { IsOk result ↔ AreQuorum (λ _. faults) members certificate.now.signers }
    ensures outside { IsErrOf result Outside ↔ HasOutsider members certificate.now.signers }
    ensures too_few { IsErrOf result TooFew ↔ (AreMembers members certificate.now.signers
        × AreTooFew (λ _. faults) members certificate.now.signers) }
{
    if !are_members(members, &certificate.signers) {
        return Err(QuorumError::Outside);
    }
    if certificate.signers.len() < members - faults as usize {
        return Err(QuorumError::TooFew);
    }
    Ok(())
}
