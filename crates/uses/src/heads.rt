//! Weights of 1, by which a committee without stakes calls what counts by weight.
ghost use Rattle.std.specs.Prelude.{◌≡◌, ◌-◌, ◌/◌, ◌↔◌, All, IsTrue, SomeIff, length};
ghost use Rattle.committee_certificates.specs.Signers.{AreMembers, AreQuorum};

use committee_certificates::Certificate;
use committee_weights::{Weights, ones_law};
use commonware_utils::Participant;
use commonware_utils::faults::{Faults, N3f1, N5f1};
use commonware_utils::ordered::Set;
use std::alloc::Global;

/// Returns what a quorum weighs at a `k` of 3: n less (n - 1) / 3 of n members. It requires that
/// all weights are 1.
pub fn votes_needed(ones: &Weights<Global>) -> u64
    requires { All (λ w. w ≡ 1) ones.now }
    ensures { result ≡ length ones.now - (length ones.now - 1) / 3 }
{
    ones_law();
    ones.quorum_weight(3)
}

/// Returns how many of n members may be faulty at a `k` of 3. It requires that all weights are 1.
pub fn faulty_heads(ones: &Weights<Global>) -> u64
    requires { All (λ w. w ≡ 1) ones.now }
    ensures { result ≡ (length ones.now - 1) / 3 }
{
    ones_law();
    ones.max_faulty_weight(3)
}

/// Returns how many the voters are, by their weights, or `None` where one is no member. It requires
/// that all weights are 1.
pub fn heads_of(ones: &Weights<Global>, voters: &Set<Participant, Global>) -> Option<u64>
    requires { All (λ w. w ≡ 1) ones.now }
    ensures { SomeIff result (AreMembers (length ones.now) voters.now) (length voters.now) }
{
    ones_law();
    let _ = voters.as_slice();
    ones.weight_of(voters)
}

/// Whether a quorum signed a certificate, by weight: exactly where `N3f1` says so by heads. It
/// requires that all weights are 1.
pub fn is_third_quorum(ones: &Weights<Global>, certificate: &Certificate<Global>) -> bool
    requires { All (λ w. w ≡ 1) ones.now }
    ensures { IsTrue result
        ↔ AreQuorum ⟦<N3f1 as Faults>⟧.faults (length ones.now) certificate.now.signers }
{
    ones_law();
    let _ = certificate.signers.as_slice();
    ones.is_quorum(3, &certificate.signers)
}

/// What `is_third_quorum` says at a `k` of 5, and `N5f1`.
pub fn is_fifth_quorum(ones: &Weights<Global>, certificate: &Certificate<Global>) -> bool
    requires { All (λ w. w ≡ 1) ones.now }
    ensures { IsTrue result
        ↔ AreQuorum ⟦<N5f1 as Faults>⟧.faults (length ones.now) certificate.now.signers }
{
    ones_law();
    let _ = certificate.signers.as_slice();
    ones.is_quorum(5, &certificate.signers)
}
