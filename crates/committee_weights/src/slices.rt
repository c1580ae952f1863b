//! Weights that a caller holds in a slice: what they are in all, and what some of them are
//! together. Nothing is copied or allocated.
ghost use Rattle.std.specs.Prelude.{◌≡◌, ◌≤◌, ◌<◌, ◌^◌, ◌↔◌, ℕ, List, IfOk, IsErrOf, IsOk, SomeIff, length, sum};
ghost use Rattle.std.specs.Ordering.{nat_cmp};
ghost use Rattle.committee_certificates.specs.InPlace.{AreSignersAt};
ghost use Rattle.committee_certificates.specs.Signers.{AreMembers};
ghost use Rattle.commonware_ordered.specs.Strict.{IsStrict};
ghost use Rattle.committee_weights.specs.Members.{faulty_weight, weight_of};
ghost use Rattle.committee_weights.specs.Refusals.{AreCommitteeWeights, IsRefusedAs};
ghost use Rattle.committee_weights.specs.Tolerance.{IsWeightTolerance};
ghost use Rattle.committee_weights.specs.declared.weights.error.WeightsError.{WeightsError as Refusal};

use crate::weights::{WeightsError, total_of};
use committee_certificates::SignersAt;

/// Returns what the weights of a committee are in all, or why the numbers are no weights, as
/// `Weights::new` has it.
///
/// Of 40, 30, 20 and 10 it is 100, and 40 and 0 give `Zero(1)`.
pub fn total_weight(weights: &[u64]) -> Result<u64, WeightsError>
    ensures total { IfOk result (λ total. total ≡ sum weights.now) }
    ensures accepted { IsOk result ↔ AreCommitteeWeights weights.now }
    ensures refused { (error : Refusal)
        → IsErrOf result error ↔ IsRefusedAs weights.now error }
{
    total_of(weights)
}

/// Returns what faulty participants may weigh together, of a total that isn't 0, at a resilience
/// `n >= kf + 1`, where n is the total: the greatest f that is safe for all weights of this total.
/// It requires that `k` is at least 2.
///
/// Of a total of 100 it is 33 at a `k` of 3.
pub fn tolerated_weight(k: u32, total: u64) -> u64
    requires resilience { 2 ≤ k }
    requires some { 1 ≤ total }
    ensures value { result ≡ faulty_weight k total }
    ensures tolerance { IsWeightTolerance k total result }
{
    (total - 1) / k as u64
}

/// Returns what the signers of a certificate weigh together, who stay where the input has them, or
/// `None` where one of them is no member. The sum of all weights has to fit a `u64`.
///
/// Of the weights 40, 30 and 20 the signers 0 and 2 weigh 60.
pub fn weight_of_signers(weights: &[u64], signers: &SignersAt<'_>) -> Option<u64>
    requires fits { sum weights.now < 2 ^ 64 }
    ensures { (indices : List ℕ) → AreSignersAt signers.now indices → SomeIff result
        (AreMembers (length weights.now) indices) (weight_of weights.now indices) }
{
    signers.sum_of(weights)
}

/// Returns what the participants of strictly increasing indices weigh together, or `None` where one
/// of them is no member. The sum of all weights has to fit a `u64`.
///
/// Of the weights 40, 30 and 20 the indices 0 and 2 are 60.
pub fn weight_of_indices(weights: &[u64], indices: &[u32]) -> Option<u64>
    requires strict { IsStrict nat_cmp indices.now }
    requires fits { sum weights.now < 2 ^ 64 }
    ensures { SomeIff result
        (AreMembers (length weights.now) indices.now) (weight_of weights.now indices.now) }
{
    let mut weight: u64 = 0;
    for index in indices {
        match weights.get(*index as usize) {
            Some(more) => weight += *more,
            None => return None,
        }
    }
    Some(weight)
}
