//! The weights of a committee's members, which the caller has in an array: what they are in all,
//! what faulty members may weigh together, and what a quorum weighs. Nothing is allocated.
ghost use Rattle.std.specs.Prelude.{◌≡◌, ◌≢◌, ◌≤◌, ◌↔◌, IfErr, IfOk, sum};
ghost use Rattle.committee_weights.specs.Members.{quorum_weight};
ghost use Rattle.commonware_c.specs.Status.{IsOfInput};
ghost use Rattle.commonware_c.specs.Weights.{AreNoWeights, AreNumbersOf, IsWeightedModel};

use crate::statuses::{INVALID_LENGTH, NO_MEMBERS, NO_MODEL, OK, WEIGHT_OVERFLOW, ZERO_WEIGHT};
use committee_weights::{WeightsError, tolerated_weight, total_weight};

/// What the weights of a committee's members allow, their stake or voting power.
///
/// At a resilience of 3 the weights 40, 30, 20 and 10 have status 0, a total of 100, of which 33
/// are tolerated, a quorum of 67 and a smaller quorum of 67.
#[repr(C)]
#[derive(Clone, Copy, Drop)]
pub struct WeightsView {
    /// OK, NO_MODEL, NO_MEMBERS, INVALID_LENGTH, ZERO_WEIGHT or WEIGHT_OVERFLOW.
    pub status: u32,
    /// At INVALID_LENGTH: how many weights there are; at ZERO_WEIGHT and WEIGHT_OVERFLOW: the index
    /// of a weight.
    pub number: usize,
    /// At OK: what all members weigh.
    pub total: u64,
    /// At OK: f, what faulty members may weigh together.
    pub tolerated: u64,
    /// At OK: what a quorum weighs, total - f.
    pub quorum: u64,
    /// At OK: 2f + 1.
    pub smaller_quorum: u64,
}

/// What the weights of a committee allow at a resilience k. Member i weighs weights[i]: an index is
/// a place in the order of the keys.
///
/// f is (total - 1) / k, the greatest that is safe for all weights of this total: any two subsets
/// of the members that weigh a quorum share members that weigh at least (k - 2)f + 1, and where k
/// is 3 or more, a member outside every subset that weighs at most f. 2f + 1 is the least weight
/// whose subsets share f + 1 with each quorum, for all weights of this total. At a k of 3 the
/// quorum is the "more than two thirds" of the chains, 2 * total / 3 + 1, and no sum or product
/// wraps.
///
/// The status is the first of these: NO_MODEL, NO_MEMBERS for no weights, INVALID_LENGTH for more
/// than 4294967295, and of the first weight that is 0, or with which the sum is past 2^64 - 1,
/// ZERO_WEIGHT or WEIGHT_OVERFLOW. Each weight is looked at once.
#[unsafe(no_mangle)]
pub extern "C" fn commonware_weights_quorum(k: u32, weights: &[u64]) -> WeightsView
    ensures accepted { result.status ≡ 0 → AreNumbersOf k weights.now result }
    ensures refused { result.status ≢ 0
        → AreNoWeights k weights.now result.status result.number }
    ensures nothing_else { result.status ≢ 0 → result ≡ record {
      status = result.status;
      number = result.number;
      total = 0;
      tolerated = 0;
      quorum = 0;
      smaller_quorum = 0;
    } }
    ensures exactly { (result.status ≡ 0) ↔ IsWeightedModel k weights.now }
    ensures no_memory { result.status ≢ 5 }
{
    match total_of(k, weights) {
        Ok(total) => {
            let tolerated = tolerated_weight(k, total);
            WeightsView {
                status: OK,
                number: 0,
                total,
                tolerated,
                quorum: total - tolerated,
                smaller_quorum: 2 * tolerated + 1,
            }
        }
        Err((status, number)) => WeightsView {
            status,
            number,
            total: 0,
            tolerated: 0,
            quorum: 0,
            smaller_quorum: 0,
        },
    }
}

/// Returns what the weights are in all, where they are those of a committee and there is a model;
/// else the status and its number.
pub(crate) fn total_of(k: u32, weights: &[u64]) -> Result<u64, (u32, usize)>
    ensures total { IfOk result (λ total. total ≡ sum weights.now) }
    ensures model { IfOk result (λ _. IsWeightedModel k weights.now) }
    ensures refused { IfErr result (λ why. AreNoWeights k weights.now why.0 why.1) }
    ensures status { IfErr result (λ why. IsOfInput why.0) }
{
    if k < 2 {
        return Err((NO_MODEL, 0));
    }
    match total_weight(weights) {
        Ok(total) => Ok(total),
        Err(WeightsError::Empty) => Err((NO_MEMBERS, 0)),
        Err(WeightsError::TooMany) => Err((INVALID_LENGTH, weights.len())),
        Err(WeightsError::Zero(index)) => Err((ZERO_WEIGHT, index)),
        Err(WeightsError::Overflow(index)) => Err((WEIGHT_OVERFLOW, index)),
    }
}

/// Returns what a quorum weighs, of weights that are this in all.
pub(crate) fn quorum_of(k: u32, total: u64) -> u64
    requires resilience { 2 ≤ k }
    requires some { 1 ≤ total }
    ensures { result ≡ quorum_weight k total }
{
    total - tolerated_weight(k, total)
}
