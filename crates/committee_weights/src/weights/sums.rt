//! Sums of weights, which fit a `u64` or are refused.
ghost use Rattle.std.specs.Prelude.{◌≡◌, ◌+◌, ◌<◌, ◌≤◌, ◌^◌, ◌⊎◌, MatchResult, OnErr, OnOk, SomeIff, length, sum};
ghost use Rattle.committee_certificates.specs.Signers.{AreMembers};
ghost use Rattle.commonware_ordered.specs.Strict.{IsStrict};
ghost use Rattle.committee_weights.specs.Members.{weight_of as weight_of_members};
ghost use Rattle.committee_weights.specs.Refusals.{AreCommitteeWeights, IsRefusedAs};
ghost use Rattle.committee_weights.specs.declared.weights.error.WeightsError.TheVariants.{Overflow, Zero};

use super::error::WeightsError;
use commonware_base::Participant;
use commonware_sequence::U64;

/// Returns the sum of numbers, or why they are no weights of a committee.
pub(crate) fn total_of(weights: &[u64]) -> Result<u64, WeightsError>
    ensures { MatchResult result
        (λ total. AreCommitteeWeights weights.now × (total ≡ sum weights.now))
        (λ error. IsRefusedAs weights.now error) }
{
    if weights.is_empty() {
        return Err(WeightsError::Empty);
    }
    if weights.len() > u32::MAX as usize {
        return Err(WeightsError::TooMany);
    }
    let mut total: u64 = 0;
    for (i, weight) in weights.iter().enumerate() {
        match with_one_more(total, *weight, i) {
            Ok(more) => total = more,
            Err(error) => return Err(error),
        }
    }
    Ok(total)
}

/// Returns the sum of the values of a map, or why they are no weights of a committee.
pub(super) fn total_of_values(values: &[U64]) -> Result<u64, WeightsError>
    ensures { MatchResult result
        (λ total. AreCommitteeWeights values.now × (total ≡ sum values.now))
        (λ error. IsRefusedAs values.now error) }
{
    if values.is_empty() {
        return Err(WeightsError::Empty);
    }
    if values.len() > u32::MAX as usize {
        return Err(WeightsError::TooMany);
    }
    let mut total: u64 = 0;
    for (i, value) in values.iter().enumerate() {
        match with_one_more(total, value.get(), i) {
            Ok(more) => total = more,
            Err(error) => return Err(error),
        }
    }
    Ok(total)
}

/// Returns a sum with the weight at an index added, or why that is none.
fn with_one_more(total: u64, weight: u64, index: usize) -> Result<u64, WeightsError>
    ensures { MatchResult result
        (λ more. (1 ≤ weight) × (more ≡ total + weight))
        (λ error. ((error ≡ Zero index) × (weight ≡ 0))
        ⊎ ((error ≡ Overflow index) × (2 ^ 64 ≤ total + weight))) }
{
    if weight == 0 {
        return Err(WeightsError::Zero(index));
    }
    match total.checked_add(weight) {
        Some(more) => Ok(more),
        None => Err(WeightsError::Overflow(index)),
    }
}

/// Returns what the participants of a strictly increasing list weigh, or `None` where one of them
/// is no member. The weights have a sum that fits.
pub(super) fn weight_listed(weights: &[u64], listed: &[Participant]) -> Option<u64>
    requires strict { IsStrict ⟦<Participant as Ord>⟧.cmp listed.now }
    requires fits { sum weights.now < 2 ^ 64 }
    ensures { SomeIff result (AreMembers (length weights.now) listed.now)
        (weight_of_members weights.now listed.now) }
{
    let mut weight: u64 = 0;
    for participant in listed {
        match weights.get(usize::from(*participant)) {
            Some(more) => weight += *more,
            None => return None,
        }
    }
    Some(weight)
}
