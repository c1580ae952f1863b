//! Stakes by key, and the threshold of the chains that ask for more than two thirds of them.
ghost use Rattle.std.specs.Prelude.{◌≡◌, ◌+◌, ◌*◌, ◌/◌, ◌↔◌, IfOk, IsErrOf, sum};
ghost use Rattle.std.specs.Map.{values_of};
ghost use Rattle.committee_weights.specs.Refusals.{IsRefusedAs};
ghost use Rattle.committee_weights.specs.declared.weights.error.MapWeightsError.TheVariants.{Refused};
ghost use Rattle.committee_weights.specs.declared.weights.error.WeightsError.{WeightsError as Refusal};

use committee_weights::{MapWeightsError, Weights, weight_law};
use commonware_map::Map;
use commonware_sequence::U64;
use std::alloc::Global;

/// Returns the least whole number that is more than two thirds of all stakes, which is what a
/// quorum weighs at a `k` of 3. No sum and no product wraps, whatever the stakes are.
pub fn two_thirds_of(alloc: Global, stakes: &Map<u32, U64, Global>) -> Result<u64, MapWeightsError>
    ensures value { IfOk result (λ threshold.
        threshold ≡ 2 * sum (values_of stakes.now) / 3 + 1) }
    ensures refused { (error : Refusal)
        → IsErrOf result (Refused error) ↔ IsRefusedAs (values_of stakes.now) error }
{
    weight_law();
    let weights = Weights::from_map(alloc, stakes)?;
    Ok(weights.quorum_weight(3))
}
