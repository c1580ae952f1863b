//! What those weigh that signed two different values.
ghost use Rattle.std.specs.Prelude.{◌≡◌, ◌≢◌, ◌+◌, ◌≤◌, ℕ, List, IfOk, Ok, sum};
ghost use Rattle.committee_certificates.specs.Signers.{AreInBoth};
ghost use Rattle.committee_weights.specs.Members.{faulty_weight, weight_of};

use committee_certificates::Certificate;
use committee_weights::{WeightedConflictError, Weights, weighted_conflict};
use std::alloc::Global;

/// Returns what the members weigh that signed both of two different values, at a `k` of 3: more
/// than may be faulty. Where the values are the same it is 0.
pub fn accused_weight(
    alloc: Global,
    weights: &Weights<Global>,
    first: &Certificate<Global>,
    second: &Certificate<Global>,
) -> Result<u64, WeightedConflictError>
    ensures same { first.now.value.items ≡ second.now.value.items → result ≡ Ok 0 }
    ensures exactly { first.now.value.items ≢ second.now.value.items → IfOk result
        (λ weight. (both : List ℕ) × AreInBoth first.now.signers second.now.signers both
        × (weight ≡ weight_of weights.now both)) }
    ensures more { first.now.value.items ≢ second.now.value.items → IfOk result
        (λ weight. faulty_weight 3 (sum weights.now) + 1 ≤ weight) }
{
    if first.value == second.value {
        return Ok(0);
    }
    let both = weighted_conflict(alloc, 3, weights, first, second)?;
    let weight = weights.weight_of(&both).unwrap();
    Ok(weight)
}
