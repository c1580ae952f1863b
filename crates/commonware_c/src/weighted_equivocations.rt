//! Equivocation by weight: the members that signed two different decisions for one slot, and what
//! they weigh, from the certificates' encodings. Nothing is allocated.
ghost use Rattle.std.specs.Prelude.{◌≡◌, ◌≢◌, ◌≤◌, ◌⊎◌, IfErr, IfOk, drop, length, take};
ghost use Rattle.committee_weights.specs.Members.{weight_of};
ghost use Rattle.commonware_c.specs.Status.{IsOfInput};
ghost use Rattle.commonware_c.specs.WeightedEquivocations.{AreContradictingByWeight};
ghost use Rattle.commonware_c.specs.WeightedEquivocations.{AreEquivocatorsByWeight};
ghost use Rattle.commonware_c.specs.WeightedEquivocations.{IsNoEquivocationByWeight};
ghost use Rattle.commonware_c.specs.WeightedEquivocations.{LacksRoomForEquivocatorsByWeight};

use crate::conflicts::{Reason, find_both};
use crate::equivocations::check_values;
use crate::weighted_conflicts::{
    WeightedConflictView, check_weights, quorum_among, weighted_view_of_both,
    weighted_view_of_reason,
};
use committee_certificates::SignersAt;

/// The members that equivocated: those that signed both of two certificates for different decisions
/// for one slot. All is as commonware_weighted_conflict has it, and no honest member is named where
/// honest members sign at most one decision a slot.
///
/// Warning: no signature is looked at. Whoever doesn't verify them first may accuse an innocent
/// member.
///
/// The status is the first of these: what commonware_weights_quorum says of the weights, a fault of
/// the first input, one of the second, NO_SLOT of the first value, of the second, OTHER_SLOT,
/// SAME_VALUE for one decision, OUTSIDE of the first, of the second, TOO_LIGHT of the first, of the
/// second, ROOM. Never MEMORY.
#[unsafe(no_mangle)]
pub extern "C" fn commonware_weighted_equivocation(
    k: u32,
    weights: &[u64],
    first: &[u8],
    second: &[u8],
    out: &mut [u32],
) -> WeightedConflictView
    ensures fits { result.status ≡ 0 → result.count ≤ length out.new }
    ensures named { result.status ≡ 0 → AreEquivocatorsByWeight
        k weights.now first.now second.now (take result.count out.new) }
    ensures weigh { result.status ≡ 0
        → result.weight ≡ weight_of weights.now (take result.count out.new) }
    ensures after { result.status ≡ 0 → drop result.count out.new ≡ drop result.count out.old }
    ensures untouched { result.status ≢ 0 → out.new ≡ out.old }
    ensures room { result.status ≡ 11 → LacksRoomForEquivocatorsByWeight
        k weights.now first.now second.now (length out.old) result.count }
    ensures about_none { (result.status ≡ 0) ⊎ (result.status ≡ 11)
        → (result.which ≡ 0) × (result.number ≡ 0) }
    ensures stopped { result.status ≢ 0 → result.status ≢ 11 → IsNoEquivocationByWeight
        k weights.now first.now second.now result.status result.which result.number }
    ensures no_one { result.status ≢ 0 → result.status ≢ 11 → result.count ≡ 0 }
    ensures no_weight { result.status ≢ 0 → result.weight ≡ 0 }
    ensures no_memory { result.status ≢ 5 }
{
    match contradicting_signers(k, weights, first, second) {
        Ok((first_signers, second_signers)) => {
            weighted_view_of_both(weights, &first_signers, &second_signers, out)
        }
        Err(reason) => weighted_view_of_reason(reason),
    }
}

/// Returns the signers of both certificates, or the first reason for which no one is named.
fn contradicting_signers<'a>(
    k: u32,
    weights: &[u64],
    first: &'a [u8],
    second: &'a [u8],
) -> Result<(SignersAt<'a>, SignersAt<'a>), Reason>
    ensures contradicting { IfOk result (λ both. AreContradictingByWeight
        k weights.now first.now second.now both.0 both.1) }
    ensures stopped { IfErr result (λ reason. IsNoEquivocationByWeight
        k weights.now first.now second.now reason.status reason.which reason.number) }
    ensures status { IfErr result (λ reason. IsOfInput reason.status) }
{
    let quorum = quorum_among(k, weights)?;
    let (one, two) = find_both(k, weights.len() as u32, first, second)?;
    check_values(one.value, two.value)?;
    check_weights(quorum, weights, &one.signers, &two.signers)?;
    Ok((one.signers, two.signers))
}
