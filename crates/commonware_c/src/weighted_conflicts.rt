//! Accountability by weight: the members that signed both of two certificates for different values,
//! and what they weigh, from the certificates' encodings. Nothing is allocated.
ghost use Rattle.std.specs.Prelude.{◌≡◌, ◌≢◌, ◌≤◌, ◌<◌, ◌^◌, ◌⊎◌, ℕ, List, IfErr, IfOk, OnOk, drop, length, sum, take};
ghost use Rattle.committee_certificates.specs.InPlace.{AreSignersAt};
ghost use Rattle.committee_certificates.specs.Signers.{AreMembers};
ghost use Rattle.committee_weights.specs.Members.{AreWeightedQuorum, quorum_weight, weight_of};
ghost use Rattle.commonware_c.specs.Status.{IsOfInput};
ghost use Rattle.commonware_c.specs.WeightedConflicts.{AreAccusedByWeight, AreConflictingByWeight};
ghost use Rattle.commonware_c.specs.WeightedConflicts.{AreNoWeightedQuorums, IsStoppedByWeight};
ghost use Rattle.commonware_c.specs.WeightedConflicts.{IsWeightedViewOfBoth, LacksRoomByWeight};
ghost use Rattle.commonware_c.specs.Weights.{AreNoWeights, IsWeightedModel};

use crate::conflicts::{
    ConflictView, Reason, find_both, reason_of, reason_of_neither, view_of_both, view_of_reason,
};
use crate::statuses::{OK, OUTSIDE, SAME_VALUE, TOO_LIGHT};
use crate::weights::{quorum_of, total_of};
use committee_certificates::SignersAt;
use committee_weights::{weight_of_indices, weight_of_signers};

/// The result for two certificates, by weight.
///
/// Of the weights 40, 30, 20 and 10, at a resilience of 3, `01 aa 02 00 01` and `01 bb 03 00 02 03`
/// have status 0 and count 1: member 0 signed both values, who weighs 40.
#[repr(C)]
#[derive(Clone, Copy, Drop)]
pub struct WeightedConflictView {
    /// As the call says.
    pub status: u32,
    /// The input that the status is about, 1 or 2; 0 at OK, ROOM, SAME_VALUE and OTHER_SLOT, and
    /// where it is about the weights or k.
    pub which: u32,
    /// At LEFT_OVER: how many bytes follow the certificate; else as commonware_weights_view has it.
    pub number: usize,
    /// At OK and ROOM: how many members signed both.
    pub count: usize,
    /// At OK: what they weigh together.
    pub weight: u64,
}

/// The members that signed both of two certificates for different values, in a committee with these
/// weights at a resilience k: their indices go to the start of `out`, in order. With f as
/// commonware_weights_quorum has it they weigh at least (k - 2)f + 1, and where k is 3 or more, at
/// least one of them is outside every set of members that weighs at most f. Each input is exactly
/// one certificate. To sign two values is a fault only where both are for one slot, which
/// commonware_weighted_equivocation asks: honest members sign many values, one a slot.
///
/// Warning: no signature is looked at. Whoever doesn't verify them first may accuse an innocent
/// member.
///
/// The status is the first of these: what commonware_weights_quorum says of the weights, a fault of
/// the first input (END_OF_INPUT, INVALID_VARINT, NOT_STRICT, LEFT_OVER), one of the second,
/// SAME_VALUE, OUTSIDE of the first, of the second, TOO_LIGHT of the first, of the second, ROOM. As
/// many indices as there are members always suffice. Never MEMORY.
#[unsafe(no_mangle)]
pub extern "C" fn commonware_weighted_conflict(
    k: u32,
    weights: &[u64],
    first: &[u8],
    second: &[u8],
    out: &mut [u32],
) -> WeightedConflictView
    ensures fits { result.status ≡ 0 → result.count ≤ length out.new }
    ensures accused { result.status ≡ 0 → AreAccusedByWeight
        k weights.now first.now second.now (take result.count out.new) }
    ensures weigh { result.status ≡ 0
        → result.weight ≡ weight_of weights.now (take result.count out.new) }
    ensures after { result.status ≡ 0 → drop result.count out.new ≡ drop result.count out.old }
    ensures untouched { result.status ≢ 0 → out.new ≡ out.old }
    ensures room { result.status ≡ 11 → LacksRoomByWeight
        k weights.now first.now second.now (length out.old) result.count }
    ensures about_none { (result.status ≡ 0) ⊎ (result.status ≡ 11)
        → (result.which ≡ 0) × (result.number ≡ 0) }
    ensures stopped { result.status ≢ 0 → result.status ≢ 11 → IsStoppedByWeight
        k weights.now first.now second.now result.status result.which result.number }
    ensures no_one { result.status ≢ 0 → result.status ≢ 11 → result.count ≡ 0 }
    ensures no_weight { result.status ≢ 0 → result.weight ≡ 0 }
    ensures no_memory { result.status ≢ 5 }
{
    match signers_of(k, weights, first, second) {
        Ok((first_signers, second_signers)) => {
            weighted_view_of_both(weights, &first_signers, &second_signers, out)
        }
        Err(reason) => weighted_view_of_reason(reason),
    }
}

/// Returns the signers of both certificates, or the first reason for which no one is named.
fn signers_of<'a>(
    k: u32,
    weights: &[u64],
    first: &'a [u8],
    second: &'a [u8],
) -> Result<(SignersAt<'a>, SignersAt<'a>), Reason>
    ensures conflicting { IfOk result (λ both. AreConflictingByWeight
        k weights.now first.now second.now both.0 both.1) }
    ensures stopped { IfErr result (λ reason. IsStoppedByWeight
        k weights.now first.now second.now reason.status reason.which reason.number) }
    ensures status { IfErr result (λ reason. IsOfInput reason.status) }
{
    let quorum = quorum_among(k, weights)?;
    let (one, two) = find_both(k, weights.len() as u32, first, second)?;
    if one.value == two.value {
        return Err(reason_of_neither(SAME_VALUE));
    }
    check_weights(quorum, weights, &one.signers, &two.signers)?;
    Ok((one.signers, two.signers))
}

/// Returns what a quorum weighs, or why the numbers are no weights of a committee, or there is no
/// model.
pub(crate) fn quorum_among(k: u32, weights: &[u64]) -> Result<u64, Reason>
    ensures quorum { IfOk result (λ quorum. quorum ≡ quorum_weight k (sum weights.now)) }
    ensures model { IfOk result (λ _. IsWeightedModel k weights.now) }
    ensures refused { IfErr result (λ reason.
        AreNoWeights k weights.now reason.status reason.number) }
    ensures which { IfErr result (λ reason. reason.which ≡ 0) }
    ensures status { IfErr result (λ reason. IsOfInput reason.status) }
{
    match total_of(k, weights) {
        Ok(total) => Ok(quorum_of(k, total)),
        Err((status, number)) => Err(Reason {
            status,
            which: 0,
            number,
        }),
    }
}

/// Refuses a signer that is no member, of the first and then of the second, and then signers that
/// weigh less than a quorum.
pub(crate) fn check_weights(
    quorum: u64,
    weights: &[u64],
    first: &SignersAt<'_>,
    second: &SignersAt<'_>,
) -> Result<(), Reason>
    requires { sum weights.now < 2 ^ 64 }
    ensures quorums { OnOk result ((k : ℕ) (one two : List ℕ)
        → quorum ≡ quorum_weight k (sum weights.now)
        → AreSignersAt first.now one → AreSignersAt second.now two
        → AreWeightedQuorum k weights.now one × AreWeightedQuorum k weights.now two) }
    ensures refused { IfErr result (λ reason. (k : ℕ) (one two : List ℕ)
        → quorum ≡ quorum_weight k (sum weights.now)
        → AreSignersAt first.now one → AreSignersAt second.now two
        → AreNoWeightedQuorums k weights.now one two reason.status reason.which) }
    ensures number { IfErr result (λ reason. reason.number ≡ 0) }
    ensures status { IfErr result (λ reason. IsOfInput reason.status) }
{
    let Some(one) = weight_of_signers(weights, first) else {
        return Err(reason_of(OUTSIDE, 1));
    };
    let Some(two) = weight_of_signers(weights, second) else {
        return Err(reason_of(OUTSIDE, 2));
    };
    if one < quorum {
        return Err(reason_of(TOO_LIGHT, 1));
    }
    if two < quorum {
        return Err(reason_of(TOO_LIGHT, 2));
    }
    Ok(())
}

/// Returns the view of the members that signed both, whose indices go to `out` if it is large
/// enough, with what they weigh. All signers of the first have to be members, whose weights have a
/// sum that fits.
pub(crate) fn weighted_view_of_both(
    weights: &[u64],
    first: &SignersAt<'_>,
    second: &SignersAt<'_>,
    out: &mut [u32],
) -> WeightedConflictView
    requires fits { sum weights.now < 2 ^ 64 }
    requires signers { (one : List ℕ) × (two : List ℕ) × AreSignersAt first.now one
        × AreSignersAt second.now two × AreMembers (length weights.now) one }
    ensures { (one two : List ℕ) → AreSignersAt first.now one → AreSignersAt second.now two
        → IsWeightedViewOfBoth weights.now one two result out.old out.new }
{
    let view = view_of_both(first, second, out);
    if view.status != OK {
        return with_weight(view, 0);
    }
    match weight_of_indices(weights, &out[..view.count]) {
        Some(weight) => with_weight(view, weight),
        None => with_weight(view, 0),
    }
}

/// Returns the view of a reason, for which no one is named.
pub(crate) fn weighted_view_of_reason(reason: Reason) -> WeightedConflictView
    ensures { result ≡ record {
      status = reason.status;
      which = reason.which;
      number = reason.number;
      count = 0;
      weight = 0;
    } }
{
    with_weight(view_of_reason(reason), 0)
}

/// Returns the view with a weight.
fn with_weight(view: ConflictView, weight: u64) -> WeightedConflictView
    ensures { result ≡ record {
      status = view.status;
      which = view.which;
      number = view.number;
      count = view.count;
      weight = weight;
    } }
{
    WeightedConflictView {
        status: view.status,
        which: view.which,
        number: view.number,
        count: view.count,
        weight,
    }
}
