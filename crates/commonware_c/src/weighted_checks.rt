//! One certificate, judged in place by weight: whether members that weigh a quorum signed it, and
//! no one else. Nothing is allocated.
ghost use Rattle.std.specs.Prelude.{◌≡◌, ◌≢◌, ◌<◌, ◌^◌, ◌↔◌, ℕ, List, IfErr, IfOk, length, sum};
ghost use Rattle.committee_certificates.specs.InPlace.{AreSignersAt};
ghost use Rattle.committee_weights.specs.Members.{weight_of};
ghost use Rattle.commonware_c.specs.Status.{IsOfInput};
ghost use Rattle.commonware_c.specs.WeightedChecks.{IsWeightedCertificateOf, IsToldByWeight};
ghost use Rattle.commonware_c.specs.WeightedChecks.{IsUncertifiedByWeight, without_weight};

use crate::certificates::find_whole;
use crate::checks::{CheckView, refused, view_of};
use crate::statuses::{OUTSIDE, TOO_LIGHT};
use crate::weights::{quorum_of, total_of};
use committee_certificates::CertificateAt;
use committee_weights::weight_of_signers;

/// A certificate that members who weigh a quorum signed.
///
/// Of the weights 40, 30, 20 and 10, at a resilience of 3, `03 01 07 aa 03 00 01 02` has status 0,
/// and its 3 signers weigh 90. The value is of 3 bytes at 1, with the slot of 1 byte at 2 and the
/// decision of 1 byte at 3.
#[repr(C)]
#[derive(Clone, Copy, Drop)]
pub struct WeightedCheckView {
    /// OK, or why it is none.
    pub status: u32,
    /// At OK: how many members signed.
    pub signers: u32,
    /// At LEFT_OVER: how many bytes follow the certificate; else as commonware_weights_view has it.
    pub number: usize,
    /// At OK: the offset of the value.
    pub value_start: usize,
    /// At OK: how many bytes it has.
    pub value_length: usize,
    /// At OK: the offset of the slot, never 0; 0 where the value has none.
    pub slot_start: usize,
    /// At OK, with a slot: how many bytes it has.
    pub slot_length: usize,
    /// At OK, with a slot: the offset of the decision.
    pub decision_start: usize,
    /// At OK, with a slot: how many bytes it has.
    pub decision_length: usize,
    /// At OK: what the signers weigh together.
    pub weight: u64,
}

/// Whether the input is exactly one certificate whose signers are members of a committee with these
/// weights, and weigh at least a quorum at a resilience k: OK exactly then. Else the first of
/// these: what commonware_weights_quorum says of the weights, a fault of the input (END_OF_INPUT,
/// INVALID_VARINT, NOT_STRICT, LEFT_OVER), OUTSIDE, TOO_LIGHT. Never MEMORY.
///
/// Warning: no signature is looked at. Whoever doesn't verify them knows nothing of who signed.
#[unsafe(no_mangle)]
pub extern "C" fn commonware_weighted_check(
    k: u32,
    weights: &[u64],
    input: &[u8],
) -> WeightedCheckView
    ensures accepted { result.status ≡ 0
        → IsToldByWeight k weights.now input.now (without_weight result) result.weight }
    ensures refused { result.status ≢ 0
        → IsUncertifiedByWeight k weights.now input.now result.status result.number }
    ensures nothing_else { result.status ≢ 0 → result ≡ record {
      status = result.status;
      signers = 0;
      number = result.number;
      value_start = 0;
      value_length = 0;
      slot_start = 0;
      slot_length = 0;
      decision_start = 0;
      decision_length = 0;
      weight = 0;
    } }
    ensures exactly { (result.status ≡ 0) ↔ ((certificate : List ℕ × List ℕ)
        × IsWeightedCertificateOf k weights.now input.now certificate) }
    ensures no_memory { result.status ≢ 5 }
{
    match certified(k, weights, input) {
        Ok((certificate, weight)) => with_weight(view_of(&certificate), weight),
        Err((status, number)) => with_weight(refused(status, number), 0),
    }
}

/// Returns the certificate that the input is, where members that weigh a quorum signed it, and what
/// they weigh; else the status and its number.
fn certified<'a>(
    k: u32,
    weights: &[u64],
    input: &'a [u8],
) -> Result<(CertificateAt<'a>, u64), (u32, usize)>
    ensures certified { IfOk result (λ found. (signers : List ℕ)
        × IsWeightedCertificateOf k weights.now input.now (found.0.value.now, signers)
        × AreSignersAt found.0.signers signers × (found.1 ≡ weight_of weights.now signers)) }
    ensures refused { IfErr result (λ why.
        IsUncertifiedByWeight k weights.now input.now why.0 why.1) }
    ensures status { IfErr result (λ why. IsOfInput why.0) }
{
    let total = total_of(k, weights)?;
    let found = find_whole(input)?;
    let Some(weight) = weight_of_signers(weights, &found.signers) else {
        return Err((OUTSIDE, 0));
    };
    if weight < quorum_of(k, total) {
        return Err((TOO_LIGHT, 0));
    }
    Ok((found, weight))
}

/// Returns the view with a weight.
fn with_weight(view: CheckView, weight: u64) -> WeightedCheckView
    ensures view { without_weight result ≡ view }
    ensures weight { result.weight ≡ weight }
{
    WeightedCheckView {
        status: view.status,
        signers: view.signers,
        number: view.number,
        value_start: view.value_start,
        value_length: view.value_length,
        slot_start: view.slot_start,
        slot_length: view.slot_length,
        decision_start: view.decision_start,
        decision_length: view.decision_length,
        weight,
    }
}
