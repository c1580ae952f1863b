//! One certificate, judged in place: whether a quorum of the members signed it, and no one else.
ghost use Rattle.std.specs.Prelude.{◌≡◌, ◌≢◌, ◌<◌, ◌^◌, ◌↔◌, ℕ, List, IfErr, IfOk, length};
ghost use Rattle.committee_certificates.specs.InPlace.{AreSignersAt};
ghost use Rattle.commonware_c.specs.Checks.{IsCertifiedOf, IsSlotIn, IsToldOf, IsUncertified, IsValueAt};
ghost use Rattle.commonware_c.specs.Status.{IsOfInput};

use crate::certificates::find_whole;
use crate::statuses::{NO_MEMBERS, NO_MODEL, OK, OUTSIDE, TOO_FEW};
use committee_certificates::{CertificateAt, slot_of};
use commonware_base::codec::{EncodeSize, UInt};
use commonware_faults::tolerated_faults;

/// A certificate that a quorum signed.
///
/// Among 4 members at a resilience of 3, `03 01 07 aa 03 00 01 02` has status 0, 3 signers, and a
/// value of 3 bytes at 1, with the slot of 1 byte at 2 and the decision of 1 byte at 3.
#[repr(C)]
#[derive(Clone, Copy, Drop)]
pub struct CheckView {
    /// OK, or why it is none.
    pub status: u32,
    /// At OK: how many members signed.
    pub signers: u32,
    /// At LEFT_OVER: how many bytes follow the certificate.
    pub number: usize,
    /// At OK: the offset of the value.
    pub value_start: usize,
    /// At OK: how many bytes it has.
    pub value_length: usize,
    /// At OK: the offset of the slot, never 0; 0 where the value has none.
    pub slot_start: usize,
    /// At OK, with a slot: how many bytes it has.
    pub slot_length: usize,
    /// At OK, with a slot: the offset of the decision.
    pub decision_start: usize,
    /// At OK, with a slot: how many bytes it has.
    pub decision_length: usize,
}

/// Whether the input is exactly one certificate whose signers are members of a committee of
/// `members`, and at least a quorum at a resilience k: OK exactly then. Else the first of these:
/// NO_MODEL, NO_MEMBERS, a fault of the input (END_OF_INPUT, INVALID_VARINT, NOT_STRICT,
/// LEFT_OVER), OUTSIDE, TOO_FEW.
///
/// Warning: no signature is looked at. Whoever doesn't verify them knows nothing of who signed.
#[unsafe(no_mangle)]
pub extern "C" fn commonware_check(k: u32, members: u32, input: &[u8]) -> CheckView
    ensures accepted { result.status ≡ 0 → IsToldOf k members input.now result }
    ensures refused { result.status ≢ 0
        → IsUncertified k members input.now result.status result.number }
    ensures nothing_else { result.status ≢ 0 → result ≡ record {
      status = result.status;
      signers = 0;
      number = result.number;
      value_start = 0;
      value_length = 0;
      slot_start = 0;
      slot_length = 0;
      decision_start = 0;
      decision_length = 0;
    } }
    ensures exactly { (result.status ≡ 0)
        ↔ ((certificate : List ℕ × List ℕ) × IsCertifiedOf k members input.now certificate) }
    ensures no_memory { result.status ≢ 5 }
{
    match certified(k, members, input) {
        Ok(certificate) => view_of(&certificate),
        Err((status, number)) => refused(status, number),
    }
}

/// Returns the certificate that the input is, where a quorum of members signed it; else the status
/// and its number.
fn certified(k: u32, members: u32, input: &[u8]) -> Result<CertificateAt<'_>, (u32, usize)>
    ensures certified { IfOk result (λ found. (signers : List ℕ)
        × IsCertifiedOf k members input.now (found.value.now, signers)
        × AreSignersAt found.signers signers) }
    ensures refused { IfErr result (λ why. IsUncertified k members input.now why.0 why.1) }
    ensures status { IfErr result (λ why. IsOfInput why.0) }
{
    if k < 2 {
        return Err((NO_MODEL, 0));
    }
    if members == 0 {
        return Err((NO_MEMBERS, 0));
    }
    let found = find_whole(input)?;
    if !found.signers.are_members(members as usize) {
        return Err((OUTSIDE, 0));
    }
    if found.signers.count() < (members - tolerated_faults(k, members)) as usize {
        return Err((TOO_FEW, 0));
    }
    Ok(found)
}

/// Returns the view of a certificate that a quorum signed.
pub(crate) fn view_of(certificate: &CertificateAt<'_>) -> CheckView
    requires { length certificate.now.value.now < 2 ^ 32 }
    ensures status { result.status ≡ 0 }
    ensures number { result.number ≡ 0 }
    ensures signers { (signers : List ℕ) → AreSignersAt certificate.now.signers signers
        → result.signers ≡ length signers }
    ensures value { IsValueAt certificate.now.value.now result }
    ensures slot { IsSlotIn certificate.now.value.now result }
{
    let value = certificate.value;
    let value_start = UInt(value.len() as u32).encode_size();
    let mut view = CheckView {
        status: OK,
        signers: certificate.signers.count() as u32,
        number: 0,
        value_start,
        value_length: value.len(),
        slot_start: 0,
        slot_length: 0,
        decision_start: 0,
        decision_length: 0,
    };
    if let Some((slot, decision)) = slot_of(value) {
        view.slot_start = value_start + UInt(slot.len() as u32).encode_size();
        view.slot_length = slot.len();
        view.decision_start = view.slot_start + slot.len();
        view.decision_length = decision.len();
    }
    view
}

/// Returns the view of a refusal.
pub(crate) fn refused(status: u32, number: usize) -> CheckView
    ensures { result ≡ record {
      status = status;
      signers = 0;
      number = number;
      value_start = 0;
      value_length = 0;
      slot_start = 0;
      slot_length = 0;
      decision_start = 0;
      decision_length = 0;
    } }
{
    CheckView {
        status,
        signers: 0,
        number,
        value_start: 0,
        value_length: 0,
        slot_start: 0,
        slot_length: 0,
        decision_start: 0,
        decision_length: 0,
    }
}
