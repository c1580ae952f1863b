//! Equivocation: the members that signed two different decisions for one slot, from the
//! certificates' encodings. Nothing is allocated.
ghost use Rattle.std.specs.Prelude.{◌≡◌, ◌≢◌, ◌≤◌, ◌⊎◌, IfErr, IfOk, OnOk, drop, length, take};
ghost use Rattle.committee_certificates.specs.Slots.{Contradict};
ghost use Rattle.commonware_c.specs.Conflicting.{AreContradicting};
ghost use Rattle.commonware_c.specs.Equivocations.{AreEquivocators, AreNoContradiction};
ghost use Rattle.commonware_c.specs.Equivocations.{IsNoEquivocation, LacksRoomForEquivocators};
ghost use Rattle.commonware_c.specs.Status.{IsOfInput};

use crate::conflicts::{
    ConflictView, Reason, check_signers, find_both, reason_of, reason_of_neither, view_of_both,
    view_of_reason,
};
use crate::statuses::{NO_SLOT, OTHER_SLOT, SAME_VALUE};
use committee_certificates::{SignersAt, slot_of};
use commonware_faults::tolerated_faults;

/// The members that equivocated: those that signed both of two certificates for different decisions
/// for one slot. All is as commonware_conflict has it, and no honest member is named where honest
/// members sign at most one decision a slot.
///
/// Warning: no signature is looked at. Whoever doesn't verify them first may accuse an innocent
/// member.
///
/// The status is the first of these: NO_MODEL, NO_MEMBERS, a fault of the first input, one of the
/// second, NO_SLOT of the first value, of the second, OTHER_SLOT, SAME_VALUE for one decision,
/// OUTSIDE of the first, of the second, TOO_FEW of the first, of the second, ROOM. Never MEMORY.
#[unsafe(no_mangle)]
pub extern "C" fn commonware_equivocation(
    k: u32,
    members: u32,
    first: &[u8],
    second: &[u8],
    out: &mut [u32],
) -> ConflictView
    ensures fits { result.status ≡ 0 → result.count ≤ length out.new }
    ensures named { result.status ≡ 0
        → AreEquivocators k members first.now second.now (take result.count out.new) }
    ensures after { result.status ≡ 0 → drop result.count out.new ≡ drop result.count out.old }
    ensures untouched { result.status ≢ 0 → out.new ≡ out.old }
    ensures room { result.status ≡ 11
        → LacksRoomForEquivocators k members first.now second.now (length out.old) result.count }
    ensures about_none { (result.status ≡ 0) ⊎ (result.status ≡ 11)
        → (result.which ≡ 0) × (result.number ≡ 0) }
    ensures stopped { result.status ≢ 0 → result.status ≢ 11
        → IsNoEquivocation k members first.now second.now
        result.status result.which result.number }
    ensures no_one { result.status ≢ 0 → result.status ≢ 11 → result.count ≡ 0 }
    ensures no_memory { result.status ≢ 5 }
{
    match contradicting_signers(k, members, first, second) {
        Ok((first_signers, second_signers)) => view_of_both(&first_signers, &second_signers, out),
        Err(reason) => view_of_reason(reason),
    }
}

/// Returns the signers of both certificates, or the first reason for which no one is named.
fn contradicting_signers<'a>(
    k: u32,
    members: u32,
    first: &'a [u8],
    second: &'a [u8],
) -> Result<(SignersAt<'a>, SignersAt<'a>), Reason>
    ensures contradicting { IfOk result (λ both.
        AreContradicting k members first.now second.now both.0 both.1) }
    ensures stopped { IfErr result (λ reason. IsNoEquivocation k members first.now second.now
        reason.status reason.which reason.number) }
    ensures status { IfErr result (λ reason. IsOfInput reason.status) }
{
    let (one, two) = find_both(k, members, first, second)?;
    check_values(one.value, two.value)?;
    let faults = tolerated_faults(k, members);
    check_signers(members, faults, &one.signers, &two.signers)?;
    Ok((one.signers, two.signers))
}

/// Refuses values that aren't different decisions for one slot.
pub(crate) fn check_values(first: &[u8], second: &[u8]) -> Result<(), Reason>
    ensures contradict { OnOk result (Contradict first.now second.now) }
    ensures refused { IfErr result (λ reason.
        AreNoContradiction first.now second.now reason.status reason.which) }
    ensures number { IfErr result (λ reason. reason.number ≡ 0) }
    ensures status { IfErr result (λ reason. IsOfInput reason.status) }
{
    let Some((slot, decision)) = slot_of(first) else {
        return Err(reason_of(NO_SLOT, 1));
    };
    let Some((other_slot, other_decision)) = slot_of(second) else {
        return Err(reason_of(NO_SLOT, 2));
    };
    if slot != other_slot {
        return Err(reason_of_neither(OTHER_SLOT));
    }
    if decision == other_decision {
        return Err(reason_of_neither(SAME_VALUE));
    }
    Ok(())
}
