//! Equivocation: two different decisions for one slot, and the members that signed both.
ghost use Rattle.std.specs.Prelude.{◌≡◌, ◌+◌, ◌*◌, ◌≤◌, ◌⊎◌, ◌↔◌, ℕ, Bool, List, IfErr, IfOk, IsErrOf, IsOk, OnOk, length, pos};
ghost use Rattle.committee_certificates.specs.declared.equivocations.EquivocationError.TheVariants.{Memory, NoSlot, OtherSlot, Outside, SameDecision, TooFew};
ghost use Rattle.committee_certificates.specs.Accountability.{EachHasEquivocated, EachSigned, InLog};
ghost use Rattle.committee_certificates.specs.Signers.{AreInBoth, AreMembers, AreQuorum, AreTooFew};
ghost use Rattle.committee_certificates.specs.Signers.{HasOutsider, LeavesOneOutside, OutnumberFaults};
ghost use Rattle.committee_certificates.specs.Slots.{AreOfOtherSlots, AreOneDecision, Contradict, HasSlot};
ghost use Rattle.committee_certificates.specs.WalkCosts.{IsWalkedToAnEnd};
ghost use Rattle.commonware_faults.specs.Counts.{IsCommitteeSize};
ghost use Rattle.commonware_faults.specs.Subsets.{Greatest, Greatest3, Greatest5};

use crate::certificate::Certificate;
use crate::conflicts::{ConflictError, conflict_among_counted};
use crate::slots::slot_of;
use commonware_base::Participant;
use commonware_faults::Faults;
use commonware_ordered::{Counter, Quorum, Set, Uncounted};
use std::alloc::Allocator;

/// Why two certificates prove no equivocation. They are tried in this order.
///
/// In a committee of 4 under `N3f1`, view 7: A and view 8: B, each signed by 0, 1 and 2, give
/// `OtherSlot`: honest members sign both.
#[derive(Clone, Copy, Debug, PartialEq, Eq, thiserror::Error)]
pub enum EquivocationError {
    /// The value of one of them has no slot.
    #[error("a value without a slot")]
    NoSlot,
    /// The values are for two different slots, of which honest members may sign both.
    #[error("two different slots")]
    OtherSlot,
    /// The values are the same decision for the same slot.
    #[error("the same decision for the same slot")]
    SameDecision,
    /// A signer of one of them is at or past the committee's length.
    #[error("a signer is no member of the committee")]
    Outside,
    /// All signers are members, and fewer than a quorum signed one of them.
    #[error("fewer signers than a quorum")]
    TooFew,
    /// An allocation failed. It says nothing of the certificates.
    #[error("out of memory")]
    Memory,
}

/// Returns the members that equivocated: those that signed two different decisions for one slot,
/// which are the signers of both certificates. It requires that the committee has 1 to `u32::MAX`
/// members, and nothing of the values.
///
/// The errors come in the order of `EquivocationError`, each exactly where it says; all but
/// `Memory` before anything is allocated. An Ok is what `conflict` returns, and `guilty` says what
/// it is worth: whatever log of signatures there is, if each signer of each certificate signed its
/// value by the log, then each member that is returned signed, by the log, two different decisions
/// for one slot. By `accountability_law` none of them is honest.
///
/// **Warning.** It looks at no signature. Whoever doesn't verify them first may accuse an innocent
/// member.
pub fn equivocation<M: Faults, T: Ord, A: Allocator>(
    alloc: A,
    committee: &Set<T, A>,
    first: &Certificate<A>,
    second: &Certificate<A>,
) -> Result<Set<Participant, A>, EquivocationError>
    requires some { IsCommitteeSize (pos (length committee.now)) }
    ensures no_slot { IsErrOf result NoSlot
        ↔ ((¬ HasSlot first.now.value.items) ⊎ (¬ HasSlot second.now.value.items)) }
    ensures other_slot { IsErrOf result OtherSlot
        ↔ AreOfOtherSlots first.now.value.items second.now.value.items }
    ensures same_decision { IsErrOf result SameDecision
        ↔ AreOneDecision first.now.value.items second.now.value.items }
    ensures outside { let n = length committee.now in IsErrOf result Outside
        ↔ (Contradict first.now.value.items second.now.value.items
        × (HasOutsider n first.now.signers ⊎ HasOutsider n second.now.signers)) }
    ensures too_few { let n = length committee.now in IsErrOf result TooFew
        ↔ (Contradict first.now.value.items second.now.value.items
        × AreMembers n first.now.signers × AreMembers n second.now.signers
        × (AreTooFew M.faults n first.now.signers ⊎ AreTooFew M.faults n second.now.signers)) }
    ensures memory { let n = length committee.now in IsErrOf result Memory
        → (Contradict first.now.value.items second.now.value.items
        × AreQuorum M.faults n first.now.signers × AreQuorum M.faults n second.now.signers) }
    ensures nothing { IsErrOf result Memory
        → (1 ≤ length first.now.signers) × (1 ≤ length second.now.signers) }
    ensures contradict { OnOk result
        (Contradict first.now.value.items second.now.value.items) }
    ensures quorums { let n = length committee.now in OnOk result
        (AreQuorum M.faults n first.now.signers × AreQuorum M.faults n second.now.signers) }
    ensures both { IfOk result (AreInBoth first.now.signers second.now.signers) }
    ensures shared { let n = length committee.now in
        IfOk result (λ both. n ≤ 2 * M.faults n + length both) }
    ensures accountable { let n = length committee.now in (k : ℕ) → 3 ≤ k
        → Greatest k n (M.faults n) → IfOk result (OutnumberFaults k n (M.faults n)) }
    ensures thirds { let n = length committee.now in Greatest3 n (M.faults n)
        → IfOk result (λ both. M.faults n + 1 ≤ length both) }
    ensures fifths { let n = length committee.now in Greatest5 n (M.faults n)
        → IfOk result (λ both. 3 * M.faults n + 1 ≤ length both) }
    ensures leaves { let n = length committee.now in 3 * M.faults n + 1 ≤ n
        → IfOk result (LeavesOneOutside n (M.faults n)) }
    ensures outlasts { let n = length committee.now in
        (Greatest3 n (M.faults n) ⊎ Greatest5 n (M.faults n))
        → IfOk result (LeavesOneOutside n (M.faults n)) }
    ensures guilty { (log : ℕ → List ℕ → Bool)
        → EachSigned (InLog log) first.now.signers first.now.value.items
        → EachSigned (InLog log) second.now.signers second.now.value.items
        → IfOk result (EachHasEquivocated (InLog log)) }
{
    let members = committee.len();
    equivocation_among(alloc, members, M::max_faults(members), first, second)
}

/// Returns what `equivocation` does for a committee of `members` members and a model that tolerates
/// `faults` of them. It requires that `faults` is at most `members`.
pub fn equivocation_among<A: Allocator>(
    alloc: A,
    members: usize,
    faults: u32,
    first: &Certificate<A>,
    second: &Certificate<A>,
) -> Result<Set<Participant, A>, EquivocationError>
    requires at_most { faults ≤ members }
    ensures no_slot { IsErrOf result NoSlot
        ↔ ((¬ HasSlot first.now.value.items) ⊎ (¬ HasSlot second.now.value.items)) }
    ensures other_slot { IsErrOf result OtherSlot
        ↔ AreOfOtherSlots first.now.value.items second.now.value.items }
    ensures same_decision { IsErrOf result SameDecision
        ↔ AreOneDecision first.now.value.items second.now.value.items }
    ensures outside { IsErrOf result Outside
        ↔ (Contradict first.now.value.items second.now.value.items
        × (HasOutsider members first.now.signers ⊎ HasOutsider members second.now.signers)) }
    ensures too_few { IsErrOf result TooFew
        ↔ (Contradict first.now.value.items second.now.value.items
        × AreMembers members first.now.signers × AreMembers members second.now.signers
        × (AreTooFew (λ _. faults) members first.now.signers
        ⊎ AreTooFew (λ _. faults) members second.now.signers)) }
    ensures memory { IsErrOf result Memory
        → (Contradict first.now.value.items second.now.value.items
        × AreQuorum (λ _. faults) members first.now.signers
        × AreQuorum (λ _. faults) members second.now.signers) }
    ensures nothing { IsErrOf result Memory
        → (1 ≤ length first.now.signers) × (1 ≤ length second.now.signers) }
    ensures contradict { OnOk result
        (Contradict first.now.value.items second.now.value.items) }
    ensures quorums { OnOk result
        (AreQuorum (λ _. faults) members first.now.signers
        × AreQuorum (λ _. faults) members second.now.signers) }
    ensures both { IfOk result (AreInBoth first.now.signers second.now.signers) }
    ensures shared { IfOk result (λ both. members ≤ 2 * faults + length both) }
    ensures leaves { 3 * faults + 1 ≤ members
        → IfOk result (LeavesOneOutside members faults) }
    ensures guilty { (log : ℕ → List ℕ → Bool)
        → EachSigned (InLog log) first.now.signers first.now.value.items
        → EachSigned (InLog log) second.now.signers second.now.value.items
        → IfOk result (EachHasEquivocated (InLog log)) }
{
    equivocation_among_counted(alloc, members, faults, first, second, &mut Uncounted)
}

/// Returns what `equivocation_among` does, and counts how often it compares a signer of one
/// certificate with one of the other: at most as often as there are signers in both, where those
/// that signed both are counted once; and for an Ok at least as often as one of the certificates
/// has signers.
pub fn equivocation_among_counted<A: Allocator, C: Counter>(
    alloc: A,
    members: usize,
    faults: u32,
    first: &Certificate<A>,
    second: &Certificate<A>,
    count: &mut C,
) -> Result<Set<Participant, A>, EquivocationError>
    requires at_most { faults ≤ members }
    ensures no_slot { IsErrOf result NoSlot
        ↔ ((¬ HasSlot first.now.value.items) ⊎ (¬ HasSlot second.now.value.items)) }
    ensures other_slot { IsErrOf result OtherSlot
        ↔ AreOfOtherSlots first.now.value.items second.now.value.items }
    ensures same_decision { IsErrOf result SameDecision
        ↔ AreOneDecision first.now.value.items second.now.value.items }
    ensures outside { IsErrOf result Outside
        ↔ (Contradict first.now.value.items second.now.value.items
        × (HasOutsider members first.now.signers ⊎ HasOutsider members second.now.signers)) }
    ensures too_few { IsErrOf result TooFew
        ↔ (Contradict first.now.value.items second.now.value.items
        × AreMembers members first.now.signers × AreMembers members second.now.signers
        × (AreTooFew (λ _. faults) members first.now.signers
        ⊎ AreTooFew (λ _. faults) members second.now.signers)) }
    ensures memory { IsErrOf result Memory
        → (Contradict first.now.value.items second.now.value.items
        × AreQuorum (λ _. faults) members first.now.signers
        × AreQuorum (λ _. faults) members second.now.signers) }
    ensures nothing { IsErrOf result Memory
        → (1 ≤ length first.now.signers) × (1 ≤ length second.now.signers) }
    ensures contradict { OnOk result
        (Contradict first.now.value.items second.now.value.items) }
    ensures quorums { OnOk result
        (AreQuorum (λ _. faults) members first.now.signers
        × AreQuorum (λ _. faults) members second.now.signers) }
    ensures both { IfOk result (AreInBoth first.now.signers second.now.signers) }
    ensures shared { IfOk result (λ both. members ≤ 2 * faults + length both) }
    ensures leaves { 3 * faults + 1 ≤ members
        → IfOk result (LeavesOneOutside members faults) }
    ensures guilty { (log : ℕ → List ℕ → Bool)
        → EachSigned (InLog log) first.now.signers first.now.value.items
        → EachSigned (InLog log) second.now.signers second.now.value.items
        → IfOk result (EachHasEquivocated (InLog log)) }
    ensures cost { C.counted count.new
        ≤ C.counted count.old + length first.now.signers + length second.now.signers }
    ensures once { IfOk result (λ both. C.counted count.new + length both
        ≤ C.counted count.old + length first.now.signers + length second.now.signers) }
    ensures least { OnOk result (IsWalkedToAnEnd C.step
        (length first.now.signers) (length second.now.signers)
        (C.counted count.old) (C.counted count.new)) }
{
    check_values(&first.value, &second.value)?;
    match conflict_among_counted(alloc, members, faults, first, second, count) {
        Ok(both) => Ok(both),
        Err(ConflictError::Outside) => Err(EquivocationError::Outside),
        Err(ConflictError::TooFew) => Err(EquivocationError::TooFew),
        Err(ConflictError::Memory) => Err(EquivocationError::Memory),
    }
}

/// Refuses values that don't contradict one another.
fn check_values(first: &[u8], second: &[u8]) -> Result<(), EquivocationError>
    ensures no_slot { IsErrOf result NoSlot
        ↔ ((¬ HasSlot first.now) ⊎ (¬ HasSlot second.now)) }
    ensures other_slot { IsErrOf result OtherSlot ↔ AreOfOtherSlots first.now second.now }
    ensures same_decision { IsErrOf result SameDecision ↔ AreOneDecision first.now second.now }
    ensures contradict { IsOk result ↔ Contradict first.now second.now }
    ensures only { IfErr result (λ error.
        (error ≡ NoSlot) ⊎ (error ≡ OtherSlot) ⊎ (error ≡ SameDecision)) }
{
    let Some((slot, decision)) = slot_of(first) else {
        return Err(EquivocationError::NoSlot);
    };
    let Some((other_slot, other_decision)) = slot_of(second) else {
        return Err(EquivocationError::NoSlot);
    };
    if slot != other_slot {
        return Err(EquivocationError::OtherSlot);
    }
    if decision == other_decision {
        return Err(EquivocationError::SameDecision);
    }
    Ok(())
}
