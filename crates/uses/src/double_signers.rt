//! Accountability: the members that signed both of two different values.
ghost use Rattle.std.specs.Prelude.{◌≡◌, ◌≢◌, ◌+◌, ◌-◌, ◌*◌, ◌/◌, ◌≤◌, ◌⊎◌, ◌↔◌, ℕ, List, IfOk, IsErrOf, Ok, length, pos};
ghost use Rattle.committee_certificates.specs.declared.conflicts.ConflictError.TheVariants.{Outside, TooFew};
ghost use Rattle.committee_certificates.specs.Signers.{AreInBoth, AreMembers, AreTooFew};
ghost use Rattle.committee_certificates.specs.Signers.{HasOutsider, LeavesOneOutside};
ghost use Rattle.commonware_utils.specs.Faults.{IsCommitteeSize};

use committee_certificates::{Certificate, ConflictError, conflict};
use commonware_utils::Participant;
use commonware_utils::faults::{Faults, N3f1, Resilience, resilience_law};
use commonware_utils::ordered::Set;
use std::alloc::Global;

/// Returns the members that signed both of two certificates for different values, under any fault
/// model of a resilience `n >= kf + 1`: more than k - 2 times its faults. From a k of 3 on, one of
/// them is not faulty.
pub fn conflict_under<M: Resilience>(
    alloc: Global,
    members: &Set<u32, Global>,
    first: &Certificate<Global>,
    second: &Certificate<Global>,
) -> Result<Set<Participant, Global>, ConflictError>
    requires differ { first.now.value.items ≢ second.now.value.items }
    requires some { IsCommitteeSize (pos (length members.now)) }
    ensures outside { let n = length members.now in IsErrOf result Outside
        ↔ (HasOutsider n first.now.signers ⊎ HasOutsider n second.now.signers) }
    ensures too_few { let n = length members.now in IsErrOf result TooFew
        ↔ (AreMembers n first.now.signers × AreMembers n second.now.signers
        × (AreTooFew M.faults n first.now.signers ⊎ AreTooFew M.faults n second.now.signers)) }
    ensures both { IfOk result (AreInBoth first.now.signers second.now.signers) }
    ensures many { IfOk result (λ both.
        (M.factor - 2) * M.faults (length members.now) + 1 ≤ length both) }
    ensures outlast { 3 ≤ M.factor → IfOk result
        (LeavesOneOutside (length members.now) (M.faults (length members.now))) }
{
    resilience_law::<M>();
    conflict::<M, _, _>(alloc, members, first, second)
}

/// Returns how many members signed both of two different values, under `N3f1`: 0 where the values
/// are the same. It requires that the committee has 1 to `u32::MAX` members.
pub fn accused(
    alloc: Global,
    members: &Set<u32, Global>,
    first: &Certificate<Global>,
    second: &Certificate<Global>,
) -> Result<usize, ConflictError>
    requires some { IsCommitteeSize (pos (length members.now)) }
    ensures same { first.now.value.items ≡ second.now.value.items → result ≡ Ok 0 }
    ensures outside { first.now.value.items ≢ second.now.value.items → IsErrOf result Outside
        ↔ (HasOutsider (length members.now) first.now.signers
        ⊎ HasOutsider (length members.now) second.now.signers) }
    ensures too_few { first.now.value.items ≢ second.now.value.items → IsErrOf result TooFew
        ↔ (AreMembers (length members.now) first.now.signers
        × AreMembers (length members.now) second.now.signers
        × (AreTooFew ⟦<N3f1 as Faults>⟧.faults (length members.now) first.now.signers
        ⊎ AreTooFew ⟦<N3f1 as Faults>⟧.faults (length members.now) second.now.signers)) }
    ensures counts { first.now.value.items ≢ second.now.value.items → IfOk result
        (λ count. (both : List ℕ) × AreInBoth first.now.signers second.now.signers both
        × (count ≡ length both)) }
{
    if first.value == second.value {
        return Ok(0);
    }
    let both = conflict::<N3f1, _, _>(alloc, members, first, second)?;
    Ok(both.len())
}
