//! Accountability over time: one more member that signed both of two values, beside those that are
//! known to be faulty.
ghost use Rattle.std.specs.Prelude.{◌≡◌, ◌≢◌, ◌+◌, ◌*◌, ◌<◌, ◌≤◌, ◌⊎◌, ◌↔◌, ℕ, List, Contains, IfOk, IsErrOf, length, pos};
ghost use Rattle.committee_certificates.specs.declared.conflicts.ConflictError.TheVariants.{Outside, TooFew};
ghost use Rattle.committee_certificates.specs.Signers.{AreInBoth, AreMembers, AreTooFew, HasOutsider};
ghost use Rattle.commonware_utils.specs.Faults.{IsCommitteeSize};

use committee_certificates::{Certificate, ConflictError, conflict, first_new};
use commonware_utils::Participant;
use commonware_utils::faults::{Faults, N3f1};
use commonware_utils::ordered::Set;
use std::alloc::Global;

/// Returns a member that signed both of two certificates for different values and isn't among those
/// that are known already to be faulty, under `N3f1`. It requires that the values differ, that the
/// committee has 1 to `u32::MAX` members, and that three times the known ones and one more are at
/// most as many.
pub fn new_accused(
    alloc: Global,
    members: &Set<u32, Global>,
    known: &Set<Participant, Global>,
    first: &Certificate<Global>,
    second: &Certificate<Global>,
) -> Result<Participant, ConflictError>
    requires differ { first.now.value.items ≢ second.now.value.items }
    requires some { IsCommitteeSize (pos (length members.now)) }
    requires few { 3 * length known.now + 1 ≤ length members.now }
    ensures accused { IfOk result (λ member. (both : List ℕ)
        × AreInBoth first.now.signers second.now.signers both × Contains both member) }
    ensures new { IfOk result (λ member. ¬ Contains known.now member) }
    ensures outside { let n = length members.now in IsErrOf result Outside
        ↔ (HasOutsider n first.now.signers ⊎ HasOutsider n second.now.signers) }
    ensures too_few { let n = length members.now in IsErrOf result TooFew
        ↔ (AreMembers n first.now.signers × AreMembers n second.now.signers
        × (AreTooFew ⟦<N3f1 as Faults>⟧.faults n first.now.signers
        ⊎ AreTooFew ⟦<N3f1 as Faults>⟧.faults n second.now.signers)) }
{
    let both = conflict::<N3f1, _, _>(alloc, members, first, second)?;
    Ok(first_new(&both, known).unwrap())
}
