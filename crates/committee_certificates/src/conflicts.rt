//! Accountability: the members that signed both of two certificates for different values.
ghost use Rattle.std.specs.Prelude.{◌≡◌, ◌≢◌, ◌+◌, ◌*◌, ◌<◌, ◌≤◌, ◌⊎◌, ◌↔◌, ℕ, IfErr, IfOk, IsErrOf, OnOk, length, pos};
ghost use Rattle.std.specs.Ordering.{nat_cmp};
ghost use Rattle.committee_certificates.specs.declared.conflicts.ConflictError.TheVariants.{Memory, Outside, TooFew};
ghost use Rattle.committee_certificates.specs.Signers.{AreInBoth, AreMembers, AreQuorum, AreTooFew};
ghost use Rattle.committee_certificates.specs.Signers.{HasOutsider, LeavesOneOutside, OutnumberFaults};
ghost use Rattle.committee_certificates.specs.WalkCosts.{IsWalkedToAnEnd};
ghost use Rattle.commonware_faults.specs.Counts.{IsCommitteeSize};
ghost use Rattle.commonware_faults.specs.Subsets.{Greatest, Greatest3, Greatest5};
ghost use Rattle.commonware_ordered.specs.Strict.{IsStrict};

use crate::certificate::Certificate;
use crate::signers::{are_members, signers_of_both_counted};
use commonware_base::Participant;
use commonware_faults::Faults;
use commonware_ordered::{Counter, Quorum, Set, Uncounted};
use std::alloc::{AllocError, Allocator};

/// Why two certificates name no one.
///
/// In a committee of 4 under `N3f1`, whose quorum is 3, the signers 0, 1, 2 and 2, 3 give `TooFew`,
/// and 0, 1, 2 and 4294967295 give `Outside`.
#[derive(Clone, Copy, Debug, PartialEq, Eq, thiserror::Error)]
pub enum ConflictError {
    /// A signer of one of them is at or past the committee's length.
    #[error("a signer is no member of the committee")]
    Outside,
    /// All signers are members, and fewer than a quorum signed one of them.
    #[error("fewer signers than a quorum")]
    TooFew,
    /// An allocation failed. It says nothing of the certificates.
    #[error("out of memory")]
    Memory,
}

impl From<AllocError> for ConflictError {
    ghost from_gives = { λ _ error. error ≡ Memory };

    fn from(_refused: AllocError) -> ConflictError {
        ConflictError::Memory
    }
}

/// Returns the members that signed both of two certificates for different values: exactly the
/// signers of both. It requires that the values differ, and that the committee has 1 to `u32::MAX`
/// members.
///
/// To sign two values is a fault only where both are for one slot (chain, committee, height, round
/// and kind of vote, say), which `equivocation` asks: honest members sign many values, at most one
/// a slot.
///
/// **Warning.** No signature is looked at. Whoever doesn't verify them first may accuse an innocent
/// member.
///
/// A signer at or past the committee's length gives the error `Outside`; else, where every signer
/// is a member, a certificate with fewer signers than a quorum of the fault model gives `TooFew`.
/// Both are checked before anything is allocated, so `Memory` comes after them, and only where both
/// certificates have signers.
///
/// With f the model's number of faults, at least n - 2f of n members are returned, in every model,
/// by quorum intersection; and where 3f + 1 is at most n, whichever f members are faulty
/// (Byzantine), one that is returned isn't among them. So at every k of 3 or more, where f is the
/// greatest for which any two quorums share (k - 2)f + 1 members, at least (k - 2)f + 1 are
/// returned, and one of them is outside any f: f + 1 at a k of 3, 3f + 1 at a k of 5.
///
/// It walks the signers of each certificate at most once, and makes at most one allocation, for as
/// many indices as the certificate with fewer signers has.
pub fn conflict<M: Faults, T: Ord, A: Allocator>(
    alloc: A,
    committee: &Set<T, A>,
    first: &Certificate<A>,
    second: &Certificate<A>,
) -> Result<Set<Participant, A>, ConflictError>
    requires differ { first.now.value.items ≢ second.now.value.items }
    requires some { IsCommitteeSize (pos (length committee.now)) }
    ensures outside { let n = length committee.now in IsErrOf result Outside
        ↔ (HasOutsider n first.now.signers ⊎ HasOutsider n second.now.signers) }
    ensures too_few { let n = length committee.now in IsErrOf result TooFew
        ↔ (AreMembers n first.now.signers × AreMembers n second.now.signers
        × (AreTooFew M.faults n first.now.signers ⊎ AreTooFew M.faults n second.now.signers)) }
    ensures memory { let n = length committee.now in IsErrOf result Memory
        → (AreQuorum M.faults n first.now.signers × AreQuorum M.faults n second.now.signers) }
    ensures nothing { IsErrOf result Memory
        → (1 ≤ length first.now.signers) × (1 ≤ length second.now.signers) }
    ensures quorums { let n = length committee.now in OnOk result
        (AreQuorum M.faults n first.now.signers × AreQuorum M.faults n second.now.signers) }
    ensures both { IfOk result (AreInBoth first.now.signers second.now.signers) }
    ensures shared { let n = length committee.now in
        IfOk result (λ both. n ≤ 2 * M.faults n + length both) }
    ensures accountable { let n = length committee.now in (k : ℕ) → 3 ≤ k
        → Greatest k n (M.faults n) → IfOk result (OutnumberFaults k n (M.faults n)) }
    ensures thirds { let n = length committee.now in Greatest3 n (M.faults n)
        → IfOk result (λ both. M.faults n + 1 ≤ length both) }
    ensures fifths { let n = length committee.now in Greatest5 n (M.faults n)
        → IfOk result (λ both. 3 * M.faults n + 1 ≤ length both) }
    ensures leaves { let n = length committee.now in 3 * M.faults n + 1 ≤ n
        → IfOk result (LeavesOneOutside n (M.faults n)) }
    ensures outlasts { let n = length committee.now in
        (Greatest3 n (M.faults n) ⊎ Greatest5 n (M.faults n))
        → IfOk result (LeavesOneOutside n (M.faults n)) }
{
    let members = committee.len();
    conflict_among(alloc, members, M::max_faults(members), first, second)
}

/// Returns the members that signed both of two certificates for different values, where the number
/// of members and that of the faults they tolerate are all that is known of the committee and of
/// its fault model. It requires that the values differ, and that `faults` is at most `members`.
///
/// It returns what `conflict` does for a committee of `members` members and a model that tolerates
/// `faults` of them.
pub fn conflict_among<A: Allocator>(
    alloc: A,
    members: usize,
    faults: u32,
    first: &Certificate<A>,
    second: &Certificate<A>,
) -> Result<Set<Participant, A>, ConflictError>
    requires differ { first.now.value.items ≢ second.now.value.items }
    requires at_most { faults ≤ members }
    ensures outside { IsErrOf result Outside
        ↔ (HasOutsider members first.now.signers ⊎ HasOutsider members second.now.signers) }
    ensures too_few { IsErrOf result TooFew
        ↔ (AreMembers members first.now.signers × AreMembers members second.now.signers
        × (AreTooFew (λ _. faults) members first.now.signers
        ⊎ AreTooFew (λ _. faults) members second.now.signers)) }
    ensures memory { IsErrOf result Memory → (AreQuorum (λ _. faults) members first.now.signers
        × AreQuorum (λ _. faults) members second.now.signers) }
    ensures nothing { IsErrOf result Memory
        → (1 ≤ length first.now.signers) × (1 ≤ length second.now.signers) }
    ensures quorums { OnOk result
        (AreQuorum (λ _. faults) members first.now.signers
        × AreQuorum (λ _. faults) members second.now.signers) }
    ensures both { IfOk result (AreInBoth first.now.signers second.now.signers) }
    ensures shared { IfOk result (λ both. members ≤ 2 * faults + length both) }
    ensures leaves { 3 * faults + 1 ≤ members
        → IfOk result (LeavesOneOutside members faults) }
{
    conflict_among_counted(alloc, members, faults, first, second, &mut Uncounted)
}

/// Returns what `conflict_among` does, and counts how often it compares a signer of one certificate
/// with one of the other: at most as often as there are signers in both, where those that signed
/// both are counted once; and for an Ok at least as often as one of the certificates has signers.
pub fn conflict_among_counted<A: Allocator, C: Counter>(
    alloc: A,
    members: usize,
    faults: u32,
    first: &Certificate<A>,
    second: &Certificate<A>,
    count: &mut C,
) -> Result<Set<Participant, A>, ConflictError>
    requires differ { first.now.value.items ≢ second.now.value.items }
    requires at_most { faults ≤ members }
    ensures outside { IsErrOf result Outside
        ↔ (HasOutsider members first.now.signers ⊎ HasOutsider members second.now.signers) }
    ensures too_few { IsErrOf result TooFew
        ↔ (AreMembers members first.now.signers × AreMembers members second.now.signers
        × (AreTooFew (λ _. faults) members first.now.signers
        ⊎ AreTooFew (λ _. faults) members second.now.signers)) }
    ensures memory { IsErrOf result Memory → (AreQuorum (λ _. faults) members first.now.signers
        × AreQuorum (λ _. faults) members second.now.signers) }
    ensures nothing { IsErrOf result Memory
        → (1 ≤ length first.now.signers) × (1 ≤ length second.now.signers) }
    ensures quorums { OnOk result
        (AreQuorum (λ _. faults) members first.now.signers
        × AreQuorum (λ _. faults) members second.now.signers) }
    ensures both { IfOk result (AreInBoth first.now.signers second.now.signers) }
    ensures shared { IfOk result (λ both. members ≤ 2 * faults + length both) }
    ensures leaves { 3 * faults + 1 ≤ members
        → IfOk result (LeavesOneOutside members faults) }
    ensures cost { C.counted count.new
        ≤ C.counted count.old + length first.now.signers + length second.now.signers }
    ensures once { IfOk result (λ both. C.counted count.new + length both
        ≤ C.counted count.old + length first.now.signers + length second.now.signers) }
    ensures least { OnOk result (IsWalkedToAnEnd C.step
        (length first.now.signers) (length second.now.signers)
        (C.counted count.old) (C.counted count.new)) }
{
    let quorum = members - faults as usize;
    check_signers(members, quorum, &first.signers, &second.signers)?;
    let both = signers_of_both_counted(alloc, &first.signers, &second.signers, count)?;
    Ok(both)
}

/// Refuses a signer of either set that is no member, and then a set smaller than a quorum. The
/// committee has `members` members.
fn check_signers<A: Allocator>(
    members: usize,
    quorum: usize,
    first: &Set<Participant, A>,
    second: &Set<Participant, A>,
) -> Result<(), ConflictError>
    ensures outside { IsErrOf result Outside
        ↔ (HasOutsider members first.now ⊎ HasOutsider members second.now) }
    ensures too_few { IsErrOf result TooFew
        ↔ (AreMembers members first.now × AreMembers members second.now
        × ((length first.now < quorum) ⊎ (length second.now < quorum))) }
    ensures members { OnOk result (AreMembers members first.now × AreMembers members second.now) }
    ensures enough { OnOk result ((quorum ≤ length first.now) × (quorum ≤ length second.now)) }
    ensures strict { OnOk result ((IsStrict nat_cmp first.now) × (IsStrict nat_cmp second.now)) }
    ensures only { IfErr result (λ error. (error ≡ Outside) ⊎ (error ≡ TooFew)) }
{
    if !are_members(members, first) || !are_members(members, second) {
        return Err(ConflictError::Outside);
    }
    let first = first.as_slice();
    let second = second.as_slice();
    if first.len() < quorum || second.len() < quorum {
        return Err(ConflictError::TooFew);
    }
    Ok(())
}
