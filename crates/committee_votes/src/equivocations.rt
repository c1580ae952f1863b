//! Equivocation: a quorum on each side of two votes that contradict one another.
ghost use Rattle.std.specs.Prelude.{◌+◌, ◌*◌, ◌≤◌, ◌⊎◌, ◌↔◌, ℕ, Bool, IfOk, IsErrOf, OnOk, length, pos};
ghost use Rattle.committee_certificates.specs.Accountability.{Passes};
ghost use Rattle.committee_certificates.specs.Signers.{AreInBoth, AreMembers, AreQuorum, AreTooFew};
ghost use Rattle.committee_certificates.specs.Signers.{HasOutsider, LeavesOneOutside, OutnumberFaults};
ghost use Rattle.committee_certificates.specs.WalkCosts.{IsWalkedToAnEnd};
ghost use Rattle.committee_votes.specs.declared.overlaps.OverlapError.TheVariants.{Memory, OtherDomain, OtherSlot, Outside, SameDecision, TooFew};
ghost use Rattle.committee_votes.specs.Accountability.{EachHasSignedTwo, EachSigned, InLog};
ghost use Rattle.committee_votes.specs.Accountability.{NoneIsHonest, SignOneVote};
ghost use Rattle.committee_votes.specs.Votes.{AreOfOtherDomains, AreOfOtherSlots, AreOneDecision};
ghost use Rattle.committee_votes.specs.Votes.{Ballot, Contradict, ballot_at};
ghost use Rattle.commonware_faults.specs.Counts.{IsCommitteeSize};
ghost use Rattle.commonware_faults.specs.Subsets.{Greatest};

use crate::overlaps::{OverlapError, overlap_counted};
use crate::votes::VoteAt;
use commonware_base::Participant;
use commonware_faults::Faults;
use commonware_ordered::{Counter, Quorum, Set, Uncounted};
use std::alloc::Allocator;

/// Returns the members that equivocated: what `double_signers` does, where a quorum of the fault
/// model signed each vote. It requires that the committee has 1 to `u32::MAX` members, and nothing
/// of the votes.
///
/// With f the model's number of faults, at least n - 2f of n members are returned (`shared`), and
/// where 3f + 1 is at most n, one of them is outside any f members (`leaves`). At a resilience k of
/// 3 and more, where f is the greatest for which any two quorums share (k - 2)f + 1 members, they
/// outnumber the faults: at least (k - 2)f + 1 are returned, of whom one is outside any f
/// (`accountable`).
///
/// The errors come in the order of `OverlapError`, each exactly where it says; all but `Memory`
/// before anything is allocated, and `Memory` only where both votes have signers.
///
/// **Warning.** It looks at no signature. Whoever doesn't verify them first may accuse an innocent
/// member.
pub fn equivocation<M: Faults, T: Ord, A: Allocator>(
    alloc: A,
    committee: &Set<T, A>,
    first: VoteAt<'_>,
    first_signers: &Set<Participant, A>,
    second: VoteAt<'_>,
    second_signers: &Set<Participant, A>,
) -> Result<Set<Participant, A>, OverlapError>
    requires some { IsCommitteeSize (pos (length committee.now)) }
    ensures other_domain { IsErrOf result OtherDomain
        ↔ AreOfOtherDomains (ballot_at first.entry) (ballot_at second.entry) }
    ensures other_slot { IsErrOf result OtherSlot
        ↔ AreOfOtherSlots (ballot_at first.entry) (ballot_at second.entry) }
    ensures same_decision { IsErrOf result SameDecision
        ↔ AreOneDecision (ballot_at first.entry) (ballot_at second.entry) }
    ensures outside { let n = length committee.now in IsErrOf result Outside
        ↔ (Contradict (ballot_at first.entry) (ballot_at second.entry)
        × (HasOutsider n first_signers.now ⊎ HasOutsider n second_signers.now)) }
    ensures too_few { let n = length committee.now in IsErrOf result TooFew
        ↔ (Contradict (ballot_at first.entry) (ballot_at second.entry)
        × AreMembers n first_signers.now × AreMembers n second_signers.now
        × (AreTooFew M.faults n first_signers.now
        ⊎ AreTooFew M.faults n second_signers.now)) }
    ensures memory { let n = length committee.now in IsErrOf result Memory
        → (Contradict (ballot_at first.entry) (ballot_at second.entry)
        × AreQuorum M.faults n first_signers.now
        × AreQuorum M.faults n second_signers.now) }
    ensures nothing { IsErrOf result Memory
        → (1 ≤ length first_signers.now) × (1 ≤ length second_signers.now) }
    ensures contradict { OnOk result (Contradict (ballot_at first.entry) (ballot_at second.entry)) }
    ensures quorums { let n = length committee.now in OnOk result
        (AreQuorum M.faults n first_signers.now
        × AreQuorum M.faults n second_signers.now) }
    ensures both { IfOk result (AreInBoth first_signers.now second_signers.now) }
    ensures shared { let n = length committee.now in
        IfOk result (λ both. n ≤ 2 * M.faults n + length both) }
    ensures leaves { let n = length committee.now in 3 * M.faults n + 1 ≤ n
        → IfOk result (LeavesOneOutside n (M.faults n)) }
    ensures accountable { let n = length committee.now in (k : ℕ) → 3 ≤ k
        → Greatest k n (M.faults n) → IfOk result (OutnumberFaults k n (M.faults n)) }
    ensures guilty { (log : ℕ → Ballot → Bool)
        → EachSigned (InLog log) first_signers.now (ballot_at first.entry)
        → EachSigned (InLog log) second_signers.now (ballot_at second.entry)
        → IfOk result (EachHasSignedTwo (InLog log)) }
    ensures innocent { (honest : ℕ → Bool) (log : ℕ → Ballot → Bool)
        → SignOneVote (Passes honest) (InLog log)
        → EachSigned (InLog log) first_signers.now (ballot_at first.entry)
        → EachSigned (InLog log) second_signers.now (ballot_at second.entry)
        → IfOk result (NoneIsHonest (Passes honest)) }
{
    equivocation_counted::<M, T, A, Uncounted>(
        alloc,
        committee,
        first,
        first_signers,
        second,
        second_signers,
        &mut Uncounted,
    )
}

/// Returns what `equivocation` does, and counts how often it compares a signer of one vote
/// with one of the other: at most as often as there are signers of both votes, where those that
/// signed both are counted once; and for an Ok at least as often as one of the votes has signers.
pub fn equivocation_counted<M: Faults, T: Ord, A: Allocator, C: Counter>(
    alloc: A,
    committee: &Set<T, A>,
    first: VoteAt<'_>,
    first_signers: &Set<Participant, A>,
    second: VoteAt<'_>,
    second_signers: &Set<Participant, A>,
    count: &mut C,
) -> Result<Set<Participant, A>, OverlapError>
    requires some { IsCommitteeSize (pos (length committee.now)) }
    ensures other_domain { IsErrOf result OtherDomain
        ↔ AreOfOtherDomains (ballot_at first.entry) (ballot_at second.entry) }
    ensures other_slot { IsErrOf result OtherSlot
        ↔ AreOfOtherSlots (ballot_at first.entry) (ballot_at second.entry) }
    ensures same_decision { IsErrOf result SameDecision
        ↔ AreOneDecision (ballot_at first.entry) (ballot_at second.entry) }
    ensures outside { let n = length committee.now in IsErrOf result Outside
        ↔ (Contradict (ballot_at first.entry) (ballot_at second.entry)
        × (HasOutsider n first_signers.now ⊎ HasOutsider n second_signers.now)) }
    ensures too_few { let n = length committee.now in IsErrOf result TooFew
        ↔ (Contradict (ballot_at first.entry) (ballot_at second.entry)
        × AreMembers n first_signers.now × AreMembers n second_signers.now
        × (AreTooFew M.faults n first_signers.now
        ⊎ AreTooFew M.faults n second_signers.now)) }
    ensures memory { let n = length committee.now in IsErrOf result Memory
        → (Contradict (ballot_at first.entry) (ballot_at second.entry)
        × AreQuorum M.faults n first_signers.now
        × AreQuorum M.faults n second_signers.now) }
    ensures nothing { IsErrOf result Memory
        → (1 ≤ length first_signers.now) × (1 ≤ length second_signers.now) }
    ensures contradict { OnOk result (Contradict (ballot_at first.entry) (ballot_at second.entry)) }
    ensures quorums { let n = length committee.now in OnOk result
        (AreQuorum M.faults n first_signers.now
        × AreQuorum M.faults n second_signers.now) }
    ensures both { IfOk result (AreInBoth first_signers.now second_signers.now) }
    ensures shared { let n = length committee.now in
        IfOk result (λ both. n ≤ 2 * M.faults n + length both) }
    ensures leaves { let n = length committee.now in 3 * M.faults n + 1 ≤ n
        → IfOk result (LeavesOneOutside n (M.faults n)) }
    ensures accountable { let n = length committee.now in (k : ℕ) → 3 ≤ k
        → Greatest k n (M.faults n) → IfOk result (OutnumberFaults k n (M.faults n)) }
    ensures guilty { (log : ℕ → Ballot → Bool)
        → EachSigned (InLog log) first_signers.now (ballot_at first.entry)
        → EachSigned (InLog log) second_signers.now (ballot_at second.entry)
        → IfOk result (EachHasSignedTwo (InLog log)) }
    ensures innocent { (honest : ℕ → Bool) (log : ℕ → Ballot → Bool)
        → SignOneVote (Passes honest) (InLog log)
        → EachSigned (InLog log) first_signers.now (ballot_at first.entry)
        → EachSigned (InLog log) second_signers.now (ballot_at second.entry)
        → IfOk result (NoneIsHonest (Passes honest)) }
    ensures cost { C.counted count.new
        ≤ C.counted count.old + length first_signers.now + length second_signers.now }
    ensures once { IfOk result (λ both. C.counted count.new + length both
        ≤ C.counted count.old + length first_signers.now + length second_signers.now) }
    ensures least { OnOk result (IsWalkedToAnEnd C.step
        (length first_signers.now) (length second_signers.now)
        (C.counted count.old) (C.counted count.new)) }
{
    let members = committee.len();
    let faults = M::max_faults(members);
    equivocation_among_counted(
        alloc,
        members,
        faults,
        first,
        first_signers,
        second,
        second_signers,
        count,
    )
}

/// Returns what `equivocation` does for a committee of `members` members and a model that tolerates
/// `faults` of them. It requires that `faults` is at most `members`.
pub fn equivocation_among<A: Allocator>(
    alloc: A,
    members: usize,
    faults: u32,
    first: VoteAt<'_>,
    first_signers: &Set<Participant, A>,
    second: VoteAt<'_>,
    second_signers: &Set<Participant, A>,
) -> Result<Set<Participant, A>, OverlapError>
    requires at_most { faults ≤ members }
    ensures other_domain { IsErrOf result OtherDomain
        ↔ AreOfOtherDomains (ballot_at first.entry) (ballot_at second.entry) }
    ensures other_slot { IsErrOf result OtherSlot
        ↔ AreOfOtherSlots (ballot_at first.entry) (ballot_at second.entry) }
    ensures same_decision { IsErrOf result SameDecision
        ↔ AreOneDecision (ballot_at first.entry) (ballot_at second.entry) }
    ensures outside { IsErrOf result Outside
        ↔ (Contradict (ballot_at first.entry) (ballot_at second.entry)
        × (HasOutsider members first_signers.now ⊎ HasOutsider members second_signers.now)) }
    ensures too_few { IsErrOf result TooFew
        ↔ (Contradict (ballot_at first.entry) (ballot_at second.entry)
        × AreMembers members first_signers.now × AreMembers members second_signers.now
        × (AreTooFew (λ _. faults) members first_signers.now
        ⊎ AreTooFew (λ _. faults) members second_signers.now)) }
    ensures memory { IsErrOf result Memory
        → (Contradict (ballot_at first.entry) (ballot_at second.entry)
        × AreQuorum (λ _. faults) members first_signers.now
        × AreQuorum (λ _. faults) members second_signers.now) }
    ensures nothing { IsErrOf result Memory
        → (1 ≤ length first_signers.now) × (1 ≤ length second_signers.now) }
    ensures contradict { OnOk result (Contradict (ballot_at first.entry) (ballot_at second.entry)) }
    ensures quorums { OnOk result
        (AreQuorum (λ _. faults) members first_signers.now
        × AreQuorum (λ _. faults) members second_signers.now) }
    ensures both { IfOk result (AreInBoth first_signers.now second_signers.now) }
    ensures shared { IfOk result (λ both. members ≤ 2 * faults + length both) }
    ensures leaves { 3 * faults + 1 ≤ members
        → IfOk result (LeavesOneOutside members faults) }
    ensures guilty { (log : ℕ → Ballot → Bool)
        → EachSigned (InLog log) first_signers.now (ballot_at first.entry)
        → EachSigned (InLog log) second_signers.now (ballot_at second.entry)
        → IfOk result (EachHasSignedTwo (InLog log)) }
    ensures innocent { (honest : ℕ → Bool) (log : ℕ → Ballot → Bool)
        → SignOneVote (Passes honest) (InLog log)
        → EachSigned (InLog log) first_signers.now (ballot_at first.entry)
        → EachSigned (InLog log) second_signers.now (ballot_at second.entry)
        → IfOk result (NoneIsHonest (Passes honest)) }
{
    equivocation_among_counted(
        alloc,
        members,
        faults,
        first,
        first_signers,
        second,
        second_signers,
        &mut Uncounted,
    )
}

/// Returns what `equivocation_among` does, and counts how often it compares a signer of one vote
/// with one of the other: at most as often as there are signers of both votes, where those that
/// signed both are counted once; and for an Ok at least as often as one of the votes has signers.
pub fn equivocation_among_counted<A: Allocator, C: Counter>(
    alloc: A,
    members: usize,
    faults: u32,
    first: VoteAt<'_>,
    first_signers: &Set<Participant, A>,
    second: VoteAt<'_>,
    second_signers: &Set<Participant, A>,
    count: &mut C,
) -> Result<Set<Participant, A>, OverlapError>
    requires at_most { faults ≤ members }
    ensures other_domain { IsErrOf result OtherDomain
        ↔ AreOfOtherDomains (ballot_at first.entry) (ballot_at second.entry) }
    ensures other_slot { IsErrOf result OtherSlot
        ↔ AreOfOtherSlots (ballot_at first.entry) (ballot_at second.entry) }
    ensures same_decision { IsErrOf result SameDecision
        ↔ AreOneDecision (ballot_at first.entry) (ballot_at second.entry) }
    ensures outside { IsErrOf result Outside
        ↔ (Contradict (ballot_at first.entry) (ballot_at second.entry)
        × (HasOutsider members first_signers.now ⊎ HasOutsider members second_signers.now)) }
    ensures too_few { IsErrOf result TooFew
        ↔ (Contradict (ballot_at first.entry) (ballot_at second.entry)
        × AreMembers members first_signers.now × AreMembers members second_signers.now
        × (AreTooFew (λ _. faults) members first_signers.now
        ⊎ AreTooFew (λ _. faults) members second_signers.now)) }
    ensures memory { IsErrOf result Memory
        → (Contradict (ballot_at first.entry) (ballot_at second.entry)
        × AreQuorum (λ _. faults) members first_signers.now
        × AreQuorum (λ _. faults) members second_signers.now) }
    ensures nothing { IsErrOf result Memory
        → (1 ≤ length first_signers.now) × (1 ≤ length second_signers.now) }
    ensures contradict { OnOk result (Contradict (ballot_at first.entry) (ballot_at second.entry)) }
    ensures quorums { OnOk result
        (AreQuorum (λ _. faults) members first_signers.now
        × AreQuorum (λ _. faults) members second_signers.now) }
    ensures both { IfOk result (AreInBoth first_signers.now second_signers.now) }
    ensures shared { IfOk result (λ both. members ≤ 2 * faults + length both) }
    ensures leaves { 3 * faults + 1 ≤ members
        → IfOk result (LeavesOneOutside members faults) }
    ensures guilty { (log : ℕ → Ballot → Bool)
        → EachSigned (InLog log) first_signers.now (ballot_at first.entry)
        → EachSigned (InLog log) second_signers.now (ballot_at second.entry)
        → IfOk result (EachHasSignedTwo (InLog log)) }
    ensures innocent { (honest : ℕ → Bool) (log : ℕ → Ballot → Bool)
        → SignOneVote (Passes honest) (InLog log)
        → EachSigned (InLog log) first_signers.now (ballot_at first.entry)
        → EachSigned (InLog log) second_signers.now (ballot_at second.entry)
        → IfOk result (NoneIsHonest (Passes honest)) }
    ensures cost { C.counted count.new
        ≤ C.counted count.old + length first_signers.now + length second_signers.now }
    ensures once { IfOk result (λ both. C.counted count.new + length both
        ≤ C.counted count.old + length first_signers.now + length second_signers.now) }
    ensures least { OnOk result (IsWalkedToAnEnd C.step
        (length first_signers.now) (length second_signers.now)
        (C.counted count.old) (C.counted count.new)) }
{
    let quorum = members - faults as usize;
    overlap_counted(
        alloc,
        members,
        quorum,
        first,
        first_signers,
        quorum,
        second,
        second_signers,
        count,
    )
}
