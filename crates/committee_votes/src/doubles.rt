//! The members that signed both of two votes that contradict one another.
ghost use Rattle.std.specs.Prelude.{◌≡◌, ◌+◌, ◌≤◌, ◌⊎◌, ◌↔◌, ℕ, Bool, IfOk, IsErrOf, OnOk, length};
ghost use Rattle.committee_certificates.specs.Accountability.{Passes};
ghost use Rattle.committee_certificates.specs.Signers.{AreInBoth, AreMembers, HasOutsider};
ghost use Rattle.committee_certificates.specs.WalkCosts.{IsWalkedToAnEnd};
ghost use Rattle.committee_votes.specs.declared.doubles.DoubleSignersError.TheVariants.{Memory, OtherDomain, OtherSlot, Outside, SameDecision};
ghost use Rattle.committee_votes.specs.declared.verdicts.Verdict.TheVariants.{CannotJudge, Failed, NoOffenceByThisRule};
ghost use Rattle.committee_votes.specs.Accountability.{EachHasSignedTwo, EachSigned, InLog};
ghost use Rattle.committee_votes.specs.Accountability.{NoneIsHonest, SignOneVote};
ghost use Rattle.committee_votes.specs.Votes.{AreOfOtherDomains, AreOfOtherSlots, AreOneDecision};
ghost use Rattle.committee_votes.specs.Votes.{Ballot, Contradict, ballot_at};

use crate::verdicts::Verdict;
use crate::votes::{VoteAt, VotesError, check_votes};
use committee_certificates::{are_members, signers_of_both_counted};
use commonware_base::Participant;
use commonware_ordered::{Counter, Set, Uncounted};
use std::alloc::Allocator;

/// Why two votes name no one. They are tried in this order.
///
/// In a committee of 4, slot 7: A, signed by 0 and 1, and slot 7: B, signed by 4, give `Outside`.
#[derive(Clone, Copy, Debug, PartialEq, Eq, thiserror::Error)]
pub enum DoubleSignersError {
    /// The votes are of two domains: of two chains, or of two committees.
    #[error("two different domains")]
    OtherDomain,
    /// The votes are for two slots of one domain: this rule allows both.
    #[error("two different slots")]
    OtherSlot,
    /// The votes are the same decision for the same slot.
    #[error("the same decision for the same slot")]
    SameDecision,
    /// A signer of one of them is at or past the committee's length.
    #[error("a signer is no member of the committee")]
    Outside,
    /// An allocation failed. It says nothing of the votes.
    #[error("out of memory")]
    Memory,
}

impl DoubleSignersError {
    /// Returns which kind of refusal it is. None of them acquits anybody.
    pub fn verdict(&self) -> Verdict
        ensures no_offence { (result ≡ NoOffenceByThisRule) ↔ ((self.now ≡ OtherDomain)
            ⊎ (self.now ≡ OtherSlot) ⊎ (self.now ≡ SameDecision)) }
        ensures cannot_judge { (result ≡ CannotJudge) ↔ (self.now ≡ Outside) }
        ensures failed { (result ≡ Failed) ↔ (self.now ≡ Memory) }
    {
        match self {
            DoubleSignersError::OtherDomain => Verdict::NoOffenceByThisRule,
            DoubleSignersError::OtherSlot => Verdict::NoOffenceByThisRule,
            DoubleSignersError::SameDecision => Verdict::NoOffenceByThisRule,
            DoubleSignersError::Outside => Verdict::CannotJudge,
            DoubleSignersError::Memory => Verdict::Failed,
        }
    }
}

/// Returns the members that signed both of two votes that contradict one another: exactly the
/// signers of both, however few signed either. That no one did is an Ok of an empty set, which
/// acquits nobody.
///
/// The errors come in the order of `DoubleSignersError`, each exactly where it says; all but
/// `Memory` before anything is allocated, and `Memory` only where both votes have signers. Whatever
/// log of signatures there is, if each signer of each vote signed it by the log, then each member
/// that is returned signed, by the log, two decisions for one slot of one domain (`guilty`); and
/// none of them is honest, where honest members sign at most one (`innocent`).
///
/// **Warning.** It looks at no signature. Whoever doesn't verify them first may accuse an innocent
/// member.
pub fn double_signers<A: Allocator>(
    alloc: A,
    members: usize,
    first: VoteAt<'_>,
    first_signers: &Set<Participant, A>,
    second: VoteAt<'_>,
    second_signers: &Set<Participant, A>,
) -> Result<Set<Participant, A>, DoubleSignersError>
    ensures other_domain { IsErrOf result OtherDomain
        ↔ AreOfOtherDomains (ballot_at first.entry) (ballot_at second.entry) }
    ensures other_slot { IsErrOf result OtherSlot
        ↔ AreOfOtherSlots (ballot_at first.entry) (ballot_at second.entry) }
    ensures same_decision { IsErrOf result SameDecision
        ↔ AreOneDecision (ballot_at first.entry) (ballot_at second.entry) }
    ensures outside { IsErrOf result Outside
        ↔ (Contradict (ballot_at first.entry) (ballot_at second.entry)
        × (HasOutsider members first_signers.now ⊎ HasOutsider members second_signers.now)) }
    ensures memory { IsErrOf result Memory
        → (Contradict (ballot_at first.entry) (ballot_at second.entry)
        × AreMembers members first_signers.now × AreMembers members second_signers.now) }
    ensures nothing { IsErrOf result Memory
        → (1 ≤ length first_signers.now) × (1 ≤ length second_signers.now) }
    ensures contradict { OnOk result (Contradict (ballot_at first.entry) (ballot_at second.entry)) }
    ensures members { OnOk result
        (AreMembers members first_signers.now × AreMembers members second_signers.now) }
    ensures both { IfOk result (AreInBoth first_signers.now second_signers.now) }
    ensures guilty { (log : ℕ → Ballot → Bool)
        → EachSigned (InLog log) first_signers.now (ballot_at first.entry)
        → EachSigned (InLog log) second_signers.now (ballot_at second.entry)
        → IfOk result (EachHasSignedTwo (InLog log)) }
    ensures innocent { (honest : ℕ → Bool) (log : ℕ → Ballot → Bool)
        → SignOneVote (Passes honest) (InLog log)
        → EachSigned (InLog log) first_signers.now (ballot_at first.entry)
        → EachSigned (InLog log) second_signers.now (ballot_at second.entry)
        → IfOk result (NoneIsHonest (Passes honest)) }
{
    double_signers_counted(
        alloc,
        members,
        first,
        first_signers,
        second,
        second_signers,
        &mut Uncounted,
    )
}

/// Returns what `double_signers` does, and counts how often it compares a signer of one vote
/// with one of the other: at most as often as there are signers of both votes, where those that
/// signed both are counted once; and for an Ok at least as often as one of the votes has signers.
pub fn double_signers_counted<A: Allocator, C: Counter>(
    alloc: A,
    members: usize,
    first: VoteAt<'_>,
    first_signers: &Set<Participant, A>,
    second: VoteAt<'_>,
    second_signers: &Set<Participant, A>,
    count: &mut C,
) -> Result<Set<Participant, A>, DoubleSignersError>
    ensures other_domain { IsErrOf result OtherDomain
        ↔ AreOfOtherDomains (ballot_at first.entry) (ballot_at second.entry) }
    ensures other_slot { IsErrOf result OtherSlot
        ↔ AreOfOtherSlots (ballot_at first.entry) (ballot_at second.entry) }
    ensures same_decision { IsErrOf result SameDecision
        ↔ AreOneDecision (ballot_at first.entry) (ballot_at second.entry) }
    ensures outside { IsErrOf result Outside
        ↔ (Contradict (ballot_at first.entry) (ballot_at second.entry)
        × (HasOutsider members first_signers.now ⊎ HasOutsider members second_signers.now)) }
    ensures memory { IsErrOf result Memory
        → (Contradict (ballot_at first.entry) (ballot_at second.entry)
        × AreMembers members first_signers.now × AreMembers members second_signers.now) }
    ensures nothing { IsErrOf result Memory
        → (1 ≤ length first_signers.now) × (1 ≤ length second_signers.now) }
    ensures contradict { OnOk result (Contradict (ballot_at first.entry) (ballot_at second.entry)) }
    ensures members { OnOk result
        (AreMembers members first_signers.now × AreMembers members second_signers.now) }
    ensures both { IfOk result (AreInBoth first_signers.now second_signers.now) }
    ensures guilty { (log : ℕ → Ballot → Bool)
        → EachSigned (InLog log) first_signers.now (ballot_at first.entry)
        → EachSigned (InLog log) second_signers.now (ballot_at second.entry)
        → IfOk result (EachHasSignedTwo (InLog log)) }
    ensures innocent { (honest : ℕ → Bool) (log : ℕ → Ballot → Bool)
        → SignOneVote (Passes honest) (InLog log)
        → EachSigned (InLog log) first_signers.now (ballot_at first.entry)
        → EachSigned (InLog log) second_signers.now (ballot_at second.entry)
        → IfOk result (NoneIsHonest (Passes honest)) }
    ensures cost { C.counted count.new
        ≤ C.counted count.old + length first_signers.now + length second_signers.now }
    ensures once { IfOk result (λ both. C.counted count.new + length both
        ≤ C.counted count.old + length first_signers.now + length second_signers.now) }
    ensures least { OnOk result (IsWalkedToAnEnd C.step
        (length first_signers.now) (length second_signers.now)
        (C.counted count.old) (C.counted count.new)) }
{
    match check_votes(first, second) {
        Ok(()) => {}
        Err(VotesError::OtherDomain) => return Err(DoubleSignersError::OtherDomain),
        Err(VotesError::OtherSlot) => return Err(DoubleSignersError::OtherSlot),
        Err(VotesError::SameDecision) => return Err(DoubleSignersError::SameDecision),
    }
    if !are_members(members, first_signers) {
        return Err(DoubleSignersError::Outside);
    }
    if !are_members(members, second_signers) {
        return Err(DoubleSignersError::Outside);
    }
    match signers_of_both_counted(alloc, first_signers, second_signers, count) {
        Ok(both) => Ok(both),
        Err(_) => Err(DoubleSignersError::Memory),
    }
}
