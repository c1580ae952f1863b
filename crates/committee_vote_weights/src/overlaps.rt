//! The members that signed both of two votes, where the signers of each have a least weight.
ghost use Rattle.std.specs.Prelude.{◌≡◌, ◌⊎◌, ◌↔◌, ◌≤◌, ℕ, Bool, IfOk, IsErrOf, OnOk, length};
ghost use Rattle.committee_certificates.specs.Accountability.{Passes};
ghost use Rattle.committee_certificates.specs.Signers.{AreInBoth, AreMembers, HasOutsider};
ghost use Rattle.committee_vote_weights.specs.declared.overlaps.WeightedOverlapError.TheVariants.{Memory, OtherDomain, OtherSlot, Outside, SameDecision, TooLight};
ghost use Rattle.committee_vote_weights.specs.WeightShares.{AreLighter, AreSharedByWeight};
ghost use Rattle.committee_votes.specs.declared.verdicts.Verdict.TheVariants.{CannotJudge, Failed, NoOffenceByThisRule};
ghost use Rattle.committee_votes.specs.Accountability.{EachHasSignedTwo, EachSigned, InLog};
ghost use Rattle.committee_votes.specs.Accountability.{NoneIsHonest, SignOneVote};
ghost use Rattle.committee_votes.specs.Votes.{AreOfOtherDomains, AreOfOtherSlots, AreOneDecision};
ghost use Rattle.committee_votes.specs.Votes.{Ballot, Contradict, ballot_at};
ghost use Rattle.committee_weights.specs.Members.{weight_of};

use committee_certificates::signers_of_both_counted;
use committee_votes::{Verdict, VoteAt, VotesError, check_votes};
use committee_weights::Weights;
use commonware_base::Participant;
use commonware_ordered::{Set, Uncounted};
use std::alloc::Allocator;

/// Why two votes whose signers have a least weight each name no one. They are tried in this order.
///
/// Of the weights 40, 30, 20 and 10, where 67 are asked for on each side, slot 7: A, signed by 0
/// and 1, and slot 7: B, signed by 1, 2 and 3, give `TooLight`: 1, 2 and 3 weigh 60.
#[derive(Clone, Copy, Debug, PartialEq, Eq, thiserror::Error)]
pub enum WeightedOverlapError {
    /// The votes are of two domains: of two chains, or of two committees.
    #[error("two different domains")]
    OtherDomain,
    /// The votes are for two slots of one domain: this rule allows both.
    #[error("two different slots")]
    OtherSlot,
    /// The votes are the same decision for the same slot.
    #[error("the same decision for the same slot")]
    SameDecision,
    /// A signer of one of them is at or past the number of weights.
    #[error("a signer is no member of the committee")]
    Outside,
    /// All signers are members, and those of one vote weigh less than its least weight.
    #[error("the signers weigh less than asked for")]
    TooLight,
    /// An allocation failed. It says nothing of the votes.
    #[error("out of memory")]
    Memory,
}

impl WeightedOverlapError {
    /// Returns which kind of refusal it is. None of them acquits anybody.
    pub fn verdict(&self) -> Verdict
        ensures no_offence { (result ≡ NoOffenceByThisRule) ↔ ((self.now ≡ OtherDomain)
            ⊎ (self.now ≡ OtherSlot) ⊎ (self.now ≡ SameDecision)) }
        ensures cannot_judge { (result ≡ CannotJudge) ↔ ((self.now ≡ Outside)
            ⊎ (self.now ≡ TooLight)) }
        ensures failed { (result ≡ Failed) ↔ (self.now ≡ Memory) }
    {
        match self {
            WeightedOverlapError::OtherDomain => Verdict::NoOffenceByThisRule,
            WeightedOverlapError::OtherSlot => Verdict::NoOffenceByThisRule,
            WeightedOverlapError::SameDecision => Verdict::NoOffenceByThisRule,
            WeightedOverlapError::Outside => Verdict::CannotJudge,
            WeightedOverlapError::TooLight => Verdict::CannotJudge,
            WeightedOverlapError::Memory => Verdict::Failed,
        }
    }
}

/// Returns what `double_signers` does, where the signers of the first vote weigh at least
/// `first_least`, and those of the second at least `second_least`.
///
/// With a and b for these numbers and W for what all weigh, those that are returned weigh at least
/// a + b - W; and where a + b is more than W + f, whichever participants are faulty (Byzantine), if
/// they weigh at most f together, one that is returned isn't among them (`shared`). Both numbers
/// may be 0, and then it is `double_signers`.
///
/// The errors come in the order of `WeightedOverlapError`, each exactly where it says; all but
/// `Memory` before anything is allocated, and `Memory` only where both votes have signers.
///
/// **Warning.** It looks at no signature. Whoever doesn't verify them first may accuse an innocent
/// member.
pub fn weighted_overlap<A: Allocator, B: Allocator>(
    alloc: A,
    weights: &Weights<B>,
    first_least: u64,
    first: VoteAt<'_>,
    first_signers: &Set<Participant, A>,
    second_least: u64,
    second: VoteAt<'_>,
    second_signers: &Set<Participant, A>,
) -> Result<Set<Participant, A>, WeightedOverlapError>
    ensures other_domain { IsErrOf result OtherDomain
        ↔ AreOfOtherDomains (ballot_at first.entry) (ballot_at second.entry) }
    ensures other_slot { IsErrOf result OtherSlot
        ↔ AreOfOtherSlots (ballot_at first.entry) (ballot_at second.entry) }
    ensures same_decision { IsErrOf result SameDecision
        ↔ AreOneDecision (ballot_at first.entry) (ballot_at second.entry) }
    ensures outside { let n = length weights.now in IsErrOf result Outside
        ↔ (Contradict (ballot_at first.entry) (ballot_at second.entry)
        × (HasOutsider n first_signers.now ⊎ HasOutsider n second_signers.now)) }
    ensures too_light { let n = length weights.now in IsErrOf result TooLight
        ↔ (Contradict (ballot_at first.entry) (ballot_at second.entry)
        × AreMembers n first_signers.now × AreMembers n second_signers.now
        × (AreLighter first_least weights.now first_signers.now
        ⊎ AreLighter second_least weights.now second_signers.now)) }
    ensures memory { let n = length weights.now in IsErrOf result Memory
        → (Contradict (ballot_at first.entry) (ballot_at second.entry)
        × AreMembers n first_signers.now × AreMembers n second_signers.now
        × (first_least ≤ weight_of weights.now first_signers.now)
        × (second_least ≤ weight_of weights.now second_signers.now)) }
    ensures nothing { IsErrOf result Memory
        → (1 ≤ length first_signers.now) × (1 ≤ length second_signers.now) }
    ensures contradict { OnOk result (Contradict (ballot_at first.entry) (ballot_at second.entry)) }
    ensures members { let n = length weights.now in OnOk result
        (AreMembers n first_signers.now × AreMembers n second_signers.now) }
    ensures enough { OnOk result ((first_least ≤ weight_of weights.now first_signers.now)
        × (second_least ≤ weight_of weights.now second_signers.now)) }
    ensures both { IfOk result (AreInBoth first_signers.now second_signers.now) }
    ensures shared { IfOk result (AreSharedByWeight weights.now first_least second_least) }
    ensures guilty { (log : ℕ → Ballot → Bool)
        → EachSigned (InLog log) first_signers.now (ballot_at first.entry)
        → EachSigned (InLog log) second_signers.now (ballot_at second.entry)
        → IfOk result (EachHasSignedTwo (InLog log)) }
    ensures innocent { (honest : ℕ → Bool) (log : ℕ → Ballot → Bool)
        → SignOneVote (Passes honest) (InLog log)
        → EachSigned (InLog log) first_signers.now (ballot_at first.entry)
        → EachSigned (InLog log) second_signers.now (ballot_at second.entry)
        → IfOk result (NoneIsHonest (Passes honest)) }
{
    match check_votes(first, second) {
        Ok(()) => {}
        Err(VotesError::OtherDomain) => return Err(WeightedOverlapError::OtherDomain),
        Err(VotesError::OtherSlot) => return Err(WeightedOverlapError::OtherSlot),
        Err(VotesError::SameDecision) => return Err(WeightedOverlapError::SameDecision),
    }
    let Some(one) = weights.weight_of(first_signers) else {
        return Err(WeightedOverlapError::Outside);
    };
    let Some(two) = weights.weight_of(second_signers) else {
        return Err(WeightedOverlapError::Outside);
    };
    if one < first_least {
        return Err(WeightedOverlapError::TooLight);
    }
    if two < second_least {
        return Err(WeightedOverlapError::TooLight);
    }
    match signers_of_both_counted(alloc, first_signers, second_signers, &mut Uncounted) {
        Ok(both) => Ok(both),
        Err(_) => Err(WeightedOverlapError::Memory),
    }
}
