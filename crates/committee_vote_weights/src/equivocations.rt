//! Equivocation by weight: a quorum on each side of two votes that contradict one another.
ghost use Rattle.std.specs.Prelude.{◌+◌, ◌-◌, ◌*◌, ◌≤◌, ◌⊎◌, ◌↔◌, ℕ, Bool, IfOk, IsErrOf, OnOk, length, sum};
ghost use Rattle.committee_certificates.specs.Accountability.{Passes};
ghost use Rattle.committee_certificates.specs.Signers.{AreInBoth, AreMembers, HasOutsider};
ghost use Rattle.committee_vote_weights.specs.declared.overlaps.WeightedOverlapError.TheVariants.{Memory, OtherDomain, OtherSlot, Outside, SameDecision, TooLight};
ghost use Rattle.committee_votes.specs.Accountability.{EachHasSignedTwo, EachSigned, InLog};
ghost use Rattle.committee_votes.specs.Accountability.{NoneIsHonest, SignOneVote};
ghost use Rattle.committee_votes.specs.Votes.{AreOfOtherDomains, AreOfOtherSlots, AreOneDecision};
ghost use Rattle.committee_votes.specs.Votes.{Ballot, Contradict, ballot_at};
ghost use Rattle.committee_weights.specs.Members.{AreTooLight, AreWeightedQuorum, faulty_weight, weight_of};
ghost use Rattle.committee_weights.specs.Members.{LeavesOneOutsideWeight};

use crate::overlaps::{WeightedOverlapError, weighted_overlap};
use committee_votes::VoteAt;
use committee_weights::Weights;
use commonware_base::Participant;
use commonware_ordered::Set;
use std::alloc::Allocator;

/// Returns the members that equivocated, where quorums are by weight: what `double_signers` does,
/// where the signers of each vote weigh a quorum at the resilience `k`. It requires that `k` is at
/// least 2.
///
/// With f the greatest weight that is safe for all weights of this total, (total - 1) / k, those
/// that are returned weigh at least (k - 2)f + 1; and at a `k` of 3 or more, whichever participants
/// are faulty (Byzantine), if they weigh at most f together, one that is returned isn't among them.
///
/// The errors come in the order of `WeightedOverlapError`, each exactly where it says; all but
/// `Memory` before anything is allocated, and `Memory` only where both votes have signers.
///
/// **Warning.** It looks at no signature. Whoever doesn't verify them first may accuse an innocent
/// member.
pub fn weighted_equivocation<A: Allocator, B: Allocator>(
    alloc: A,
    k: u32,
    weights: &Weights<B>,
    first: VoteAt<'_>,
    first_signers: &Set<Participant, A>,
    second: VoteAt<'_>,
    second_signers: &Set<Participant, A>,
) -> Result<Set<Participant, A>, WeightedOverlapError>
    requires resilience { 2 ≤ k }
    ensures other_domain { IsErrOf result OtherDomain
        ↔ AreOfOtherDomains (ballot_at first.entry) (ballot_at second.entry) }
    ensures other_slot { IsErrOf result OtherSlot
        ↔ AreOfOtherSlots (ballot_at first.entry) (ballot_at second.entry) }
    ensures same_decision { IsErrOf result SameDecision
        ↔ AreOneDecision (ballot_at first.entry) (ballot_at second.entry) }
    ensures outside { let n = length weights.now in IsErrOf result Outside
        ↔ (Contradict (ballot_at first.entry) (ballot_at second.entry)
        × (HasOutsider n first_signers.now ⊎ HasOutsider n second_signers.now)) }
    ensures too_light { let n = length weights.now in IsErrOf result TooLight
        ↔ (Contradict (ballot_at first.entry) (ballot_at second.entry)
        × AreMembers n first_signers.now × AreMembers n second_signers.now
        × (AreTooLight k weights.now first_signers.now
        ⊎ AreTooLight k weights.now second_signers.now)) }
    ensures memory { IsErrOf result Memory
        → (Contradict (ballot_at first.entry) (ballot_at second.entry)
        × AreWeightedQuorum k weights.now first_signers.now
        × AreWeightedQuorum k weights.now second_signers.now) }
    ensures nothing { IsErrOf result Memory
        → (1 ≤ length first_signers.now) × (1 ≤ length second_signers.now) }
    ensures contradict { OnOk result (Contradict (ballot_at first.entry) (ballot_at second.entry)) }
    ensures quorums { OnOk result (AreWeightedQuorum k weights.now first_signers.now
        × AreWeightedQuorum k weights.now second_signers.now) }
    ensures both { IfOk result (AreInBoth first_signers.now second_signers.now) }
    ensures shared { let total = sum weights.now in IfOk result (λ both.
        total ≤ 2 * faulty_weight k total + weight_of weights.now both) }
    ensures weigh { let f = faulty_weight k (sum weights.now) in
        IfOk result (λ both. (k - 2) * f + 1 ≤ weight_of weights.now both) }
    ensures leaves { let f = faulty_weight k (sum weights.now) in
        3 ≤ k → IfOk result (LeavesOneOutsideWeight weights.now f) }
    ensures guilty { (log : ℕ → Ballot → Bool)
        → EachSigned (InLog log) first_signers.now (ballot_at first.entry)
        → EachSigned (InLog log) second_signers.now (ballot_at second.entry)
        → IfOk result (EachHasSignedTwo (InLog log)) }
    ensures innocent { (honest : ℕ → Bool) (log : ℕ → Ballot → Bool)
        → SignOneVote (Passes honest) (InLog log)
        → EachSigned (InLog log) first_signers.now (ballot_at first.entry)
        → EachSigned (InLog log) second_signers.now (ballot_at second.entry)
        → IfOk result (NoneIsHonest (Passes honest)) }
{
    let quorum = weights.quorum_weight(k);
    // For its clause alone, by which the total is at least 1.
    let _members = weights.len();
    weighted_overlap(
        alloc,
        weights,
        quorum,
        first,
        first_signers,
        quorum,
        second,
        second_signers,
    )
}
