//! Safety and accountability of a protocol's own: what a type of `Signing` says of who signed what
//! and of who is honest, put to the results of the calls.
ghost use Rattle.std.specs.Prelude.{◌≡◌, ◌≢◌, ◌⊎◌, ℕ, Bool, List, [], ◌∷◌, Contains, IfOk, IsOk, IsTrue, length, pos, sum};
ghost use Rattle.committee_certificates.specs.Accountability.{AtMostFaulty, EachSigned, InLog};
ghost use Rattle.committee_certificates.specs.Accountability.{Passes, SignOneDecision};
ghost use Rattle.committee_certificates.specs.Slots.{Contradict};
ghost use Rattle.committee_weights.specs.Accountability.{FaultyWeighAtMost};
ghost use Rattle.committee_weights.specs.Members.{faulty_weight};
ghost use Rattle.commonware_base.specs.Unions.{union_text};
ghost use Rattle.commonware_utils.specs.Faults.{IsCommitteeSize};

use committee_certificates::{
    Certificate, EquivocationError, QuorumError, Signing, accountability_law, accountability_of,
    both_certified, both_certified_among, check_quorum, equivocation, safety_of,
};
use committee_weights::{
    Weights, both_certified_by_weight, check_weight, weighted_safety_law, weighted_safety_of,
};
use commonware_utils::Participant;
use commonware_utils::faults::{Faults, N3f1};
use commonware_utils::ordered::Set;
use std::alloc::Global;

/// A network with one slot, 0: each participant signed the decision 0xaa for it and nothing else,
/// but for participant 0, which isn't honest and signed every decision.
pub struct OneTraitor;

impl Signing for OneTraitor {
    ghost signed = { λ index value. (decision : List ℕ) × (value ≡ union_text (0 ∷ []) decision)
        × ((index ≡ 0) ⊎ (decision ≡ 170 ∷ [])) };

    ghost honest = { λ index. index ≢ 0 };
}

/// Whether a quorum of four signed each of two certificates, in the network of one traitor: then
/// they don't contradict one another, if each signature is genuine. Nothing is left to assume.
pub fn both_stand(first: &Certificate<Global>, second: &Certificate<Global>) -> bool
    ensures { IsTrue result
        → EachSigned ⟦<OneTraitor as Signing>⟧.signed first.now.signers first.now.value.items
        → EachSigned ⟦<OneTraitor as Signing>⟧.signed second.now.signers second.now.value.items
        → ¬ Contradict first.now.value.items second.now.value.items }
{
    both_certified_among::<OneTraitor, Global>(4, 1, first, second)
}

/// Whether a quorum under `N3f1` signed each of two certificates. It requires that the committee
/// has 1 to `u32::MAX` members.
pub fn both_final<S: Signing>(
    members: &Set<u32, Global>,
    first: &Certificate<Global>,
    second: &Certificate<Global>,
) -> bool
    requires some { IsCommitteeSize (pos (length members.now)) }
    ensures { let n = length members.now in IsTrue result
        → SignOneDecision S.honest S.signed
        → AtMostFaulty n (⟦<N3f1 as Faults>⟧.faults n) S.honest
        → EachSigned S.signed first.now.signers first.now.value.items
        → EachSigned S.signed second.now.signers second.now.value.items
        → ¬ Contradict first.now.value.items second.now.value.items }
{
    both_certified::<N3f1, S, _, _>(members, first, second)
}

/// Checks two certificates one after the other, under `N3f1`, as a program that gets the second
/// one later does. It requires that the committee has 1 to `u32::MAX` members.
pub fn check_both<S: Signing>(
    members: &Set<u32, Global>,
    first: &Certificate<Global>,
    second: &Certificate<Global>,
) -> Result<(), QuorumError>
    requires some { IsCommitteeSize (pos (length members.now)) }
    ensures { let n = length members.now in IsOk result
        → SignOneDecision S.honest S.signed
        → AtMostFaulty n (⟦<N3f1 as Faults>⟧.faults n) S.honest
        → EachSigned S.signed first.now.signers first.now.value.items
        → EachSigned S.signed second.now.signers second.now.value.items
        → ¬ Contradict first.now.value.items second.now.value.items }
{
    safety_of::<S, Global>(first, second);
    check_quorum::<N3f1, _, _>(members, first)?;
    check_quorum::<N3f1, _, _>(members, second)
}

/// Returns the members that equivocated, none of which is honest, whatever signing is. It requires
/// that the committee has 1 to `u32::MAX` members.
pub fn dishonest<S: Signing>(
    alloc: Global,
    members: &Set<u32, Global>,
    first: &Certificate<Global>,
    second: &Certificate<Global>,
) -> Result<Set<Participant, Global>, EquivocationError>
    requires some { IsCommitteeSize (pos (length members.now)) }
    ensures { SignOneDecision S.honest S.signed
        → EachSigned S.signed first.now.signers first.now.value.items
        → EachSigned S.signed second.now.signers second.now.value.items
        → IfOk result (λ named. (index : ℕ) → Contains named index → ¬ S.honest index) }
{
    accountability_of::<S>();
    equivocation::<N3f1, _, _>(alloc, members, first, second)
}

/// Returns what `dishonest` does, for every log of signatures and every test of honesty.
pub fn dishonest_by_log(
    alloc: Global,
    members: &Set<u32, Global>,
    first: &Certificate<Global>,
    second: &Certificate<Global>,
) -> Result<Set<Participant, Global>, EquivocationError>
    requires some { IsCommitteeSize (pos (length members.now)) }
    ensures { (honest : ℕ → Bool) (log : ℕ → List ℕ → Bool)
        → SignOneDecision (Passes honest) (InLog log)
        → EachSigned (InLog log) first.now.signers first.now.value.items
        → EachSigned (InLog log) second.now.signers second.now.value.items
        → IfOk result (λ named. (index : ℕ) → Contains named index → ¬ Passes honest index) }
{
    accountability_law();
    equivocation::<N3f1, _, _>(alloc, members, first, second)
}

/// Whether members that weigh more than two thirds signed each of two certificates.
pub fn both_heavy<S: Signing>(
    weights: &Weights<Global>,
    first: &Certificate<Global>,
    second: &Certificate<Global>,
) -> bool
    ensures { IsTrue result → SignOneDecision S.honest S.signed
        → FaultyWeighAtMost weights.now (faulty_weight 3 (sum weights.now)) S.honest
        → EachSigned S.signed first.now.signers first.now.value.items
        → EachSigned S.signed second.now.signers second.now.value.items
        → ¬ Contradict first.now.value.items second.now.value.items }
{
    both_certified_by_weight::<S, Global, Global>(3, weights, first, second)
}

/// What `both_heavy` says at more than four fifths, of two certificates that are checked one after
/// the other.
pub fn both_heavy_in_turn<S: Signing>(
    weights: &Weights<Global>,
    first: &Certificate<Global>,
    second: &Certificate<Global>,
) -> bool
    ensures { IsTrue result → SignOneDecision S.honest S.signed
        → FaultyWeighAtMost weights.now (faulty_weight 5 (sum weights.now)) S.honest
        → EachSigned S.signed first.now.signers first.now.value.items
        → EachSigned S.signed second.now.signers second.now.value.items
        → ¬ Contradict first.now.value.items second.now.value.items }
{
    weighted_safety_of::<S, Global, Global>(weights, first, second);
    check_weight(5, weights, first).is_ok() && check_weight(5, weights, second).is_ok()
}

/// What `both_heavy` says, for every log of signatures and every test of honesty.
pub fn both_heavy_by_log(
    weights: &Weights<Global>,
    first: &Certificate<Global>,
    second: &Certificate<Global>,
) -> bool
    ensures { (honest : ℕ → Bool) (log : ℕ → List ℕ → Bool) → IsTrue result
        → SignOneDecision (Passes honest) (InLog log)
        → FaultyWeighAtMost weights.now (faulty_weight 3 (sum weights.now)) (Passes honest)
        → EachSigned (InLog log) first.now.signers first.now.value.items
        → EachSigned (InLog log) second.now.signers second.now.value.items
        → ¬ Contradict first.now.value.items second.now.value.items }
{
    weighted_safety_law();
    let _ = weights.max_faulty_weight(3);
    let _ = first.signers.as_slice();
    let _ = second.signers.as_slice();
    check_weight(3, weights, first).is_ok() && check_weight(3, weights, second).is_ok()
}
