//! Safety of quorum certificates by weight, from what `check_weight` returns.
ghost use Rattle.std.specs.Prelude.{ℕ, ◌≤◌, ◌↔◌, IsTrue, sum};
ghost use Rattle.committee_certificates.specs.Accountability.{EachSigned, SignOneDecision};
ghost use Rattle.committee_certificates.specs.Slots.{Contradict};
ghost use Rattle.committee_weights.specs.Accountability.{FaultyWeighAtMost};
ghost use Rattle.committee_weights.specs.Members.{AreWeightedQuorum, faulty_weight};

use crate::quorums::are_quorums;
use crate::weights::Weights;
use committee_certificates::{Certificate, Signing};
use std::alloc::Allocator;

/// Safety by weight, of two certificates that `check_weight` accepts at a `k` of 3 or more: they
/// are not two different decisions for one slot, where those that aren't honest weigh no more than
/// may be faulty, honest members sign at most one decision for each slot, and the signers of each
/// certificate signed its value. It does nothing: call it for what it says.
///
/// Of the weights 40, 30, 20 and 10, the signers 0 and 1 of the decision A for a slot weigh 70, and
/// 0, 2 and 3 of the decision B for the same slot weigh 70. Then a premise doesn't hold: more than
/// 33 of 100 aren't honest, or a signature isn't genuine, or what is called a slot isn't what
/// honest members sign at most once.
pub fn weighted_safety_of<S: Signing, A: Allocator, B: Allocator>(
    weights: &Weights<B>,
    first: &Certificate<A>,
    second: &Certificate<A>,
)
    ensures { (k : ℕ) → 3 ≤ k → SignOneDecision S.honest S.signed
        → FaultyWeighAtMost weights.now (faulty_weight k (sum weights.now)) S.honest
        → EachSigned S.signed first.now.signers first.now.value.items
        → EachSigned S.signed second.now.signers second.now.value.items
        → AreWeightedQuorum k weights.now first.now.signers
        → AreWeightedQuorum k weights.now second.now.signers
        → ¬ Contradict first.now.value.items second.now.value.items }
{
    // Once they are read, the sets say that the signers are strictly increasing, and the weights
    // that they are those of a committee.
    let _ = first.signers.as_slice();
    let _ = second.signers.as_slice();
    let _ = weights.as_slice();
}

/// Whether `check_weight` accepts both of two certificates. Nothing is allocated. It requires that
/// `k` is at least 2.
///
/// `safe` says what a `true` is worth at a `k` of 3 or more: where the signers of each signed its
/// value, honest members sign at most one decision for each slot, and those that aren't honest
/// weigh no more than may be faulty, the values are not two different decisions for one slot. `S`
/// says who signed what, and who is honest.
///
/// **Warning.** It looks at no signature: whoever doesn't verify them knows nothing of who signed.
pub fn both_certified_by_weight<S: Signing, A: Allocator, B: Allocator>(
    k: u32,
    weights: &Weights<B>,
    first: &Certificate<A>,
    second: &Certificate<A>,
) -> bool
    requires resilience { 2 ≤ k }
    ensures quorums { IsTrue result ↔ (AreWeightedQuorum k weights.now first.now.signers
        × AreWeightedQuorum k weights.now second.now.signers) }
    ensures safe { IsTrue result → 3 ≤ k → SignOneDecision S.honest S.signed
        → FaultyWeighAtMost weights.now (faulty_weight k (sum weights.now)) S.honest
        → EachSigned S.signed first.now.signers first.now.value.items
        → EachSigned S.signed second.now.signers second.now.value.items
        → ¬ Contradict first.now.value.items second.now.value.items }
{
    weighted_safety_of::<S, A, B>(weights, first, second);
    are_quorums(k, weights, first, second)
}
