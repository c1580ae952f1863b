//! Safety of quorum certificates, from what `check_quorum` and `check_quorum_among` return.
ghost use Rattle.std.specs.Prelude.{ℕ, ◌+◌, ◌*◌, ◌≤◌, ◌↔◌, IsTrue, length, pos};
ghost use Rattle.committee_certificates.specs.Accountability.{AtMostFaulty, EachSigned};
ghost use Rattle.committee_certificates.specs.Accountability.{SignOneDecision};
ghost use Rattle.committee_certificates.specs.Signers.{AreQuorum};
ghost use Rattle.committee_certificates.specs.Slots.{Contradict};
ghost use Rattle.commonware_faults.specs.Counts.{IsCommitteeSize};

use crate::accountability::Signing;
use crate::certificate::Certificate;
use crate::quorums::check_quorum_among;
use commonware_faults::Faults;
use commonware_ordered::{Quorum, Set};
use std::alloc::Allocator;

/// Safety, of two certificates that `check_quorum` or `check_quorum_among` accepts: they are not
/// two different decisions for one slot, where 3f + 1 is at most n and at most f of the n members
/// aren't honest, honest members sign at most one decision for each slot, and the signers of each
/// certificate signed its value. It does nothing: call it for what it says.
///
/// In a committee of 4 under `N3f1` the signers 0, 1 and 2 of the decision A for a slot are a
/// quorum, and 1, 2 and 3 of the decision B for the same slot are one. Then a premise doesn't hold:
/// more than one member isn't honest, or a signature isn't genuine, or what is called a slot isn't
/// what honest members sign at most once.
pub fn safety_of<S: Signing, A: Allocator>(first: &Certificate<A>, second: &Certificate<A>)
    ensures { (faults : ℕ → ℕ) (n : ℕ) → 3 * faults n + 1 ≤ n
        → SignOneDecision S.honest S.signed → AtMostFaulty n (faults n) S.honest
        → EachSigned S.signed first.now.signers first.now.value.items
        → EachSigned S.signed second.now.signers second.now.value.items
        → AreQuorum faults n first.now.signers → AreQuorum faults n second.now.signers
        → ¬ Contradict first.now.value.items second.now.value.items }
{
    // Once they are read, the sets say that the signers of each are strictly increasing.
    let _ = first.signers.as_slice();
    let _ = second.signers.as_slice();
}

/// Whether `check_quorum` accepts both of two certificates. Nothing is allocated. It requires that
/// the committee has 1 to `u32::MAX` members.
///
/// `safe` says what a `true` is worth: where the signers of each signed its value, honest members
/// sign at most one decision for each slot, and at most f of n members aren't honest, f being the
/// faults of the model and 3f + 1 at most n, the values are not two different decisions for one
/// slot. `S` says who signed what, and who is honest.
///
/// **Warning.** It looks at no signature: whoever doesn't verify them knows nothing of who signed.
pub fn both_certified<M: Faults, S: Signing, T: Ord, A: Allocator>(
    committee: &Set<T, A>,
    first: &Certificate<A>,
    second: &Certificate<A>,
) -> bool
    requires some { IsCommitteeSize (pos (length committee.now)) }
    ensures quorums { let n = length committee.now in IsTrue result
        ↔ (AreQuorum M.faults n first.now.signers × AreQuorum M.faults n second.now.signers) }
    ensures safe { let n = length committee.now in IsTrue result → 3 * M.faults n + 1 ≤ n
        → SignOneDecision S.honest S.signed → AtMostFaulty n (M.faults n) S.honest
        → EachSigned S.signed first.now.signers first.now.value.items
        → EachSigned S.signed second.now.signers second.now.value.items
        → ¬ Contradict first.now.value.items second.now.value.items }
{
    let members = committee.len();
    both_certified_among::<S, A>(members, M::max_faults(members), first, second)
}

/// What `both_certified` says for a committee of `members` members and a model that tolerates
/// `faults` of them. It requires that `faults` is at most `members`.
pub fn both_certified_among<S: Signing, A: Allocator>(
    members: usize,
    faults: u32,
    first: &Certificate<A>,
    second: &Certificate<A>,
) -> bool
    requires at_most { faults ≤ members }
    ensures quorums { IsTrue result
        ↔ (AreQuorum (λ _. faults) members first.now.signers
        × AreQuorum (λ _. faults) members second.now.signers) }
    ensures safe { IsTrue result → 3 * faults + 1 ≤ members
        → SignOneDecision S.honest S.signed → AtMostFaulty members faults S.honest
        → EachSigned S.signed first.now.signers first.now.value.items
        → EachSigned S.signed second.now.signers second.now.value.items
        → ¬ Contradict first.now.value.items second.now.value.items }
{
    safety_of::<S, A>(first, second);
    check_quorum_among(members, faults, first).is_ok()
        && check_quorum_among(members, faults, second).is_ok()
}
