//! Equivocation by weight: two different decisions for one slot, and the members that signed both.
ghost use Rattle.std.specs.Prelude.{◌≡◌, ◌+◌, ◌-◌, ◌*◌, ◌≤◌, ◌⊎◌, ◌↔◌, ℕ, Bool, List, IfOk, IsErrOf, OnOk, length, sum};
ghost use Rattle.committee_certificates.specs.Accountability.{EachHasEquivocated, EachSigned, InLog};
ghost use Rattle.committee_certificates.specs.Signers.{AreInBoth, AreMembers, HasOutsider};
ghost use Rattle.committee_certificates.specs.Slots.{AreOfOtherSlots, AreOneDecision, Contradict, HasSlot};
ghost use Rattle.committee_weights.specs.Members.{AreTooLight, AreWeightedQuorum, faulty_weight, weight_of};
ghost use Rattle.committee_weights.specs.Members.{LeavesOneOutsideWeight};
ghost use Rattle.committee_weights.specs.declared.equivocations.WeightedEquivocationError.TheVariants.{Memory, NoSlot, OtherSlot, Outside, SameDecision, TooLight};

use crate::quorums::are_quorums;
use crate::weights::Weights;
use committee_certificates::{Certificate, EquivocationError, equivocation_among};
use commonware_base::Participant;
use commonware_ordered::Set;
use std::alloc::Allocator;

/// Why two certificates prove no equivocation, where quorums are by weight, in the order in which
/// the reasons come.
///
/// Of the weights 40, 30, 20 and 10, at a `k` of 3, view 7: A signed by 0 and 1, and view 7: B
/// signed by 1, 2 and 3, give `TooLight`: the latter weigh 60, and a quorum weighs 67.
#[derive(Clone, Copy, Debug, PartialEq, Eq, thiserror::Error)]
pub enum WeightedEquivocationError {
    /// The value of one of them has no slot.
    #[error("a value without a slot")]
    NoSlot,
    /// The values are for two different slots, of which honest members may sign both.
    #[error("two different slots")]
    OtherSlot,
    /// The values are the same decision for the same slot.
    #[error("the same decision for the same slot")]
    SameDecision,
    /// A signer of one of them is at or past the number of weights.
    #[error("a signer is no member of the committee")]
    Outside,
    /// All signers are members, and those of one of them weigh less than a quorum.
    #[error("the signers weigh less than a quorum")]
    TooLight,
    /// An allocation failed. It says nothing of the certificates.
    #[error("out of memory")]
    Memory,
}

/// Returns the members that equivocated, where quorums are by weight: those that signed two
/// different decisions for one slot, which are the signers of both certificates. It requires that
/// `k` is at least 2, and nothing of the values.
///
/// The errors come in the order of `WeightedEquivocationError`, each exactly where it says, and
/// `Memory` only where none of the others does. An Ok is what `weighted_conflict` returns, and
/// `guilty` says what it is worth: whatever log of signatures there is, if each signer of each
/// certificate signed its value by the log, then each member that is returned signed, by the log,
/// two different decisions for one slot. By `accountability_law` none of them is honest.
///
/// **Warning.** It looks at no signature. Whoever doesn't verify them first may accuse an innocent
/// member.
pub fn weighted_equivocation<A: Allocator, B: Allocator>(
    alloc: A,
    k: u32,
    weights: &Weights<B>,
    first: &Certificate<A>,
    second: &Certificate<A>,
) -> Result<Set<Participant, A>, WeightedEquivocationError>
    requires resilience { 2 ≤ k }
    ensures no_slot { IsErrOf result NoSlot
        ↔ ((¬ HasSlot first.now.value.items) ⊎ (¬ HasSlot second.now.value.items)) }
    ensures other_slot { IsErrOf result OtherSlot
        ↔ AreOfOtherSlots first.now.value.items second.now.value.items }
    ensures same_decision { IsErrOf result SameDecision
        ↔ AreOneDecision first.now.value.items second.now.value.items }
    ensures outside { let n = length weights.now in IsErrOf result Outside
        ↔ (Contradict first.now.value.items second.now.value.items
        × (HasOutsider n first.now.signers ⊎ HasOutsider n second.now.signers)) }
    ensures too_light { let n = length weights.now in IsErrOf result TooLight
        ↔ (Contradict first.now.value.items second.now.value.items
        × AreMembers n first.now.signers × AreMembers n second.now.signers
        × (AreTooLight k weights.now first.now.signers
        ⊎ AreTooLight k weights.now second.now.signers)) }
    ensures memory { IsErrOf result Memory
        → (Contradict first.now.value.items second.now.value.items
        × AreWeightedQuorum k weights.now first.now.signers
        × AreWeightedQuorum k weights.now second.now.signers) }
    ensures contradict { OnOk result
        (Contradict first.now.value.items second.now.value.items) }
    ensures quorums { OnOk result (AreWeightedQuorum k weights.now first.now.signers
        × AreWeightedQuorum k weights.now second.now.signers) }
    ensures both { IfOk result (AreInBoth first.now.signers second.now.signers) }
    ensures members { IfOk result (AreMembers (length weights.now)) }
    ensures shared { let total = sum weights.now in IfOk result (λ both.
        total ≤ 2 * faulty_weight k total + weight_of weights.now both) }
    ensures weigh { let f = faulty_weight k (sum weights.now) in
        IfOk result (λ both. (k - 2) * f + 1 ≤ weight_of weights.now both) }
    ensures leaves { let f = faulty_weight k (sum weights.now) in
        3 ≤ k → IfOk result (LeavesOneOutsideWeight weights.now f) }
    ensures guilty { (log : ℕ → List ℕ → Bool)
        → EachSigned (InLog log) first.now.signers first.now.value.items
        → EachSigned (InLog log) second.now.signers second.now.value.items
        → IfOk result (EachHasEquivocated (InLog log)) }
{
    let weigh = are_quorums(k, weights, first, second);
    let members = weights.len();
    // With as many faults as members it asks for no number of signers.
    match equivocation_among(alloc, members, members as u32, first, second) {
        Ok(both) => {
            if !weigh {
                return Err(WeightedEquivocationError::TooLight);
            }
            Ok(both)
        }
        Err(EquivocationError::NoSlot) => Err(WeightedEquivocationError::NoSlot),
        Err(EquivocationError::OtherSlot) => Err(WeightedEquivocationError::OtherSlot),
        Err(EquivocationError::SameDecision) => Err(WeightedEquivocationError::SameDecision),
        Err(EquivocationError::Outside) => Err(WeightedEquivocationError::Outside),
        Err(EquivocationError::TooFew) => Err(WeightedEquivocationError::TooLight),
        Err(EquivocationError::Memory) => {
            if !weigh {
                return Err(WeightedEquivocationError::TooLight);
            }
            Err(WeightedEquivocationError::Memory)
        }
    }
}
