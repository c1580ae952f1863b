//! The weights of a committee's participants.
ghost use Rattle.std.specs.Prelude.{◌≡◌, ℕ, ◌+◌, ◌-◌, ◌*◌, ◌<◌, ◌≤◌, ◌^◌, ◌↔◌, IfOk, IsErrOf, IsOk, IsTrue, OnOk, SomeIff, length, slice_get, sum, zip};
ghost use Rattle.std.specs.Iterator.Adapters.{IterYieldsInOrder, IterYieldsInReverse};
ghost use Rattle.std.specs.Map.{keys_of, values_of};
ghost use Rattle.std.specs.Slice.Iter.{iter_rest};
ghost use Rattle.committee_certificates.specs.Signers.{AreMembers};
ghost use Rattle.committee_weights.specs.Members.{AreWeightedQuorum, faulty_weight, quorum_weight as weight_of_quorum, weight_of as weight_of_members};
ghost use Rattle.committee_weights.specs.Refusals.{AreCommitteeWeights, IsRefusedAs};
ghost use Rattle.committee_weights.specs.Tolerance.{IsWeightTolerance, LeastSafeM};
ghost use Rattle.committee_weights.specs.Weights.{WeightedMeetsOutside, WeightedOverlap};
ghost use Rattle.committee_weights.specs.declared.weights.error.MapWeightsError.TheVariants.{Memory, Refused};
ghost use Rattle.committee_weights.specs.declared.weights.error.WeightsError.{WeightsError as Refusal};

mod compare;
mod display;
mod error;
mod sums;

use crate::slices::tolerated_weight;
use commonware_base::Participant;
use commonware_map::Map;
use commonware_ordered::Set;
use commonware_sequence::U64;
pub use error::{MapWeightsError, WeightsError};
use std::alloc::{AllocError, Allocator};
use std::marker::Model;
use std::slice;
pub(crate) use sums::total_of;
use sums::{total_of_values, weight_listed};

/// A weight for each participant of a committee, as its stake or voting power: a positive `u64` for
/// each of 1 to `u32::MAX` participants, whose sum fits a `u64`.
///
/// The weights 40, 30, 20 and 10 are 100 in all. At a `k` of 3 faulty participants may weigh 33
/// together, and a quorum weighs 67.
#[derive(Drop)]
pub struct Weights<A: Allocator> {
    items: Vec<u64, A>,
    total: u64,
}

impl<A: Allocator> Model for Weights<A> {
    ghost use Rattle.std.specs.Prelude.{◌≡◌, ℕ, List, sum};
    ghost use Rattle.committee_weights.specs.Refusals.{AreCommitteeWeights};

    ghost Value = { List ℕ };

    ghost view = { λ w. w.items.items };

    ghost invariant = { λ w. AreCommitteeWeights w.items.items
        × (w.total ≡ sum w.items.items) };
}

impl<A: Allocator> Weights<A> {
    /// Returns the weights of the participants 0, 1, 2 and so on, or why they are none. It looks at
    /// each once, and allocates nothing.
    pub fn new(items: Vec<u64, A>) -> Result<Weights<A>, WeightsError>
        ensures same { IfOk result (λ weights. weights ≡ items.items) }
        ensures accepted { IsOk result ↔ AreCommitteeWeights items.items }
        ensures refused { (error : Refusal)
            → IsErrOf result error ↔ IsRefusedAs items.items error }
    {
        match total_of(items.as_slice()) {
            Ok(total) => Ok(Weights { items, total }),
            Err(error) => Err(error),
        }
    }

    /// Returns the weights of a committee whose members are the keys of a map: the values in the
    /// order of the keys, so that a participant's weight is that of the member at its index. All
    /// values are looked at before anything is allocated, so `Memory` comes after `Refused`.
    ///
    /// Of the pairs `(7, 10)` and `(3, 40)` they are 40 and 10.
    pub fn from_map<K: Ord, B: Allocator>(
        alloc: A,
        map: &Map<K, U64, B>,
    ) -> Result<Weights<A>, MapWeightsError>
        ensures same { IfOk result (λ weights. weights ≡ values_of map.now) }
        ensures positions { IfOk result (λ weights. zip (keys_of map.now) weights ≡ map.now) }
        ensures accepted { OnOk result (AreCommitteeWeights (values_of map.now)) }
        ensures refused { (error : Refusal) → IsErrOf result (Refused error)
            ↔ IsRefusedAs (values_of map.now) error }
        ensures memory { IsErrOf result Memory → AreCommitteeWeights (values_of map.now) }
    {
        match total_of_values(map.values()) {
            Ok(total) => {
                let items = numbers_of(alloc, map.values())?;
                Ok(Weights { items, total })
            }
            Err(error) => Err(MapWeightsError::Refused(error)),
        }
    }

    /// Returns how many participants there are.
    pub fn len(&self) -> usize
        ensures value { result ≡ length self.now }
        ensures are_weights { AreCommitteeWeights self.now }
    {
        self.items.len()
    }

    /// Returns what all participants weigh.
    pub fn total(&self) -> u64
        ensures value { result ≡ sum self.now }
        ensures are_weights { AreCommitteeWeights self.now }
    {
        self.total
    }

    /// Returns what a participant weighs, or `None` where there is no such participant.
    pub fn get(&self, participant: Participant) -> Option<u64>
        ensures { result ≡ slice_get self.now participant }
    {
        self.as_slice().get(usize::from(participant)).copied()
    }

    /// Returns the weights in the order of the participants.
    pub fn as_slice(&self) -> &[u64]
        ensures value { result.now ≡ self.now }
        ensures are_weights { AreCommitteeWeights self.now }
    {
        self.items.as_slice()
    }

    /// Returns an iterator over the weights in the order of the participants, from both ends.
    pub fn iter(&self) -> slice::Iter<'_, u64>
        ensures rest { iter_rest result ≡ self.now }
        ensures bound { length (iter_rest result) < 2 ^ 64 }
        ensures runs { IterYieldsInOrder ℕ }
        ensures runs_back { IterYieldsInReverse ℕ }
    {
        self.as_slice().iter()
    }

    /// Returns what faulty participants may weigh together at a resilience `n >= kf + 1`, where n
    /// is the total: the greatest f that is safe for all weights of this total. It requires that
    /// `k` is at least 2.
    pub fn max_faulty_weight(&self, k: u32) -> u64
        requires { 2 ≤ k }
        ensures value { result ≡ faulty_weight k (sum self.now) }
        ensures tolerance { IsWeightTolerance k (sum self.now) result }
        ensures are_weights { AreCommitteeWeights self.now }
    {
        tolerated_weight(k, self.total)
    }

    /// Returns what a quorum weighs: all but what faulty participants may weigh. Two quorums share
    /// participants that weigh at least (k - 2)f + 1, and for a `k` of 3 or more a participant
    /// outside any subset that weighs at most f. It requires that `k` is at least 2.
    pub fn quorum_weight(&self, k: u32) -> u64
        requires { 2 ≤ k }
        ensures value { result ≡ weight_of_quorum k (sum self.now) }
        ensures shares { let f = faulty_weight k (sum self.now) in
            WeightedOverlap self.now result ((k - 2) * f + 1) }
        ensures meets { let f = faulty_weight k (sum self.now) in
            3 ≤ k → WeightedMeetsOutside self.now result f }
    {
        let total = self.total;
        total - self.max_faulty_weight(k)
    }

    /// Returns the least weight whose subsets share at least f + 1 with each quorum, for all
    /// weights of this total: 2f + 1. It requires that `k` is at least 2.
    pub fn smaller_quorum_weight(&self, k: u32) -> u64
        requires { 2 ≤ k }
        ensures value { result ≡ 2 * faulty_weight k (sum self.now) + 1 }
        ensures least { let total = sum self.now in
            LeastSafeM total (faulty_weight k total) result }
    {
        2 * self.max_faulty_weight(k) + 1
    }

    /// Returns what some participants weigh together, or `None` where one of them is no member.
    pub fn weight_of<B: Allocator>(&self, participants: &Set<Participant, B>) -> Option<u64>
        ensures { SomeIff result (AreMembers (length self.now) participants.now)
            (weight_of_members self.now participants.now) }
    {
        weight_listed(self.items.as_slice(), participants.as_slice())
    }

    /// Whether some participants are members and weigh a quorum or more. It requires that `k` is at
    /// least 2.
    pub fn is_quorum<B: Allocator>(&self, k: u32, participants: &Set<Participant, B>) -> bool
        requires { 2 ≤ k }
        ensures { IsTrue result ↔ AreWeightedQuorum k self.now participants.now }
    {
        match self.weight_of(participants) {
            Some(weight) => self.quorum_weight(k) <= weight,
            None => false,
        }
    }
}

/// Returns the numbers of the values of a map.
fn numbers_of<A: Allocator>(alloc: A, values: &[U64]) -> Result<Vec<u64, A>, AllocError>
    ensures { IfOk result (λ numbers. numbers.items ≡ values.now) }
{
    let mut numbers = Vec::with_capacity(alloc, values.len())?;
    for value in values {
        numbers.push(value.get())?;
    }
    Ok(numbers)
}
