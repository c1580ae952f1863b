//! Members that are named, and what they weigh.
ghost use Rattle.std.specs.Prelude.{◌≡◌, IfOk, length};
ghost use Rattle.std.specs.Ordering.{nat_cmp};
ghost use Rattle.committee_certificates.specs.Signers.{AreMembers};
ghost use Rattle.committee_weights.specs.Members.{weight_of};
ghost use Rattle.commonware_utils.specs.Codec.{IsWord, list_enc, varint};
ghost use Rattle.commonware_utils.specs.Ordered.{IsWritableSet};

use crate::sets::bytes_of;
use committee_weights::Weights;
use commonware_utils::Participant;
use commonware_utils::ordered::Set;
use std::alloc::{AllocError, Allocator};

/// The bytes of a set of members, and what they weigh together.
///
/// Of the weights 40, 30, 20 and 10, the members 0 and 2 are `02 00 02` and weigh 60.
#[derive(Drop)]
pub struct WeightedMembers<A: Allocator> {
    /// The encoding of the set.
    pub members: Vec<u8, A>,
    /// What they weigh.
    pub weight: u64,
}

/// The bytes of the set of the members, and what they weigh.
pub(crate) fn weighed<A: Allocator>(
    alloc: A,
    weights: &Weights<A>,
    members: &Set<Participant, A>,
) -> Result<WeightedMembers<A>, AllocError>
    requires members { AreMembers (length weights.now) members.now }
    requires writable { IsWritableSet IsWord nat_cmp members.now }
    ensures bytes { IfOk result (λ named. named.members.items ≡ list_enc varint members.now) }
    ensures weight { IfOk result (λ named. named.weight ≡ weight_of weights.now members.now) }
{
    Ok(WeightedMembers {
        members: bytes_of(alloc, members)?,
        weight: weigh(weights, members),
    })
}

/// What members weigh.
pub(crate) fn weigh<A: Allocator>(weights: &Weights<A>, members: &Set<Participant, A>) -> u64
    requires { AreMembers (length weights.now) members.now }
    ensures { result ≡ weight_of weights.now members.now }
{
    weights.weight_of(members).unwrap()
}
