//! Weights and certificates made of slices, and compared with them.
use committee_certificates::Certificate;
use committee_weights::Weights;
use commonware_base::Participant;
use commonware_ordered::Set;
use std::alloc::{AllocError, Allocator};

/// The weights of a slice. `None` where they are refused, or there is no memory.
pub(super) fn weights_of<A: Allocator>(alloc: A, items: &[u64]) -> Option<Weights<A>> {
    let items = Vec::from_slice(alloc, items).ok()?;
    Weights::new(items).ok()
}

/// The participants of these indices.
pub(super) fn members<A: Allocator + Copy>(
    alloc: A,
    indices: &[u32],
) -> Result<Set<Participant, A>, AllocError> {
    Set::from_iter_dedup(alloc, indices.iter().copied().map(Participant::new))
}

/// A certificate of a value that these signed.
pub(super) fn certificate<A: Allocator + Copy>(
    alloc: A,
    value: &[u8],
    signers: &[u32],
) -> Result<Certificate<A>, AllocError> {
    let value = Vec::from_slice(alloc, value)?;
    let signers = members(alloc, signers)?;
    Ok(Certificate { value, signers })
}

/// Whether the members are those of these indices.
pub(super) fn are<A: Allocator>(members: &Set<Participant, A>, indices: &[u32]) -> bool {
    let found = members.iter().copied().map(Participant::get);
    found.eq(indices.iter().copied())
}
