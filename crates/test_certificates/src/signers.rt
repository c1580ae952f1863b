//! The signers of certificates: made of their indices, and compared with them.
use committee_certificates::Certificate;
use commonware_utils::Participant;
use commonware_utils::ordered::Set;
use std::alloc::{AllocError, Allocator};

/// A certificate of a value of one byte.
pub(super) fn certificate<A: Allocator + Copy>(
    alloc: A,
    value: u8,
    signers: &[u32],
) -> Result<Certificate<A>, AllocError> {
    let value = Vec::from_slice(alloc, &[value])?;
    let signers = signers.iter().copied().map(Participant::new);
    Ok(Certificate {
        value,
        signers: Set::from_iter_dedup(alloc, signers)?,
    })
}

/// Whether the signers are those of these indices.
pub(super) fn are<A: Allocator>(signers: &Set<Participant, A>, indices: &[u32]) -> bool {
    let found = signers.iter().copied().map(Participant::get);
    found.eq(indices.iter().copied())
}
