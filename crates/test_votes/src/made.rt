//! Votes and signers that are made of literals.
use committee_votes::{Vote, VoteAt};
use commonware_base::Participant;
use commonware_ordered::Set;
use std::alloc::{AllocError, Allocator};

/// The domain, the slot and the decision of a vote.
pub(super) type Fields = (&'static [u8], &'static [u8], &'static [u8]);

/// Returns the vote of these fields, borrowed.
pub(super) fn at(fields: Fields) -> VoteAt<'static> {
    VoteAt {
        domain: fields.0,
        slot: fields.1,
        decision: fields.2,
    }
}

/// Returns a vote of these fields.
pub(super) fn vote<A: Allocator + Copy>(alloc: A, fields: Fields) -> Result<Vote<A>, AllocError> {
    Ok(Vote {
        domain: Vec::from_slice(alloc, fields.0)?,
        slot: Vec::from_slice(alloc, fields.1)?,
        decision: Vec::from_slice(alloc, fields.2)?,
    })
}

/// Returns the signers of these indices.
pub(super) fn signers<A: Allocator + Copy>(
    alloc: A,
    indices: &[u32],
) -> Result<Set<Participant, A>, AllocError> {
    Set::from_iter_dedup(alloc, indices.iter().copied().map(Participant::new))
}

/// Whether the participants are those of these indices.
pub(super) fn are<A: Allocator>(named: &Set<Participant, A>, indices: &[u32]) -> bool {
    let found = named.iter().copied().map(Participant::get);
    found.eq(indices.iter().copied())
}
