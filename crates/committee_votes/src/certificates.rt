//! A vote and the participants that signed it.

mod codec;
mod compare;
mod display;

use crate::votes::Vote;
use commonware_base::Participant;
use commonware_ordered::Set;
use std::alloc::Allocator;

/// A vote, and the participants that signed it, each once: a quorum's, or a single one's. Nothing
/// here looks at a signature: that they did sign is for the caller to know.
///
/// With the domain `[0x01]`, the slot `[0x07]`, the decision `[0xaa]` and the signers 0, 1 and 2 it
/// is encoded as `01 01 01 07 01 aa 03 00 01 02`.
#[derive(Drop)]
pub struct VoteCertificate<A: Allocator> {
    /// What was signed.
    pub vote: Vote<A>,
    /// The indices of those that signed, in the committee that the vote's domain names.
    pub signers: Set<Participant, A>,
}
