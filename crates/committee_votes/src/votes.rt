//! What a signature is about, as three lists of bytes.
ghost use Rattle.std.specs.Prelude.{◌≡◌, ◌↔◌, IsErrOf, IsOk};
ghost use Rattle.committee_votes.specs.declared.verdicts.Verdict.TheVariants.{NoOffenceByThisRule};
ghost use Rattle.committee_votes.specs.declared.votes.VotesError.TheVariants.{OtherDomain, OtherSlot, SameDecision};
ghost use Rattle.committee_votes.specs.Votes.{AreOfOtherDomains, AreOfOtherSlots, AreOneDecision};
ghost use Rattle.committee_votes.specs.Votes.{Contradict, ballot, ballot_at};

mod codec;
mod compare;
mod display;

use crate::verdicts::Verdict;
pub use codec::VoteRanges;
pub(crate) use codec::read_vote;
use std::alloc::Allocator;

/// What a signature is about. Nothing is framed or guessed: the caller says which bytes are which.
///
/// In CometBFT the domain is the chain's identifier with the checksum of the validators, the slot
/// the height, round and kind of vote, and the decision the block's identifier, or none.
///
/// What an honest member may sign again with other bytes, as a time, has to stay out of the
/// decision: else it contradicts itself.
#[derive(Drop)]
pub struct Vote<A: Allocator> {
    /// The chain, its version and the committee: its epoch, or the checksum of its encoding.
    pub domain: Vec<u8, A>,
    /// What an honest member of that committee signs at most once: a height, a round and a kind of
    /// vote, say.
    pub slot: Vec<u8, A>,
    /// What is decided.
    pub decision: Vec<u8, A>,
}

/// A vote whose bytes are borrowed.
///
/// `VoteAt { domain: b"chain/7", slot: b"\x07\x00\x02", decision: b"A" }` is the decision A for the
/// slot `07 00 02` of the domain `chain/7`.
#[derive(Clone, Copy, Debug)]
pub struct VoteAt<'a> {
    /// The chain, its version and the committee: its epoch, or the checksum of its encoding.
    pub domain: &'a [u8],
    /// What an honest member of that committee signs at most once.
    pub slot: &'a [u8],
    /// What is decided.
    pub decision: &'a [u8],
}

impl<A: Allocator> Vote<A> {
    /// Returns the vote, borrowed.
    pub fn at(&self) -> VoteAt<'_>
        ensures { ballot_at result ≡ ballot self.now }
    {
        VoteAt {
            domain: self.domain.as_slice(),
            slot: self.slot.as_slice(),
            decision: self.decision.as_slice(),
        }
    }
}

/// Why two votes don't contradict one another. They are tried in this order.
///
/// Of one domain, slot 7: A and slot 8: B give `OtherSlot`.
#[derive(Clone, Copy, Debug, PartialEq, Eq, thiserror::Error)]
pub enum VotesError {
    /// They are of two domains: of two chains, or of two committees.
    #[error("two different domains")]
    OtherDomain,
    /// They are of one domain, and for two slots: this rule allows both.
    #[error("two different slots")]
    OtherSlot,
    /// They are one decision for one slot.
    #[error("the same decision for the same slot")]
    SameDecision,
}

impl VotesError {
    /// Returns what the error says of those that signed both votes: each is no offence by this
    /// rule, which acquits nobody.
    pub fn verdict(&self) -> Verdict
        ensures { result ≡ NoOffenceByThisRule }
    {
        Verdict::NoOffenceByThisRule
    }
}

/// Whether two votes contradict one another: two decisions for one slot of one domain. Else the
/// error says why not, exactly.
pub fn check_votes(first: VoteAt<'_>, second: VoteAt<'_>) -> Result<(), VotesError>
    ensures other_domain { IsErrOf result OtherDomain
        ↔ AreOfOtherDomains (ballot_at first.entry) (ballot_at second.entry) }
    ensures other_slot { IsErrOf result OtherSlot
        ↔ AreOfOtherSlots (ballot_at first.entry) (ballot_at second.entry) }
    ensures same_decision { IsErrOf result SameDecision
        ↔ AreOneDecision (ballot_at first.entry) (ballot_at second.entry) }
    ensures contradict { IsOk result ↔ Contradict (ballot_at first.entry) (ballot_at second.entry) }
{
    if first.domain != second.domain {
        return Err(VotesError::OtherDomain);
    }
    if first.slot != second.slot {
        return Err(VotesError::OtherSlot);
    }
    if first.decision == second.decision {
        return Err(VotesError::SameDecision);
    }
    Ok(())
}
