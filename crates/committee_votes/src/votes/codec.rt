//! The encoding of a vote: its domain, its slot and its decision, each as a list of bytes.
ghost use Rattle.std.specs.Prelude.{◌≡◌, ℕ, List, IfErr, IfOk, OnErr};
ghost use Rattle.commonware_base.specs.Refusal.{Refuses};
ghost use Rattle.commonware_base.specs.Source.{rest_of, Consumes};
ghost use Rattle.commonware_base.specs.Text.{Accepts};
ghost use Rattle.commonware_base.specs.laws.TextLaws.{canonical_on, laws_on, prefix_free_on};
ghost use Rattle.committee_votes.specs.Encodings.{are_equal_fields, fields, vote_enc};
ghost use Rattle.committee_votes.specs.Encodings.{IsAllowedVote, IsVoteMemoryFree, IsWritableVote, VoteFault};
ghost use Rattle.committee_votes.specs.laws.EncodingLaws.{vote_bytes, vote_canonical, vote_laws};
ghost use Rattle.committee_votes.specs.laws.EncodingLaws.{vote_of, vote_prefix_free};

use super::Vote;
use commonware_base::codec::{
    Canonical, EncodeSize, Error, RangeCfg, Read, Source, Write, read_list,
};
use std::alloc::{AllocError, Allocator};

/// The lengths that the fields of a vote may have, for the calls that decode one.
#[derive(Clone, Copy, Debug)]
pub struct VoteRanges {
    /// Of the domain.
    pub domain: RangeCfg<usize>,
    /// Of the slot.
    pub slot: RangeCfg<usize>,
    /// Of the decision.
    pub decision: RangeCfg<usize>,
}

impl<A: Allocator> EncodeSize for Vote<A> {
    ghost enc = { λ v. vote_enc (fields v) };

    ghost writable = { λ v. IsWritableVote (fields v) };

    ghost prefix_free = { prefix_free_on fields vote_enc IsWritableVote vote_prefix_free };

    ghost text_of_bytes = { λ v w. vote_bytes (fields v) w };

    fn encode_size(&self) -> usize {
        self.domain.encode_size() + (self.slot.encode_size() + self.decision.encode_size())
    }

    fn is_writable(&self) -> bool {
        self.domain.is_writable() && self.slot.is_writable() && self.decision.is_writable()
    }
}

impl<A: Allocator> Write<A> for Vote<A> {
    fn write(&self, sink: &mut Vec<u8, A>) -> Result<(), AllocError> {
        let start = sink.len();
        self.domain.write(sink)?;
        match self.slot.write(sink) {
            Ok(()) => {}
            Err(error) => {
                sink.truncate(start);
                return Err(error);
            }
        }
        match self.decision.write(sink) {
            Ok(()) => Ok(()),
            Err(error) => {
                sink.truncate(start);
                Err(error)
            }
        }
    }
}

impl<A: Allocator + Copy> Read<A> for Vote<A> {
    type Cfg = VoteRanges;

    ghost allowed = { λ c v. IsAllowedVote c.domain c.slot c.decision (fields v) };

    ghost fault = { λ c. VoteFault c.domain c.slot c.decision };

    ghost memory_free = { λ c. IsVoteMemoryFree c.domain c.slot c.decision };

    ghost read_laws = { λ alloc c. laws_on fields vote_enc IsWritableVote
        (IsAllowedVote c.domain c.slot c.decision) (VoteFault c.domain c.slot c.decision)
        (λ x w _. vote_of alloc x w) (vote_laws c.domain c.slot c.decision) };

    /// Decodes the three fields, each as a list of bytes under its range.
    fn read_cfg(alloc: A, src: &mut Source<'_>, cfg: &Self::Cfg) -> Result<Vote<A>, Error> {
        read_vote(alloc, src, *cfg)
    }
}

/// Decodes a vote under a range for the length of each field, as `Vote::read_cfg` does.
pub(crate) fn read_vote<A: Allocator + Copy>(
    alloc: A,
    src: &mut Source<'_>,
    ranges: VoteRanges,
) -> Result<Vote<A>, Error>
    ensures accepted { IfOk result (λ v. Accepts vote_enc IsWritableVote
        (IsAllowedVote ranges.domain ranges.slot ranges.decision)
        (rest_of src.old) (fields v) (rest_of src.new)) }
    ensures consumed { IfOk result (λ v. Consumes src.old src.new (vote_enc (fields v))) }
    ensures refused { IfErr result
        (Refuses (VoteFault ranges.domain ranges.slot ranges.decision (rest_of src.old))
        (IsVoteMemoryFree ranges.domain ranges.slot ranges.decision (rest_of src.old))) }
    ensures stays { OnErr result (src.new ≡ src.old) }
{
    let mut here = *src;
    let domain = read_list::<u8, A>(alloc, &mut here, ranges.domain, &())?;
    let slot = read_list::<u8, A>(alloc, &mut here, ranges.slot, &())?;
    let decision = read_list::<u8, A>(alloc, &mut here, ranges.decision, &())?;
    *src = here;
    Ok(Vote {
        domain,
        slot,
        decision,
    })
}

impl<A: Allocator> Canonical for Vote<A> {
    ghost canonical = { canonical_on fields vote_enc IsWritableVote are_equal_fields
        vote_canonical };
}
