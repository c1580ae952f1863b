//! The encoding of a certificate of a vote: the vote, and then its signers as a set.
ghost use Rattle.std.specs.Prelude.{◌≡◌, ◌≤◌, ℕ, List, IfErr, IfOk, OnErr, length};
ghost use Rattle.commonware_base.specs.Fault.{Fault};
ghost use Rattle.commonware_base.specs.Refusal.{Refuses};
ghost use Rattle.commonware_base.specs.Source.{rest_of, Consumes};
ghost use Rattle.commonware_base.specs.Text.{Accepts};
ghost use Rattle.commonware_base.specs.laws.TextLaws.{canonical_on, laws_on, prefix_free_on};
ghost use Rattle.commonware_ordered.specs.Costs.{IsOrderCost};
ghost use Rattle.committee_votes.specs.Encodings.{are_equal_parts, parts, vote_certificate_enc};
ghost use Rattle.committee_votes.specs.Encodings.{IsAllowedVoteCertificate, IsVoteCertificateMemoryFree};
ghost use Rattle.committee_votes.specs.Encodings.{IsWritableVoteCertificate, VoteCertificateFault};
ghost use Rattle.committee_votes.specs.laws.EncodingLaws.{certificate_of, vote_certificate_bytes};
ghost use Rattle.committee_votes.specs.laws.EncodingLaws.{vote_certificate_canonical, vote_certificate_laws};
ghost use Rattle.committee_votes.specs.laws.EncodingLaws.{vote_certificate_prefix_free};

use super::VoteCertificate;
use crate::votes::{Vote, VoteRanges, read_vote};
use commonware_base::Participant;
use commonware_base::codec::{Canonical, EncodeSize, Error, RangeCfg, Read, Source, Write};
use commonware_ordered::{Counter, Uncounted, read_set_counted};
use std::alloc::{AllocError, Allocator};

impl<A: Allocator> EncodeSize for VoteCertificate<A> {
    ghost enc = { λ c. vote_certificate_enc (parts c) };

    ghost writable = { λ c. IsWritableVoteCertificate (parts c) };

    ghost prefix_free = { prefix_free_on parts vote_certificate_enc IsWritableVoteCertificate
        vote_certificate_prefix_free };

    ghost text_of_bytes = { λ c w. vote_certificate_bytes (parts c) w };

    fn encode_size(&self) -> usize {
        self.vote.encode_size() + self.signers.encode_size()
    }

    fn is_writable(&self) -> bool {
        self.vote.is_writable() && self.signers.is_writable()
    }
}

impl<A: Allocator> Write<A> for VoteCertificate<A> {
    fn write(&self, sink: &mut Vec<u8, A>) -> Result<(), AllocError> {
        let start = sink.len();
        self.vote.write(sink)?;
        match self.signers.write(sink) {
            Ok(()) => Ok(()),
            Err(error) => {
                sink.truncate(start);
                Err(error)
            }
        }
    }
}

impl<A: Allocator + Copy> Read<A> for VoteCertificate<A> {
    type Cfg = (VoteRanges, RangeCfg<usize>);

    ghost allowed = { λ c v.
        IsAllowedVoteCertificate c.0.domain c.0.slot c.0.decision c.1 (parts v) };

    ghost fault = { λ c. VoteCertificateFault c.0.domain c.0.slot c.0.decision c.1 };

    ghost memory_free = { λ c.
        IsVoteCertificateMemoryFree c.0.domain c.0.slot c.0.decision c.1 };

    ghost read_laws = { λ alloc c. laws_on parts vote_certificate_enc IsWritableVoteCertificate
        (IsAllowedVoteCertificate c.0.domain c.0.slot c.0.decision c.1)
        (VoteCertificateFault c.0.domain c.0.slot c.0.decision c.1)
        (λ x w _. certificate_of alloc x w)
        (vote_certificate_laws c.0.domain c.0.slot c.0.decision c.1) };

    /// Decodes the vote under the first ranges, and then the signers as a set under the second.
    fn read_cfg(
        alloc: A,
        src: &mut Source<'_>,
        cfg: &Self::Cfg,
    ) -> Result<VoteCertificate<A>, Error> {
        let mut here = *src;
        let vote = read_vote(alloc, &mut here, cfg.0)?;
        let signers = read_set_counted::<Participant, A, Uncounted>(
            alloc,
            &mut here,
            cfg.1,
            &(),
            &mut Uncounted,
        )?;
        *src = here;
        Ok(VoteCertificate { vote, signers })
    }
}

impl<A: Allocator> Canonical for VoteCertificate<A> {
    ghost canonical = { canonical_on parts vote_certificate_enc IsWritableVoteCertificate
        are_equal_parts vote_certificate_canonical };
}
