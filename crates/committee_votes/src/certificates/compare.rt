//! Equality and clones of certificates: those of both parts.
ghost use Rattle.std.specs.Prelude.{◌≡◌};
ghost use Rattle.committee_votes.specs.Encodings.{are_equal_parts, parts};
ghost use Rattle.committee_votes.specs.laws.EncodingLaws.{certificate_equiv, certificate_per, equal_from_same_parts};

use super::VoteCertificate;
use commonware_base::EqClone;
use std::alloc::{AllocError, Allocator};

impl<A: Allocator> PartialEq for VoteCertificate<A> {
    ghost eq = { λ x y. are_equal_parts (parts x) (parts y) };

    ghost laws = { certificate_per };

    fn eq(&self, other: &Self) -> bool {
        self.vote == other.vote && self.signers == other.signers
    }
}

impl<A: Allocator> Eq for VoteCertificate<A> {
    ghost laws = { certificate_equiv };
}

impl<A: Allocator + Clone> Clone for VoteCertificate<A> {
    ghost is_clone = { λ x y. parts y ≡ parts x };

    fn clone(&self) -> Result<Self, AllocError> {
        let vote = self.vote.clone()?;
        let signers = self.signers.clone()?;
        Ok(VoteCertificate { vote, signers })
    }
}

impl<A: Allocator + Clone> EqClone for VoteCertificate<A> {
    ghost clones_are_equal = { equal_from_same_parts };
}
