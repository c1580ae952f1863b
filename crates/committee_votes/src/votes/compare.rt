//! Equality and clones of votes: those of the three fields.
ghost use Rattle.std.specs.Prelude.{◌≡◌};
ghost use Rattle.committee_votes.specs.Encodings.{are_equal_fields, fields};
ghost use Rattle.committee_votes.specs.laws.EncodingLaws.{equal_from_same_fields, vote_equiv, vote_per};

use super::Vote;
use commonware_base::EqClone;
use std::alloc::{AllocError, Allocator};

impl<A: Allocator> PartialEq for Vote<A> {
    ghost eq = { λ x y. are_equal_fields (fields x) (fields y) };

    ghost laws = { vote_per };

    fn eq(&self, other: &Self) -> bool {
        self.domain == other.domain && self.slot == other.slot && self.decision == other.decision
    }
}

impl<A: Allocator> Eq for Vote<A> {
    ghost laws = { vote_equiv };
}

impl<A: Allocator + Clone> Clone for Vote<A> {
    ghost is_clone = { λ x y. fields y ≡ fields x };

    fn clone(&self) -> Result<Self, AllocError> {
        let domain = self.domain.clone()?;
        let slot = self.slot.clone()?;
        let decision = self.decision.clone()?;
        Ok(Vote {
            domain,
            slot,
            decision,
        })
    }
}

impl<A: Allocator + Clone> EqClone for Vote<A> {
    ghost clones_are_equal = { equal_from_same_fields };
}
