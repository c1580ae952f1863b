//! Equality and clones of certificates: those of both parts.
ghost use Rattle.std.specs.Prelude.{◌≡◌};
ghost use Rattle.committee_certificates.specs.Certificates.{are_equal_parts, parts};
ghost use Rattle.committee_certificates.specs.laws.CertificateLaws.{equal_from_same_parts, parts_equiv};
ghost use Rattle.committee_certificates.specs.laws.CertificateLaws.{parts_per};

use super::Certificate;
use commonware_base::EqClone;
use std::alloc::{AllocError, Allocator};

impl<A: Allocator> PartialEq for Certificate<A> {
    ghost eq = { λ x y. are_equal_parts (parts x) (parts y) };

    ghost laws = { parts_per };

    fn eq(&self, other: &Self) -> bool {
        self.value == other.value && self.signers == other.signers
    }
}

impl<A: Allocator> Eq for Certificate<A> {
    ghost laws = { parts_equiv };
}

impl<A: Allocator + Clone> Clone for Certificate<A> {
    ghost is_clone = { λ x y. parts y ≡ parts x };

    fn clone(&self) -> Result<Self, AllocError> {
        let value = self.value.clone()?;
        let signers = self.signers.clone()?;
        Ok(Certificate { value, signers })
    }
}

impl<A: Allocator + Clone> EqClone for Certificate<A> {
    ghost clones_are_equal = { equal_from_same_parts };
}
