//! Certificates as they are displayed.

use super::VoteCertificate;
use std::alloc::Allocator;
use std::fmt;

impl<A: Allocator> fmt::Debug for VoteCertificate<A> {
    fn fmt<W: fmt::Write>(&self, f: &mut fmt::Formatter<W>) -> fmt::Result {
        f.debug_struct("VoteCertificate")
            .field("vote", &self.vote)
            .field("signers", &self.signers)
            .finish()
    }
}
