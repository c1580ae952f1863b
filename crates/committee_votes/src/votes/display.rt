//! Votes as they are displayed.

use super::Vote;
use std::alloc::Allocator;
use std::fmt;

impl<A: Allocator> fmt::Debug for Vote<A> {
    fn fmt<W: fmt::Write>(&self, f: &mut fmt::Formatter<W>) -> fmt::Result {
        f.debug_struct("Vote")
            .field("domain", &self.domain)
            .field("slot", &self.slot)
            .field("decision", &self.decision)
            .finish()
    }
}
