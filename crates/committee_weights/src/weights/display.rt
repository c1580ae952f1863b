//! Weights as they are displayed.

use super::Weights;
use std::alloc::Allocator;
use std::fmt;

impl<A: Allocator> fmt::Debug for Weights<A> {
    fn fmt<W: fmt::Write>(&self, f: &mut fmt::Formatter<W>) -> fmt::Result {
        f.debug_tuple("Weights").field(&self.as_slice()).finish()
    }
}
