//! Iterators over sets, and sets that become the list of their items.
ghost use Rattle.std.specs.Prelude.{◌≡◌};
ghost use Rattle.commonware_base.specs.Given.{HandsOver, Shows};

use super::Set;
use std::alloc::Allocator;
use std::{slice, vec};

impl<T: Ord + Drop, A: Allocator> IntoIterator for Set<T, A> {
    type Item = T;

    type IntoIter = vec::IntoIter<T, A>;

    ghost into_iter_gives = { λ s it. HandsOver s it };

    /// Returns the items in order, from both ends, with the exact number left.
    fn into_iter(self) -> vec::IntoIter<T, A> {
        let Set { items } = self;
        items.into_iter()
    }
}

impl<'a, T: Ord, A: Allocator> IntoIterator for &'a Set<T, A> {
    type Item = &'a T;

    type IntoIter = slice::Iter<'a, T>;

    ghost into_iter_gives = { λ s it. Shows s.now it };

    /// Returns the items in order, from both ends, with the exact number left.
    fn into_iter(self) -> slice::Iter<'a, T> {
        self.iter()
    }
}

impl<T: Ord, A: Allocator> From<Set<T, A>> for Vec<T, A> {
    ghost from_gives = { λ s v. v.items ≡ s };

    /// Returns the items in order. It allocates nothing.
    fn from(set: Set<T, A>) -> Vec<T, A> {
        let Set { items } = set;
        items
    }
}
