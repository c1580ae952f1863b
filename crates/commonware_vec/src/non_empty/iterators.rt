//! Iterators over non-empty lists.
ghost use Rattle.std.specs.Prelude.{◌≤◌, length};
ghost use Rattle.std.specs.Borrow.{sem};
ghost use Rattle.std.specs.Slice.Iter.{iter_mut_name};
ghost use Rattle.commonware_base.specs.Given.{HandsOver, LetsWrite, Shows};
ghost use Rattle.commonware_vec.specs.Borrows.{BorrowsItemsTo};

use super::NonEmptyVec;
use std::alloc::Allocator;
use std::{slice, vec};

impl<T: Drop, A: Allocator> IntoIterator for NonEmptyVec<T, A> {
    type Item = T;

    type IntoIter = vec::IntoIter<T, A>;

    ghost into_iter_gives = { λ v it. HandsOver v it × (1 ≤ length v) };

    /// Returns the items in order, from both ends, with the exact number left.
    fn into_iter(self) -> vec::IntoIter<T, A> {
        let NonEmptyVec { items } = self;
        items.into_iter()
    }
}

impl<'a, T, A: Allocator> IntoIterator for &'a NonEmptyVec<T, A> {
    type Item = &'a T;

    type IntoIter = slice::Iter<'a, T>;

    ghost into_iter_gives = { λ v it. Shows v.now it × (1 ≤ length v.now) };

    /// Returns the items in order, from both ends, with the exact number left.
    fn into_iter(self) -> slice::Iter<'a, T> {
        self.as_slice().iter()
    }
}

impl<'a, T, A: Allocator> IntoIterator for &'a mut NonEmptyVec<T, A> {
    type Item = &'a mut T;

    type IntoIter = slice::IterMut<'a, T>;

    ghost into_iter_gives = { λ v it. LetsWrite v.now it × (1 ≤ length v.now) };

    /// Returns mutable borrows of the items in order, from both ends, with the exact number left.
    fn into_iter(self) -> slice::IterMut<'a, T>
        ensures* writes_back { sem 𝓛
            (BorrowsItemsTo T.row A.row A.Allocator self.entry (iter_mut_name result)) }
        ensures into_iter_gives { LetsWrite self.old result × (1 ≤ length self.old) }
    {
        self.as_mut_slice().iter_mut()
    }
}
