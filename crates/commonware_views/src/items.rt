//! An iterator over byte sequences of one size.
ghost use Rattle.std.specs.Prelude.{◌≡◌, IfSome, Some, length};
ghost use Rattle.std.specs.Iterator.{UpTo, YieldsFirstRef, at_most, item_count};
ghost use Rattle.std.specs.Iterator.SizeHint.{IsWithinCount};

use crate::list::ListView;
use std::marker::Model;

/// The items of a list that are left, in order, seen as the list of them.
#[derive(Drop)]
pub struct Items<'a> {
    left: ListView<'a>,
}

impl<'a> Model for Items<'a> {
    ghost use Rattle.std.specs.Prelude.{ℕ, List};

    ghost Value = { List (List ℕ) };

    ghost view = { λ it. it.left };
}

impl<'a> Items<'a> {
    /// Returns an iterator over all items of a list.
    pub(crate) fn new(left: ListView<'a>) -> Self
        ensures { result ≡ left.entry }
    {
        Items { left }
    }
}

impl<'a> Iterator for Items<'a> {
    type Item = &'a [u8];

    ghost next_gives = { YieldsFirstRef (λ left. left) };

    ghost remaining = { item_count (λ left. left) };

    /// Returns the first item that is left, or `None` where none is.
    #[inline(always)]
    fn next(&mut self) -> Option<&'a [u8]> {
        self.left.take_first()
    }

    /// Returns the exact number of items that are left, twice.
    fn size_hint(&self) -> (usize, Option<usize>)
        ensures lower { IsWithinCount result.0 (at_most (length self.now)) }
        ensures upper { IfSome result.1 (UpTo (at_most (length self.now))) }
        ensures exact { result ≡ (length self.now, Some (length self.now)) }
    {
        let left = self.left.len();
        (left, Some(left))
    }
}

impl<'a> ExactSizeIterator for Items<'a> {
    /// Returns the exact number of items that are left.
    fn len(&self) -> usize {
        self.left.len()
    }
}
