//! The vector inside a non-empty list, mutably borrowed as a whole.
ghost use Rattle.std.specs.Prelude.{◌≡◌, ◌≤◌, length};
ghost use Rattle.commonware_vec.specs.Mutate.{LeavesSome, ReturnsAtItems, TakesItems};

use crate::NonEmptyVec;
use std::alloc::Allocator;

/// A value that holds a list with at least one item, which may be changed as a whole.
pub trait Mutate: Sized {
    ghost use Rattle.std.specs.Prelude.{List};

    /// What the list is made of.
    type Item;

    /// What holds the items, and may be empty.
    type Inner;

    /// The items.
    ghost items: { Self → List Self.Item };

    /// The items of what holds them.
    ghost items_of: { Self.Inner → List Self.Item };

    /// Returns what holds the items.
    fn open(self) -> Self::Inner
        ensures items { items_of result ≡ items self }
        ensures some { 1 ≤ length (items_of result) };

    /// Returns the value of these items. It requires that there is at least one.
    fn close(inner: Self::Inner) -> Self
        requires { 1 ≤ length (items_of inner) }
        ensures items { items result ≡ items_of inner }
        ensures some { 1 ≤ length (items result) };

    /// Calls `f` with what holds the items, and returns what it returns. It requires that `f`
    /// leaves an item.
    final fn mutate<R, F: FnOnce(&mut Self::Inner) -> R>(&mut self, f: F) -> R
        requires callable { TakesItems items_of F.FnOnce f (items self.old) }
        requires leaves { LeavesSome items_of F.FnOnce f (items self.old) }
        ensures returned { ReturnsAtItems items_of F.FnOnce f (items self.old)
            result (items self.new) }
        ensures some { 1 ≤ length (items self.new) }
    {
        core::mem::replace_with(
            self,
            f,
            |value, f|
                requires callable { TakesItems items_of F.FnOnce f (items value) }
                requires leaves { LeavesSome items_of F.FnOnce f (items value) }
                ensures returned { ReturnsAtItems items_of F.FnOnce f (items value)
                    result.1 (items result.0) }
                ensures some { 1 ≤ length (items result.0) }
            {
                let mut inner = value.open();
                let answer = f(&mut inner);
                (Self::close(inner), answer)
            },
        )
    }
}

impl<T, A: Allocator> Mutate for NonEmptyVec<T, A> {
    type Item = T;

    type Inner = Vec<T, A>;

    ghost items = { λ v. v };

    ghost items_of = { λ inner. inner.items };

    fn open(self) -> Vec<T, A> {
        self.into_vec()
    }

    fn close(inner: Vec<T, A>) -> Self {
        NonEmptyVec::from_unchecked(inner)
    }
}
