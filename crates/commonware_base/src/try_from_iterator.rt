//! Collections that are made from an iterator, or an error.
ghost use Rattle.std.specs.Prelude.{Bool, IfErr, IfOk, List};
ghost use Rattle.std.specs.Iterator.{IsFinite, IsFiniteIterable};
ghost use Rattle.commonware_base.specs.Taken.{IsMadeFrom, IsMadeOf, IsRefusalFrom, IsRefusalOf};

/// A collection that an iterator may be collected into. Each implementation says what it makes of
/// the items, and which error it returns. A `NonEmptyVec` is made of `1..=3`, and of no item it is
/// the error `Empty`.
pub trait TryFromIterator<T, A>: Sized {
    /// Why no collection was made.
    type Error;

    /// Holds of all the items of an iterator, and the collection that is made of them.
    ghost collects: { List T → Self → Type 0 };

    /// Holds of the items that were drawn, whether the iterator ended after them, and the error.
    ghost refuses: { List T → Bool → Self.Error → Type 0 };

    /// Returns the collection of all the items, or an error. It requires that the iterator ends. It
    /// may stop before the iterator's end only where it returns an error.
    fn try_from_iter<I: IntoIterator<Item = T>>(alloc: A, iter: I) -> Result<Self, Self::Error>
        requires { IsFiniteIterable I.into_iter_gives I.IntoIter.can_next
            I.IntoIter.remaining iter }
        ensures ok { IfOk result (IsMadeOf I.into_iter_gives I.IntoIter.next_gives iter collects) }
        ensures err { IfErr result
            (IsRefusalOf I.into_iter_gives I.IntoIter.next_gives iter refuses) };
}

/// Collecting that may fail, for every iterator. It is called by its path, as std's `Iterator` has
/// a method of that name: `TryCollect::try_collect(1u8..=3, alloc)`.
pub trait TryCollect: Iterator + Sized {
    /// Returns what `C::try_from_iter` returns for the iterator, which has to end.
    fn try_collect<C: TryFromIterator<Self::Item, A>, A>(self, alloc: A) -> Result<C, C::Error>
        requires can { Self.can_next self }
        requires finite { IsFinite (Self.remaining self) }
        ensures ok { IfOk result (IsMadeFrom Self.next_gives self C.collects) }
        ensures err { IfErr result (IsRefusalFrom Self.next_gives self C.refuses) }
    {
        C::try_from_iter(alloc, self)
    }
}

impl<I: Iterator> TryCollect for I {}
