//! Builders of non-empty lists.
ghost use Rattle.std.specs.Prelude.{◌≡◌, ◌∷◌, [], MatchResult};
ghost use Rattle.commonware_vec.specs.Refusals.{IsAll, IsRefusedForDrawn, IsWholeOfClones};
ghost use Rattle.commonware_vec.specs.declared.error.Error.TheVariants.{Empty, Memory};

use super::NonEmptyVec;
use crate::Error;
use commonware_base::TryFromIterator;
use std::alloc::Allocator;

impl<T: Drop, A: Allocator> NonEmptyVec<T, A> {
    /// Returns the list of one item. The only error is an allocation failure.
    /// ```
    /// let one = NonEmptyVec::new(alloc, 7u8)?;
    /// assert!(rt; one.as_slice() == [7u8].as_slice());
    /// ```
    pub fn new(alloc: A, first: T) -> Result<Self, Error>
        ensures { MatchResult result (λ v. v ≡ first ∷ []) (λ error. error ≡ Memory) }
    {
        let mut items = Vec::new(alloc);
        items.push(first)?;
        Ok(NonEmptyVec { items })
    }
}

impl<T, A: Allocator> TryFrom<Vec<T, A>> for NonEmptyVec<T, A> {
    type Error = Error;

    ghost try_from_gives = { λ vec result. MatchResult result
        (λ v. v ≡ vec.items)
        (λ error. (error ≡ Empty) × (vec.items ≡ [])) };

    /// Returns the list of the items of a vector, or `Empty` where it is empty. It allocates
    /// nothing.
    fn try_from(vec: Vec<T, A>) -> Result<Self, Error> {
        if vec.is_empty() {
            vec.destroy_empty();
            return Err(Error::Empty);
        }
        Ok(NonEmptyVec { items: vec })
    }
}

impl<T: Drop, A: Allocator> TryFromIterator<T, A> for NonEmptyVec<T, A> {
    type Error = Error;

    ghost collects = { IsAll };

    ghost refuses = { IsRefusedForDrawn };

    /// Returns the list of all the items, or `Empty` where there are none. It allocates only once
    /// an item was drawn.
    fn try_from_iter<I: IntoIterator<Item = T>>(alloc: A, iter: I) -> Result<Self, Error> {
        let mut items = Vec::new(alloc);
        for item in iter {
            items.push(item)?;
        }
        NonEmptyVec::try_from(items)
    }
}

impl<T: Clone, A: Allocator> NonEmptyVec<T, A> {
    /// Returns the list of clones of all the items, or `Empty` where there are none, and then it
    /// allocates nothing.
    /// ```
    /// let list = NonEmptyVec::try_from_slice(alloc, &[3u8, 1, 2])?;
    /// assert!(rt; list.as_slice() == [3u8, 1, 2].as_slice());
    /// ```
    pub fn try_from_slice(alloc: A, items: &[T]) -> Result<Self, Error>
        ensures { IsWholeOfClones T.is_clone items.now result }
    {
        if items.is_empty() {
            Err(Error::Empty)
        } else {
            NonEmptyVec::try_from(Vec::from_clones(alloc, items)?)
        }
    }

    /// Returns the list of clones of all the items, or `Empty` where there are none, and then it
    /// allocates nothing. The array is dropped.
    /// ```
    /// let none = NonEmptyVec::try_from_array(alloc, [0u8; 0]);
    /// assert!(rt; none.err() == Some(Error::Empty));
    /// ```
    pub fn try_from_array<const N: usize>(alloc: A, items: [T; N]) -> Result<Self, Error>
        ensures { IsWholeOfClones T.is_clone items result }
    {
        NonEmptyVec::try_from_slice(alloc, &items)
    }

    /// Returns the list of clones of all the items, or `Empty` where there are none, and then it
    /// allocates nothing.
    /// ```
    /// let list = NonEmptyVec::try_from_array_ref(alloc, &[3u8, 1, 2])?;
    /// assert!(rt; list.as_slice() == [3u8, 1, 2].as_slice());
    /// ```
    pub fn try_from_array_ref<const N: usize>(alloc: A, items: &[T; N]) -> Result<Self, Error>
        ensures { IsWholeOfClones T.is_clone items.now result }
    {
        NonEmptyVec::try_from_slice(alloc, items)
    }
}
