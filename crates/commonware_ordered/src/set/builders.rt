//! Builders of sets: of equal items the first stays, or equal items are refused.
ghost use Rattle.std.specs.Prelude.{◌≤◌, IfOk, IsOk, OnErr, length};
ghost use Rattle.std.specs.Iterator.{IsFiniteIterable};
ghost use Rattle.commonware_base.specs.Taken.{IsMadeOf, TakesSome};
ghost use Rattle.commonware_ordered.specs.Dedup.{EqualsSameItems, IsDedup};
ghost use Rattle.commonware_ordered.specs.Strict.{IsStrict};
ghost use Rattle.commonware_ordered.specs.Whole.{IsRefusedFor, IsSetOfAll, IsWholeSet, IsWholeSetOfClones};

use super::Set;
use crate::Error;
use crate::counter::Uncounted;
use crate::kept::{all_kept, keep};
use crate::order::are_strict;
use commonware_base::{EqClone, TryFromIterator, clones_of};
use std::alloc::{AllocError, Allocator};
use std::collections::BTreeSet;

impl<T: Ord + Drop, A: Allocator + Copy> Set<T, A> {
    /// Returns the set of the items that an iterator gives, where of equal items the first stays.
    /// The only error is an allocation failure, which comes only after an item; it allocates for
    /// the distinct items. It takes O(n log n) comparisons.
    /// ```
    /// let set = Set::from_iter_dedup(alloc, [5u8, 1, 3, 1])?;
    /// assert!(rt; set.as_slice() == [1u8, 3, 5].as_slice());
    /// ```
    pub fn from_iter_dedup<I: IntoIterator<Item = T>>(alloc: A, iter: I) -> Result<Self, AllocError>
        requires { IsFiniteIterable I.into_iter_gives I.IntoIter.can_next
            I.IntoIter.remaining iter }
        ensures dedup { IfOk result (IsMadeOf I.into_iter_gives I.IntoIter.next_gives iter
            (λ xs s. IsDedup T.eq T.cmp xs s × EqualsSameItems T.eq T.cmp xs s)) }
        ensures nothing { OnErr result (TakesSome I.into_iter_gives I.IntoIter.next_gives iter
            (λ drawn _. 1 ≤ length drawn)) }
    {
        let rest = iter.into_iter();
        let coming = rest.size_hint().0;
        let mut run = Vec::new(alloc);
        let mut tree = BTreeSet::new(alloc);
        for item in rest {
            let (more, _) = keep(run, &mut tree, item, coming)?;
            run = more;
        }
        let items = all_kept(run, tree)?;
        Ok(Set { items })
    }

    /// Returns the set of all the items, or `DuplicateKey` where two of them are equal. It takes
    /// O(n log n) comparisons; a list that is strictly increasing is taken as it is, without an
    /// allocation.
    /// ```
    /// let set = Set::try_from_vec(vec![in alloc; 5u8, 1, 3]?)?;
    /// assert!(rt; set.as_slice() == [1u8, 3, 5].as_slice());
    /// ```
    pub fn try_from_vec(vec: Vec<T, A>) -> Result<Self, Error>
        ensures whole { IsWholeSet T.eq T.cmp vec.items result }
        ensures strict { IsStrict T.cmp vec.items → IsOk result }
    {
        if are_strict(vec.as_slice(), &mut Uncounted) {
            return Ok(Set { items: vec });
        }
        let alloc = *vec.allocator();
        Set::try_from_iter(alloc, vec)
    }
}

impl<T: Ord + Drop, A: Allocator + Copy> TryFromIterator<T, A> for Set<T, A> {
    type Error = Error;

    ghost collects = { IsSetOfAll T.eq T.cmp };

    ghost refuses = { λ drawn _ error. IsRefusedFor T.eq drawn error };

    /// Returns the set of all the items, or `DuplicateKey` where two of those that were drawn are
    /// equal: none is drawn after the first repeat. It takes O(n log n) comparisons.
    fn try_from_iter<I: IntoIterator<Item = T>>(alloc: A, iter: I) -> Result<Self, Error> {
        let rest = iter.into_iter();
        let coming = rest.size_hint().0;
        let mut run = Vec::new(alloc);
        let mut tree = BTreeSet::new(alloc);
        for item in rest {
            let (more, new) = keep(run, &mut tree, item, coming)?;
            if !new {
                return Err(Error::DuplicateKey);
            }
            run = more;
        }
        let items = all_kept(run, tree)?;
        Ok(Set { items })
    }
}

impl<T: Ord + EqClone, A: Allocator + Copy> Set<T, A> {
    /// Returns the set of clones of all the items, or `DuplicateKey` where two of them are equal.
    /// It takes O(n log n) comparisons.
    /// ```
    /// let set = Set::try_from_slice(alloc, &[5u8, 1, 3])?;
    /// assert!(rt; set.as_slice() == [1u8, 3, 5].as_slice());
    /// ```
    pub fn try_from_slice(alloc: A, items: &[T]) -> Result<Self, Error>
        ensures { IsWholeSetOfClones T.eq T.cmp T.is_clone items.now result }
    {
        Set::try_from_vec(clones_of(alloc, items)?)
    }

    /// Returns the set of clones of all the items, or `DuplicateKey` where two of them are equal.
    /// The array is dropped. It takes O(n log n) comparisons.
    /// ```
    /// let twice = Set::try_from_array(alloc, [5u8, 1, 5]);
    /// assert!(rt; twice.err() == Some(Error::DuplicateKey));
    /// ```
    pub fn try_from_array<const N: usize>(alloc: A, items: [T; N]) -> Result<Self, Error>
        ensures { IsWholeSetOfClones T.eq T.cmp T.is_clone items result }
    {
        Set::try_from_slice(alloc, &items)
    }

    /// Returns the set of clones of all the items, or `DuplicateKey` where two of them are equal.
    /// It takes O(n log n) comparisons.
    /// ```
    /// let set = Set::try_from_array_ref(alloc, &[5u8, 1, 3])?;
    /// assert!(rt; set.as_slice() == [1u8, 3, 5].as_slice());
    /// ```
    pub fn try_from_array_ref<const N: usize>(alloc: A, items: &[T; N]) -> Result<Self, Error>
        ensures { IsWholeSetOfClones T.eq T.cmp T.is_clone items.now result }
    {
        Set::try_from_slice(alloc, items)
    }
}
