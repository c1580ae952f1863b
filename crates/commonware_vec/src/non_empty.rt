//! A list with at least one item.
ghost use Rattle.std.specs.Prelude.{◌≡◌, ◌≤◌, ◌<◌, ◌-◌, ◌++◌, ◌∷◌, ◌==◌, [], MatchOption, MatchResult, Some, length, slice_get, slice_index_or};
ghost use Rattle.std.specs.Borrow.{sem};
ghost use Rattle.std.specs.Int.NonZero.{non_zero_usize_get};
ghost use Rattle.std.specs.List.{insert, remove};
ghost use Rattle.commonware_vec.specs.Borrows.{BorrowsItemAt, BorrowsItems};

mod builders;
mod closures;
mod codec;
mod compare;
mod iterators;
mod sizes;

pub use codec::non_empty_fault_law;
use std::alloc::Allocator;
use std::convert::AsRef;
use std::marker::Model;
use std::num::NonZeroUsize;
use std::ops::Index;

/// A list with at least one item. The list of the bytes 1, 2 and 3 is encoded as `03 01 02 03`.
#[derive(Drop)]
pub struct NonEmptyVec<T, A: Allocator> {
    items: Vec<T, A>,
}

impl<T, A: Allocator> Model for NonEmptyVec<T, A> {
    ghost use Rattle.std.specs.Prelude.{◌≤◌, List, length};

    ghost Value = { List T };

    ghost view = { λ v. v.items.items };

    ghost invariant = { λ v. 1 ≤ length v.items.items };
}

impl<T, A: Allocator> NonEmptyVec<T, A> {
    /// Returns the list of the items of a vector. It requires that the vector isn't empty, and
    /// allocates nothing.
    /// ```
    /// let list = NonEmptyVec::from_unchecked(vec![in alloc; 3u8, 1, 2]?);
    /// assert!(rt; list.as_slice() == [3u8, 1, 2].as_slice());
    /// ```
    pub fn from_unchecked(items: Vec<T, A>) -> Self
        requires { 1 ≤ length items.items }
        ensures { result ≡ items.items }
    {
        NonEmptyVec { items }
    }

    /// Returns how many items there are.
    /// ```
    /// let list = NonEmptyVec::try_from_array(alloc, [3u8, 1, 2])?;
    /// assert!(rt; list.len() == NZUsize!(3));
    /// ```
    pub fn len(&self) -> NonZeroUsize
        ensures { non_zero_usize_get result ≡ length self.now }
    {
        NonZeroUsize::new(self.items.len()).unwrap()
    }

    /// Whether there is exactly one item.
    /// ```
    /// let list = NonEmptyVec::try_from_array(alloc, [3u8, 1, 2])?;
    /// assert!(rt; !list.is_singleton());
    /// ```
    pub fn is_singleton(&self) -> bool
        ensures { result ≡ (length self.now == 1) }
    {
        self.items.len() == 1
    }

    /// Returns the items in order.
    /// ```
    /// let list = NonEmptyVec::try_from_array(alloc, [3u8, 1, 2])?;
    /// assert!(rt; list.as_slice() == [3u8, 1, 2].as_slice());
    /// ```
    pub fn as_slice(&self) -> &[T]
        ensures items { result.now ≡ self.now }
        ensures some { 1 ≤ length self.now }
    {
        self.items.as_slice()
    }

    /// Returns a mutable borrow of the items in order.
    /// ```
    /// let mut list = NonEmptyVec::try_from_array(alloc, [3u8, 1, 2])?;
    /// list.as_mut_slice().reverse();
    /// assert!(rt; list.as_slice() == [2u8, 1, 3].as_slice());
    /// ```
    pub fn as_mut_slice(&mut self) -> &mut [T]
        ensures* writes_back { sem 𝓛 (BorrowsItems T.row A.row A.Allocator self.entry result) }
        ensures items { result.now ≡ self.old }
        ensures some { 1 ≤ length self.old }
    {
        self.items.as_mut_slice()
    }

    /// Returns the first item.
    /// ```
    /// let list = NonEmptyVec::try_from_array(alloc, [3u8, 1, 2])?;
    /// assert!(rt; *list.first() == 3);
    /// ```
    pub fn first(&self) -> &T
        ensures { slice_get self.now 0 ≡ Some result.now }
    {
        &self.items[0]
    }

    /// Returns the last item.
    /// ```
    /// let list = NonEmptyVec::try_from_array(alloc, [3u8, 1, 2])?;
    /// assert!(rt; *list.last() == 2);
    /// ```
    pub fn last(&self) -> &T
        ensures { slice_get self.now (length self.now - 1) ≡ Some result.now }
    {
        &self.items[self.items.len() - 1]
    }

    /// Returns a mutable borrow of the first item.
    /// ```
    /// let mut list = NonEmptyVec::try_from_array(alloc, [3u8, 1, 2])?;
    /// *list.first_mut() = 4;
    /// assert!(rt; list.as_slice() == [4u8, 1, 2].as_slice());
    /// ```
    pub fn first_mut(&mut self) -> &mut T
        ensures* writes_back { sem 𝓛 (BorrowsItemAt T.row A.row A.Allocator self.entry 0 result) }
        ensures value { slice_get self.old 0 ≡ Some result.now }
    {
        &mut self.items[0]
    }

    /// Returns a mutable borrow of the last item.
    /// ```
    /// let mut list = NonEmptyVec::try_from_array(alloc, [3u8, 1, 2])?;
    /// *list.last_mut() = 4;
    /// assert!(rt; list.as_slice() == [3u8, 1, 4].as_slice());
    /// ```
    pub fn last_mut(&mut self) -> &mut T
        ensures* writes_back { sem 𝓛
            (BorrowsItemAt T.row A.row A.Allocator self.entry (length self.old - 1) result) }
        ensures value { slice_get self.old (length self.old - 1) ≡ Some result.now }
    {
        let last = self.items.len() - 1;
        &mut self.items[last]
    }

    /// Appends an item. After an allocation failure it returns the item, and the list is as it was.
    /// ```
    /// let mut list = NonEmptyVec::try_from_array(alloc, [3u8, 1])?;
    /// assert!(rt; list.push(2).is_ok() && list.as_slice() == [3u8, 1, 2].as_slice());
    /// ```
    pub fn push(&mut self, value: T) -> Result<(), T>
        ensures { MatchResult result
            (λ _. self.new ≡ self.old ++ value ∷ [])
            (λ back. (back ≡ value) × (self.new ≡ self.old)) }
    {
        match self.items.push(value) {
            Ok(()) => Ok(()),
            Err(refused) => Err(refused.value),
        }
    }

    /// Inserts an item before the one at a position; at the length, it comes last. It requires that
    /// the position is at most the length. After an allocation failure it returns the item, and the
    /// list is as it was.
    /// ```
    /// let mut list = NonEmptyVec::try_from_array(alloc, [3u8, 1])?;
    /// assert!(rt; list.insert(0, 2).is_ok() && list.as_slice() == [2u8, 3, 1].as_slice());
    /// ```
    pub fn insert(&mut self, index: usize, value: T) -> Result<(), T>
        requires { index ≤ length self.old }
        ensures { MatchResult result
            (λ _. self.new ≡ insert self.old index value)
            (λ back. (back ≡ value) × (self.new ≡ self.old)) }
    {
        match self.items.insert(index, value) {
            Ok(()) => Ok(()),
            Err(refused) => Err(refused.value),
        }
    }

    /// Removes the last item and returns it, or returns `None` where it is the only one, which
    /// stays.
    /// ```
    /// let mut list = NonEmptyVec::try_from_array(alloc, [3u8, 1])?;
    /// assert!(rt; list.pop() == Some(1) && list.pop() == None);
    /// ```
    pub fn pop(&mut self) -> Option<T>
        ensures last { MatchOption result
            ((length self.old ≡ 1) × (self.new ≡ self.old))
            (λ last. (1 < length self.old) × (self.old ≡ self.new ++ last ∷ [])) }
        ensures some { 1 ≤ length self.new }
    {
        if self.is_singleton() {
            None
        } else {
            self.items.pop()
        }
    }

    /// Removes the item at a position and returns it, or returns `None` where it is the only one,
    /// which stays. It requires that the position is inside.
    /// ```
    /// let mut list = NonEmptyVec::try_from_array(alloc, [3u8, 1])?;
    /// assert!(rt; list.remove(0) == Some(3) && list.remove(0) == None);
    /// ```
    pub fn remove(&mut self, index: usize) -> Option<T>
        requires { index < length self.old }
        ensures item { MatchOption result
            ((length self.old ≡ 1) × (self.new ≡ self.old))
            (λ item. (1 < length self.old) × (slice_get self.old index ≡ Some item)
            × (self.new ≡ remove self.old index)) }
        ensures some { 1 ≤ length self.new }
    {
        if self.items.len() > 1 {
            Some(self.items.remove(index))
        } else {
            None
        }
    }

    /// Returns the vector of the items. It allocates nothing.
    /// ```
    /// let list = NonEmptyVec::try_from_array(alloc, [3u8, 1, 2])?;
    /// assert!(rt; list.into_vec().as_slice() == [3u8, 1, 2].as_slice());
    /// ```
    pub fn into_vec(self) -> Vec<T, A>
        ensures items { result.items ≡ self }
        ensures some { 1 ≤ length self }
    {
        let NonEmptyVec { items } = self;
        items
    }
}

impl<T, A: Allocator> AsRef<Vec<T, A>> for NonEmptyVec<T, A> {
    /// Returns the vector of the items.
    fn as_ref(&self) -> &Vec<T, A>
        ensures items { result.now.items ≡ self.now }
        ensures some { 1 ≤ length self.now }
    {
        &self.items
    }
}

impl<T, A: Allocator> From<NonEmptyVec<T, A>> for Vec<T, A> {
    ghost from_gives = { λ v items. (items.items ≡ v) × (1 ≤ length v) };

    /// Returns the vector of the items. It allocates nothing.
    fn from(list: NonEmptyVec<T, A>) -> Vec<T, A> {
        list.into_vec()
    }
}

impl<T, A: Allocator> Index<usize> for NonEmptyVec<T, A> {
    type Output = T;

    ghost can_index = { λ v i. i < length v };

    ghost index_gives = { λ v i item. item ≡ slice_index_or v i item };

    /// Returns the item at a position. It requires that the position is inside.
    fn index(&self, index: usize) -> &T {
        &self.items[index]
    }
}
