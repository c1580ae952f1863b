//! A list of strictly increasing items.
ghost use Rattle.std.specs.Prelude.{◌≡◌, ◌↔◌, ◌+◌, ◌-◌, ◌*◌, ◌<◌, ◌≤◌, ◌^◌, ◌==◌, [], IfSome, IsSome, Some, length, slice_index_or, slice_range, take, is_some, ℕ};
ghost use Rattle.std.specs.List.{IsAnyAnswer, list_any};
ghost use Rattle.std.specs.Iterator.Adapters.{IterYieldsInOrder, IterYieldsInReverse};
ghost use Rattle.std.specs.Slice.{IsItemAt};
ghost use Rattle.std.specs.Slice.Iter.{iter_rest};
ghost use Rattle.commonware_ordered.specs.Costs.{IsLookUpCost, IsOrderCost, IsWholeOrderCost, StopsAtFault};
ghost use Rattle.commonware_ordered.specs.Strict.{HasEqualAt, IsPlaceOf, IsStrict};

mod builders;
mod codec;
mod compare;
mod display;
mod iterators;

use crate::counted::{CountedOrd, Order};
use crate::counter::{Counter, Uncounted};
use crate::order::are_strict;
use crate::search::place_of;
pub use codec::{read_set_counted, set_fault_law};
use std::alloc::Allocator;
use std::marker::Model;
use std::ops::{Index, Range};
use std::slice;

/// Items in strictly increasing order, so each once. The set of 5, 1, 3, 1 and 9 has the items
/// `[1, 3, 5, 9]`, and the set of the bytes 1, 2, 3 and 4 is encoded as `04 01 02 03 04`.
///
/// A look-up of one of n items takes at most 1 + 3k/2 comparisons, where n has k binary digits, and
/// a decoding n - 1, which the clauses `cost` of `position_counted` and `read_set_counted` say. A
/// builder takes O(n log n), or O(n) where each item is greater than the last, and every other call
/// at most linear time. No contract says so.
#[derive(Drop)]
pub struct Set<T: Order, A: Allocator> {
    items: Vec<T, A>,
}

impl<T: Order, A: Allocator> Model for Set<T, A> {
    ghost use Rattle.std.specs.Prelude.{List};
    ghost use Rattle.commonware_ordered.specs.Strict.{IsStrict};

    ghost Value = { List T };

    ghost view = { λ s. s.items.items };

    ghost invariant = { λ s. IsStrict T.order s.items.items };
}

impl<T: Order, A: Allocator> Set<T, A> {
    /// Returns the set without items.
    /// ```
    /// let none: Set<u8, Global> = Set::empty(alloc);
    /// assert!(rt; none.is_empty());
    /// ```
    pub fn empty(alloc: A) -> Self
        ensures { result ≡ [] }
    {
        Set {
            items: Vec::new(alloc),
        }
    }

    /// Returns the allocator that the set was made on, which holds its items.
    /// ```
    /// let set = Set::try_from_array(alloc, [5u8, 1, 3])?;
    /// let beside = Set::try_from_array(*set.allocator(), [7u8])?;
    /// assert!(rt; beside.len() == 1);
    /// ```
    pub fn allocator(&self) -> &A {
        self.items.allocator()
    }

    /// Returns how many items there are.
    /// ```
    /// let set = Set::try_from_array(alloc, [5u8, 1, 3])?;
    /// assert!(rt; set.len() == 3);
    /// ```
    pub fn len(&self) -> usize
        ensures { result ≡ length self.now }
    {
        self.items.len()
    }

    /// Whether there are no items.
    /// ```
    /// let set = Set::try_from_array(alloc, [5u8, 1, 3])?;
    /// assert!(rt; !set.is_empty());
    /// ```
    pub fn is_empty(&self) -> bool
        ensures { result ≡ (length self.now == 0) }
    {
        self.items.is_empty()
    }

    /// Returns the item at a position, or `None` past the last.
    /// ```
    /// let set = Set::try_from_array(alloc, [5u8, 1, 3])?;
    /// assert!(rt; set.get(1) == Some(&3) && set.get(3) == None);
    /// ```
    pub fn get(&self, index: usize) -> Option<&T>
        ensures { IsItemAt self.now index result }
    {
        self.items.get(index)
    }

    /// Returns the items in order.
    /// ```
    /// let set = Set::try_from_array(alloc, [5u8, 1, 3])?;
    /// assert!(rt; set.as_slice() == [1u8, 3, 5].as_slice());
    /// ```
    pub fn as_slice(&self) -> &[T]
        ensures items { result.now ≡ self.now }
        ensures strict { IsStrict T.order self.now }
    {
        self.items.as_slice()
    }

    /// Returns the items at a range of positions. It requires that the range is ordered and inside.
    /// ```
    /// let set = Set::try_from_array(alloc, [5u8, 1, 3])?;
    /// assert!(rt; set.len() == 3 && set.slice(1..3) == [3u8, 5].as_slice());
    /// ```
    pub fn slice(&self, range: Range<usize>) -> &[T]
        requires ordered { range.start ≤ range.end }
        requires inside { range.end ≤ length self.now }
        ensures { result.now ≡ slice_range self.now range.start range.end }
    {
        &self.items[range.start..range.end]
    }

    /// Returns an iterator over the items in order, from both ends.
    /// ```
    /// let set = Set::try_from_array(alloc, [5u8, 1, 3])?;
    /// assert!(rt; set.iter().eq([1u8, 3, 5].iter()));
    /// ```
    pub fn iter(&self) -> slice::Iter<'_, T>
        ensures rest { iter_rest result ≡ self.now }
        ensures bound { length (iter_rest result) < 2 ^ 64 }
        ensures runs { IterYieldsInOrder T }
        ensures runs_back { IterYieldsInReverse T }
    {
        self.as_slice().iter()
    }

    /// Returns what `position` does, by the same search, and counts its comparisons: of n items,
    /// where n has k binary digits, at most 1 + 3k/2. So whatever the items are and whichever item
    /// is sought, a set of 100 takes at most 11, one of 1,000,000 at most 31, none more than 97.
    /// ```
    /// let set = Set::try_from_array(alloc, [5u8, 1, 3])?;
    /// assert!(rt; set.position_counted(&3, &mut Uncounted) == Some(1));
    /// ```
    #[inline(always)]
    pub fn position_counted<C: Counter>(&self, item: &T, count: &mut C) -> Option<usize>
    where
        T: CountedOrd<C>,
        ensures place { IsPlaceOf T.same self.now item.now result }
        ensures only { (p : ℕ) → (result ≡ Some p) ↔ HasEqualAt T.same self.now item.now p }
        ensures found { IsAnyAnswer (λ y b. T.same y item.now ≡ b) self.now (is_some result) }
        ensures cost { IsLookUpCost (length self.now) (C.counted count.old) (C.counted count.new) }
    {
        place_of(self.as_slice(), item, count)
    }

    /// Returns what `contains` does, and counts its comparisons, as `position_counted` does.
    /// ```
    /// let set = Set::try_from_array(alloc, [5u8, 1, 3])?;
    /// assert!(rt; set.contains_counted(&3, &mut Uncounted));
    /// ```
    #[inline(always)]
    pub fn contains_counted<C: Counter>(&self, item: &T, count: &mut C) -> bool
    where
        T: CountedOrd<C>,
        ensures value { result ≡ list_any (λ y. T.same y item.now) self.now }
        ensures cases { IsAnyAnswer (λ y b. T.same y item.now ≡ b) self.now result }
        ensures cost { IsLookUpCost (length self.now) (C.counted count.old) (C.counted count.new) }
    {
        self.position_counted(item, count).is_some()
    }

    /// Returns the set of the items, or `None` where they are not strictly increasing. Each is
    /// compared with the next, in order, up to the first that isn't less, and counted.
    pub(crate) fn checked<C: Counter>(items: Vec<T, A>, count: &mut C) -> Option<Self>
    where
        T: CountedOrd<C> + Drop,
        ensures some { IsSome result ↔ IsStrict T.order items.items }
        ensures same { IfSome result (λ set. set ≡ items.items) }
        ensures cost { IsOrderCost (length items.items)
            (C.counted count.old) (C.counted count.new) }
        ensures stops { StopsAtFault T.order items.items
            (C.counted count.old) (C.counted count.new) }
        ensures least { IsSome result → IsWholeOrderCost C.step (length items.items)
            (C.counted count.old) (C.counted count.new) }
    {
        if are_strict(items.as_slice(), count) {
            Some(Set { items })
        } else {
            None
        }
    }

    /// Returns the set of the items. It requires that they are strictly increasing: each is less
    /// than the next. It allocates nothing.
    /// ```
    /// let set = Set::from_strict(vec![in alloc; 1u8, 3, 5]?);
    /// assert!(rt; set.as_slice() == [1u8, 3, 5].as_slice());
    /// ```
    pub fn from_strict(items: Vec<T, A>) -> Self
        requires { IsStrict T.order items.items }
        ensures { result ≡ items.items }
    {
        Set { items }
    }
}

impl<T: Ord, A: Allocator> Set<T, A> {
    /// Returns the position of the item that equals the given one, or `None` where none does. It
    /// makes as many comparisons as `position_counted`.
    /// ```
    /// let set = Set::try_from_array(alloc, [5u8, 1, 3])?;
    /// assert!(rt; set.position(&3) == Some(1) && set.position(&4) == None);
    /// ```
    #[inline(always)]
    pub fn position(&self, item: &T) -> Option<usize>
        ensures place { IsPlaceOf T.eq self.now item.now result }
        ensures only { (p : ℕ) → (result ≡ Some p) ↔ HasEqualAt T.eq self.now item.now p }
        ensures found { IsAnyAnswer (λ y b. T.eq y item.now ≡ b) self.now (is_some result) }
    {
        self.position_counted(item, &mut Uncounted)
    }

    /// Whether an item equals the given one. It makes as many comparisons as `position_counted`.
    /// ```
    /// let set = Set::try_from_array(alloc, [5u8, 1, 3])?;
    /// assert!(rt; set.contains(&3) && !set.contains(&4));
    /// ```
    #[inline(always)]
    pub fn contains(&self, item: &T) -> bool
        ensures value { result ≡ list_any (λ y. T.eq y item.now) self.now }
        ensures cases { IsAnyAnswer (λ y b. T.eq y item.now ≡ b) self.now result }
    {
        self.contains_counted(item, &mut Uncounted)
    }
}

impl<T: Order + Drop, A: Allocator> Set<T, A> {
    /// Keeps the first `len` items, or all of them where there are no more.
    /// ```
    /// let mut set = Set::try_from_array(alloc, [5u8, 1, 3])?;
    /// set.truncate(2);
    /// assert!(rt; set.as_slice() == [1u8, 3].as_slice());
    /// ```
    pub fn truncate(&mut self, len: usize)
        ensures { self.new ≡ take len self.old }
    {
        self.items.truncate(len);
    }
}

impl<T: Order, A: Allocator> Index<usize> for Set<T, A> {
    type Output = T;

    ghost can_index = { λ s i. i < length s };

    ghost index_gives = { λ s i x. x ≡ slice_index_or s i x };

    /// Returns the item at a position. It requires that the position is inside.
    fn index(&self, index: usize) -> &T {
        &self.items[index]
    }
}
