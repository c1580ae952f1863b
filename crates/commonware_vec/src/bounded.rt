//! A queue of at most `capacity` items: where it is full, the oldest one makes room for a new one.
ghost use Rattle.std.specs.Prelude.{◌≡◌, ◌<◌, ◌≤◌, ◌++◌, ◌∷◌, ◌&&◌, ◌==◌, [], MatchOption, MatchResult, None, drop, length, slice_get};
ghost use Rattle.std.specs.Cmp.{and_equiv, and_per, on_equiv, on_per, partial_equiv_from_equiv};
ghost use Rattle.std.specs.Cmp.Lexicographic.{lists_equiv, lists_per, pointwise};
ghost use Rattle.std.specs.Hash as fed;
ghost use Rattle.std.specs.Hash.{and-Alike, items_Alike, on_Alike};
ghost use Rattle.std.specs.Int.NonZero.{non_zero_usize_get};
ghost use Rattle.std.specs.List.{AllZip};
ghost use Rattle.std.proofs.lemmas.Cmp.{nat_eq_equiv};
ghost use Rattle.commonware_vec.specs.laws.QueueLaws.{capacities_alike};

use std::alloc::{AllocError, Allocator};
use std::collections::VecDeque;
use std::convert::AsRef;
use std::hash::{Hash, Hasher};
use std::marker::Model;
use std::num::NonZeroUsize;
use std::ops::Deref;
use std::{fmt, mem};

/// A queue that holds at most `capacity` items. An item that is pushed where it is full takes the
/// place of the oldest.
///
/// A queue of capacity 3, after the items 1, 2, 3 and 4 were pushed, holds 2, 3 and 4.
#[derive(Drop)]
pub struct Bounded<T, A: Allocator> {
    deque: VecDeque<T, A>,
    capacity: NonZeroUsize,
}

impl<T, A: Allocator> Model for Bounded<T, A> {
    ghost use Rattle.std.specs.Prelude.{◌≤◌, length};
    ghost use Rattle.std.specs.Int.NonZero.{non_zero_usize_get};
    ghost use Rattle.commonware_vec.specs.Queues.{Queue};

    ghost Value = { Queue T };

    ghost view = { λ b.
        record { items = b.deque.items; capacity = non_zero_usize_get b.capacity } };

    ghost invariant = { λ b. length b.deque.items ≤ non_zero_usize_get b.capacity };
}

impl<T, A: Allocator> Bounded<T, A> {
    /// Returns a queue without items that holds at most `capacity`. It allocates nothing.
    pub fn new(alloc: A, capacity: NonZeroUsize) -> Self
        ensures items { result.items ≡ [] }
        ensures capacity { result.capacity ≡ non_zero_usize_get capacity }
    {
        Bounded {
            deque: VecDeque::new(alloc),
            capacity,
        }
    }

    /// Returns how many items it holds at most.
    pub fn capacity(&self) -> NonZeroUsize
        ensures capacity { non_zero_usize_get result ≡ self.now.capacity }
        ensures bound { length self.now.items ≤ self.now.capacity }
    {
        self.capacity
    }

    /// Appends an item. Where the queue is full, it returns the oldest item, which it removes, and
    /// allocates nothing. After an allocation failure it returns the item, and the queue is as it
    /// was.
    pub fn push(&mut self, value: T) -> Result<Option<T>, T>
        ensures capacity { self.new.capacity ≡ self.old.capacity }
        ensures room { length self.old.items < self.old.capacity → MatchResult result
            (λ out. (out ≡ None) × (self.new.items ≡ self.old.items ++ value ∷ []))
            (λ back. (back ≡ value) × (self.new.items ≡ self.old.items)) }
        ensures full { self.old.capacity ≤ length self.old.items → MatchResult result
            (λ out. (out ≡ slice_get self.old.items 0)
            × (self.new.items ≡ drop 1 self.old.items ++ value ∷ []))
            (λ _. ⊥) }
    {
        let len = self.deque.len();
        if len < self.capacity.get() {
            return match self.deque.push_back(value) {
                Ok(()) => Ok(None),
                Err(refused) => Err(refused.value),
            };
        }
        self.deque.rotate_left(1);
        Ok(Some(mem::replace(&mut self.deque[len - 1], value)))
    }

    /// Removes the oldest item and returns it, or `None` where there is none.
    pub fn pop_front(&mut self) -> Option<T>
        ensures capacity { self.new.capacity ≡ self.old.capacity }
        ensures items { MatchOption result
            ((self.old.items ≡ []) × (self.new.items ≡ []))
            (λ oldest. self.old.items ≡ oldest ∷ self.new.items) }
    {
        self.deque.pop_front()
    }

    /// Returns the items, the oldest first. It allocates nothing.
    pub fn into_inner(self) -> VecDeque<T, A>
        ensures { result.items ≡ self.items }
    {
        let Bounded { deque, capacity: _ } = self;
        deque
    }
}

impl<T, A: Allocator> Deref for Bounded<T, A> {
    type Target = VecDeque<T, A>;

    ghost deref_gives = { λ b deque. deque.items ≡ b.items };

    /// Returns the items, the oldest first.
    fn deref(&self) -> &VecDeque<T, A> {
        &self.deque
    }
}

impl<T, A: Allocator> AsRef<VecDeque<T, A>> for Bounded<T, A> {
    /// Returns the items, the oldest first.
    fn as_ref(&self) -> &VecDeque<T, A>
        ensures { result.now.items ≡ self.now.items }
    {
        &self.deque
    }
}

impl<T, A: Allocator> From<Bounded<T, A>> for VecDeque<T, A> {
    ghost from_gives = { λ b deque. deque.items ≡ b.items };

    /// Returns the items, the oldest first. It allocates nothing.
    fn from(bounded: Bounded<T, A>) -> VecDeque<T, A> {
        bounded.into_inner()
    }
}

impl<T: Clone, A: Allocator + Clone> Clone for Bounded<T, A> {
    ghost is_clone = { λ b c. AllZip T.is_clone b.items c.items × (c.capacity ≡ b.capacity) };

    fn clone(&self) -> Result<Self, AllocError> {
        let deque = self.deque.clone()?;
        Ok(Bounded {
            deque,
            capacity: self.capacity,
        })
    }
}

impl<T: PartialEq, A: Allocator> PartialEq for Bounded<T, A> {
    ghost eq = { λ b c. pointwise T.eq b.items c.items && (b.capacity == c.capacity) };

    ghost laws = { and_per (on_per (λ b. b.items) (lists_per T.laws))
        (on_per (λ b. b.capacity) (partial_equiv_from_equiv nat_eq_equiv)) };

    fn eq(&self, other: &Self) -> bool {
        self.deque == other.deque && self.capacity.get() == other.capacity.get()
    }
}

impl<T: Eq, A: Allocator> Eq for Bounded<T, A> {
    ghost laws = { and_equiv (on_equiv (λ b. b.items) (lists_equiv T.Eq.laws))
        (on_equiv (λ b. b.capacity) nat_eq_equiv) };
}

impl<T: Hash, A: Allocator> Hash for Bounded<T, A> {
    ghost hash_input = { λ b. fed.slice T.hash_input b.items ++ fed.usize b.capacity };

    ghost respects_eq = { (and-Alike
        (on_Alike (λ b. b.items) (items_Alike (record { fed = T.respects_eq })))
        capacities_alike).fed };

    fn hash<H: Hasher>(&self, state: &mut H) {
        let Bounded { deque, capacity } = self;
        deque.hash(state);
        capacity.get().hash(state);
    }
}

impl<T: fmt::Debug, A: Allocator> fmt::Debug for Bounded<T, A> {
    fn fmt<W: fmt::Write>(&self, f: &mut fmt::Formatter<W>) -> fmt::Result {
        f.debug_struct("Bounded")
            .field("deque", &self.deque)
            .field("capacity", &self.capacity)
            .finish()
    }
}
