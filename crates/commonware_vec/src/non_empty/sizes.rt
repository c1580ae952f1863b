//! Non-empty lists, made longer and shorter.
ghost use Rattle.std.specs.Prelude.{◌≡◌, ◌≤◌, ◌++◌, ◌∷◌, [], IfErr, IsOk, List, OnErr, OnOk, length, take};
ghost use Rattle.std.specs.Int.NonZero.{non_zero_usize_get};
ghost use Rattle.std.specs.Iterator.{IsFiniteIterable};
ghost use Rattle.std.specs.List.{AppendsClonesOf};
ghost use Rattle.commonware_base.specs.Taken.{TakesAll, TakesSome};
ghost use Rattle.commonware_vec.specs.declared.error.Error.TheVariants.{Memory};

use super::NonEmptyVec;
use crate::Error;
use std::alloc::{AllocError, Allocator};
use std::num::NonZeroUsize;
use std::vec::VecCloneMethods;

impl<T: Drop, A: Allocator> NonEmptyVec<T, A> {
    /// Appends the items that an iterator gives. The only error is an allocation failure, which
    /// comes only after an item, and then the list is as it was.
    /// ```
    /// let mut list = NonEmptyVec::new(alloc, 3u8)?;
    /// list.extend([1u8, 2])?;
    /// assert!(rt; list.as_slice() == [3u8, 1, 2].as_slice());
    /// ```
    pub fn extend<I: IntoIterator<Item = T>>(&mut self, iter: I) -> Result<(), Error>
        requires { IsFiniteIterable I.into_iter_gives I.IntoIter.can_next
            I.IntoIter.remaining iter }
        ensures ok { OnOk result (TakesAll I.into_iter_gives I.IntoIter.next_gives iter
            (λ xs. self.new ≡ self.old ++ xs)) }
        ensures err { IfErr result (λ error. (error ≡ Memory) × (self.new ≡ self.old)) }
        ensures nothing { OnErr result (TakesSome I.into_iter_gives I.IntoIter.next_gives iter
            (λ drawn _. 1 ≤ length drawn)) }
    {
        let before = self.items.len();
        match push_all(&mut self.items, iter) {
            Ok(()) => Ok(()),
            Err(_) => {
                self.items.truncate(before);
                Err(Error::Memory)
            }
        }
    }
}

/// Appends the items that an iterator gives. After an allocation failure, which comes only after an
/// item, some of them may be in the list.
fn push_all<T: Drop, A: Allocator, I: IntoIterator<Item = T>>(
    items: &mut Vec<T, A>,
    iter: I,
) -> Result<(), AllocError>
    requires { IsFiniteIterable I.into_iter_gives I.IntoIter.can_next I.IntoIter.remaining iter }
    ensures ok { OnOk result (TakesAll I.into_iter_gives I.IntoIter.next_gives iter
        (λ xs. items.new.items ≡ items.old.items ++ xs)) }
    ensures err { (xs : List T) × (items.new.items ≡ items.old.items ++ xs) }
    ensures nothing { OnErr result (TakesSome I.into_iter_gives I.IntoIter.next_gives iter
        (λ drawn _. 1 ≤ length drawn)) }
{
    let rest = iter.into_iter();
    let coming = rest.size_hint().0;
    for item in rest {
        push_among(items, item, coming)?;
    }
    Ok(())
}

/// Appends an item; to a full list with room for as many as are to come.
fn push_among<T: Drop, A: Allocator>(
    items: &mut Vec<T, A>,
    item: T,
    coming: usize,
) -> Result<(), AllocError>
    ensures ok { OnOk result (items.new.items ≡ items.old.items ++ item ∷ []) }
    ensures err { OnErr result (items.new.items ≡ items.old.items) }
{
    if items.len() == items.capacity() {
        items.reserve(coming.max(1))?;
    }
    items.push(item)?;
    Ok(())
}

impl<T: Clone, A: Allocator> NonEmptyVec<T, A> {
    /// Makes the list `len` items long: the first ones stay, and clones of `value` come after them,
    /// or `value` itself. Where it gets no longer, there is no error. The only error is an
    /// allocation failure, and then the list is as it was.
    /// ```
    /// let mut list = NonEmptyVec::new(alloc, 3u8)?;
    /// list.resize(NZUsize!(3), 7)?;
    /// assert!(rt; list.as_slice() == [3u8, 7, 7].as_slice());
    /// ```
    pub fn resize(&mut self, len: NonZeroUsize, value: T) -> Result<(), Error>
        ensures items { let size = non_zero_usize_get len in OnOk result
            (AppendsClonesOf T.is_clone (take size self.old) self.new value) }
        ensures len { OnOk result (length self.new ≡ non_zero_usize_get len) }
        ensures shorter { non_zero_usize_get len ≤ length self.old → IsOk result }
        ensures err { IfErr result (λ error. (error ≡ Memory) × (self.new ≡ self.old)) }
    {
        let len = len.get();
        if len <= self.items.len() {
            self.items.truncate(len);
            return Ok(());
        }
        VecCloneMethods::resize(&mut self.items, len, value)?;
        Ok(())
    }
}
