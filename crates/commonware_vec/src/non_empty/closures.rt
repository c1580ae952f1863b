//! Non-empty lists, whose items a closure makes.
ghost use Rattle.std.specs.Prelude.{◌≡◌, ◌+◌, ◌-◌, ◌≤◌, IfErr, IfOk, IsOk, OnOk, length, take};
ghost use Rattle.std.specs.Fn.{CalledAt, TakesAt};
ghost use Rattle.std.specs.Int.NonZero.{non_zero_usize_get};
ghost use Rattle.std.specs.Vec.{vec_capacity, vec_len};
ghost use Rattle.commonware_base.specs.Calls.{CallableAlong, CallsGiveAll};
ghost use Rattle.commonware_vec.specs.Closures.{AppendsAnswers, CallableTimes, CalledWith, TakesWith};
ghost use Rattle.commonware_vec.specs.declared.error.Error.TheVariants.{Memory};

use super::NonEmptyVec;
use crate::Error;
use std::alloc::Allocator;
use std::num::NonZeroUsize;

impl<T, A: Allocator + Copy> NonEmptyVec<T, A> {
    /// Returns the list of what `f` returns for each item, in order. Room for all results is
    /// reserved before the first call. The only error is an allocation failure, and then nothing
    /// was called.
    /// ```
    /// let list = NonEmptyVec::try_from_array(alloc, [3u8, 1, 2])?;
    /// let wide = list.map(|item| u32::from(*item))?;
    /// assert!(rt; wide.as_slice() == [3u32, 1, 2].as_slice());
    /// ```
    pub fn map<U, F: FnMut(&T) -> U>(&self, mut f: F) -> Result<NonEmptyVec<U, A>, Error>
        requires { CallableAlong (CalledAt F.FnMut) (TakesAt F.FnMut) f self.now }
        ensures items { IfOk result (λ v. CallsGiveAll (CalledAt F.FnMut) f self.now v) }
        ensures err { IfErr result (λ error. error ≡ Memory) }
    {
        let mut answers = Vec::with_capacity(*self.items.allocator(), self.items.len())?;
        for item in self {
            answers.push_reserved(f(item));
        }
        Ok(NonEmptyVec { items: answers })
    }

    /// Returns the list of what `f` returns for each item, in order. Room for all results is
    /// reserved before the first call. The only error is an allocation failure, and then nothing
    /// was called, and the items are dropped.
    /// ```
    /// let list = NonEmptyVec::try_from_array(alloc, [3u8, 1, 2])?;
    /// let wide = list.map_into(|item| u32::from(item))?;
    /// assert!(rt; wide.as_slice() == [3u32, 1, 2].as_slice());
    /// ```
    pub fn map_into<U, F: FnMut(T) -> U>(self, mut f: F) -> Result<NonEmptyVec<U, A>, Error>
    where
        T: Drop,
        requires { CallableAlong (CalledWith F.FnMut) (TakesWith F.FnMut) f self }
        ensures items { IfOk result (λ v. CallsGiveAll (CalledWith F.FnMut) f self v) }
        ensures err { IfErr result (λ error. error ≡ Memory) }
    {
        let NonEmptyVec { items } = self;
        let mut mapped = Vec::with_capacity(*items.allocator(), items.len())?;
        for item in items {
            mapped.push_reserved(f(item));
        }
        Ok(NonEmptyVec { items: mapped })
    }
}

impl<T: Drop, A: Allocator> NonEmptyVec<T, A> {
    /// Makes the list `len` items long: the first ones stay, and what `f` returns, called once for
    /// each place that is new, comes after them. Where it gets no longer, nothing is called, and
    /// there is no error; else room for all results is reserved before the first call. The only
    /// error is an allocation failure, and then nothing was called, and the list is as it was.
    /// ```
    /// let mut list = NonEmptyVec::new(alloc, 3u8)?;
    /// list.resize_with(NZUsize!(3), || 9)?;
    /// assert!(rt; list.as_slice() == [3u8, 9, 9].as_slice());
    /// ```
    pub fn resize_with<F: FnMut() -> T>(&mut self, len: NonZeroUsize, f: F) -> Result<(), Error>
        requires { CallableTimes F.FnMut f (non_zero_usize_get len - length self.old) }
        ensures items { let size = non_zero_usize_get len in OnOk result
            (AppendsAnswers F.FnMut f (size - length self.old) (take size self.old) self.new) }
        ensures len { OnOk result (length self.new ≡ non_zero_usize_get len) }
        ensures shorter { non_zero_usize_get len ≤ length self.old → IsOk result }
        ensures err { IfErr result (λ error. (error ≡ Memory) × (self.new ≡ self.old)) }
    {
        let len = len.get();
        let before = self.items.len();
        if len <= before {
            self.items.truncate(len);
            return Ok(());
        }
        self.items.reserve(len - before)?;
        push_results(&mut self.items, len - before, f);
        Ok(())
    }
}

/// Appends what `f` returns, called `count` times. It requires that there is room.
fn push_results<T, A: Allocator, F: FnMut() -> T>(items: &mut Vec<T, A>, count: usize, mut f: F)
    requires room { vec_len items.old + count ≤ vec_capacity items.old }
    requires callable { CallableTimes F.FnMut f count }
    ensures { AppendsAnswers F.FnMut f count items.old.items items.new.items }
{
    let mut left = count;
    while left > 0 {
        items.push_reserved(f());
        left -= 1;
    }
}
