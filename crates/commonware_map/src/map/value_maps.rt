//! Maps with the same keys, whose values a closure makes.
ghost use Rattle.std.specs.Prelude.{◌≡◌, ◌≤◌, IfErr, IfOk, OnErr, length};
ghost use Rattle.std.specs.List.{AllZip};
ghost use Rattle.std.specs.Map.{keys_of, values_of};
ghost use Rattle.commonware_base.specs.Calls.{CallableAlong, CallsGiveAll};
ghost use Rattle.commonware_map.specs.ValueMaps.{CalledAtPair, CalledAtRefs, IfClosure, IsFirstError, Succeeds, TakesPair, TakesRefs};

use super::Map;
use crate::MapError;
use crate::values::called_values;
use commonware_base::EqClone;
use std::alloc::{AllocError, Allocator};

impl<K: Ord + EqClone, V, A: Allocator + Copy> Map<K, V, A> {
    /// Returns the map with the same keys, each with what `f` returns for its pair, in the order of
    /// the keys. Room for all values is reserved before the first call, and the keys are cloned
    /// after the last one.
    /// ```
    /// let map = Map::try_from_array(alloc, [(2u8, 20u8), (1, 10)])?;
    /// let wide = map.map_values(|_, value| u32::from(*value))?;
    /// assert!(rt; wide.values() == [10u32, 20].as_slice());
    /// ```
    pub fn map_values<'a, U: Drop, F: FnMut(&'a K, &'a V) -> U>(
        &'a self,
        mut f: F,
    ) -> Result<Map<K, U, A>, AllocError>
        requires { CallableAlong (CalledAtRefs F.FnMut) (TakesRefs F.FnMut) f self.now }
        ensures keys { IfOk result (λ m. AllZip K.is_clone (keys_of self.now) (keys_of m)) }
        ensures values { IfOk result (λ m.
            CallsGiveAll (CalledAtRefs F.FnMut) f self.now (values_of m)) }
        ensures nothing { OnErr result (1 ≤ length self.now) }
    {
        if self.is_empty() {
            return Ok(Map::empty(*self.values.allocator()));
        }
        let mut answers = Vec::with_capacity(*self.values.allocator(), self.len())?;
        for (key, value) in self.iter_pairs() {
            answers.push_reserved(f(key, value));
        }
        let keys = self.keys().clone()?;
        Ok(Map::from_columns(keys, answers))
    }

    /// Returns the map with the same keys, each with what `f` returns for its pair, in the order of
    /// the keys, or the first error of `f`. Room for all values is reserved before the first call,
    /// and the keys are cloned after the last one. After an error `f` isn't called, and no key is
    /// cloned.
    /// ```
    /// let map = Map::try_from_array(alloc, [(2u8, 20u8), (1, 10)])?;
    /// let failed = map.try_map_values(|_, value| value.checked_sub(15).ok_or(*value));
    /// assert!(rt; failed.err() == Some(MapError::Closure(10)));
    /// ```
    pub fn try_map_values<'a, U: Drop, E, F: FnMut(&'a K, &'a V) -> Result<U, E>>(
        &'a self,
        mut f: F,
    ) -> Result<Map<K, U, A>, MapError<E>>
        requires { CallableAlong (Succeeds (CalledAtRefs F.FnMut)) (TakesRefs F.FnMut) f self.now }
        ensures keys { IfOk result (λ m. AllZip K.is_clone (keys_of self.now) (keys_of m)) }
        ensures values { IfOk result (λ m.
            CallsGiveAll (Succeeds (CalledAtRefs F.FnMut)) f self.now (values_of m)) }
        ensures error { IfErr result (λ e.
            IfClosure e (IsFirstError (CalledAtRefs F.FnMut) f self.now)) }
        ensures nothing { OnErr result (1 ≤ length self.now) }
    {
        if self.is_empty() {
            return Ok(Map::empty(*self.values.allocator()));
        }
        let mut tried = Vec::with_capacity(*self.values.allocator(), self.len())?;
        for (key, value) in self.iter_pairs() {
            match f(key, value) {
                Ok(answer) => tried.push_reserved(answer),
                Err(error) => return Err(MapError::Closure(error)),
            }
        }
        let keys = self.keys().clone()?;
        Ok(Map::from_columns(keys, tried))
    }
}

impl<K: Ord + Drop, V: Drop, A: Allocator + Copy> Map<K, V, A> {
    /// Returns the map with these keys, each with what `f` returns for its pair, in the order of
    /// the keys. Room for all values is reserved before the first call.
    /// ```
    /// let map = Map::try_from_array(alloc, [(2u8, 20u8), (1, 10)])?;
    /// let wide = map.map_values_into(|_, value| u32::from(value))?;
    /// assert!(rt; wide.values() == [10u32, 20].as_slice());
    /// ```
    pub fn map_values_into<U: Drop, F: FnMut(&K, V) -> U>(
        self,
        f: F,
    ) -> Result<Map<K, U, A>, AllocError>
        requires { CallableAlong (CalledAtPair F.FnMut) (TakesPair F.FnMut) f self }
        ensures keys { IfOk result (λ m. keys_of m ≡ keys_of self) }
        ensures values { IfOk result (λ m.
            CallsGiveAll (CalledAtPair F.FnMut) f self (values_of m)) }
        ensures nothing { OnErr result (1 ≤ length self) }
    {
        let (keys, values) = self.into_columns();
        let mapped = called_values(keys.as_slice(), values, f)?;
        Ok(Map::from_columns(keys, mapped))
    }

    /// Returns the map with these keys, each with what `f` returns for its pair, in the order of
    /// the keys, or the first error of `f`. Room for all values is reserved before the first call.
    /// After an error `f` isn't called.
    /// ```
    /// let map = Map::try_from_array(alloc, [(2u8, 20u8), (1, 10)])?;
    /// let failed = map.try_map_values_into(|_, value| value.checked_sub(15).ok_or(value));
    /// assert!(rt; failed.err() == Some(MapError::Closure(10)));
    /// ```
    pub fn try_map_values_into<U: Drop, E, F: FnMut(&K, V) -> Result<U, E>>(
        self,
        mut f: F,
    ) -> Result<Map<K, U, A>, MapError<E>>
        requires { CallableAlong (Succeeds (CalledAtPair F.FnMut)) (TakesPair F.FnMut) f self }
        ensures keys { IfOk result (λ m. keys_of m ≡ keys_of self) }
        ensures values { IfOk result (λ m.
            CallsGiveAll (Succeeds (CalledAtPair F.FnMut)) f self (values_of m)) }
        ensures error { IfErr result (λ e.
            IfClosure e (IsFirstError (CalledAtPair F.FnMut) f self)) }
        ensures nothing { OnErr result (1 ≤ length self) }
    {
        let mut collected = Vec::with_capacity(*self.values.allocator(), self.len())?;
        let (keys, values) = self.into_columns();
        for (key, value) in keys.iter().zip(values) {
            match f(key, value) {
                Ok(answer) => collected.push_reserved(answer),
                Err(error) => return Err(MapError::Closure(error)),
            }
        }
        Ok(Map::from_columns(keys, collected))
    }
}
