//! Pairs whose keys are strictly increasing as they come.
ghost use Rattle.std.specs.Prelude.{◌≡◌, ◌≤◌, ◌++◌, ◌∷◌, [], IfOk, IsOk, OnErr, OnOk, true};
ghost use Rattle.std.specs.List.{AllByRecursion, list_any};
ghost use Rattle.std.specs.List.Sorted.{IsStrictlySortedBy};
ghost use Rattle.std.specs.Map.{keys_of, values_of};
ghost use Rattle.std.specs.Ordering.{MatchOrdering, is_eq};
ghost use Rattle.std.specs.declared.cmp.Ordering.TheVariants.{Less};
ghost use Rattle.commonware_ordered.specs.Put.{IsPrefix};

use super::tree::put;
use std::alloc::{AllocError, Allocator};
use std::cmp::Ordering;
use std::collections::BTreeMap;
use std::marker::Model;
use std::mem;

/// Strictly increasing keys, and a value for each.
#[derive(Drop)]
pub(super) struct Run<K: Ord, V, A: Allocator> {
    keys: Vec<K, A>,
    values: Vec<V, A>,
}

impl<K: Ord, V, A: Allocator> Model for Run<K, V, A> {
    ghost use Rattle.std.specs.Prelude.{◌≡◌, List, length, zip};
    ghost use Rattle.std.specs.List.Sorted.{IsStrictlySortedBy};

    ghost Value = { List (K × V) };

    ghost view = { λ r. zip r.keys.items r.values.items };

    ghost invariant = { λ r.
        (length r.values.items ≡ length r.keys.items) × IsStrictlySortedBy K.cmp r.keys.items };
}

impl<K: Ord + Drop, V: Drop, A: Allocator + Copy> Run<K, V, A> {
    /// Returns a run without pairs, with room for `room` of them. At 0 it allocates nothing.
    pub(super) fn with_room(alloc: A, room: usize) -> Result<Self, AllocError>
        ensures blank { IfOk result (λ run. run ≡ []) }
        ensures none { room ≡ 0 → IsOk result }
    {
        Ok(Run {
            keys: Vec::with_capacity(alloc, room)?,
            values: Vec::with_capacity(alloc, room)?,
        })
    }

    /// Returns a run without pairs. It allocates nothing.
    pub(super) fn new(alloc: A) -> Self
        ensures { result ≡ [] }
    {
        Run {
            keys: Vec::new(alloc),
            values: Vec::new(alloc),
        }
    }

    /// Compares the last key with a key; `Less` where the run is empty.
    #[inline(always)]
    pub(super) fn last_to(&self, key: &K) -> Ordering
        ensures { MatchOrdering result
            (AllByRecursion (λ p. K.cmp p.0 key.now ≡ Less) self.now)
            (list_any (λ p. is_eq (K.cmp key.now p.0)) self.now ≡ true)
            (Unit {0}) }
    {
        match self.keys.last() {
            Some(last) => last.cmp(key),
            None => Ordering::Less,
        }
    }

    /// Reserves room for `more` pairs.
    pub(super) fn reserve(&mut self, more: usize) -> Result<(), AllocError>
        ensures same { self.new ≡ self.old }
        ensures nothing { OnErr result (1 ≤ more) }
    {
        self.keys.reserve(more)?;
        self.values.reserve(more)
    }

    /// Reserves room for exactly `coming` pairs, where there is none yet.
    #[inline(always)]
    pub(super) fn reserve_first(&mut self, coming: usize) -> Result<(), AllocError>
        ensures { self.new ≡ self.old }
    {
        if self.keys.is_empty() {
            self.keys.reserve_exact(coming)?;
            self.values.reserve_exact(coming)?;
        }
        Ok(())
    }

    /// Appends a pair, whose key is greater than all.
    #[inline(always)]
    pub(super) fn push(&mut self, key: K, value: V) -> Result<(), AllocError>
        requires { AllByRecursion (λ p. K.cmp p.0 key ≡ Less) self.old }
        ensures pushed { OnOk result (self.new ≡ self.old ++ (key, value) ∷ []) }
        ensures unchanged { OnErr result (self.new ≡ self.old) }
    {
        self.keys.reserve(1)?;
        self.values.reserve(1)?;
        self.keys.push_reserved(key);
        self.values.push_reserved(value);
        Ok(())
    }

    /// Returns the pairs, and leaves none.
    pub(super) fn take(&mut self) -> Self
        ensures taken { result ≡ self.old }
        ensures left { self.new ≡ [] }
    {
        let alloc = *self.keys.allocator();
        mem::replace(self, Run::new(alloc))
    }

    /// Returns the keys, and the values at their positions.
    pub(super) fn into_columns(self) -> (Vec<K, A>, Vec<V, A>)
        ensures keys { result.0.items ≡ keys_of self }
        ensures values { result.1.items ≡ values_of self }
        ensures strict { IsStrictlySortedBy K.cmp (keys_of self) }
    {
        let Run { keys, values } = self;
        (keys, values)
    }

    /// Moves the pairs into a tree that has none. No pair stays: after an allocation failure the
    /// tree has a prefix of them, and the others are dropped.
    #[cold]
    #[inline(never)]
    pub(super) fn move_into(&mut self, tree: &mut BTreeMap<K, V, A>) -> Result<(), AllocError>
        requires { tree.old.entries ≡ [] }
        ensures moved { OnOk result (tree.new.entries ≡ self.old) }
        ensures prefix { OnErr result (IsPrefix tree.new.entries self.old) }
        ensures left { self.new ≡ [] }
    {
        let (keys, values) = self.take().into_columns();
        for (key, value) in keys.into_iter().zip(values) {
            put(tree, key, value)?;
        }
        Ok(())
    }
}
